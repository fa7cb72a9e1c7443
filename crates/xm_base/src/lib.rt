//! Small types that all crates share: partition numbers, states and orders, being out of memory, the limits, and a cursor over bytes.
#![tactic(auto)]

mod cursor;
mod limits;
mod memory;
mod partition;

pub use cursor::{Cursor, Short};
pub use limits::{CONSOLE_BYTES, FILE_BYTES, IMAGE_BYTES, TICKS};
pub use memory::Memory;
pub use partition::{Mode, Order, PartId, State};

/// Marks what stands in a body for the proof alone: laws, and calls that are made for a clause of theirs.
#[macro_export]
macro_rules! proof {
    ($($step:tt)*) => { $($step)* };
}
