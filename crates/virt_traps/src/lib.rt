//! The register windows of a guest, spilled and filled, its step with them, and its virtual traps.
#![tactic(auto)]

mod delivery;
mod interrupts;
mod save_area;
mod step;
mod windows;

pub use delivery::{IretFault, deliver, deliver_cached, iret, iret_cached};
pub use interrupts::Virt;
pub use step::{settle, settle_cached};
pub use windows::{StackFault, fill, fill_cached, spill, spill_cached};
