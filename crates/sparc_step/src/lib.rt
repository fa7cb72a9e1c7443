//! One instruction of a guest's processor, over any memory.
#![tactic(auto)]

mod arithmetic;
mod codes;
pub mod comparisons;
pub mod conditions;
mod execution;
mod flow;
mod operands;
mod outcome;
mod processor;
mod registers;
pub mod transfers;
pub mod words;

pub use execution::turn;
pub use guest_bus::{Bus, BusFault, Size};
pub use outcome::Turn;
pub use processor::Processor;
pub use registers::{Core, place_in_windows};
