//! The core file of a partition: all of its state, as bytes.
//! No call takes memory.
#![tactic(auto)]

mod areas;
mod fields;
mod logs;
mod registers;
mod standing;
mod whole;

pub use whole::{core_into, core_length, head_into};
