//! Instruction words that are taken apart once: their rows.
#![tactic(auto)]

mod kinds;
mod made;
mod pairs;
mod rows;

pub use kinds::Kind;
pub use made::row_for;
pub use pairs::{is_exit, pair_for};
pub use rows::Row;
