//! The files of cases: what a table of a case's file says, and the bytes that a recipe makes.
#![tactic(auto)]

mod entry;
mod making;
mod random;
mod recipe;

pub use entry::{Entry, entry_of, number_of, text_of};
pub use making::{Shelf, made, read_data};
pub use recipe::Recipe;
