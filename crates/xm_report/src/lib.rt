//! The lines of the report, exact to the byte.
#![tactic(auto)]

mod line;
mod output;
mod pen;
mod place;
mod wording;

pub use line::{Line, Move};
pub use output::{WriteFault, put_line};
pub use pen::Pen;
pub use place::{Place, place_text};

#[cfg(test)]
mod tests;
