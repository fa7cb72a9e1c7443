//! Files of upsets: the text of the bits that flip in a run and its reading.
#![tactic(auto)]

mod checks;
mod fault;
mod law;
mod line;
mod numbers;
mod places;
mod reading;
mod rows;
#[cfg(test)]
mod tests;
mod words;

pub use fault::{UpsetCause, UpsetFault};
pub use law::{places_are_spelled, upsets_are_spelled};
pub use reading::{UPSETS, read_upsets};
pub use rows::{bits_at_edges, lines_at_edges, places_at_edges};
