//! Rings that keep the last 64 entries of a partition's traces or health events, by their numbers.
#![tactic(auto)]

mod entry;
mod law;
mod ring;

pub use entry::TraceEntry;
pub use law::last_by_number;
pub use ring::{Counts, Ring};

#[cfg(test)]
mod tests;
