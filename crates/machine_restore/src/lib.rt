//! The system of a saved machine, which goes on from where it was saved: the state of each partition, its input words that
//! are left, what the channels hold, the plan clock and the counts. Configuration and images are those of its container.
#![tactic(auto)]

mod inputs;
mod parts;
mod whole;

pub use whole::restore;

#[cfg(test)]
mod tests;
