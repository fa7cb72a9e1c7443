//! A partition's clocks: how long it ran, and the timers on its two clocks.
#![tactic(auto)]

mod clocks;
mod flip;
mod law;
#[cfg(test)]
mod tests;
mod timer;

pub use clocks::Clocks;
pub use law::{looked_at_again, next_deadline_is_least};
pub use timer::{Clock, Negative, Timer};
