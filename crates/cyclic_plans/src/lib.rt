//! Cyclic plans: which slot runs in a tick, and which plan in the next frame.
#![tactic(auto)]

mod clock;
mod slots;

pub use clock::PlanClock;
pub use slots::Here;

#[cfg(test)]
mod tests;
