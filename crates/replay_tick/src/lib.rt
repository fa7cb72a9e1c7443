//! A tick of one partition of a whole system in isolation: it does its own work, and receives what the others did.
//! What becomes of the other partitions is left open but for this: what runs and how many they are is the same, and
//! what holds of the system of every machine holds afterwards.
#![tactic(auto)]

mod alone;
mod call;
mod span;
mod traffic;
mod work;

pub use alone::tick_alone;
pub use span::{LoneSpan, span_alone};
