//! What a tick does with a system, before its lines go out.
//! It works before lines are emitted, and knows neither a sink nor a report. A run may end before anything is emitted
//! and before all ticks are done: its caller goes on, which is only slower.
#![tactic(auto)]

mod ending;
mod engine;
mod place;
mod receiving;
mod slot;

pub use ending::reset_all;
pub use engine::Engine;
pub use place::Place;
