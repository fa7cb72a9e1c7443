//! What a tick consists of beside the call of a partition: turns, traps, health events, orders, rest, lines.
//! What holds of the system of every machine is `IsMachine`.
#![tactic(auto)]

mod beyond;
mod cue;
mod health;
mod lines;
mod order;
mod resting;
mod span;
mod traps;
mod turns;

pub use beyond::Beyond;
pub use cue::{Cue, Sight, Traffic, whole_of};
pub use health::{handle_event, program_counter};
pub use lines::Lines;
pub use order::{obey, reset, reset_move};
pub use resting::{rest, rest_one};
pub use span::Span;
pub use traps::{meet_trap, take_interrupt};
pub use turns::{goes_on, interrupt, takes_turns};
