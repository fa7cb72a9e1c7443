//! The health monitor: the event that a trap raises, the action that a partition's table has for it, and the outcome of the action.
#![tactic(auto)]

mod actions;
mod effects;
mod entry;
mod events;
mod table;

pub use actions::effect;
pub use effects::{Effect, Own, Whole};
pub use entry::HealthEntry;
pub use events::event_of;
pub use table::{action_of, is_logged};

#[cfg(test)]
mod tests;
