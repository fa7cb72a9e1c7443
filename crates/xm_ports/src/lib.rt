//! Ports and channels: which ports a partition has made, and the messages that channels hold.
#![tactic(auto)]

mod channel;
mod channels;
mod content;
mod ports;
mod queuing;
mod room;
mod sampling;

pub use channels::Channels;
pub use content::{ContentValue, SampleValue};
pub use ports::{CreateFault, Ports};
pub use queuing::Full;
pub use sampling::Sample;

#[cfg(test)]
mod tests;
