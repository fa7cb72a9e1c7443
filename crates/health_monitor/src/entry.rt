//! What is logged of a health event.

use xm_conf::{Action, Event};

/// An entry of a partition's health log.
#[derive(Clone, Copy, Debug, PartialEq, Eq)]
pub struct HealthEntry {
    /// When the event came, in microseconds.
    pub time: u64,
    /// The entry's number in the log.
    pub seq: u32,
    /// What went wrong.
    pub event: Event,
    /// What was done about it.
    pub action: Action,
    /// The program counter of the instruction that raised the event, or the code that the partition gave for an error of its own.
    pub word: u32,
}
