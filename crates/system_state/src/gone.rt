//! The outcome of steps of a partition.

use sparc_step::Turn;

/// The outcome of at most this many steps.
#[derive(Debug, Drop)]
pub struct Gone {
    /// How many went.
    pub went: u64,
    /// The outcome of the one after them; that it went, where all did.
    pub turn: Turn,
    /// The program counter after those that went.
    pub pc: u32,
}
