//! The interrupts that ticks, messages, orders and links bring, by their numbers.

/// The timer on the hardware clock is due.
pub const HARDWARE_TIMER: u8 = 0;

/// The timer on the execution clock is due.
pub const EXECUTION_TIMER: u8 = 1;

/// The partition is asked to shut down.
pub const SHUTDOWN: u8 = 2;

/// There is a message in a sampling channel.
pub const SAMPLING_MESSAGE: u8 = 3;

/// There is a message in a queue.
pub const QUEUING_MESSAGE: u8 = 4;

/// A slot of the partition begins.
pub const SLOT_START: u8 = 5;

/// A signal came over the link of number 0. Those of the other numbers follow it.
pub const LINK_SIGNAL: u8 = 8;
