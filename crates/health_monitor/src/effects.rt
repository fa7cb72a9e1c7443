//! The outcome of actions.

use xm_base::Mode;
use xm_conf::Action;

/// What an action does to the partition whose event it answers.
#[derive(Clone, Copy, Debug, PartialEq, Eq)]
pub enum Own {
    /// Nothing.
    Nothing,
    /// The interrupt that asks for a shutdown becomes pending.
    Shutdown,
    /// It starts again, with status 0.
    Reset(Mode),
    /// It waits until it is resumed.
    Suspend,
    /// It stops.
    Halt,
    /// The trap is delivered to it.
    Propagate,
}

/// What an action does to the whole system.
#[derive(Clone, Copy, Debug, PartialEq, Eq)]
pub enum Whole {
    /// Nothing.
    Nothing,
    /// All partitions and the hypervisor start again.
    Reset(Mode),
    /// All stop.
    Halt,
    /// The maintenance plan comes at the next tick.
    Maintenance,
}

/// The outcome of an action.
#[derive(Clone, Copy, Debug, PartialEq, Eq)]
pub struct Effect {
    /// The action as it is logged and printed.
    pub action: Action,
    /// Whether the partition goes on after the instruction that raised the event.
    pub pass: bool,
    /// What becomes of the partition.
    pub own: Own,
    /// What becomes of the whole system.
    pub whole: Whole,
}
