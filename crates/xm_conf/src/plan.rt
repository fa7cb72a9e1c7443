//! Cyclic plans and their slots, in microseconds.

use std::marker::Model;

/// A stretch of the major frame in which one partition runs.
#[derive(Clone, Copy, Debug, PartialEq, Eq)]
pub struct Slot {
    /// Where it begins, from the frame's beginning.
    pub start: u32,
    /// How long it is.
    pub duration: u32,
    /// The partition's number.
    pub part: u8,
}

/// A cyclic plan.
#[derive(Debug, Drop)]
pub struct Plan {
    /// How long its major frame is.
    pub frame: u32,
    /// Its slots, in order.
    pub slots: Vec<Slot>,
}

impl Model for Plan {
    ghost use Rattle.xm_conf.specs.Configuration as plain;

    ghost Value = { plain.Plan };

    ghost view = { λ plan. record { frame = plan.frame; slots = plan.slots.items } };
}
