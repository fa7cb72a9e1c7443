//! Partitions: their areas, ports and requirements, and their answers to health events.

use crate::health::Action;
use crate::name::Name;
use crate::port::Port;
use std::marker::Model;

/// A part of memory that belongs to a partition.
#[derive(Clone, Copy, Debug, PartialEq, Eq)]
pub struct Area {
    /// Its first address.
    pub start: u32,
    /// How many bytes it has.
    pub size: u32,
    /// Whether the partition may not write there.
    pub read_only: bool,
}

/// What time a partition requires, in microseconds.
#[derive(Clone, Copy, Debug, PartialEq, Eq)]
pub struct Need {
    /// How long it has to run in each period.
    pub duration: u32,
    /// How long a period is.
    pub period: u32,
}

/// What a partition's health monitor does.
#[derive(Clone, Copy, Debug)]
pub struct HmTable {
    /// The action for each event, by the event's number.
    pub actions: [Action; 12],
    /// The events that are logged: bit e for the event of number e.
    pub logged: u16,
}

/// A partition.
#[derive(Debug, Drop)]
pub struct Part {
    pub name: Name,
    /// Whether it is a system partition.
    pub system: bool,
    /// The number of the UART that its console writes to.
    pub console: Option<u8>,
    /// What time it requires.
    pub need: Option<Need>,
    /// The trace events that are kept.
    pub trace_mask: u32,
    /// Its answers to health events.
    pub hm: HmTable,
    /// Its memory.
    pub areas: Vec<Area>,
    /// Its ports, in the order of their numbers.
    pub ports: Vec<Port>,
}

impl Model for Part {
    ghost use Rattle.xm_conf.specs.Configuration as plain;

    ghost Value = { plain.Part };

    ghost view = { λ part. record { name = part.name; system = part.system; console = part.console; need = part.need; trace_mask = part.trace_mask; hm = part.hm; areas = part.areas.items; ports = part.ports.items } };
}
