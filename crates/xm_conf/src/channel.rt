//! Channels between ports.

use std::marker::Model;

/// What a channel keeps of its messages.
#[derive(Clone, Copy, Debug, PartialEq, Eq)]
pub enum ChanKind {
    /// The last one, which is valid for `refresh` microseconds, or forever where that is 0.
    Sampling { refresh: u32 },
    /// As many as `most`, until each is taken.
    Queuing { most: u8 },
}

/// An end of a channel: a partition's number, and the number of its port.
#[derive(Clone, Copy, Debug, PartialEq, Eq)]
pub struct End {
    pub part: u8,
    pub port: u8,
}

/// A channel.
#[derive(Debug, Drop)]
pub struct Chan {
    pub kind: ChanKind,
    /// How many bytes a message has at most.
    pub length: u16,
    pub source: End,
    pub dests: Vec<End>,
}

impl Model for Chan {
    ghost use Rattle.xm_conf.specs.Configuration as plain;

    ghost Value = { plain.Chan };

    ghost view = { λ chan. record { kind = chan.kind; length = chan.length; source = chan.source; dests = chan.dests.items } };
}
