//! The outcome of a hypercall.

use health_monitor::Whole;
use xm_base::{Order, PartId};
use xm_conf::Event;
use xm_traces::TraceEntry;

/// What a hypercall did or emits: at most one thing.
#[derive(Clone, Copy, Debug, PartialEq, Eq)]
pub enum Note {
    /// Nothing.
    Nothing,
    /// The caller wrote these bytes of its memory to its console.
    Console { at: u32, size: u32 },
    /// The caller entered this in its traces.
    Trace(TraceEntry),
    /// The caller put a message, these bytes of its memory, into a channel.
    Put { chan: u8, at: u32, size: u32 },
    /// The caller took the first message out of a channel.
    Take { chan: u8 },
    /// The caller was shown something of the rest of the system: these bytes of its memory.
    Saw { at: u32, size: u32 },
    /// The caller was shown that an entry of another partition is not kept.
    NotKept,
    /// The caller signalled over its link of this number.
    Signal { number: u8 },
}

/// How a hypercall reaches beyond the state of its caller. It is reported, and not done.
#[derive(Clone, Copy, Debug, PartialEq, Eq)]
pub enum Act {
    /// Not at all.
    Nothing,
    /// An order on a partition, which may be the caller.
    Upon { id: PartId, order: Order },
    /// A plan is asked for.
    Ask { plan: u8 },
    /// An event of the whole system.
    Whole(Whole),
    /// A health event of the caller, with its word.
    Event { event: Event, word: u32 },
}

/// The outcome of a hypercall.
#[derive(Clone, Copy, Debug, PartialEq, Eq)]
pub struct Served {
    pub note: Note,
    pub act: Act,
}
