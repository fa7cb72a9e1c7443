//! The draft: the elements of a text with their places and values.

ghost use Rattle.std.specs.Prelude.{◌≡◌, ◌++◌, ◌∷◌, []};
ghost use Rattle.xmcf_reader.specs.Drafts.{IsDraft};
ghost use Rattle.xmcf_reader.specs.lemmas.FaultsTerms.{DoesUnlessMemory};

use crate::fault::ReadFault;
use std::marker::Model;
use xm_base::proof;
use xm_conf::{Action, Event, Kind, Name, Way};

/// An element with its values.
#[derive(Debug, Drop)]
pub enum Element {
    /// The whole system.
    System {
        name: Name,
    },
    /// The hardware.
    Hw,
    /// The memory's regions.
    MemoryLayout,
    /// A region of memory.
    Region {
        start: u32,
        size: u32,
    },
    /// The processors.
    ProcessorTable,
    /// The processor.
    Processor {
        id: u32,
    },
    /// The processor's cyclic plans.
    CyclicPlanTable,
    /// A cyclic plan, with its major frame in microseconds.
    Plan {
        id: u32,
        frame: u32,
    },
    /// A slot of a plan, in microseconds.
    Slot {
        id: u32,
        start: u32,
        duration: u32,
        part: u32,
    },
    /// The devices.
    Devices,
    /// A UART.
    Uart {
        id: u32,
        name: Name,
    },
    /// The hypervisor.
    Hypervisor,
    /// The hypervisor's area.
    HvArea {
        size: u32,
    },
    /// The partitions.
    PartitionTable,
    /// A partition.
    Partition {
        id: u32,
        name: Name,
        system: bool,
        console: Option<Name>,
    },
    /// A partition's areas.
    Areas,
    /// An area of a partition.
    Area {
        start: u32,
        size: u32,
        read_only: bool,
    },
    /// What time a partition requires, in microseconds.
    Need {
        duration: u32,
        period: u32,
    },
    /// A partition's answers to health events.
    HealthMonitor,
    /// The answer to a health event, and whether it is logged.
    Event {
        event: Event,
        action: Action,
        log: bool,
    },
    /// A partition's trace.
    Trace {
        mask: u32,
    },
    /// A partition's ports.
    PortTable,
    /// A port of a partition.
    Port {
        name: Name,
        kind: Kind,
        way: Way,
    },
    /// The channels and links.
    Channels,
    /// A sampling channel; a refresh period of 0 is forever.
    Sampling {
        length: u32,
        refresh: u32,
    },
    /// A queuing channel.
    Queuing {
        length: u32,
        most: u32,
    },
    /// The source of a channel.
    Source {
        part: u32,
        name: Name,
    },
    /// A destination of a channel.
    Destination {
        part: u32,
        name: Name,
    },
    /// A link.
    Ipvi {
        id: u32,
        source: u32,
        dest: u32,
    },
}

/// An element of the text, with the place of its `<` and its parent's number. The root's parent is 0.
#[derive(Debug, Drop)]
pub struct Entry {
    pub at: usize,
    pub parent: u32,
    pub what: Element,
}

/// The elements of a text, in the order of their `<`. Entry 0 is the system; the parent of each later one stands before it;
/// and each has the children that the table allows and demands.
#[derive(Debug, Drop)]
pub struct Draft {
    entries: Vec<Entry>,
}

impl Model for Draft {
    ghost use Rattle.std.specs.Prelude.{List};
    ghost use Rattle.xmcf_reader.specs.Drafts.{IsDraft};
    ghost use Rattle.xmcf_reader.specs.declared.draft.Entry.{Entry};

    ghost Value = { List Entry };

    ghost view = { λ draft. draft.entries.items };

    ghost invariant = { λ draft. IsDraft draft.entries.items };
}

impl Draft {
    /// The draft with these entries.
    pub(crate) fn new(entries: Vec<Entry>) -> Draft
        requires { IsDraft entries.items }
        ensures { result ≡ entries.items }
    {
        Draft { entries }
    }

    /// The elements, in the order of their `<`.
    pub fn entries(&self) -> &[Entry]
        // The entries of a draft: entry 0 is the root, a parent stands before its children, and each entry has the
        // children that the table allows and demands.
        ensures entries { result.now ≡ self.now }
        ensures draft { IsDraft self.now }
    {
        self.entries.as_slice()
    }
}

/// One more entry.
pub(crate) fn push_entry(
    entries: &mut Vec<Entry>,
    at: usize,
    parent: u32,
    what: Element,
) -> Result<(), ReadFault>
    ensures { DoesUnlessMemory result (entries.old.items ++ (record { at = at; parent = parent; what = what }) ∷ []) entries.new.items }
{
    // The proof of a push has to know the types in an `Element`.
    proof! { let _console: Option<Name> = None; }
    match entries.push(Entry { at, parent, what }) {
        Ok(()) => Ok(()),
        Err(_) => Err(ReadFault::Memory),
    }
}
