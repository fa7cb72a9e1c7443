//! What a line of the report says.

use crate::place::Place;
use xm_base::{PartId, State};
use xm_conf::{Action, Event};

/// A change of a partition, or of the whole system, that the report prints.
#[derive(Clone, Copy, Debug, PartialEq, Eq)]
pub enum Move {
    /// It was halted.
    Halt,
    /// It was suspended.
    Suspend,
    /// It was resumed.
    Resume,
    /// It was reset, and its memory loaded again.
    Cold,
    /// It was reset, and its memory kept.
    Warm,
}

/// One line of the report.
#[derive(Clone, Copy, Debug)]
pub enum Line<'a> {
    /// The first line: how many partitions and plans there are, and how many ticks are asked.
    System {
        parts: u8,
        plans: u8,
        ticks: u64,
    },
    /// Partition `p` wrote these bytes to its console in tick `n`.
    Console {
        n: u64,
        p: PartId,
        bytes: &'a [u8],
    },
    /// Partition `p` met a health event in tick `n`, and the action answers it. The word is an address,
    /// or the code of an error that the partition reports itself.
    Health {
        n: u64,
        p: PartId,
        event: Event,
        word: u32,
        action: Action,
    },
    /// Partition `p` entered a trace in tick `n`: the bits that it is selected by, and eight bytes of its own.
    Trace {
        n: u64,
        p: PartId,
        bits: u32,
        load: [u8; 8],
    },
    /// Partition `p` changed its state in tick `n`.
    Moved {
        n: u64,
        p: PartId,
        to: Move,
    },
    /// An upset struck partition `p` before tick `n`: the bit of the place flipped.
    Struck {
        n: u64,
        p: PartId,
        place: Place,
        bit: u8,
    },
    /// The whole system was halted or reset in tick `n`.
    Whole {
        n: u64,
        to: Move,
    },
    /// The plan, another than before, starts after tick `n`.
    PlanIs {
        n: u64,
        plan: u8,
    },
    /// How partition `p` stands at the end of the run.
    EndPart {
        p: PartId,
        state: State,
        resets: u32,
        exec: u64,
        pc: u32,
    },
    /// The last line: how the whole system stands at the end of the run.
    EndWhole {
        halted: bool,
        plan: u8,
        clock: u64,
        ticks: u64,
    },
}
