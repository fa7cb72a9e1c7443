//! Why a text is no file of upsets, and how each reason is said.

ghost use Rattle.std.specs.Prelude.{◌≡◌, Some};
ghost use Rattle.upset_files.specs.Texts.{upset_fault_text};
ghost use Rattle.upset_files.specs.declared.fault.UpsetFault.TheVariants as fault;

use fault_messages::OutOfMemory;
use std::fmt;

/// What is wrong with a line. Of two that are, the earlier one here is the line's.
#[derive(Clone, Copy, Debug, PartialEq, Eq)]
pub enum UpsetCause {
    /// It is one line more than a file may have.
    TooMany,
    /// It does not begin with a tick.
    BadTick,
    /// No partition stands after a space.
    BadPartition,
    /// No place stands after a space.
    BadPlace,
    /// No bit stands after a space.
    BadBit,
    /// It does not end after the bit.
    BadEnd,
    /// The system has no such partition.
    NoPartition,
    /// The partition has no such place.
    NoPlace,
    /// The place has no such bit.
    NoBit,
    /// It is not the first, and its tick is before that of the line above.
    Unordered,
    /// The run ends before its tick, or it is the first line and the run begins after its tick.
    Unreached,
}

/// Why a text is no file of upsets.
#[derive(Clone, Copy, Debug, PartialEq, Eq)]
pub enum UpsetFault {
    /// This line, counted from 1, is wrong.
    Line { line: usize, cause: UpsetCause },
    /// Memory ran out.
    Memory,
}

impl fmt::Display for UpsetFault {
    ghost output = { λ fault. Some (upset_fault_text fault) };

    fn fmt<W: fmt::Write>(&self, f: &mut fmt::Formatter<W>) -> fmt::Result {
        match self {
            UpsetFault::Line { line, cause } => match cause {
                UpsetCause::TooMany => write!(f, "too-many line={line}"),
                UpsetCause::BadTick => write!(f, "bad-tick line={line}"),
                UpsetCause::BadPartition => write!(f, "bad-partition line={line}"),
                UpsetCause::BadPlace => write!(f, "bad-place line={line}"),
                UpsetCause::BadBit => write!(f, "bad-bit line={line}"),
                UpsetCause::BadEnd => write!(f, "bad-end line={line}"),
                UpsetCause::NoPartition => write!(f, "no-partition line={line}"),
                UpsetCause::NoPlace => write!(f, "no-place line={line}"),
                UpsetCause::NoBit => write!(f, "no-bit line={line}"),
                UpsetCause::Unordered => write!(f, "unordered line={line}"),
                UpsetCause::Unreached => write!(f, "unreached line={line}"),
            },
            UpsetFault::Memory => f.write_str("memory"),
        }
    }
}

impl<M: OutOfMemory> From<M> for UpsetFault {
    ghost from_gives = { λ _ made. made ≡ fault.Memory };

    fn from(_: M) -> UpsetFault {
        UpsetFault::Memory
    }
}
