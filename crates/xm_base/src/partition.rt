//! What a partition is called, the states that it can be in, and the orders on it.

ghost use Rattle.std.specs.Prelude.{◌≡◌};
ghost use Rattle.xm_base.specs.State.{state_text};

/// A partition's number, its place in the system's list of partitions.
pub type PartId = u8;

/// How a partition or the whole system starts again.
#[derive(Clone, Copy, Debug, PartialEq, Eq)]
pub enum Mode {
    /// As at the first start.
    Cold,
    /// With what it keeps.
    Warm,
}

/// The state of a partition.
#[derive(Clone, Copy, Debug, PartialEq, Eq)]
pub enum State {
    /// It runs in its slots.
    Ready,
    /// It waits for its next slot or an interrupt.
    Idle,
    /// It waits until another partition resumes or resets it.
    Suspended,
    /// It has stopped until it is reset.
    Halted,
}

/// An order on a partition, given by another one, by itself or in answer to a health event.
#[derive(Clone, Copy, Debug, PartialEq, Eq)]
pub enum Order {
    /// It stops until it is reset.
    Halt,
    /// It waits until it is resumed or reset.
    Suspend,
    /// It goes on from where it was suspended.
    Resume,
    /// It is asked to shut down, by an interrupt.
    Shutdown,
    /// It starts again, with a status that it can ask for.
    Reset { mode: Mode, status: u32 },
}

impl State {
    /// The state's name as the report has it.
    pub fn text(self) -> &'static str
        // A state's name is the one of the report.
        ensures { result.now ≡ state_text self }
    {
        match self {
            State::Ready => "ready",
            State::Idle => "idle",
            State::Suspended => "suspended",
            State::Halted => "halted",
        }
    }
}
