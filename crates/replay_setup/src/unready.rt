//! Why no replay can begin.

ghost use Rattle.std.specs.Prelude.{◌≡◌};
ghost use Rattle.builders.specs.Ready.{NoContainer, NoScript, NoUpsets};
ghost use Rattle.replay_setup.specs.lemmas.ReadiedTerms.{unready_for};
ghost use Rattle.replay_setup.specs.Readied.{unready_of};

use builders::Unmade;

/// Why no replay can begin.
#[derive(Debug, Drop)]
pub enum Unready {
    /// The first file is no container, as this text says.
    NoContainer { text: String },
    /// The container's system does not have the partition.
    NoPartition,
    /// The script is none for the partition, or does not fit it, as this text says.
    NoScript { text: String },
    /// The input words have this many bytes, no multiple of 4.
    OddInput { found: usize },
    /// The upsets are none of a run of the system, as this text says.
    NoUpsets { text: String },
    /// Memory ran out.
    Memory,
}

/// The container is refused so.
pub(crate) fn bad_container(why: Unmade) -> Unready
    ensures { unready_of result ≡ unready_for NoContainer why }
{
    match why {
        Unmade::Refused { text } => Unready::NoContainer { text },
        Unmade::Memory => Unready::Memory,
    }
}

/// The script is refused so.
pub(crate) fn bad_script(why: Unmade) -> Unready
    ensures { unready_of result ≡ unready_for NoScript why }
{
    match why {
        Unmade::Refused { text } => Unready::NoScript { text },
        Unmade::Memory => Unready::Memory,
    }
}

/// The upsets are refused so.
pub(crate) fn bad_upsets(why: Unmade) -> Unready
    ensures { unready_of result ≡ unready_for NoUpsets why }
{
    match why {
        Unmade::Refused { text } => Unready::NoUpsets { text },
        Unmade::Memory => Unready::Memory,
    }
}
