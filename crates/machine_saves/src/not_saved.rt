//! Why a machine is not saved.

use xm_base::Memory;

/// Why a machine is not saved.
#[derive(Clone, Copy, Debug, PartialEq, Eq)]
pub enum NotSaved {
    /// It has this many bytes, more than a file may have.
    Length { found: u64 },
    /// Memory ran out for its bytes.
    Memory,
}

impl From<Memory> for NotSaved {
    ghost use Rattle.std.specs.Prelude.{◌≡◌};
    ghost use Rattle.machine_saves.specs.declared.not_saved.NotSaved.TheVariants as not_saved;

    ghost from_gives = { λ _ made. made ≡ not_saved.Memory };

    fn from(_: Memory) -> NotSaved {
        NotSaved::Memory
    }
}
