//! What is said of files that are to a whole run and are refused: that of upsets, and that of a saved machine.

ghost use Rattle.std.specs.Prelude.{◌≡◌};
ghost use Rattle.upset_files.specs.Texts.{upset_fault_text};
ghost use Rattle.saved_machines.specs.Texts.{saved_fault_text};
ghost use Rattle.builders.specs.Makes.{IsRefusalText};

use crate::unmade::Unmade;
use crate::unmade_by;
use saved_machines::SavedFault;
use std::alloc::Global;
use upset_files::UpsetFault;

/// What is said of a file that has no upsets of its run.
pub fn no_upsets(alloc: Global, fault: UpsetFault) -> Unmade
    // The refusal has the text of the fault of the file of upsets.
    ensures text { IsRefusalText result (upset_fault_text fault) }
    // Out of memory is the answer where that was the fault.
    ensures memory { fault ≡ UpsetFault.Memory → result ≡ Unmade.Memory }
{
    unmade_by!(alloc, fault, UpsetFault::Memory)
}

/// What is said of a file that is no saved machine of its run's container.
pub fn no_machine(alloc: Global, fault: SavedFault) -> Unmade
    // The refusal has the text of the fault of the saved machine.
    ensures text { IsRefusalText result (saved_fault_text fault) }
    // Out of memory is the answer where that was the fault.
    ensures memory { fault ≡ SavedFault.Memory → result ≡ Unmade.Memory }
{
    unmade_by!(alloc, fault, SavedFault::Memory)
}
