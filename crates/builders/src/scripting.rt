//! What is said of a script that is refused.

ghost use Rattle.std.specs.Prelude.{◌≡◌};
ghost use Rattle.fault_messages.specs.Texts.{script_fault_text};
ghost use Rattle.builders.specs.Makes.{IsRefusalText};

use crate::unmade::Unmade;
use crate::unmade_by;
use cue_scripts::ScriptFault;
use std::alloc::Global;

/// What is said of a file that is no script, or of a script that is not written or does not fit.
pub fn no_script(alloc: Global, fault: ScriptFault) -> Unmade
    // The refusal has the text of the script's fault.
    ensures text { IsRefusalText result (script_fault_text fault) }
    // Out of memory is the answer where that was the fault.
    ensures memory { fault ≡ ScriptFault.Memory → result ≡ Unmade.Memory }
{
    unmade_by!(alloc, fault, ScriptFault::Memory)
}
