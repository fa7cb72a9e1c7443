//! The core file of a partition that was replayed.

ghost use Rattle.std.specs.Prelude.{ℕ, ◌≡◌, List, IfOk, Option, length, map, option_copied};
ghost use Rattle.core_files.specs.Length.{core_length_of};
ghost use Rattle.recording_model.specs.Lone.{own_view};
ghost use Rattle.file_commands.specs.Outcome.{name_if_any};
ghost use Rattle.xm_commands.specs.lemmas.Replaying.{HasCoreRoom, lone_output};
ghost use Rattle.file_commands.specs.EndingValues.{AreSaved};
ghost use Rattle.file_commands.specs.lemmas.WorkTerms.{Saves};
ghost use Rattle.file_commands.specs.Work.{outside};

use file_commands::Ending;
use std::alloc::Global;
use xm_alone::Alone;
use xm_base::Memory;
use xm_outside::{Failed, Store};

/// Room for the core file of a partition, where it is to be written.
pub(crate) fn lone_room(alloc: Global, alone: &Alone, core: Option<&str>) -> Result<Vec<u8>, Memory>
    ensures { IfOk result
        (λ room. HasCoreRoom (option_copied core.entry) (core_length_of (own_view alone.now)) (length room.items)) }
{
    match core {
        Some(_) => {
            let bytes = vec![in alloc; 0; alone.core_length()]?;
            Ok(bytes)
        }
        None => Ok(Vec::new(alloc)),
    }
}

/// Writes the core file of a partition, where it is to be written; or how the call ends where it is not.
pub(crate) fn write_lone_core<'a, S: Store>(
    alone: &Alone,
    core: Option<&'a str>,
    room: &mut [u8],
    files: &mut S,
) -> Result<(), Ending<'a>>
    requires { HasCoreRoom (option_copied core) (core_length_of (own_view alone.now)) (length room.old) }
    ensures { (got : Option (List ℕ)) (faults : ℕ)
        → AreSaved result (map (lone_output alone.now) (name_if_any (option_copied core.entry)))
        (outside (S.files files.old) (S.read_faults files.old) (S.write_faults files.old) (S.calls files.old)
        got faults)
        (outside (S.files files.new) (S.read_faults files.new) (S.write_faults files.new) (S.calls files.new)
        got faults) }
{
    let Some(file) = core else {
        return Ok(());
    };
    match write_core(alone, file, room, files) {
        Ok(()) => Ok(()),
        Err(Failed) => Err(Ending::WriteFaultFile { file }),
    }
}

// Writes the core file of a partition.
fn write_core<S: Store>(
    alone: &Alone,
    file: &str,
    room: &mut [u8],
    files: &mut S,
) -> Result<(), Failed>
    requires { length room.old ≡ core_length_of (own_view alone.now) }
    ensures { (got : Option (List ℕ)) (faults : ℕ)
        → Saves result (lone_output alone.now file.now)
        (outside (S.files files.old) (S.read_faults files.old) (S.write_faults files.old) (S.calls files.old)
        got faults)
        (outside (S.files files.new) (S.read_faults files.new) (S.write_faults files.new) (S.calls files.new)
        got faults) }
{
    alone.core_into(room);
    files.write(file, room)
}
