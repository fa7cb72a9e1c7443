//! The core files of partitions, as a run writes them.

ghost use Rattle.std.specs.Prelude.{◌≡◌, ◌<◌, ◌≤◌, ℕ, List, IfOk, Option, length};
ghost use Rattle.core_files.specs.Length.{core_length_of};
ghost use Rattle.machine_model.specs.View.{view_of};
ghost use Rattle.run_commands.specs.lemmas.Cores.{AreForPartitions, FitInto};
ghost use Rattle.file_commands.specs.Outcome.{core_output, core_outputs};
ghost use Rattle.file_commands.specs.EndingValues.{AreSaved};
ghost use Rattle.file_commands.specs.lemmas.WorkTerms.{Saves};
ghost use Rattle.file_commands.specs.Work.{outside};
ghost use Rattle.command_line.specs.Seen.{seen_file, seen_files};

use command_line::{PartFile, PartFiles};
use file_commands::Ending;
use std::alloc::Global;
use xm_base::Memory;
use xm_machine::Machine;
use xm_outside::{Failed, Store};

/// Room for the longest of these core files of a machine.
pub(crate) fn core_room(
    alloc: Global,
    machine: &Machine,
    cores: PartFiles<'_>,
) -> Result<Vec<u8>, Memory>
    requires { AreForPartitions (length machine.now.state.parts) (seen_files cores) }
    ensures room { IfOk result (λ room. FitInto machine.now.state.system (length room.items) (seen_files cores.entry)) }
{
    let bytes = vec![in alloc; 0; longest(machine, cores)]?;
    Ok(bytes)
}

// How many bytes the longest of these core files of a machine has.
fn longest(machine: &Machine, cores: PartFiles<'_>) -> usize
    requires { AreForPartitions (length machine.now.state.parts) (seen_files cores) }
    ensures { FitInto machine.now.state.system result (seen_files cores.entry) }
{
    let mut longest = 0;
    let mut rest = cores;
    while let Some((first, others)) = rest.split_first() {
        longest = longer(longest, machine.core_length(first.part));
        rest = others;
    }
    longest
}

// The greater of two lengths.
fn longer(one: usize, other: usize) -> usize
    ensures one { one ≤ result }
    ensures other { other ≤ result }
{
    if one < other { other } else { one }
}

/// Writes core files of a machine, one after another; or how the call ends at the first that is not written.
pub(crate) fn write_cores<'a, S: Store>(
    machine: &Machine,
    cores: PartFiles<'a>,
    room: &mut [u8],
    files: &mut S,
) -> Result<(), Ending<'a>>
    requires inside { AreForPartitions (length machine.now.state.parts) (seen_files cores) }
    requires room { FitInto machine.now.state.system (length room.old) (seen_files cores) }
    ensures { (got : Option (List ℕ)) (faults : ℕ)
        → AreSaved result (core_outputs machine.now.state (seen_files cores.entry))
        (outside (S.files files.old) (S.read_faults files.old) (S.write_faults files.old) (S.calls files.old)
        got faults)
        (outside (S.files files.new) (S.read_faults files.new) (S.write_faults files.new) (S.calls files.new)
        got faults) }
{
    let mut rest = cores;
    while let Some((first, others)) = rest.split_first() {
        match write_core(machine, first, room, files) {
            Ok(()) => {}
            Err(Failed) => return Err(Ending::WriteFaultFile { file: first.file }),
        }
        rest = others;
    }
    Ok(())
}

// Writes the core file of a partition.
fn write_core<S: Store>(
    machine: &Machine,
    named: PartFile<'_>,
    room: &mut [u8],
    files: &mut S,
) -> Result<(), Failed>
    requires inside { (seen_file named).part < length machine.now.state.parts }
    requires room { core_length_of (view_of machine.now.state.system (seen_file named).part) ≤ length room.old }
    ensures saved { (got : Option (List ℕ)) (faults : ℕ)
        → Saves result (core_output machine.now.state (seen_file named.entry))
        (outside (S.files files.old) (S.read_faults files.old) (S.write_faults files.old) (S.calls files.old)
        got faults)
        (outside (S.files files.new) (S.read_faults files.new) (S.write_faults files.new) (S.calls files.new)
        got faults) }
    ensures room { length room.new ≡ length room.old }
{
    let bytes = &mut room[..machine.core_length(named.part)];
    machine.core_into(named.part, bytes);
    files.write(named.file, bytes)
}
