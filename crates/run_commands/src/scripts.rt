//! The scripts of partitions, as a run writes them.

ghost use Rattle.std.specs.Prelude.{◌≡◌, ◌+◌, ◌≤◌, ◌++◌, ◌∷◌, [], ℕ, All, List, IfOk, OnOk, length, map};
ghost use Rattle.xm_base.specs.declared.limits.TheConstants.{TICKS};
ghost use Rattle.continuation_laws.specs.Onward.{after_ticks, coming};
ghost use Rattle.cue_scripts.specs.Written.{IsScriptFile, IsWritten};
ghost use Rattle.machine_model.specs.Machine.{start};
ghost use Rattle.machine_model.specs.View.{System as Booted};
ghost use Rattle.run_commands.specs.lemmas.Cores.{AreForPartitions};
ghost use Rattle.file_commands.specs.Outcome.{script_bytes, script_denial, script_output, scripts_for};
ghost use Rattle.run_commands.specs.lemmas.Made.{made_or, made_output, made_outputs};
ghost use Rattle.run_commands.specs.lemmas.Recordings.{IsRecorded, parts_of};
ghost use Rattle.file_commands.specs.EndingValues.{vector_bytes};
ghost use Rattle.file_commands.specs.lemmas.EndingValuesTerms.{MakesOr};
ghost use Rattle.command_line.specs.Seen.{seen_file, seen_files};
ghost use Rattle.upset_files.specs.Fits.{AllFit};
ghost use Rattle.upset_model.specs.Places.{schedule_of, upsets_of};
ghost use Rattle.upset_model.specs.declared.upset_line.UpsetLine.{UpsetLine as Upset};

use crate::making::{MadeFile, put_made};
use crate::recording::{Recording, record};
use builders::no_script;
use command_line::{PartFile, PartFiles};
use cue_scripts::ScriptFault;
use file_commands::{Ending, unmade};
use std::alloc::Global;
use upset_model::UpsetLine;
use xm_base::{Memory, proof};
use xm_machine::Machine;

/// What the partitions of these scripts receive in a run of this many ticks of a machine with these upsets, in the order of the scripts. The
/// machine does the run for all of them.
pub(crate) fn record_all(
    alloc: Global,
    ticks: u64,
    upsets: &[UpsetLine],
    scripts: PartFiles<'_>,
    machine: &mut Machine,
) -> Result<Vec<Recording>, Memory>
    requires most { machine.old.state.ticks + ticks ≤ TICKS }
    requires fit { AllFit machine.old.state.system.conf (machine.old.state.ticks + ticks) machine.old.state.ticks
        upsets.now }
    requires inside { AreForPartitions (length machine.old.state.system.conf.parts) (seen_files scripts) }
    ensures state { OnOk result (machine.new.state ≡ after_ticks upsets.now machine.old.state ticks) }
    ensures partitions { IfOk result
        (λ recordings. map (λ recording. recording.p) recordings.items ≡ parts_of (seen_files scripts.entry)) }
    ensures recorded { IfOk result
        (λ recordings. All (IsRecorded (upsets_of (coming upsets.now machine.old.state)) machine.old.state ticks)
        recordings.items) }
{
    // The machine has each partition of its configuration.
    proof! { let _sys = machine.sys(); }
    let mut recordings = begun(alloc, scripts)?;
    record(alloc, machine, ticks, upsets, &mut recordings)?;
    Ok(recordings)
}

// A recording for each of these scripts, in their order, without a cue.
fn begun(alloc: Global, scripts: PartFiles<'_>) -> Result<Vec<Recording>, Memory>
    ensures partitions { IfOk result
        (λ recordings. map (λ recording. recording.p) recordings.items ≡ parts_of (seen_files scripts.entry)) }
    ensures empty { IfOk result
        (λ recordings. All (λ recording. IsWritten [] recording.writer) recordings.items) }
{
    let mut recordings = Vec::new(alloc);
    let mut rest = scripts;
    while let Some((first, others)) = rest.split_first() {
        recordings.push(Recording::new(alloc, first.part))?;
        rest = others;
    }
    Ok(recordings)
}

/// The files of recordings, in the order of these scripts; or the first that is too long for a file.
pub(crate) fn finish_all<'a>(
    alloc: Global,
    scripts: PartFiles<'a>,
    recordings: Vec<Recording>,
) -> Result<Vec<MadeFile<'a>>, Ending<'a>>
    requires { map (λ recording. recording.p) recordings.items ≡ parts_of (seen_files scripts) }
    ensures { (upsets : List Upset) (system : Booted) (ticks : ℕ)
        → All (IsRecorded (schedule_of upsets) (start system) ticks) recordings.items
        → MakesOr made_outputs result (scripts_for upsets system ticks (seen_files scripts.entry)) }
{
    let mut made = Vec::new(alloc);
    let mut rest = scripts;
    for recording in recordings {
        let Some((first, others)) = rest.split_first() else {
            return Ok(made);
        };
        let script = match finished(alloc, first, recording) {
            Ok(script) => script,
            Err(ending) => return Err(ending),
        };
        match put_made(&mut made, script) {
            Ok(()) => {}
            Err(Memory) => return Err(Ending::NoMemory),
        }
        rest = others;
    }
    Ok(made)
}

// The file of what a recording has, under the name that is given for its partition; or the refusal of it where it is too long for a file.
fn finished<'a>(
    alloc: Global,
    named: PartFile<'a>,
    recording: Recording,
) -> Result<MadeFile<'a>, Ending<'a>>
    requires { recording.p ≡ named.part }
    ensures { (upsets : List Upset) (system : Booted) (ticks : ℕ)
        → IsRecorded (schedule_of upsets) (start system) ticks recording
        → MakesOr made_output result
        (made_or (script_denial upsets system ticks (seen_file named.entry))
        (script_output upsets system ticks (seen_file named.entry))) }
{
    script_or_ending(alloc, named.file, recording.finish(alloc))
}

// A script that was made, or how the call ends without it.
fn script_or_ending<'a>(
    alloc: Global,
    file: &'a str,
    script: Result<Vec<u8>, ScriptFault>,
) -> Result<MadeFile<'a>, Ending<'a>>
    ensures { (upsets : List Upset) (system : Booted) (ticks : ℕ) (part : ℕ)
        → IsScriptFile vector_bytes (script_bytes upsets system ticks part) script
        → MakesOr made_output result
        (made_or (script_denial upsets system ticks (record { part = part; file = file.now }))
        (script_output upsets system ticks (record { part = part; file = file.now }))) }
{
    match script {
        Ok(bytes) => Ok(MadeFile { file, bytes }),
        Err(fault) => Err(unmade(file, no_script(alloc, fault))),
    }
}
