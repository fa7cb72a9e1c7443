//! The files that are made of a run before it is reported: scripts of its partitions, and its saved machine.

ghost use Rattle.std.specs.Prelude.{◌≡◌, ◌+◌, ◌≤◌, ◌++◌, ◌∷◌, [], ◌⊎◌, ℕ, IfOk, List, None, Ok, OnOk, Option, drop, length, map, option_copied, true};
ghost use Rattle.std.specs.Bool.{OnTrue};
ghost use Rattle.xm_base.specs.declared.limits.TheConstants.{TICKS};
ghost use Rattle.continuation_laws.specs.Onward.{after_ticks};
ghost use Rattle.machine_model.specs.Machine.{Machine as ModelMachine, start};
ghost use Rattle.machine_saves.specs.Gives.{IsSavedFile};
ghost use Rattle.saved_machines.specs.Savable.{IsSavedMachine};
ghost use Rattle.saved_machines.specs.Saving.{saved_file, stored_digest};
ghost use Rattle.system_state.specs.State.{with_inputs};
ghost use Rattle.xm_container.specs.Reading.{unpacked};
ghost use Rattle.run_commands.specs.Numbers.{AllReceiveNumbers, IsStored};
ghost use Rattle.run_commands.specs.lemmas.Beginnings.{IsBeginning, IsNamed, machine_of};
ghost use Rattle.run_commands.specs.lemmas.Cores.{AreForPartitions};
ghost use Rattle.run_commands.specs.lemmas.Made.{made_output, made_outputs, saved_or};
ghost use Rattle.file_commands.specs.Inputs.{inputs_for};
ghost use Rattle.file_commands.specs.Outcome.{content, first_long, made_after, made_both, run_inputs, save_for, scripts_for};
ghost use Rattle.file_commands.specs.EndingValues.{AreSaved, vector_bytes};
ghost use Rattle.file_commands.specs.lemmas.EndingValuesTerms.{MakesOr};
ghost use Rattle.file_commands.specs.lemmas.WorkTerms.{Saves};
ghost use Rattle.file_commands.specs.Work.{outside};
ghost use Rattle.command_line.specs.Seen.{seen_options};
ghost use Rattle.command_line.specs.Words.{begins_once, save_in, scripts_in};
ghost use Rattle.upset_files.specs.Fits.{AllFit};

use crate::beginning::{Beginning, stored_digest};
use crate::inputs::inputs_for;
use crate::scripts::{finish_all, record_all};
use command_line::RunOptions;
use fault_messages::BoxFault;
use file_commands::{Ending, Refusal, split_contents};
use machine_model::keeps_numbers;
use machine_saves::{NotSaved, load, save};
use std::alloc::Global;
use upset_model::UpsetLine;
use xm_base::{Memory, proof};
use xm_container::{System, unpack};
use xm_machine::Machine;
use xm_outside::{Failed, Store};

/// A file that was made, and where it is written.
#[derive(Debug, Drop)]
pub(crate) struct MadeFile<'a> {
    pub(crate) file: &'a str,
    pub(crate) bytes: Vec<u8>,
}

/// The files that options of a run of this many ticks with these upsets ask for: scripts in the order of their options, and the saved
/// machine; or the first that is too long for a file. One run of its own, of the same files, makes all of them.
pub(crate) fn make_files<'a>(
    alloc: Global,
    ticks: u64,
    upsets: &[UpsetLine],
    options: RunOptions<'a>,
    contents: &[Vec<u8>],
    system: &System,
    beginning: &Beginning,
) -> Result<Vec<MadeFile<'a>>, Ending<'a>>
    requires begun { begins_once (seen_options options) ≡ true }
    requires short { first_long (run_inputs (seen_options options)) (drop 1 (map vector_bytes contents.now))
        ≡ None }
    requires same { unpacked (content 0 (map vector_bytes contents.now)) ≡ Ok system.now }
    requires begins { IsBeginning system.now beginning.now }
    requires named { IsNamed (seen_options options) (map vector_bytes contents.now) system.now beginning.now }
    requires scripts { AreForPartitions (length system.now.conf.parts) (scripts_in (seen_options options)) }
    requires most { (machine_of system.now beginning.now).ticks + ticks ≤ TICKS }
    requires fit { AllFit system.now.conf ((machine_of system.now beginning.now).ticks + ticks)
        (machine_of system.now beginning.now).ticks upsets.now }
    ensures made { MakesOr made_outputs result
        (made_both
        (scripts_for upsets.now (machine_of system.now beginning.now).system ticks (scripts_in (seen_options options.entry)))
        (save_for (save_in (seen_options options.entry)) (content 0 (map vector_bytes contents.now))
        (after_ticks upsets.now (machine_of system.now beginning.now) ticks))) }
    ensures numbers { OnOk result
        (AllReceiveNumbers upsets.now (machine_of system.now beginning.now).system ticks
        (scripts_in (seen_options options.entry))) }
    ensures stored { OnOk result
        (IsStored (save_in (seen_options options.entry)) (after_ticks upsets.now (machine_of system.now beginning.now) ticks)) }
{
    if has_none(options) {
        return Ok(Vec::new(alloc));
    }
    match machine_again(alloc, options, contents, system, beginning) {
        Ok(mut machine) => {
            let (container, _) = split_contents(contents);
            let machine = &mut machine;
            make_by(alloc, ticks, upsets, options, container, system, machine)
        }
        Err(Memory) => Err(Ending::NoMemory),
    }
}

// Whether options ask for no script and no saved machine.
fn has_none(options: RunOptions<'_>) -> bool
    ensures { OnTrue result
        ((scripts_in (seen_options options.entry) ≡ []) × (save_in (seen_options options.entry) ≡ None)) }
{
    options.scripts().split_first().is_none() && options.save().is_none()
}

// The machine that a run of these files begins with, made once more.
fn machine_again(
    alloc: Global,
    options: RunOptions<'_>,
    contents: &[Vec<u8>],
    system: &System,
    beginning: &Beginning,
) -> Result<Machine, Memory>
    requires short { first_long (run_inputs (seen_options options)) (drop 1 (map vector_bytes contents.now))
        ≡ None }
    requires same { unpacked (content 0 (map vector_bytes contents.now)) ≡ Ok system.now }
    requires begins { IsBeginning system.now beginning.now }
    requires named { IsNamed (seen_options options) (map vector_bytes contents.now) system.now beginning.now }
    ensures { IfOk result (λ machine. machine.state ≡ machine_of system.now beginning.now) }
{
    let again = system_again(alloc, contents, system)?;
    match beginning {
        Beginning::Boot(_) => boot_again(alloc, options, contents, again),
        Beginning::Saved(saved) => Machine::resume(alloc, again, saved),
    }
}

// The system of a container's file, made once more: its bytes are those of a container, so only memory can be missing.
fn system_again(alloc: Global, contents: &[Vec<u8>], system: &System) -> Result<System, Memory>
    requires same { unpacked (content 0 (map vector_bytes contents.now)) ≡ Ok system.now }
    ensures { IfOk result (λ again. again ≡ system.now) }
{
    let (container, _) = split_contents(contents);
    match unpack(alloc, container) {
        Ok(again) => Ok(again),
        Err(BoxFault::Memory) => Err(Memory),
        Err(_) => unreachable!(),
    }
}

// A system boots with the input words of these files.
fn boot_again(
    alloc: Global,
    options: RunOptions<'_>,
    contents: &[Vec<u8>],
    system: System,
) -> Result<Machine, Memory>
    requires short { first_long (run_inputs (seen_options options)) (drop 1 (map vector_bytes contents.now))
        ≡ None }
    ensures { (inputs : List (List ℕ))
        → inputs_for (length system.conf.parts) (seen_options options.entry) (drop 1 (map vector_bytes contents.now))
        ≡ Ok inputs
        → IfOk result (λ machine. machine.state ≡ start (with_inputs system inputs)) }
{
    let (_, words) = split_contents(contents);
    match inputs_for(alloc, system.conf().part_count(), options, words) {
        Ok(inputs) => Machine::boot(alloc, system, inputs),
        Err(_) => Err(Memory),
    }
}

// The files, by a machine that does the run.
fn make_by<'a>(
    alloc: Global,
    ticks: u64,
    upsets: &[UpsetLine],
    options: RunOptions<'a>,
    container: &[u8],
    system: &System,
    machine: &mut Machine,
) -> Result<Vec<MadeFile<'a>>, Ending<'a>>
    requires same { unpacked container.now ≡ Ok system.now }
    requires scripts { AreForPartitions (length system.now.conf.parts) (scripts_in (seen_options options)) }
    requires most { machine.old.state.ticks + ticks ≤ TICKS }
    requires fit { AllFit system.now.conf (machine.old.state.ticks + ticks) machine.old.state.ticks upsets.now }
    requires system { (inputs : List (List ℕ)) × (machine.old.state.system ≡ with_inputs system.now inputs) }
    requires boots { (scripts_in (seen_options options) ≡ []) ⊎ (machine.old.state ≡ start machine.old.state.system) }
    ensures made { MakesOr made_outputs result
        (made_both
        (scripts_for upsets.now machine.old.state.system ticks (scripts_in (seen_options options.entry)))
        (save_for (save_in (seen_options options.entry)) container.now (after_ticks upsets.now machine.old.state ticks))) }
    ensures numbers { OnOk result
        (AllReceiveNumbers upsets.now machine.old.state.system ticks (scripts_in (seen_options options.entry))) }
    ensures stored { OnOk result
        (IsStored (save_in (seen_options options.entry)) (after_ticks upsets.now machine.old.state ticks)) }
{
    proof! { keeps_numbers(); }
    let Ok(recordings) = record_all(alloc, ticks, upsets, options.scripts(), machine) else {
        return Err(Ending::NoMemory);
    };
    match finish_all(alloc, options.scripts(), recordings) {
        Ok(made) => with_saved(alloc, options.save(), container, system, machine, made),
        Err(ending) => Err(ending),
    }
}

// Files that were made, and after them the saved machine, where a file is named for it.
fn with_saved<'a>(
    alloc: Global,
    file: Option<&'a str>,
    container: &[u8],
    system: &System,
    machine: &Machine,
    made: Vec<MadeFile<'a>>,
) -> Result<Vec<MadeFile<'a>>, Ending<'a>>
    requires same { unpacked container.now ≡ Ok system.now }
    requires system { (inputs : List (List ℕ)) × (machine.now.state.system ≡ with_inputs system.now inputs) }
    ensures made { MakesOr made_outputs result
        (made_after (map made_output made.entry.items)
        (save_for (option_copied file.entry) container.now machine.now.state)) }
    ensures stored { OnOk result (IsStored (option_copied file.entry) machine.now.state) }
{
    let Some(file) = file else {
        return Ok(made);
    };
    match saved_file(alloc, file, container, system, machine) {
        Ok(saved) => with_made(made, saved),
        Err(denied) => Err(denied),
    }
}

// The saved machine under its name; or its refusal where it is too long for a file.
fn saved_file<'a>(
    alloc: Global,
    file: &'a str,
    container: &[u8],
    system: &System,
    machine: &Machine,
) -> Result<MadeFile<'a>, Ending<'a>>
    requires same { unpacked container.now ≡ Ok system.now }
    requires system { (inputs : List (List ℕ)) × (machine.now.state.system ≡ with_inputs system.now inputs) }
    ensures made { MakesOr made_output result
        (saved_or file.now (saved_file (stored_digest container.now) machine.now.state)) }
    ensures stored { OnOk result (IsSavedMachine machine.now.state) }
{
    match load(alloc, system) {
        Ok(loaded) => {
            let digest = stored_digest(container);
            saved_or_ending(file, save(alloc, machine.sys(), &loaded, digest))
        }
        Err(Memory) => Err(Ending::NoMemory),
    }
}

// A saved machine, or how the call ends without it.
#[tactic(auto, unfolding(crate::specs::lemmas::Made::saved_or))]
fn saved_or_ending<'a>(
    file: &'a str,
    saved: Result<Vec<u8>, NotSaved>,
) -> Result<MadeFile<'a>, Ending<'a>>
    ensures made { (bytes : List ℕ) → IsSavedFile vector_bytes bytes saved
        → MakesOr made_output result (saved_or file.now bytes) }
    ensures stored { (g : ModelMachine) → IfOk saved (λ _. IsSavedMachine g) → OnOk result (IsSavedMachine g) }
{
    match saved {
        Ok(bytes) => Ok(MadeFile { file, bytes }),
        Err(NotSaved::Length { found }) => Err(Ending::Refused {
            file,
            why: Refusal::Saved { found },
        }),
        Err(NotSaved::Memory) => Err(Ending::NoMemory),
    }
}

// Files, and one more after them.
fn with_made<'a>(
    made: Vec<MadeFile<'a>>,
    more: MadeFile<'a>,
) -> Result<Vec<MadeFile<'a>>, Ending<'a>>
    ensures { MakesOr made_outputs result (Ok (map made_output made.entry.items ++ made_output more.entry ∷ [])) }
{
    let mut made = made;
    match put_made(&mut made, more) {
        Ok(()) => Ok(made),
        Err(Memory) => Err(Ending::NoMemory),
    }
}

/// Puts a file after others.
pub(crate) fn put_made<'a>(made: &mut Vec<MadeFile<'a>>, more: MadeFile<'a>) -> Result<(), Memory>
    ensures { OnOk result
        (map made_output made.new.items ≡ map made_output made.old.items ++ made_output more.entry ∷ []) }
{
    match made.push(more) {
        Ok(()) => Ok(()),
        Err(_) => Err(Memory),
    }
}

/// Writes files, one after another; or how the call ends at the first that is not written.
pub(crate) fn write_made<'a, S: Store>(
    made: &[MadeFile<'a>],
    files: &mut S,
) -> Result<(), Ending<'a>>
    ensures { (got : Option (List ℕ)) (faults : ℕ)
        → AreSaved result (map made_output made.now)
        (outside (S.files files.old) (S.read_faults files.old) (S.write_faults files.old) (S.calls files.old)
        got faults)
        (outside (S.files files.new) (S.read_faults files.new) (S.write_faults files.new) (S.calls files.new)
        got faults) }
{
    for one in made {
        match write_one(one, files) {
            Ok(()) => {}
            Err(Failed) => return Err(Ending::WriteFaultFile { file: one.file }),
        }
    }
    Ok(())
}

// Writes a file.
fn write_one<S: Store>(made: &MadeFile<'_>, files: &mut S) -> Result<(), Failed>
    ensures { (got : Option (List ℕ)) (faults : ℕ)
        → Saves result (made_output made.now)
        (outside (S.files files.old) (S.read_faults files.old) (S.write_faults files.old) (S.calls files.old)
        got faults)
        (outside (S.files files.new) (S.read_faults files.new) (S.write_faults files.new) (S.calls files.new)
        got faults) }
{
    files.write(made.file, &made.bytes)
}
