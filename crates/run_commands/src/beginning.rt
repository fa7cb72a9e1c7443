//! What a run begins with: a system that boots with input words, or a machine that was saved.

ghost use Rattle.std.specs.Prelude.{◌≡◌, ◌≤◌, [], IfOk, None, Ok, OnOk, drop, length, map};
ghost use Rattle.xm_container.specs.Reading.{unpacked};
ghost use Rattle.loaded_system.specs.System.{System as Loaded};
ghost use Rattle.saved_machines.specs.Reading.{saved_value};
ghost use Rattle.saved_machines.specs.Restorable.{IsRestorable};
ghost use Rattle.saved_machines.specs.Saving.{loaded_of, machine_saved, stored_digest};
ghost use Rattle.saved_machines.specs.SavedFormat.{saved_format};
ghost use Rattle.system_state.specs.State.{with_inputs};
ghost use Rattle.run_commands.specs.lemmas.Beginnings.{IsBeginning, IsNamed, first_machine, machine_of};
ghost use Rattle.run_commands.specs.lemmas.Cores.{AreForPartitions};
ghost use Rattle.file_commands.specs.Inputs.{inputs_for};
ghost use Rattle.file_commands.specs.Outcome.{beginning_of, content, first_long, machine_or, run_inputs};
ghost use Rattle.file_commands.specs.EndingValues.{vector_bytes};
ghost use Rattle.file_commands.specs.lemmas.EndingValuesTerms.{MakesOr};
ghost use Rattle.command_line.specs.Seen.{seen_options};
ghost use Rattle.command_line.specs.Words.{cores_in, scripts_in};

use crate::inputs::inputs_for;
use builders::no_machine;
use command_line::RunOptions;
use file_commands::{Ending, content_after_upsets, split_contents, unmade};
use machine_saves::load;
use saved_machines::{Saved, read_machine};
use std::alloc::Global;
use xm_base::Memory;
use xm_container::System;
use xm_machine::{Inputs, Machine};

/// What a run begins with.
#[derive(Debug, Drop)]
pub(crate) enum Beginning {
    /// The system boots, and its partitions have these input words.
    Boot(Inputs),
    /// The system goes on from this machine.
    Saved(Saved),
}

impl Beginning {
    /// How many ticks were done before the run.
    pub(crate) fn ticks(&self) -> u64
        ensures { (system : Loaded) → result ≡ (machine_of system self.now).ticks }
    {
        match self {
            Beginning::Boot(_) => 0,
            Beginning::Saved(saved) => saved.values.ticks,
        }
    }
}

/// What the run of a container's system begins with, by the contents of its files; or the first refusal of them.
pub(crate) fn first_beginning<'a>(
    alloc: Global,
    options: RunOptions<'a>,
    contents: &[Vec<u8>],
    system: &System,
) -> Result<Beginning, Ending<'a>>
    requires short { first_long (run_inputs (seen_options options)) (drop 1 (map vector_bytes contents.now)) ≡ None }
    requires same { unpacked (content 0 (map vector_bytes contents.now)) ≡ Ok system.now }
    ensures value { MakesOr (machine_of system.now) result
        (first_machine (seen_options options.entry) (map vector_bytes contents.now) system.now) }
    ensures fit { IfOk result (IsBeginning system.now) }
    ensures named { IfOk result (IsNamed (seen_options options.entry) (map vector_bytes contents.now) system.now) }
    ensures cores { OnOk result
        (AreForPartitions (length system.now.conf.parts) (cores_in (seen_options options.entry))) }
    ensures scripts { OnOk result
        (AreForPartitions (length system.now.conf.parts) (scripts_in (seen_options options.entry))) }
{
    let (_, words) = split_contents(contents);
    match inputs_for(alloc, system.conf().part_count(), options, words) {
        Ok(inputs) => beginning_with(alloc, options, contents, system, inputs),
        Err(ending) => Err(ending),
    }
}

// It boots with these input words, or it goes on from a saved machine where one is named.
#[tactic(auto, unfolding(file_commands::specs::Outcome::beginning_of))]
fn beginning_with<'a>(
    alloc: Global,
    options: RunOptions<'a>,
    contents: &[Vec<u8>],
    system: &System,
    inputs: Inputs,
) -> Result<Beginning, Ending<'a>>
    requires same { unpacked (content 0 (map vector_bytes contents.now)) ≡ Ok system.now }
    requires given { length inputs ≡ length system.now.conf.parts }
    requires inputs { inputs_for (length system.now.conf.parts) (seen_options options)
        (drop 1 (map vector_bytes contents.now))
        ≡ Ok inputs }
    ensures value { MakesOr (machine_of system.now) result
        (beginning_of (seen_options options.entry) (content 0 (map vector_bytes contents.now))
        (drop 1 (map vector_bytes contents.now)) system.now inputs) }
    ensures fit { IfOk result (IsBeginning system.now) }
    ensures named { IfOk result (IsNamed (seen_options options.entry) (map vector_bytes contents.now) system.now) }
{
    match options.from() {
        Some(file) => {
            let (container, words) = split_contents(contents);
            let bytes = content_after_upsets(options.inputs(), options.upsets(), words);
            match saved_machine(alloc, file, container, system, bytes) {
                Ok(saved) => Ok(Beginning::Saved(saved)),
                Err(ending) => Err(ending),
            }
        }
        None => Ok(Beginning::Boot(inputs)),
    }
}

// The machine that a file has, which was saved from a run of the container with these bytes; or its refusal.
fn saved_machine<'a>(
    alloc: Global,
    file: &'a str,
    container: &[u8],
    system: &System,
    bytes: &[u8],
) -> Result<Saved, Ending<'a>>
    requires same { unpacked container.now ≡ Ok system.now }
    ensures value { MakesOr (λ saved. machine_saved (with_inputs system.now []) (saved_value saved)) result
        (machine_or file.now system.now
        ((saved_format system.now.conf (loaded_of (with_inputs system.now [])) (stored_digest container.now)).read
        bytes.now)) }
    ensures fit { IfOk result (λ saved. IsRestorable system.now.conf (saved_value saved)) }
{
    let Ok(loaded) = load(alloc, system) else {
        return Err(Ending::NoMemory);
    };
    match read_machine(
        alloc,
        system.conf(),
        &loaded,
        stored_digest(container),
        bytes,
    ) {
        Ok(saved) => Ok(saved),
        Err(fault) => Err(unmade(file, no_machine(alloc, fault))),
    }
}

/// The digest of a container: the last 16 bytes of its file, which has as many.
pub(crate) fn stored_digest(bytes: &[u8]) -> [u8; 16]
    requires { 16 ≤ length bytes.now }
    ensures { result ≡ stored_digest bytes.now }
{
    let Ok(digest) = <[u8; 16]>::try_from(file_headers::stored_digest(bytes)) else {
        unreachable!();
    };
    digest
}

/// The machine of a system that begins so.
pub(crate) fn begin(alloc: Global, system: System, beginning: Beginning) -> Result<Machine, Memory>
    requires { IsBeginning system beginning }
    ensures { IfOk result (λ machine. machine.state ≡ machine_of system beginning) }
{
    match beginning {
        Beginning::Boot(inputs) => Machine::boot(alloc, system, inputs),
        Beginning::Saved(saved) => Machine::resume(alloc, system, &saved),
    }
}
