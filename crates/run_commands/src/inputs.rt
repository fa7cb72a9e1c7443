//! The input words of partitions, by the files that a run is given for them.

ghost use Rattle.std.specs.Prelude.{◌≡◌, ◌∷◌, ◌<◌, ◌^◌, [], IfErr, IfOk, None, Ok, OnOk, length, map};
ghost use Rattle.run_commands.specs.lemmas.Cores.{AreForPartitions};
ghost use Rattle.file_commands.specs.Inputs.{first_beyond, inputs_for, inputs_with, no_inputs, named_beyond};
ghost use Rattle.file_commands.specs.Outcome.{first_long};
ghost use Rattle.file_commands.specs.Packing.{file_names};
ghost use Rattle.file_commands.specs.lemmas.EndingValuesTerms.{IsDenied, MakesOr};
ghost use Rattle.file_commands.specs.EndingValues.{vector_bytes, ending_of};
ghost use Rattle.command_line.specs.Seen.{seen_file, seen_files, seen_option, seen_options};
ghost use Rattle.command_line.specs.lemmas.SeenTerms.{seen_part_file};
ghost use Rattle.command_line.specs.Words.{cores_in, inputs_in, scripts_in};

use command_line::{PartFile, PartFiles, RunOption, RunOptions};
use file_commands::{Ending, Refusal};
use std::alloc::Global;
use xm_machine::{InputFault, Inputs};

/// The input words of this many partitions, by options of a run none of whose inputs is too long; or the first refusal.
#[tactic(auto, unfolding(file_commands::specs::Inputs::inputs_for))]
pub(crate) fn inputs_for<'a>(
    alloc: Global,
    parts: u8,
    options: RunOptions<'a>,
    contents: &[Vec<u8>],
) -> Result<Inputs, Ending<'a>>
    requires { first_long (file_names (inputs_in (seen_options options))) (map vector_bytes contents.now) ≡ None }
    ensures value { MakesOr (λ inputs. inputs) result
        (inputs_for parts (seen_options options.entry) (map vector_bytes contents.now)) }
    ensures count { IfOk result (λ inputs. length inputs ≡ parts) }
    ensures cores { OnOk result (AreForPartitions parts (cores_in (seen_options options.entry))) }
    ensures scripts { OnOk result (AreForPartitions parts (scripts_in (seen_options options.entry))) }
{
    match first_beyond(parts, options) {
        Some(named) => Err(Ending::Refused {
            file: named.file,
            why: Refusal::Partition { id: named.part },
        }),
        None => read_inputs(alloc, parts, options.inputs(), contents),
    }
}

// The first of the files that options name whose partition is none of this many.
fn first_beyond<'a>(parts: u8, options: RunOptions<'a>) -> Option<PartFile<'a>>
    ensures value { seen_part_file result ≡ first_beyond parts (seen_options options.entry) }
{
    let mut rest = options;
    while let Some((first, others)) = rest.split_first() {
        if let Some(named) = named_beyond(parts, first) {
            return Some(named);
        }
        rest = others;
    }
    None
}

// The file that an option names, where its partition is none of this many.
fn named_beyond(parts: u8, option: RunOption<'_>) -> Option<PartFile<'_>>
    ensures value { seen_part_file result ≡ named_beyond parts (seen_option option.entry) }
{
    match option {
        RunOption::Length(_) => None,
        RunOption::ForRun(_, _) => None,
        RunOption::ForPart(_, named) => {
            if named.part >= parts {
                Some(named)
            } else {
                None
            }
        }
    }
}

// The input words of this many partitions, by files each of which is for one of them.
fn read_inputs<'a>(
    alloc: Global,
    parts: u8,
    files: PartFiles<'a>,
    contents: &[Vec<u8>],
) -> Result<Inputs, Ending<'a>>
    requires short { first_long (file_names (seen_files files)) (map vector_bytes contents.now) ≡ None }
    requires inside { AreForPartitions parts (seen_files files) }
    ensures value { MakesOr (λ inputs. inputs) result
        (inputs_with (no_inputs parts) (seen_files files.entry) (map vector_bytes contents.now)) }
    ensures count { IfOk result (λ inputs. length inputs ≡ parts) }
{
    let mut inputs = match Inputs::new(alloc, parts) {
        Ok(inputs) => inputs,
        Err(_) => return Err(Ending::NoMemory),
    };
    let mut rest = files;
    for bytes in contents {
        let Some((first, others)) = rest.split_first() else {
            return Ok(inputs);
        };
        if let Err(ending) = give(&mut inputs, first, bytes) {
            return Err(ending);
        }
        rest = others;
    }
    Ok(inputs)
}

// Gives a partition the words of its file.
fn give<'a>(inputs: &mut Inputs, named: PartFile<'a>, bytes: &[u8]) -> Result<(), Ending<'a>>
    requires inside { (seen_file named).part < length inputs.old }
    requires short { length bytes.now < 2 ^ 34 }
    ensures given { OnOk result (inputs_with inputs.old (seen_file named.entry ∷ []) (bytes.now ∷ []) ≡ Ok inputs.new) }
    ensures refused { IfErr result
        (λ ending. IsDenied (ending_of ending) (inputs_with inputs.old (seen_file named.entry ∷ []) (bytes.now ∷ []))) }
{
    match inputs.set(named.part, bytes) {
        Ok(()) => Ok(()),
        Err(InputFault::Length { found }) => Err(Ending::Refused {
            file: named.file,
            why: Refusal::Input { found },
        }),
        Err(InputFault::Memory) => Err(Ending::NoMemory),
    }
}
