//! What was made is written or printed.

ghost use Rattle.std.specs.Prelude.{ℕ, List, length, Result};
ghost use Rattle.xm_outside.specs.Causes.{HasCause};
ghost use Rattle.xm_outside.specs.Growth.{Writes};
ghost use Rattle.file_commands.specs.Denial.{Denial};
ghost use Rattle.file_commands.specs.Makes.{IsUnmadeOf};
ghost use Rattle.file_commands.specs.Outcome.{made_text, outcome_of_file, outcome_of_print, packed_to};
ghost use Rattle.file_commands.specs.lemmas.EndingValuesTerms.{MakesOr};
ghost use Rattle.file_commands.specs.EndingValues.{vector_bytes, ending_of};
ghost use Rattle.file_commands.specs.lemmas.WorkTerms.{HasOutcome};
ghost use Rattle.file_commands.specs.Work.{Reports, outside};

use crate::ending::{Ending, Refusal};
use builders::{Unmade, ok_line};
use xm_outside::{Failed, Sink, Store, write_all};

/// Writes a container, and prints its length; or ends as it was refused.
pub(crate) fn write_container<'a, S: Store, O: Sink>(
    output: &'a str,
    container: Result<Vec<u8>, Ending<'a>>,
    files: &mut S,
    out: &mut O,
) -> Ending<'a>
    ensures { (m : Result (List ℕ) Denial) → MakesOr vector_bytes container.entry m
        → HasOutcome (ending_of result) (packed_to output.now m)
        (outside (S.files files.old) (S.read_faults files.old) (S.write_faults files.old) (S.calls files.old)
        (O.got out.old) (O.faults out.old))
        (outside (S.files files.new) (S.read_faults files.new) (S.write_faults files.new) (S.calls files.new)
        (O.got out.new) (O.faults out.new)) }
{
    match container {
        Ok(bytes) => save(output, &bytes, files, out),
        Err(ending) => ending,
    }
}

/// How a call ends that made nothing of a file.
pub fn unmade<'a>(input: &'a str, why: Unmade) -> Ending<'a>
    // A call that made nothing of a file is refused by the text of its fault, or there was no memory.
    ensures { IsUnmadeOf (ending_of result) input.now why }
{
    match why {
        Unmade::Refused { text } => Ending::Refused {
            file: input,
            why: Refusal::Fault { text },
        },
        Unmade::Memory => Ending::NoMemory,
    }
}

/// Writes a file that was made, and prints its length.
pub(crate) fn save<'a, S: Store, O: Sink>(
    output: &'a str,
    bytes: &[u8],
    files: &mut S,
    out: &mut O,
) -> Ending<'a>
    ensures { HasOutcome (ending_of result) (outcome_of_file output.now bytes.now)
        (outside (S.files files.old) (S.read_faults files.old) (S.write_faults files.old) (S.calls files.old)
        (O.got out.old) (O.faults out.old))
        (outside (S.files files.new) (S.read_faults files.new) (S.write_faults files.new) (S.calls files.new)
        (O.got out.new) (O.faults out.new)) }
{
    match files.write(output, bytes) {
        Ok(()) => match print_length(bytes, out) {
            Ok(()) => Ending::Done,
            Err(Failed) => Ending::WriteFaultReport,
        },
        Err(Failed) => Ending::WriteFaultFile { file: output },
    }
}

/// Writes a text to the report, which is all that a command does.
pub fn report<'a, O: Sink>(text: &[u8], out: &mut O) -> Ending<'a>
    // A text goes to the report, or a prefix of it.
    ensures { Reports (ending_of result) (outcome_of_print text.now)
        (O.got out.old) (O.faults out.old) (O.got out.new) (O.faults out.new) }
{
    match write_all(out, text) {
        Ok(()) => Ending::Done,
        Err(Failed) => Ending::WriteFaultReport,
    }
}

// Prints how many bytes were made.
fn print_length<O: Sink>(bytes: &[u8], out: &mut O) -> Result<(), Failed>
    ensures text { Writes result (O.got out.old) (made_text (length bytes.now)) (O.got out.new) }
    ensures cause { HasCause result (O.faults out.old) (O.faults out.new) }
{
    let line = ok_line(b"length=", bytes.len());
    write_all(out, line.bytes())
}
