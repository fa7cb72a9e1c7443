//! A file is converted: another file is made of it, or a text that is reported.

ghost use Rattle.std.specs.Prelude.{[], ◌∷◌};
ghost use Rattle.file_commands.specs.Conversion.{command_making};
ghost use Rattle.file_commands.specs.EndingValues.{ending_of};
ghost use Rattle.file_commands.specs.Outcome.{outcome_of};
ghost use Rattle.file_commands.specs.Work.{IsDone, outside};
ghost use Rattle.file_commands.specs.lemmas.WorkTerms.{HasOutcome};

use crate::delivery::{report, save, unmade};
use crate::ending::{Ending, Refusal};
use crate::reading::read_file;
use builders::{MadeFile, Printout, make_file, printout_text};
use std::alloc::Global;
use xm_base::FILE_BYTES;
use xm_outside::{Sink, Store};

/// What is made of a file, and where it goes.
#[derive(Clone, Copy, Debug, PartialEq, Eq)]
pub enum Conversion<'a> {
    /// This file, which is written under this name; its length is reported.
    File(MadeFile, &'a str),
    /// This text, which is reported.
    Report(Printout),
}

/// Reads a file, makes this of it, and writes or reports that.
pub fn convert<'a, S: Store, O: Sink>(
    alloc: Global,
    conversion: Conversion<'a>,
    file: &'a str,
    files: &mut S,
    out: &mut O,
) -> Ending<'a>
    // The command that makes this of a file is carried out: the file is read, and what is made of it is written and its
    // length reported, or is reported itself; or the first fault or refusal ends the call.
    ensures { IsDone (ending_of result) (command_making conversion.entry file.now)
        (outside (S.files files.old) (S.read_faults files.old) (S.write_faults files.old) (S.calls files.old)
        (O.got out.old) (O.faults out.old))
        (outside (S.files files.new) (S.read_faults files.new) (S.write_faults files.new) (S.calls files.new)
        (O.got out.new) (O.faults out.new)) }
{
    match read_file(alloc, file, files) {
        Ok(bytes) => convert_bytes(alloc, conversion, file, &bytes, files, out),
        Err(ending) => ending,
    }
}

// Makes this of a file with these bytes that is not too long, and writes or reports it.
fn convert_bytes<'a, S: Store, O: Sink>(
    alloc: Global,
    conversion: Conversion<'a>,
    file: &'a str,
    bytes: &[u8],
    files: &mut S,
    out: &mut O,
) -> Ending<'a>
    ensures { HasOutcome (ending_of result) (outcome_of (command_making conversion.entry file.now) (bytes.now ∷ []))
        (outside (S.files files.old) (S.read_faults files.old) (S.write_faults files.old) (S.calls files.old)
        (O.got out.old) (O.faults out.old))
        (outside (S.files files.new) (S.read_faults files.new) (S.write_faults files.new) (S.calls files.new)
        (O.got out.new) (O.faults out.new)) }
{
    if bytes.len() > FILE_BYTES {
        return Ending::Refused {
            file,
            why: Refusal::TooLong,
        };
    }
    match conversion {
        Conversion::File(what, output) => match make_file(alloc, what, bytes) {
            Ok(made) => save(output, &made, files, out),
            Err(why) => unmade(file, why),
        },
        Conversion::Report(what) => match printout_text(alloc, what, bytes) {
            Ok(text) => report(&text, out),
            Err(why) => unmade(file, why),
        },
    }
}
