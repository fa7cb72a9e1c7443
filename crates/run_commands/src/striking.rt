//! The upsets of a run, by the file that it is given for them.

ghost use Rattle.std.specs.Prelude.{◌+◌, ◌≤◌, IfOk, map};
ghost use Rattle.xm_base.specs.declared.limits.TheConstants.{TICKS};
ghost use Rattle.upset_files.specs.Fits.{AllFit};
ghost use Rattle.upset_files.specs.Reading.{upsets_from};
ghost use Rattle.file_commands.specs.Outcome.{upsets_for, upsets_or};
ghost use Rattle.file_commands.specs.EndingValues.{vector_bytes};
ghost use Rattle.file_commands.specs.lemmas.EndingValuesTerms.{MakesOr};
ghost use Rattle.command_line.specs.Seen.{seen_options};

use builders::no_upsets;
use command_line::RunOptions;
use file_commands::{Ending, content_after, unmade};
use std::alloc::Global;
use upset_files::read_upsets;
use upset_model::UpsetLine;
use xm_conf::Conf;

/// The upsets of a run of this many ticks from a tick on, under a configuration, by the contents of the files that it reads beside its
/// container; or their refusal. There are none where no file is named.
#[tactic(auto, unfolding(file_commands::specs::Outcome::upsets_for))]
pub(crate) fn upsets_for<'a>(
    alloc: Global,
    conf: &Conf,
    begun: u64,
    ticks: u64,
    options: RunOptions<'a>,
    contents: &[Vec<u8>],
) -> Result<Vec<UpsetLine>, Ending<'a>>
    requires { begun + ticks ≤ TICKS }
    ensures value { MakesOr (λ upsets. upsets.items) result
        (upsets_for conf.now begun ticks (seen_options options.entry) (map vector_bytes contents.now)) }
    ensures fit { IfOk result (λ upsets. AllFit conf.now (begun + ticks) begun upsets.items) }
{
    match options.upsets() {
        Some(file) => upsets_or(
            alloc,
            conf,
            begun,
            ticks,
            file,
            content_after(options.inputs(), contents),
        ),
        None => Ok(Vec::new(alloc)),
    }
}

// The upsets that a file has, or its refusal.
fn upsets_or<'a>(
    alloc: Global,
    conf: &Conf,
    begun: u64,
    ticks: u64,
    file: &'a str,
    text: &[u8],
) -> Result<Vec<UpsetLine>, Ending<'a>>
    requires { begun + ticks ≤ TICKS }
    ensures value { MakesOr (λ upsets. upsets.items) result
        (upsets_or file.now (upsets_from conf.now begun (begun + ticks) text.now)) }
    ensures fit { IfOk result (λ upsets. AllFit conf.now (begun + ticks) begun upsets.items) }
{
    match read_upsets(alloc, text, conf, begun, begun + ticks) {
        Ok(upsets) => Ok(upsets),
        Err(fault) => Err(unmade(file, no_upsets(alloc, fault))),
    }
}
