//! A system is generated from a number and run, and its run is reported in two lines.

ghost use Rattle.std.specs.Prelude.{[]};
ghost use Rattle.file_commands.specs.Outcome.{outcome_of};
ghost use Rattle.file_commands.specs.EndingValues.{ending_of};
ghost use Rattle.file_commands.specs.Work.{Reports};
ghost use Rattle.command_line.specs.Words.{Generate};

use file_commands::{Ending, report};
use generated_runs::run_lines;
use std::alloc::Global;
use xm_base::Memory;
use xm_outside::Sink;

/// Generates a system from a number, runs it, and reports its run.
#[tactic(auto, unfolding(file_commands::specs::Outcome::outcome_of))]
pub(crate) fn generate<'a, O: Sink>(alloc: Global, number: u32, out: &mut O) -> Ending<'a>
    ensures { Reports (ending_of result) (outcome_of (Generate number) []) (O.got out.old) (O.faults out.old)
        (O.got out.new) (O.faults out.new) }
{
    match run_lines(alloc, number) {
        Ok(text) => report(&text, out),
        Err(Memory) => Ending::NoMemory,
    }
}
