//! What a run does after its report: core files are written, and the files that were made after them, and it ends.

ghost use Rattle.std.specs.Prelude.{ℕ, List, ◌++◌, Option, length, map};
ghost use Rattle.run_commands.specs.EndsAfter.{EndsAfter};
ghost use Rattle.run_commands.specs.Boards.{EndsRun};
ghost use Rattle.run_commands.specs.lemmas.Cores.{AreForPartitions, FitInto};
ghost use Rattle.file_commands.specs.Outcome.{Output, core_outputs};
ghost use Rattle.run_commands.specs.lemmas.Made.{made_output};
ghost use Rattle.file_commands.specs.EndingValues.{AreSaved, ending_of};
ghost use Rattle.file_commands.specs.Work.{Outside, outside};
ghost use Rattle.command_line.specs.Seen.{seen_files};

use crate::cores::write_cores;
use crate::making::{MadeFile, write_made};
use command_line::PartFiles;
use file_commands::Ending;
use uart_board::{Board, ViewBoard};
use xm_machine::Machine;
use xm_outside::Store;

/// Writes core files of a machine, and these files after them; or how the call ends at the first that is not written.
pub(crate) fn write_later<'a, S: Store>(
    machine: &Machine,
    cores: PartFiles<'a>,
    made: &[MadeFile<'a>],
    room: &mut [u8],
    files: &mut S,
) -> Result<(), Ending<'a>>
    requires inside { AreForPartitions (length machine.now.state.parts) (seen_files cores) }
    requires room { FitInto machine.now.state.system (length room.old) (seen_files cores) }
    ensures { (got : Option (List ℕ)) (faults : ℕ)
        → AreSaved result (core_outputs machine.now.state (seen_files cores.entry) ++ map made_output made.now)
        (outside (S.files files.old) (S.read_faults files.old) (S.write_faults files.old) (S.calls files.old)
        got faults)
        (outside (S.files files.new) (S.read_faults files.new) (S.write_faults files.new) (S.calls files.new)
        got faults) }
{
    match write_cores(machine, cores, room, files) {
        Ok(()) => write_made(made, files),
        Err(ending) => Err(ending),
    }
}

/// How a run ends whose whole report went out, by whether the files after it were written.
pub fn ended<'a>(saved: Result<(), Ending<'a>>, board: &Board) -> Ending<'a>
    // A run whose files after its report were all written ends well where no place is marked, else with the lowest
    // place that is; where one was not, by that.
    ensures { (outputs : List Output) (before after : Outside) → AreSaved saved.entry outputs before after
        → EndsAfter (ending_of result) outputs (⟦<Board as ViewBoard>⟧.board_view board.now) before after }
{
    match saved {
        Ok(()) => heard(board),
        Err(ending) => ending,
    }
}

// How a run ends all of whose writes are done: well, or with the lowest place of the board that is marked.
fn heard<'a>(board: &Board) -> Ending<'a>
    ensures { EndsRun (ending_of result) (⟦<Board as ViewBoard>⟧.board_view board.now) }
{
    match board.failed() {
        Some(place) => Ending::UartFault { place },
        None => Ending::Done,
    }
}
