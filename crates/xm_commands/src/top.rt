//! The top call: from words and files to a report and a status.

ghost use Rattle.std.specs.Prelude.{◌≡◌};
ghost use Rattle.file_commands.specs.Ending.{Usage, complaint};
ghost use Rattle.xm_commands.specs.Page.{IsAnswer};
ghost use Rattle.xm_commands.specs.Top.{IsSaid};
ghost use Rattle.xm_commands.specs.World.{sink_view};

use crate::work::work;
use crate::world::Surroundings;
use command_line::{Words, grammar};
use continuation_laws::{boots_are_beginnings, runs_go_on};
use file_commands::{Ending, Status, complain, status_of};
use machine_model::{keeps_facts, keeps_hardware_clock, keeps_numbers, keeps_plans, keeps_shapes};
use replay_setup::run_is_replayed;
use saved_machines::{restores_what_was_saved, savable_machines_have_files};
use std::alloc::Global;
use uart_board::Board;
use upset_files::upsets_are_spelled;
use upset_laws::{contains_upsets, flips_bits, reports_upsets};
use xm_base::proof;
use xm_conf::broken_unless_fits;
use xm_outside::{Sink, Store};

/// Does what the words say: the named files are read, what is made of them is written, the report goes to `out`, and
/// what partitions write to their consoles goes to the UARTs of the board. Each status but Done has one line on `err`.
pub fn xm_main<S: Store, O: Sink, E: Sink>(
    alloc: Global,
    words: &Words,
    files: &mut S,
    out: &mut O,
    err: &mut E,
    board: &mut Board,
) -> Status
    // It answers these words, in this world, leaving that world. specs/Page.antt has each promise with a sentence.
    ensures call { IsAnswer result words.now
        (⟦<(S, O, E, Board) as Surroundings>⟧.world (files.old, out.old, err.old, board.old))
        (⟦<(S, O, E, Board) as Surroundings>⟧.world (files.new, out.new, err.new, board.new)) }
    // After Done the error output is as it was.
    ensures silent { result ≡ Status.Done → err.new ≡ err.old }
{
    proof! {
        boots_are_beginnings();
        broken_unless_fits();
        contains_upsets();
        flips_bits();
        grammar();
        keeps_facts();
        keeps_hardware_clock();
        keeps_numbers();
        keeps_plans();
        keeps_shapes();
        reports_upsets();
        restores_what_was_saved();
        run_is_replayed();
        runs_go_on();
        savable_machines_have_files();
        upsets_are_spelled();
    }
    let ending = work(alloc, words, files, out, board);
    // A fault of `err` changes no status.
    let _ = complain(err, &ending);
    status_of(&ending)
}

/// The answer to words that cannot be read: they are misused, and the line on `err` says so.
pub fn misused<E: Sink>(err: &mut E) -> Status
    // Words that cannot be read are answered Usage, with its line.
    ensures usage { result ≡ Status.Usage }
    ensures line { IsSaid (complaint Usage) (sink_view (E.got err.old) (E.faults err.old))
        (sink_view (E.got err.new) (E.faults err.new)) }
{
    let misuse = Ending::Usage;
    // A fault of `err` changes no status.
    let _ = complain(err, &misuse);
    status_of(&misuse)
}
