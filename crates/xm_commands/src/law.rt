//! The laws on a run and what comes after it: the replay of one of its partitions, and the run that goes on from it.

ghost use Rattle.xm_commands.specs.RunThenAlone.{RunsThenAlone};
ghost use Rattle.xm_commands.specs.RunThenOnward.{RunsThenGoOn};

use command_line::grammar;
use continuation_laws::{boots_are_beginnings, runs_go_on};
use machine_model::{keeps_facts, keeps_hardware_clock, keeps_numbers, keeps_plans, keeps_shapes};
use replay_setup::run_is_replayed;
use saved_machines::{restores_what_was_saved, savable_machines_have_files};
use upset_files::upsets_are_spelled;
use upset_laws::{flips_bits, reports_upsets};
use xm_conf::broken_unless_fits;

/// After a run that is done, a replay of a partition by the script that the run wrote for it is done, prints the partition's own lines of the
/// run's report, and writes the core file that the partition has after the run: with the upsets of the run, where it has some.
pub fn runs_then_alone()
    // Law, over `answer` alone: after a run that is done, over the files that it left, a replay of a partition by
    // the script that the run wrote for it, with the partition's own input file and with the file of the run's
    // upsets, where there is one, is done; it prints the partition's own lines of the run's report, and the core
    // file that it writes is the one that the partition has after the run. The run is to write over none of the
    // container, that input file and the file of the upsets, and no later script and no saved machine over this
    // one; and the container's file is to hold bytes, as each file of a store does.
    ensures law { RunsThenAlone }
{
    boots_are_beginnings();
    grammar();
    run_is_replayed();
}

/// After a run that is done and saves its machine, a run from that file that is done, too, prints what the run in one piece prints after the
/// ticks of the first one, and writes the core files and the saved machine that the run in one piece leaves.
pub fn runs_then_go_on()
    // Law, over `answer` alone: take a run from the boot on that is done and saves its machine, and over the files
    // that it left a run of the same container from that file that is done, too. It prints a first line, and then
    // what the run in one piece, with the upsets of both, prints after the lines of the first ticks; its core files
    // and its saved machine are those after the run in one piece. The first run is to write over neither the
    // container nor the upsets of the second one; the container's file is to hold bytes, as each file of a store
    // does; and the numbers of the machine that is saved are to be in their ranges, as `xm_main` promises. Where
    // that machine had halted, the upsets of the second run are to be of ticks that the first one did not do.
    ensures law { RunsThenGoOn }
{
    boots_are_beginnings();
    broken_unless_fits();
    flips_bits();
    grammar();
    keeps_facts();
    keeps_hardware_clock();
    keeps_numbers();
    keeps_plans();
    keeps_shapes();
    reports_upsets();
    restores_what_was_saved();
    runs_go_on();
    savable_machines_have_files();
    upsets_are_spelled();
}
