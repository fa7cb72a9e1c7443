//! The law on a replay by the script of a run.

ghost use Rattle.replay_setup.specs.OfRun.{RunIsReplayed};

use cue_scripts::written_is_read;
use machine_model::boots_alone;
use upset_files::upsets_are_spelled;
use upset_laws::{contains_upsets, replays_with_upsets, reports_upsets};
use xm_conf::broken_unless_fits;

/// A replay by the script that a run made, with the input words that the partition had in the run and the upsets of the run, may begin, and
/// shows the partition's own lines of the run's report, its core file after the run, and the console bytes that it wrote to its UART in the
/// run.
pub fn run_is_replayed()
    // Law: of a container, of the script of one of its partitions in a run of at most 4000000000 ticks, of the words that
    // the partition had in that run, and of the upsets of that run, which may be none, a replay may begin; its lines are
    // the partition's own of the run's report, those of its upsets among them, the core file at its end is the one after
    // the run, and to each UART it writes what the partition wrote to it in the run, whatever struck the others. That the
    // container is bytes is the one premise on numbers.
    ensures law { RunIsReplayed }
{
    boots_alone();
    broken_unless_fits();
    contains_upsets();
    replays_with_upsets();
    reports_upsets();
    upsets_are_spelled();
    written_is_read();
}
