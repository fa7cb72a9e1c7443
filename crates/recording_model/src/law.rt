//! The laws on what a partition receives from a machine, as cues of a script.

ghost use Rattle.recording_model.specs.Receiving.{ReceivesBootedScripts, ReceivesCues, ReceivesScripts};

use machine_model::{
    acts_within_bounds, keeps_facts, keeps_numbers, never_upon_itself, scripts_end, sees_nothing,
};
use range_model::cues_are_in_range;

/// What a partition receives in a tick is what a cue of a script of the partition may have, where the machine's numbers are in their
/// ranges, as from a boot of images that begin at words and load bytes. So what it receives in a run is such a script, from any such
/// machine that has run since its boot, and from the boot on.
pub fn received_is_a_script()
    // What a partition receives from a machine in a tick, a script of the partition may have: a message has at least
    // one byte and no more than its channel allows, the channel goes by the partition's name for it, and the partition
    // is a destination of it; a message is taken out of a queue whose source the partition is; a signal comes over a
    // link that goes to the partition; in a slot of its own it hears nothing of others and has no order; it is shown
    // something there alone, where it is a system partition, and as many bytes as a structure has.
    ensures tick { ReceivesCues }
    // So is what a partition receives in at most 4000000000 ticks, and nothing follows a halt of the whole system; from
    // any machine after a run, and from the boot on.
    ensures run { ReceivesScripts }
    ensures booted { ReceivesBootedScripts }
{
    acts_within_bounds();
    cues_are_in_range();
    keeps_facts();
    keeps_numbers();
    never_upon_itself();
    scripts_end();
    sees_nothing();
}
