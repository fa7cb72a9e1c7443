//! The laws on one tick of one partition in isolation.

ghost use Rattle.replay_model.specs.Kept.{PassesKeep};
ghost use Rattle.replay_model.specs.Laws.{AwayTicks, RestingTicksAlone, WorkingTicks};
ghost use Rattle.replay_model.specs.TakingLaws.{TakesAway, TakesResting, TakesWorking};
ghost use Rattle.replay_model.specs.rows.TakingRows.{AskedRows, EventRows, QueueRows, SightRows};
ghost use Rattle.replay_model.specs.ReceivingLaws.{BootedScriptIsTaken, ScriptIsTaken, ReceivedIsTaken};

use machine_model::{
    acts_within_bounds, boots_alone, keeps_facts, keeps_numbers, keeps_plans, keeps_shapes,
    one_tick, received_as_allowed,
};

/// A tick in the slot of another partition, or in a gap.
pub fn away_ticks()
    // A tick in the slot of another partition, or in a gap: the traffic of others on its channels, an order, a
    // hypervisor event, its rest, and the clocks.
    ensures law { AwayTicks }
{}

/// A tick in a slot of a partition that takes no turns.
pub fn resting_ticks_alone()
    // A tick in a slot of its own, where it is suspended or has halted: it rests.
    ensures law { RestingTicksAlone }
{}

/// A tick in which a partition takes its turn.
pub fn working_ticks()
    // A tick in which it takes its turn: its work, its own traffic, the hypervisor event of its act, and the clocks;
    // its other acts do nothing to it.
    ensures law { WorkingTicks }
{}

/// Which cues a partition can take in each of these.
pub fn takes_cues()
    // Which cues it can take, in each of these: a queue that gets a message is not full, and one that gives a message
    // is not empty; it is shown what it asks for, as its place allows; and in a slot of its own a hypervisor event is
    // that of its own act.
    ensures away { TakesAway }
    ensures resting { TakesResting }
    ensures working { TakesWorking }
{}

/// What each of these keeps of the machine, whatever it leaves of the others: how many there are, the clocks, and the facts on the others.
pub fn passes_keep()
    // A tick of one partition in isolation, of each kind, leaves what runs and how many partitions and channels there
    // are, counts one tick more as begun, keeps the plan clock in its frame and the hardware clock no later than the
    // ticks, and keeps the facts on all other partitions.
    ensures law { PassesKeep }
{
    keeps_plans();
}

/// Rows worked by hand on cues that can be taken and cues that cannot.
pub fn takes_by_row()
    // The rows on cues worked by hand: each kind of cue that cannot be taken, and its neighbour that can.
    ensures queues { QueueRows }
    ensures sights { SightRows }
    ensures asked { AskedRows }
    ensures events { EventRows }
{}

/// What a partition receives in a tick of a machine, it can take when it is replayed in isolation; so it can take each cue
/// of its script of a run, from any machine that has run since its boot, and from the boot on.
pub fn received_can_be_taken()
    // Under a configuration that meets the rules: what a partition receives from a machine in a tick, the partition can
    // take in its part of that machine; so each cue of its script over a run, in the state which the cues before it
    // leave, from any machine after a run, and from the boot on.
    ensures tick { ReceivedIsTaken }
    ensures run { ScriptIsTaken }
    ensures booted { BootedScriptIsTaken }
{
    received_as_allowed();
    acts_within_bounds();
    one_tick();
    boots_alone();
    keeps_numbers();
    keeps_facts();
    keeps_shapes();
}
