//! Two runs of systems that are the same for a closed set of partitions are the same for it.

ghost use Rattle.xm_flows.specs.Laws.{ClosedRunsAlike, NoneSteers, RoundsFindGroups, UnsteeredRunsAlike};
ghost use Rattle.xm_flows.specs.Rights.{ActsByRight};
ghost use Rattle.xm_flows.specs.Together.{StartTogether, TicksTogether, TogetherAgree, UnsteeredTicks};

use machine_model::{
    acts_within_bounds, all_ticks, boots_alone, keeps_numbers, one_tick, sees_nothing,
};

/// What a partition does beyond itself is by right: it puts messages by its source ports, takes them from its queues, and reaches others
/// in any other way only as a system partition, or by an action of its health table that reaches all.
pub fn acts_by_right()
    // Law: whatever a partition executes, it puts messages by its source ports alone, takes them from queues of which
    // it is the destination, and signals over its own links; only a system partition gives an order to another one, and
    // asks for a plan, which is one that it sees; the maintenance plan is started only by an action of its health table
    // that does that, and an event of all only by a system partition or by an action of its health table that does this
    // very event.
    ensures law { ActsByRight }
{
    acts_within_bounds();
}

/// What as many rounds over the channels and links as there are partitions leave of a partition's bit is its group: the least set that has
/// it and that keeps the rules of channels and links.
pub fn rounds_find_groups()
    // Law: what those rounds leave, of each partition of a configuration that meets the rules, is its group, of
    // partitions that there are, and it is covered exactly where the group is a closed set.
    ensures law { RoundsFindGroups }
{}

/// Two runs of systems that are the same for a closed set of partitions, and in which each tick steers the set alike, are the same for it:
/// states, channels, lines and console bytes. Where no partition may steer others, no tick steers.
pub fn closed_runs()
    // Law: two systems that meet the rules are the same for a set of partitions, which is closed in both: each member
    // has the same things of its own, and frames, slots of members, channels with an end at a member and links to
    // members are the same. Where each of these ticks steers the set alike in both runs, they agree on it after these
    // ticks: on states, channels, counts, clocks, the plan and its frame; and each member has printed the same lines
    // and written the same console bytes.
    ensures law { ClosedRunsAlike }
    // Law: where there is no system partition, and no health table has an action on the hypervisor or on the plan, no
    // tick steers; so the law needs no premise but on configurations, images and input words.
    ensures none { NoneSteers }
    ensures unsteered { UnsteeredRunsAlike }
{
    acts_by_right();
    all_ticks();
    boots_alone();
    keeps_numbers();
    one_tick();
    sees_nothing();
}

/// For the proof: two machines of systems that are the same for a closed set of partitions go together for it, from any state of both.
pub fn go_together()
    // They boot together.
    ensures start { StartTogether }
    // Machines that go together for the set, and in which a tick steers it alike, are together after that tick, and
    // each member receives the same in it.
    ensures tick { TicksTogether }
    // They agree on the set.
    ensures agree { TogetherAgree }
    // Where no partition may steer others, and no plan is asked for, a tick steers nothing and asks for no plan.
    ensures unsteered { UnsteeredTicks }
{
    acts_by_right();
    boots_alone();
    one_tick();
    sees_nothing();
}
