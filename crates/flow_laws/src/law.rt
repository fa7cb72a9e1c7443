//! The laws of time and of steering over the whole system.

ghost use Rattle.flow_laws.specs.Planned.{NeedsAreServed, SlotsAsPlanned};
ghost use Rattle.flow_laws.specs.Steerers.{SteeredRunsAlike, SteerersAlike};

use machine_laws::{acts_alone, goes_as_planned, serves_needs};
use machine_model::{earlier_ticks, keeps_numbers, keeps_plans};
use xm_flows::{acts_by_right, closed_runs};

/// Where no partition may steer others, the hypervisor goes on, each tick's slot is that of plan 0 at this moment of its frame, and each
/// requirement that the plan meets is served.
pub fn slots_as_planned()
    // Law: take a system that meets the rules, without a system partition and without a health table that has an action
    // on the hypervisor or on the plan. Before each tick of its run the hypervisor has not halted, the hardware clock
    // shows the number of the tick, plan 0 runs, and the slot is the one of plan 0 at that number modulo the frame,
    // whatever any partition executes.
    ensures law { SlotsAsPlanned }
    // Law: there, cut the run into windows of the period of a requirement that plan 0 meets. In each window the
    // partition has at least the requirement's duration of ticks in its own slots.
    ensures needs { NeedsAreServed }
{
    acts_by_right();
    goes_as_planned();
    keeps_numbers();
    keeps_plans();
    serves_needs();
}

/// Two runs are steered alike where each partition that may steer others has the same things of its own in both and receives the same in
/// both; so they are alike for a closed set of partitions for which the systems are the same.
pub fn steerers_alike()
    // Law: let the plans of two systems have the same frames, and let each partition that may steer others in one of
    // them have the same things of its own in both, and receive the same in both runs. Then each tick steers each set of
    // partitions alike.
    ensures law { SteerersAlike }
    // Law: so for a closed set of partitions for which the systems are the same, the runs are the same, where those that
    // may steer receive the same.
    ensures closed { SteeredRunsAlike }
{
    acts_by_right();
    acts_alone();
    closed_runs();
    earlier_ticks();
    keeps_numbers();
}
