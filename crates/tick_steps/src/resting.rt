//! The rest of partitions that do no work in a tick.

ghost use Rattle.std.specs.Prelude.{◌≡◌, ◌<◌, Some, length};
ghost use Rattle.std.specs.Bool.{OnTrue};
ghost use Rattle.system_state.specs.State.{with_machine};
ghost use Rattle.machine_model.specs.Lists.{is_number};
ghost use Rattle.machine_model.specs.Partition.{rested};
ghost use Rattle.span_model.specs.Passes.{part_at, rest_but, with_part};

use system_state::interrupts::HARDWARE_TIMER;
use system_state::{Sys, engine};
use virt_clocks::{Clock, Timer};
use xm_base::{PartId, State};

/// All partitions rest at this time, but for one where it is named. Where there is no other, or no hardware timer of the others is due, that
/// leaves all as they are.
#[inline(always)]
pub fn rest(sys: &mut Sys, working: Option<PartId>, time: u64)
    // All partitions, or all but one, rest in this tick.
    ensures { sys.new ≡ with_machine (rest_but working time sys.old.machine) sys.old }
{
    if engine::is_known_untimed(sys) {
        return;
    }
    if is_alone(sys, working) {
        return;
    }
    if engine::is_known_undue(sys, working, time) {
        return;
    }
    rest_timed(sys, working, time);
    engine::look_at_deadlines(sys, working);
}

// The same where a timer may be due.
fn rest_timed(sys: &mut Sys, working: Option<PartId>, time: u64)
    ensures { sys.new ≡ with_machine (rest_but working time sys.old.machine) sys.old }
{
    if engine::is_timed(sys) {
        rest_each(sys, working, time);
    }
}

// Whether the partition that works is the only one that there is.
fn is_alone(sys: &Sys, working: Option<PartId>) -> bool
    ensures one { OnTrue result (length sys.now.machine.parts ≡ 1) }
    ensures working { OnTrue result (working ≡ Some 0) }
{
    sys.count() == 1 && working == Some(0)
}

// The same, one partition after the other.
#[inline(never)]
fn rest_each(sys: &mut Sys, working: Option<PartId>, time: u64)
    ensures { sys.new ≡ with_machine (rest_but working time sys.old.machine) sys.old }
{
    for p in 0..sys.count() {
        if !is_working(working, p) {
            rest_one(sys, p, time);
        }
    }
}

// Whether this partition is the one that works.
fn is_working(working: Option<PartId>, p: PartId) -> bool
    ensures { result ≡ is_number working p }
{
    match working {
        Some(working) => working == p,
        None => false,
    }
}

/// A partition rests: only its hardware timer is looked at, where it is armed.
pub fn rest_one(sys: &mut Sys, p: PartId, time: u64)
    // Called for a partition that exists.
    requires { p < length sys.old.machine.parts }
    // The partition rests in this tick, and nothing else changes.
    ensures { sys.new ≡ with_machine (with_part p (rested time (part_at p sys.old.machine)) sys.old.machine) sys.old }
{
    match hardware_timer(sys, p) {
        Some(_) => look_at_timer(sys, p, time),
        None => {}
    }
}

// The timer of a partition on the hardware clock, where it is armed.
fn hardware_timer(sys: &Sys, p: PartId) -> Option<Timer>
    requires { p < length sys.now.machine.parts }
    ensures { result ≡ (part_at p sys.now.machine).clocks.hardware_timer }
{
    sys.part(p).clocks.timer(Clock::Hw)
}

// A partition's hardware timer is looked at, unless it has halted.
#[tactic(auto, unfolding(machine_model::specs::Partition::rested, machine_model::specs::Partition::hardware_looked_at))]
fn look_at_timer(sys: &mut Sys, p: PartId, time: u64)
    requires { p < length sys.old.machine.parts }
    ensures { sys.new ≡ with_machine (with_part p (rested time (part_at p sys.old.machine)) sys.old.machine) sys.old }
{
    let own = sys.part_mut(p);
    if own.state != State::Halted && own.clocks.hw_due(time) {
        own.virt.raise(HARDWARE_TIMER);
    }
}
