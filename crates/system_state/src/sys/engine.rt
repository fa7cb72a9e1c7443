//! What the engine of a tick does to a system: for the crates that do ticks and calls.

ghost use Rattle.std.specs.Prelude.{◌≡◌, ◌+◌, ◌^◌, ◌<◌, Some, false, length};
ghost use Rattle.std.specs.Bool.{OnTrue};
ghost use Rattle.machine_model.specs.Caller.{with_answer};
ghost use Rattle.machine_model.specs.LocalTick.{clocked, with_interrupts};
ghost use Rattle.machine_model.specs.Traffic.{interrupted};
ghost use Rattle.span_model.specs.Meeting.{awake};
ghost use Rattle.system_state.specs.State.{NoneDue, any_timed, part_at, with_machine, with_part};
ghost use Rattle.system_state.specs.Turning.{counted_on};

use crate::answering::OUT_0;
use crate::deadlines::{least_but, least_deadline};
use crate::own_state::any_timed;
use crate::sys::Sys;
use xm_base::{PartId, State};

/// Whether it is known, without a look at the partitions, that no hardware timer is armed.
pub fn is_known_untimed(sys: &Sys) -> bool
    // Where it is known without a look that no timer is armed, none is.
    ensures { OnTrue result (any_timed sys.now.machine.parts ≡ false) }
{
    sys.untimed
}

/// Whether the hardware timer of a partition is armed. Where none is, that stays known until a partition's state is lent.
#[inline(never)]
pub fn is_timed(sys: &mut Sys) -> bool
    // Whether the hardware timer of some partition is armed; the look changes nothing.
    ensures value { result ≡ any_timed sys.old.machine.parts }
    ensures unchanged { sys.new ≡ sys.old }
{
    if any_timed(&sys.parts) {
        return true;
    }
    sys.untimed = true;
    false
}

/// Whether it is known, without a look at the partitions, that no hardware timer is due but for that of the partition that works.
#[inline(always)]
pub fn is_known_undue(sys: &mut Sys, working: Option<PartId>, time: u64) -> bool
    // Where it is known without a look that no timer of the others is due, none is; asking changes nothing.
    ensures due { OnTrue result (NoneDue working time sys.old.machine.parts) }
    ensures unchanged { sys.new ≡ sys.old }
{
    sys.least = least_but(&sys.parts, sys.lent, sys.least, working);
    sys.lent = working;
    time < sys.least
}

/// Looks when the first hardware timer is due but for that of the partition that works. Until then that stays known.
#[inline(never)]
pub fn look_at_deadlines(sys: &mut Sys, working: Option<PartId>)
    // The look changes nothing.
    ensures { sys.new ≡ sys.old }
{
    sys.least = least_deadline(&sys.parts, working);
    sys.lent = working;
}

/// The interrupts of a tick become pending at a partition: the start of a slot, and those of its timers that are due.
#[inline(always)]
pub fn meet(sys: &mut Sys, p: PartId, first: bool)
    // Called for a partition that exists.
    requires { p < length sys.old.machine.parts }
    // The interrupts of a tick are pending at the partition, and nothing else changes.
    ensures value { sys.new ≡ with_machine (with_part p (with_interrupts sys.old.machine.time first (part_at p sys.old.machine)) sys.old.machine) sys.old }
{
    sys.parts[usize::from(p)].meet(sys.time, first);
}

/// An interrupt becomes pending at a partition, unless the partition has halted.
pub fn raise(sys: &mut Sys, p: PartId, interrupt: u8)
    // Called for a partition that exists and for an interrupt below 32.
    requires partition { p < length sys.old.machine.parts }
    requires interrupt { interrupt < 32 }
    // The interrupt is pending at the partition unless the partition has halted, and nothing else changes.
    ensures value { sys.new ≡ with_machine (with_part p (interrupted (Some interrupt) (part_at p sys.old.machine)) sys.old.machine) sys.old }
{
    sys.parts[usize::from(p)].raise(interrupt);
}

/// A partition becomes ready.
#[inline(always)]
pub fn wake(sys: &mut Sys, p: PartId)
    // Called for a partition that exists.
    requires { p < length sys.old.machine.parts }
    // The partition is ready, and nothing else changes.
    ensures value { sys.new ≡ with_machine (with_part p (awake (part_at p sys.old.machine)) sys.old.machine) sys.old }
{
    sys.parts[usize::from(p)].state = State::Ready;
}

/// A tick more on a partition's execution clock.
#[inline(always)]
pub fn count_tick(sys: &mut Sys, p: PartId)
    // Called for a partition that exists and with an execution clock below 2^63.
    requires partition { p < length sys.old.machine.parts }
    requires clock { (part_at p sys.old.machine).clocks.execution < 2 ^ 63 }
    // One tick more counts on the partition's execution clock, and nothing else changes.
    ensures value { sys.new ≡ with_machine (with_part p (clocked (part_at p sys.old.machine)) sys.old.machine) sys.old }
    // The health log is as before.
    ensures log { (part_at p sys.new.machine).health ≡ (part_at p sys.old.machine).health }
{
    sys.parts[usize::from(p)].clocks.pass();
}

/// So many ticks more on a partition's execution clock.
#[inline(always)]
pub fn count_on(sys: &mut Sys, p: PartId, ticks: u64)
    // Called for a partition that exists and with an execution clock that stays below 2^63.
    requires partition { p < length sys.old.machine.parts }
    requires clock { (part_at p sys.old.machine).clocks.execution + ticks < 2 ^ 63 }
    // As many ticks more count on the partition's execution clock, and nothing else changes.
    ensures value { sys.new ≡ with_machine (with_part p (counted_on ticks (part_at p sys.old.machine)) sys.old.machine) sys.old }
{
    sys.parts[usize::from(p)].clocks.pass_many(ticks);
}

/// A call of a partition has this result.
#[inline(always)]
#[tactic(auto, unfolding(machine_model::specs::Caller::with_answer))]
pub fn set_result(sys: &mut Sys, p: PartId, value: u32)
    // Called for a partition that exists.
    requires { p < length sys.old.machine.parts }
    // A call of the partition has this result, and nothing else changes.
    ensures value { sys.new ≡ with_machine (with_part p (with_answer value (part_at p sys.old.machine)) sys.old.machine) sys.old }
{
    sys.parts[usize::from(p)].core.set(OUT_0, value);
}
