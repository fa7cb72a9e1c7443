//! Where in its plan a machine stands: whose slot it is, and how many ticks are left of it.

ghost use Rattle.std.specs.Prelude.{◌≡◌, ℕ, ◌+◌, ◌<◌, ◌≤◌, IfSome, slice_get};
ghost use Rattle.cyclic_plans.specs.PlanClock.{IsInFrame, here, moment, slot_at, ticks_left};
ghost use Rattle.cyclic_plans.specs.Slots.{IsHere, frame_of, slots_of};
ghost use Rattle.machine_model.specs.Machine.{turn_here};
ghost use Rattle.span_model.specs.Calm.{turn_after};
ghost use Rattle.span_model.specs.Meeting.{first_after};
ghost use Rattle.tick_steps.specs.Machine.{IsMachine};
ghost use Rattle.span_engine.specs.Place.{IsAt, IsPlace};
ghost use Rattle.span_engine.specs.lemmas.PlaceTerms.{past_first_tick, place_after, place_in, place_numbered};

use cyclic_plans::Here;
use hypercalls::Sys;
use xm_conf::{Plan, Slot};

/// Whose slot it is, or `None` in a gap, and how many ticks are left of the slot or gap, with the current one.
#[derive(Clone, Copy, Debug)]
pub struct Place {
    /// The slot, or `None` in a gap.
    pub slot: Option<Here>,
    /// The ticks that are left of it, with the current one: at least one.
    pub left: u64,
}

/// The place of a machine in its plan. The slot of a number and the one after it are looked at first, so that one slot after another is
/// found without a search.
#[inline(always)]
pub(crate) fn place_of(sys: &Sys, number: u8) -> Place
    requires { IsMachine sys.now }
    ensures { IsPlace result sys.now.machine }
{
    place_among(sys, number, number.wrapping_add(1))
}

/// The place of a machine that was at this one this many ticks before: in the same slot or gap, or after its end.
#[inline(always)]
pub(crate) fn place_on(sys: &Sys, place: Place, ticks: u64) -> Place
    requires machine { IsMachine sys.now }
    requires later { ticks < place.left → IsAt (place_after ticks place) sys.now.machine }
    ensures { IsAt result sys.now.machine }
{
    if ticks < place.left {
        later(place, ticks)
    } else {
        next_place(sys, place.slot)
    }
}

/// The slot of a tick, when this many of it are done.
pub(crate) fn slot_after(done: u64, slot: Option<Here>) -> Option<Here>
    ensures { turn_here result ≡ turn_after done (turn_here slot) }
{
    match slot {
        Some(slot) => Some(Here {
            slot: slot.slot,
            part: slot.part,
            first: first_after(done, slot.first),
        }),
        None => None,
    }
}

// Whether a tick is the first of its slot, when this many are done since one that was or was not.
fn first_after(done: u64, first: bool) -> bool
    ensures { result ≡ first_after done first }
{
    if done == 0 { first } else { false }
}

// The place this many ticks later, in the same slot or gap, whose first tick it then is not. That of a gap is handed on as it is: a `None`
// made again costs host instructions.
fn later(place: Place, ticks: u64) -> Place
    requires { ticks ≤ place.left }
    ensures { result ≡ place_after ticks place }
{
    let slot = match place.slot {
        Some(slot) => Some(past(slot)),
        None => place.slot,
    };
    Place {
        slot,
        left: place.left - ticks,
    }
}

// What is reported of a slot past its first tick.
fn past(slot: Here) -> Here
    ensures { result ≡ past_first_tick slot }
{
    Here {
        slot: slot.slot,
        part: slot.part,
        first: false,
    }
}

// The place after the end of a slot or gap. The slot of the next number is looked at first, then number 0, with which a frame begins.
#[inline(always)]
fn next_place(sys: &Sys, slot: Option<Here>) -> Place
    requires { IsMachine sys.now }
    ensures { IsPlace result sys.now.machine }
{
    place_among(sys, number_after(slot), 0)
}

// The number of the slot after this one; after a gap, any.
fn number_after(slot: Option<Here>) -> u8 {
    match slot {
        Some(slot) => slot.slot.wrapping_add(1),
        None => 0,
    }
}

// The place, where the slots of these numbers are looked at first.
#[inline(always)]
fn place_among(sys: &Sys, one: u8, other: u8) -> Place
    requires { IsMachine sys.now }
    ensures { IsPlace result sys.now.machine }
{
    match near(sys, one, other) {
        Some(place) => place,
        None => search(sys),
    }
}

// The place, where a slot of one of these numbers runs.
#[inline(always)]
fn near(sys: &Sys, one: u8, other: u8) -> Option<Place>
    requires { IsMachine sys.now }
    ensures { IfSome result (λ place. IsPlace place sys.now.machine) }
{
    let moment = moment(sys);
    let plan = plan_here(sys);
    match in_slot(moment, &plan.slots, one) {
        Some(place) => Some(place),
        None => in_slot(moment, &plan.slots, other),
    }
}

// The place, by a search of all slots.
#[inline(never)]
fn search(sys: &Sys) -> Place
    requires { IsMachine sys.now }
    ensures { IsPlace result sys.now.machine }
{
    Place {
        slot: here(sys),
        left: ticks_left(sys),
    }
}

// How far the next tick is into the frame.
fn moment(sys: &Sys) -> u64
    requires { IsInFrame sys.now.machine.system.conf sys.now.machine.clock sys.now.machine.time }
    ensures { result ≡ moment sys.now.machine.clock sys.now.machine.time }
{
    sys.now() - sys.plan_clock().frame_start()
}

// The plan that runs.
fn plan_here(sys: &Sys) -> &Plan
    requires { IsInFrame sys.now.machine.system.conf sys.now.machine.clock sys.now.machine.time }
    ensures { result.now.slots ≡ slots_of sys.now.machine.system.conf sys.now.machine.clock.plan }
{
    let plan = sys.plan_clock().plan();
    &sys.conf().raw().plans[usize::from(plan)]
}

// The place, where the slot of this number runs at a moment of the frame.
fn in_slot(moment: u64, slots: &[Slot], number: u8) -> Option<Place>
    ensures { result ≡ place_numbered moment number (slice_get slots.now number) }
{
    match slots.get(usize::from(number)) {
        Some(slot) => place_in(moment, number, slot),
        None => None,
    }
}

// The place in a slot, where it runs at a moment of the frame.
fn place_in(moment: u64, number: u8, slot: &Slot) -> Option<Place>
    ensures { result ≡ place_in moment number slot.now }
{
    let start = u64::from(slot.start);
    let end = start + u64::from(slot.duration);
    if start <= moment && moment < end {
        Some(Place {
            slot: Some(Here {
                slot: number,
                part: slot.part,
                first: start == moment,
            }),
            left: end - moment,
        })
    } else {
        None
    }
}

// Whose slot it is, or `None` in a gap.
fn here(sys: &Sys) -> Option<Here>
    requires { IsInFrame sys.now.machine.system.conf sys.now.machine.clock sys.now.machine.time }
    ensures value { result ≡ here sys.now.machine.system.conf sys.now.machine.clock sys.now.machine.time }
    ensures covers { IfSome result (IsHere (moment sys.now.machine.clock sys.now.machine.time) (slots_of sys.now.machine.system.conf sys.now.machine.clock.plan)) }
{
    sys.plan_clock().here(sys.conf(), sys.now())
}

// How many ticks are left of the slot or gap that it is, with the next.
fn ticks_left(sys: &Sys) -> u64
    requires { IsInFrame sys.now.machine.system.conf sys.now.machine.clock sys.now.machine.time }
    ensures value { result ≡ ticks_left sys.now.machine.system.conf sys.now.machine.clock sys.now.machine.time }
    ensures alike { (ticks : ℕ) → ticks < result → slot_at sys.now.machine.system.conf sys.now.machine.clock (sys.now.machine.time + ticks) ≡ slot_at sys.now.machine.system.conf sys.now.machine.clock sys.now.machine.time }
    ensures within { sys.now.machine.time + result ≤ sys.now.machine.clock.frame_start + frame_of sys.now.machine.system.conf sys.now.machine.clock.plan }
    ensures some { 0 < result }
{
    sys.plan_clock().ticks_left(sys.conf(), sys.now())
}
