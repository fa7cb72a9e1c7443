//! Ticks of slots and gaps.

ghost use Rattle.std.specs.Prelude.{◌≡◌, ℕ, ◌+◌, ◌-◌, ◌%◌, ◌^◌, ◌<◌, ◌≤◌, ◌++◌, Bool, true, false, [], Some, length};
ghost use Rattle.std.specs.Bool.{OnTrue};
ghost use Rattle.cyclic_plans.specs.PlanClock.{IsInFrame};
ghost use Rattle.system_state.specs.State.{with_machine};
ghost use Rattle.machine_model.specs.Machine.{Machine, run, turn_here, turn_of};
ghost use Rattle.machine_model.specs.Partition.{PartitionState, takes_turns};
ghost use Rattle.span_model.specs.Meeting.{NoDelivery};
ghost use Rattle.span_model.specs.Passes.{part_at, rest_but, with_part};
ghost use Rattle.span_model.specs.SpanLaws.{IsNobodys};
ghost use Rattle.span_model.specs.Spans.{IsSlotOf, IsStretch, after_span, plan_line};
ghost use Rattle.span_model.specs.Undisturbed.{NoneFallsDue};
ghost use Rattle.virt_traps.specs.Virtual.{due};
ghost use Rattle.tick_steps.specs.Kept.{AreBareTicks};
ghost use Rattle.tick_steps.specs.Machine.{IsMachine};
ghost use Rattle.span_engine.specs.Place.{IsAt};
ghost use Rattle.span_engine.specs.lemmas.Ending.{CanEndTick, IsTickEnded};
ghost use Rattle.span_engine.specs.Spans.{IsSpanDone};
ghost use Rattle.tick_steps.specs.lemmas.SpanTerms.{IsSilent, AreDoneFrom, CanTake, CanTakeAfter, HasTurned, IsIdle, HasMetInterrupts, NoneDue, machine_underway};
ghost use Rattle.tick_steps.specs.Span.{counted_on};

use crate::ending::{end_tick, end_ticks};
use crate::place::{Place, place_of, place_on, slot_after};
use cyclic_plans::Here;
use hypercalls::{Note, Sys, call_reported};
use machine_model::{
    acts_within_bounds, keeps_facts, keeps_hardware_clock, keeps_numbers, keeps_plans,
};
use span_model::{
    calm_ticks, next_tick, resting_ticks, slot_goes_on, tick_in_passes, undisturbed_ticks,
};
use sparc_step::Turn;
use system_state::engine;
use tick_steps::{
    Beyond, Lines, Span, goes_on, interrupt, meet_trap, rest, take_interrupt, takes_turns,
};
use virt_clocks::next_deadline_is_least;
use xm_base::{PartId, proof};

/// At most this many ticks, up to the first that emits something or reaches beyond its partition. Their lines are those of the
/// last. Answers the slot that the last is in, or `None` in a gap. The slot of a number and the one after it are looked at first. It stands
/// by itself, so that the compiler has all host registers for the loop.
#[inline(never)]
pub(crate) fn run_span(
    sys: &mut Sys,
    lines: &mut Lines,
    span: &mut Span,
    number: u8,
    most: u64,
) -> Option<Here>
    requires machine { IsMachine sys.old }
    requires running { sys.old.machine.halted ≡ false }
    requires some { 0 < most }
    requires ticks { sys.old.machine.ticks + most ≤ 4000000000 }
    requires empty { lines.old ≡ [] }
    ensures done { IsSpanDone span.new most sys.old sys.new lines.new }
    ensures bare { AreBareTicks span.new.ticks sys.old.machine }
    ensures turn { turn_here result ≡ turn_of (run sys.old.machine (span.new.ticks - 1)) }
{
    proof! {
        keeps_facts();
        keeps_hardware_clock();
        keeps_numbers();
        keeps_plans();
    }
    let mut at = place_of(sys, number);
    let mut left = most;
    let mut goes = true;
    while goes {
        let here = left.min(at.left);
        run_part(sys, lines, span, at, here);
        goes = can_go_on(span, lines, left);
        left -= span.ticks;
        if goes {
            at = place_on(sys, at, span.ticks);
        }
    }
    let last = slot_after(span.ticks - 1, at.slot);
    span.ticks = most - left;
    last
}

// Whether more can be done after these ticks: they are fewer than there may be, and the last emits nothing.
#[inline(always)]
fn can_go_on(span: &Span, lines: &Lines, most: u64) -> bool
    ensures fewer { OnTrue result (span.now.ticks < most) }
    ensures silent { OnTrue result (IsSilent span.now lines.now) }
{
    span.ticks < most && is_silent(span, lines)
}

// Whether the last of these ticks emits nothing, and it reaches beyond no partition.
#[inline(always)]
fn is_silent(span: &Span, lines: &Lines) -> bool
    ensures { OnTrue result (IsSilent span.now lines.now) }
{
    matches!(span.note, Note::Nothing)
        && matches!(span.reach, Beyond::Nothing)
        && lines.as_slice().is_empty()
}

// The ticks of the slot or gap that it is, at most this many, up to the first in which more is done than instructions that go. Their lines
// are those of the last.
#[inline(always)]
fn run_part(sys: &mut Sys, lines: &mut Lines, span: &mut Span, place: Place, most: u64)
    requires machine { IsMachine sys.old }
    requires place { IsAt place sys.old.machine }
    requires running { sys.old.machine.halted ≡ false }
    requires some { 0 < most }
    requires left { most ≤ place.left }
    requires ticks { sys.old.machine.ticks + most ≤ 4000000000 }
    requires empty { lines.old ≡ [] }
    ensures done { AreDoneFrom span.new most sys.old.machine sys.old sys.new lines.new }
{
    match place.slot {
        Some(slot) => run_slot(sys, lines, span, slot, most),
        None => wait(sys, lines, span, most),
    }
}

// Ticks of a partition's slot.
#[inline(always)]
fn run_slot(sys: &mut Sys, lines: &mut Lines, span: &mut Span, slot: Here, most: u64)
    requires take { CanTake slot.part most sys.old }
    requires slot { IsSlotOf sys.old.machine slot.part slot.first (part_at slot.part sys.old.machine) }
    requires stretch { IsStretch sys.old.machine most }
    requires empty { lines.old ≡ [] }
    ensures done { AreDoneFrom span.new most sys.old.machine sys.old sys.new lines.new }
{
    if takes_turns(sys, slot.part) {
        take_slot(sys, lines, span, slot.part, slot.first, most)
    } else {
        wait(sys, lines, span, most)
    }
}

// This many ticks in which all partitions rest.
fn wait(sys: &mut Sys, lines: &mut Lines, span: &mut Span, most: u64)
    requires nobodys { IsNobodys sys.old.machine }
    requires stretch { IsStretch sys.old.machine most }
    requires running { sys.old.machine.halted ≡ false }
    requires parts { 0 < length sys.old.machine.parts }
    requires some { 0 < most }
    requires ticks { sys.old.machine.ticks + most ≤ 4000000000 }
    requires time { sys.old.machine.time ≤ sys.old.machine.ticks }
    requires frame { IsInFrame sys.old.machine.system.conf sys.old.machine.clock sys.old.machine.time }
    requires empty { lines.old ≡ [] }
    ensures done { AreDoneFrom span.new most sys.old.machine sys.old sys.new lines.new }
{
    proof! {
        resting_ticks();
        calm_ticks();
        slot_goes_on();
        tick_in_passes();
        keeps_numbers();
    }
    let last = sys.now() + most - 1;
    rest(sys, None, last);
    end_ticks(sys, lines, most);
    *span = Span::quiet(most, 0, false, Beyond::Nothing);
}

// Ticks of a partition that takes its turn: the interrupts of the first come, and may wake it.
#[inline(always)]
fn take_slot(sys: &mut Sys, lines: &mut Lines, span: &mut Span, p: PartId, first: bool, most: u64)
    requires take { CanTake p most sys.old }
    requires slot { IsSlotOf sys.old.machine p first (part_at p sys.old.machine) }
    requires turns { takes_turns (part_at p sys.old.machine).state ≡ true }
    requires stretch { IsStretch sys.old.machine most }
    requires empty { lines.old ≡ [] }
    ensures done { AreDoneFrom span.new most sys.old.machine sys.old sys.new lines.new }
{
    proof! { next_deadline_is_least(); }
    engine::meet(sys, p, first);
    if goes_on(sys, p, first) {
        engine::wake(sys, p);
        go_on(sys, lines, span, p, most)
    } else {
        stay_idle(sys, lines, span, p, most)
    }
}

// How many ticks there are, at most this many, in which no timer of the partition falls due after the first.
fn ticks_undisturbed(sys: &Sys, p: PartId, running: bool, most: u64) -> u64
    requires partition { p < length sys.now.machine.parts }
    requires some { 0 < most }
    requires timers { NoneDue sys.now.machine.time (part_at p sys.now.machine).clocks }
    ensures some { 0 < result }
    ensures within { result ≤ most }
    ensures calm { NoneFallsDue sys.now.machine.time (result - 1) running (part_at p sys.now.machine).clocks }
{
    match sys.part(p).clocks.next_due(sys.now(), running) {
        Some(ticks) => most.min(ticks),
        None => most,
    }
}

// Ticks of an idle partition that nothing wakes.
fn stay_idle(sys: &mut Sys, lines: &mut Lines, span: &mut Span, p: PartId, most: u64)
    requires take { CanTake p most sys.old }
    requires timers { NoneDue sys.old.machine.time (part_at p sys.old.machine).clocks }
    requires empty { lines.old ≡ [] }
    ensures done { (g : Machine) (ps : PartitionState) → IsIdle g p ps most sys.old → AreDoneFrom span.new most g sys.old sys.new lines.new }
{
    proof! {
        undisturbed_ticks();
        calm_ticks();
        slot_goes_on();
        tick_in_passes();
        keeps_numbers();
    }
    let ticks = ticks_undisturbed(sys, p, false, most);
    pass(sys, lines, span, p, ticks);
}

// This many ticks of the slot of partition `p` without output but that a plan starts: all others rest.
#[inline(always)]
fn pass(sys: &mut Sys, lines: &mut Lines, span: &mut Span, p: PartId, ticks: u64)
    requires some { 0 < ticks }
    requires time { sys.old.machine.time + ticks < 2 ^ 64 }
    requires ticks { sys.old.machine.ticks + ticks < 2 ^ 64 }
    requires frame { IsInFrame sys.old.machine.system.conf sys.old.machine.clock (sys.old.machine.time + ticks - 1) }
    requires room { length lines.old < 40 }
    ensures state { sys.new ≡ with_machine (after_span (ticks - 1) (rest_but (Some p) (sys.old.machine.time + ticks - 1) sys.old.machine).parts sys.old.machine) sys.old }
    ensures lines { lines.new ≡ lines.old ++ plan_line (ticks - 1) sys.old.machine }
    ensures few { length lines.new ≤ length lines.old + 1 }
    ensures span { span.new ≡ record { ticks = ticks; part = p; worked = true; note = Note.Nothing; reach = Beyond.Nothing } }
{
    let last = sys.now() + ticks - 1;
    rest(sys, Some(p), last);
    end_ticks(sys, lines, ticks);
    *span = Span::quiet(ticks, p, true, Beyond::Nothing);
}

// Ticks of a partition that goes on: it takes an interrupt, or executes instructions.
#[inline(always)]
fn go_on(sys: &mut Sys, lines: &mut Lines, span: &mut Span, p: PartId, most: u64)
    requires take { CanTake p most sys.old }
    requires timers { NoneDue sys.old.machine.time (part_at p sys.old.machine).clocks }
    requires empty { lines.old ≡ [] }
    ensures done { (g : Machine) (first : Bool) (ps : PartitionState) → HasMetInterrupts g p first ps most sys.old → AreDoneFrom span.new most g sys.old sys.new lines.new }
{
    match interrupt(sys, p) {
        Some(n) => deliver(sys, lines, span, p, n),
        None => execute(sys, lines, span, p, most),
    }
}

// A tick in which a partition takes an interrupt.
#[inline(never)]
fn deliver(sys: &mut Sys, lines: &mut Lines, span: &mut Span, p: PartId, n: u8)
    requires take { CanTake p 1 sys.old }
    requires interrupt { n < 32 }
    requires empty { lines.old ≡ [] }
    ensures done { (g : Machine) (first : Bool) (ps : PartitionState) (most : ℕ) → HasMetInterrupts g p first ps most sys.old → 0 < most → (part_at p sys.old.machine).traps.enabled ≡ true → due (part_at p sys.old.machine).traps ≡ Some n → AreDoneFrom span.new most g sys.old sys.new lines.new }
{
    proof! {
        next_tick();
        tick_in_passes();
        acts_within_bounds();
        keeps_numbers();
    }
    take_interrupt(sys, lines, p, n);
    end_tick(sys, lines, p, Beyond::Nothing);
    *span = Span::quiet(1, p, true, Beyond::Nothing);
}

// Instructions of a partition, one a tick, up to the first that does more than go.
#[inline(always)]
fn execute(sys: &mut Sys, lines: &mut Lines, span: &mut Span, p: PartId, most: u64)
    requires take { CanTake p most sys.old }
    requires timers { NoneDue sys.old.machine.time (part_at p sys.old.machine).clocks }
    requires empty { lines.old ≡ [] }
    ensures done { (g : Machine) (first : Bool) (ps : PartitionState) → HasMetInterrupts g p first ps most sys.old → NoDelivery (part_at p sys.old.machine).traps → AreDoneFrom span.new most g sys.old sys.new lines.new }
{
    proof! {
        undisturbed_ticks();
        calm_ticks();
        slot_goes_on();
        tick_in_passes();
        keeps_numbers();
    }
    let most = ticks_undisturbed(sys, p, true, most);
    let gone = sys.step_many(p, most);
    count_on(sys, p, gone.went);
    match gone.turn {
        Turn::Went => pass(sys, lines, span, p, gone.went),
        Turn::Trap(tt) => trap_after(sys, lines, span, p, tt, gone.went, gone.pc),
        Turn::Call => call_after(sys, lines, span, p, gone.went, gone.pc),
    }
}

// This many ticks more on a partition's execution clock.
fn count_on(sys: &mut Sys, p: PartId, ticks: u64)
    requires partition { p < length sys.old.machine.parts }
    requires clock { (part_at p sys.old.machine).clocks.execution + ticks < 2 ^ 63 }
    ensures { sys.new ≡ with_machine (with_part p (counted_on ticks (part_at p sys.old.machine)) sys.old.machine) sys.old }
{
    engine::count_on(sys, p, ticks);
}

// The tick of an instruction that trapped, after this many in which the partition only went.
#[inline(never)]
fn trap_after(
    sys: &mut Sys,
    lines: &mut Lines,
    span: &mut Span,
    p: PartId,
    tt: u8,
    went: u64,
    pc: u32,
)
    requires take { CanTakeAfter p went sys.old }
    requires empty { lines.old ≡ [] }
    ensures done { (g : Machine) (first : Bool) (ps : PartitionState) (most : ℕ) → HasTurned (Turn.Trap tt) g p first ps went most pc sys.old → AreDoneFrom span.new most g sys.old sys.new lines.new }
{
    proof! {
        undisturbed_ticks();
        calm_ticks();
        tick_in_passes();
        acts_within_bounds();
        keeps_numbers();
    }
    stand_after(sys, p, went);
    let reach = meet_trap(sys, lines, p, tt, pc);
    end_tick(sys, lines, p, reach);
    *span = Span::quiet(went + 1, p, true, reach);
}

// The tick of an instruction that called, after this many in which the partition only went.
#[inline(always)]
fn call_after(sys: &mut Sys, lines: &mut Lines, span: &mut Span, p: PartId, went: u64, pc: u32)
    requires take { CanTakeAfter p went sys.old }
    requires pc { pc % 4 ≡ 0 }
    requires next { (part_at p sys.old.machine).core.npc ≡ ((part_at p sys.old.machine).core.pc + 4) % 2 ^ 32 }
    requires empty { lines.old ≡ [] }
    ensures done { (g : Machine) (first : Bool) (ps : PartitionState) (most : ℕ) → HasTurned Turn.Call g p first ps went most pc sys.old → AreDoneFrom span.new most g sys.old sys.new lines.new }
{
    proof! {
        undisturbed_ticks();
        calm_ticks();
        tick_in_passes();
        acts_within_bounds();
        keeps_numbers();
    }
    stand_after(sys, p, went);
    match call_reported(sys, lines, p, pc) {
        Some(emitted) => end_call(sys, lines, span, p, went + 1, emitted.0, emitted.1),
        None => pass_call(sys, lines, span, p, went + 1),
    }
}

// Ends the tick of a call, the last of this many, that reports nothing and reaches beyond no partition.
#[inline(always)]
fn pass_call(sys: &mut Sys, lines: &mut Lines, span: &mut Span, p: PartId, ticks: u64)
    requires can { CanEndTick Beyond.Nothing sys.old lines.old }
    requires frame { IsInFrame sys.old.machine.system.conf sys.old.machine.clock sys.old.machine.time }
    ensures ended { IsTickEnded Beyond.Nothing p sys.old sys.new lines.old lines.new }
    ensures span { span.new ≡ record { ticks = ticks; part = p; worked = true; note = Note.Nothing; reach = Beyond.Nothing } }
{
    end_tick(sys, lines, p, Beyond::Nothing);
    *span = Span::quiet(ticks, p, true, Beyond::Nothing);
}

// Ends the tick of a call, the last of this many.
#[inline(always)]
fn end_call(
    sys: &mut Sys,
    lines: &mut Lines,
    span: &mut Span,
    p: PartId,
    ticks: u64,
    note: Note,
    reach: Beyond,
)
    requires can { CanEndTick reach sys.old lines.old }
    requires frame { IsInFrame sys.old.machine.system.conf sys.old.machine.clock sys.old.machine.time }
    ensures ended { IsTickEnded reach p sys.old sys.new lines.old lines.new }
    ensures span { span.new ≡ record { ticks = ticks; part = p; worked = true; note = note; reach = reach } }
{
    end_tick(sys, lines, p, reach);
    *span = Span {
        ticks,
        part: p,
        worked: true,
        note,
        reach,
    };
}

// The system as it stands after this many ticks in which the partition only went: all others have rested.
#[inline(always)]
fn stand_after(sys: &mut Sys, p: PartId, ticks: u64)
    requires time { sys.old.machine.time + ticks < 2 ^ 64 }
    requires ticks { sys.old.machine.ticks + ticks < 2 ^ 64 }
    ensures { sys.new ≡ with_machine (machine_underway p ticks sys.old.machine) sys.old }
{
    if ticks > 0 {
        let last = sys.now() + ticks - 1;
        rest(sys, Some(p), last);
        sys.pass_ticks(ticks);
    }
}
