//! Many ticks of one partition in isolation, in each of which it receives nothing but whether the slot is its own.

ghost use Rattle.std.specs.Prelude.{◌≡◌, ◌+◌, ◌-◌, ◌%◌, ◌^◌, ◌<◌, ◌≤◌, [], IfSome, IsTrue, Some, false, length, true};
ghost use Rattle.cue_scripts.specs.Entries.{bare_cue};
ghost use Rattle.cyclic_plans.specs.PlanClock.{IsInFrame};
ghost use Rattle.cyclic_plans.specs.Slots.{frame_of};
ghost use Rattle.machine_model.specs.LocalTick.{goes_on};
ghost use Rattle.machine_model.specs.Partition.{rested, takes_turns};
ghost use Rattle.span_model.specs.Meeting.{NoDelivery};
ghost use Rattle.span_model.specs.Passes.{part_at, with_part};
ghost use Rattle.virt_traps.specs.Virtual.{due};
ghost use Rattle.system_state.specs.State.{SysState, with_machine};
ghost use Rattle.replay_model.specs.Step.{IsOfSystem};
ghost use Rattle.tick_steps.specs.CueValues.{cue_value};
ghost use Rattle.tick_steps.specs.Machine.{IsMachine};
ghost use Rattle.tick_steps.specs.lemmas.SpanTerms.{CanTake};
ghost use Rattle.tick_steps.specs.Span.{counted_on};
ghost use Rattle.replay_tick.specs.lemmas.LoneWorkTerms.{IsLoneTickEnded};
ghost use Rattle.replay_tick.specs.lemmas.LoneSpanTerms.{CanEnd, CanSpan, DoesSpan, HasTurnedAlone, HasWorked, NoneDueAfter, NoneDueIn, ended_at};
ghost use Rattle.replay_tick.specs.LoneSpan.{IsLoneSpan};

use crate::alone::{end_turn, is_same_event, note_if, turn_in_slot};
use crate::call::call_alone;
use crate::work::{LoneWork, trap_alone};
use cue_scripts::{CueSlot, WholeEvent};
use hypercalls::{Note, Sys};
use machine_model::{acts_within_bounds, keeps_facts_alone};
use replay_model::{passes_keep, takes_cues, working_ticks};
use span_model::late_rest;
use sparc_step::Turn;
use system_state::{CallSite, engine};
use tick_steps::{
    Cue, Lines, Sight, Traffic, goes_on, interrupt, program_counter, rest_one, takes_turns,
};
use xm_base::{PartId, State, proof};
use xm_conf::Conf;

/// Ticks of one partition in isolation that were done, one after the other.
#[derive(Debug, Drop)]
pub struct LoneSpan {
    /// How many there are, with the last: at least one. All but the last report nothing.
    pub ticks: u64,
    /// A note with the bytes that it wrote to its console in the last; where the partition cannot take that one's cue there
    /// is none, and another tick or a part of one was done.
    pub emitted: Option<Note>,
}

/// At most this many ticks of partition `p` in isolation, in each of which it receives nothing but whether a slot of its own runs,
/// up to the first in which more is done than instructions that go.
pub fn span_alone(sys: &mut Sys, lines: &mut Lines, p: PartId, own: bool, most: u64) -> LoneSpan
    // Called for the system of a machine, for a partition that exists, where the hypervisor has not halted, for at
    // least one tick, within the limit of ticks, and with no lines.
    requires machine { IsMachine sys.old }
    requires partition { p < length sys.old.machine.parts }
    requires running { sys.old.machine.halted ≡ false }
    requires some { 0 < most }
    requires more { sys.old.machine.ticks + most ≤ 4000000000 }
    requires empty { lines.old ≡ [] }
    // Many ticks, at least one and at most this many, in each of which the partition receives nothing but whether a slot
    // of its own runs: all but the last could be taken, printed and wrote nothing, and left what the partition alone
    // makes of as many cues; the last is as that of `tick_alone`.
    ensures some { 0 < result.ticks }
    ensures within { result.ticks ≤ most }
    ensures span { IsLoneSpan result.emitted result.ticks p own sys.old.machine sys.new.machine lines.new }
    // Whether the ticks were done or not, what holds of the system of every machine holds.
    ensures machine { IsMachine sys.new }
    // What runs and how many partitions there are is the same.
    ensures system { IsOfSystem sys.old.machine sys.new.machine }
{
    let most = most.min(frame_left(sys));
    if !own {
        return rest_away(sys, p, most);
    }
    if takes_turns(sys, p) {
        turn_many(sys, lines, p, most)
    } else {
        rest_in_slots(sys, p, most)
    }
}

// Ticks in slots of others, or in gaps.
fn rest_away(sys: &mut Sys, p: PartId, most: u64) -> LoneSpan
    requires can { CanSpan p most sys.old }
    ensures { DoesSpan result p false most sys.old sys.new [] }
{
    proof! {
        keeps_facts_alone();
        late_rest();
    }
    rest_many(sys, p, most);
    quiet_span(most)
}

// Ticks in slots of its own in which the partition takes no turns.
fn rest_in_slots(sys: &mut Sys, p: PartId, most: u64) -> LoneSpan
    requires can { CanSpan p most sys.old }
    requires turns { takes_turns (part_at p sys.old.machine).state ≡ false }
    ensures { DoesSpan result p true most sys.old sys.new [] }
{
    proof! {
        keeps_facts_alone();
        late_rest();
    }
    rest_many(sys, p, most);
    quiet_span(most)
}

// This many ticks without output.
fn quiet_span(ticks: u64) -> LoneSpan
    ensures { result ≡ record { ticks = ticks; emitted = Some Note.Nothing } }
{
    LoneSpan {
        ticks,
        emitted: Some(Note::Nothing),
    }
}

// The partition rests for this many ticks.
fn rest_many(sys: &mut Sys, p: PartId, ticks: u64)
    requires can { CanSpan p ticks sys.old }
    ensures state { sys.new ≡ with_machine (ended_at ticks p (rested (sys.old.machine.time + ticks - 1) (part_at p sys.old.machine)) sys.old.machine) sys.old }
    ensures frame { IsInFrame sys.new.machine.system.conf sys.new.machine.clock sys.new.machine.time }
{
    let last = sys.now() + ticks - 1;
    rest_one(sys, p, last);
    sys.end_ticks(ticks);
}

// Ticks in slots of its own in which the partition takes its turn.
fn turn_many(sys: &mut Sys, lines: &mut Lines, p: PartId, most: u64) -> LoneSpan
    requires can { CanSpan p most sys.old }
    requires turns { takes_turns (part_at p sys.old.machine).state ≡ true }
    requires empty { lines.old ≡ [] }
    ensures { DoesSpan result p true most sys.old sys.new lines.new }
{
    let undisturbed = ticks_undisturbed(sys, p, true, most);
    if undisturbed == 0 {
        return turn_once(sys, lines, p);
    }
    if !goes_on(sys, p, false) {
        return stay_many(sys, p, most);
    }
    if is_free(sys, p) {
        execute_many(sys, lines, p, undisturbed)
    } else {
        turn_once(sys, lines, p)
    }
}

// Whether the partition is ready and no interrupt is delivered to it.
fn is_free(sys: &Sys, p: PartId) -> bool
    requires partition { p < length sys.now.machine.parts }
    ensures ready { IsTrue result → (part_at p sys.now.machine).state ≡ State.Ready }
    ensures undelivered { IsTrue result → NoDelivery (part_at p sys.now.machine).traps }
{
    match sys.part(p).state {
        State::Ready => interrupt(sys, p).is_none(),
        State::Idle | State::Suspended | State::Halted => false,
    }
}

// One tick of a slot of its own, which did not begin with it.
fn turn_once(sys: &mut Sys, lines: &mut Lines, p: PartId) -> LoneSpan
    requires can { CanSpan p 1 sys.old }
    requires turns { takes_turns (part_at p sys.old.machine).state ≡ true }
    requires empty { lines.old ≡ [] }
    ensures { DoesSpan result p true 1 sys.old sys.new lines.new }
{
    let cue = own_cue();
    LoneSpan {
        ticks: 1,
        emitted: turn_in_slot(sys, lines, p, false, &cue),
    }
}

// The cue with nothing but that a slot of its own runs.
#[tactic(auto, unfolding(cue_scripts::specs::Entries::bare_cue))]
fn own_cue() -> Cue<'static>
    ensures value { cue_value result ≡ bare_cue true }
    ensures own { result.mine ≡ CueSlot.Mine false }
{
    Cue {
        mine: CueSlot::Mine { first: false },
        traffic: Traffic::Nothing,
        order: None,
        whole: WholeEvent::Nothing,
        seen: Sight::Nothing,
    }
}

// Ticks of an idle partition that nothing wakes.
fn stay_many(sys: &mut Sys, p: PartId, most: u64) -> LoneSpan
    requires can { CanSpan p most sys.old }
    requires turns { takes_turns (part_at p sys.old.machine).state ≡ true }
    requires stays { goes_on (part_at p sys.old.machine).state false (due (part_at p sys.old.machine).traps) ≡ false }
    requires timers { NoneDueAfter sys.old.machine.time 0 true (part_at p sys.old.machine).clocks }
    ensures { DoesSpan result p true most sys.old sys.new [] }
{
    proof! { keeps_facts_alone(); }
    let ticks = ticks_undisturbed(sys, p, false, most);
    sys.end_ticks(ticks);
    quiet_span(ticks)
}

// Instructions of the partition, one a tick, up to the first that does more than go.
fn execute_many(sys: &mut Sys, lines: &mut Lines, p: PartId, most: u64) -> LoneSpan
    requires can { CanSpan p most sys.old }
    requires ready { (part_at p sys.old.machine).state ≡ State.Ready }
    requires undelivered { NoDelivery (part_at p sys.old.machine).traps }
    requires timers { NoneDueIn sys.old.machine.time most true (part_at p sys.old.machine).clocks }
    requires empty { lines.old ≡ [] }
    ensures { DoesSpan result p true most sys.old sys.new lines.new }
{
    proof! { keeps_facts_alone(); }
    let gone = sys.step_many(p, most);
    count_on(sys, p, gone.went);
    match gone.turn {
        Turn::Went => {
            sys.end_ticks(gone.went);
            quiet_span(gone.went)
        }
        Turn::Trap(tt) => {
            sys.pass_ticks(gone.went);
            LoneSpan {
                ticks: gone.went + 1,
                emitted: trap_last(sys, lines, p, tt, gone.pc),
            }
        }
        Turn::Call => {
            sys.pass_ticks(gone.went);
            LoneSpan {
                ticks: gone.went + 1,
                emitted: call_last(sys, lines, p, gone.pc),
            }
        }
    }
}

// The rest of a tick whose instruction trapped.
fn trap_last(sys: &mut Sys, lines: &mut Lines, p: PartId, tt: u8, pc: u32) -> Option<Note>
    requires take { CanTake p 1 sys.old }
    requires empty { lines.old ≡ [] }
    ensures { (before : SysState) → HasTurnedAlone p (Turn.Trap tt) pc before sys.old → IsLoneTickEnded result p (bare_cue true) before sys.new lines.new }
{
    let work = trap_alone(sys, lines, p, tt, pc, Sight::Nothing);
    end_work(sys, lines, p, work)
}

// The rest of a tick whose instruction called.
fn call_last(sys: &mut Sys, lines: &mut Lines, p: PartId, pc: u32) -> Option<Note>
    requires take { CanTake p 1 sys.old }
    requires pc { pc % 4 ≡ 0 }
    requires next { (part_at p sys.old.machine).core.npc ≡ ((part_at p sys.old.machine).core.pc + 4) % 2 ^ 32 }
    requires empty { lines.old ≡ [] }
    ensures { (before : SysState) → HasTurnedAlone p Turn.Call pc before sys.old → IsLoneTickEnded result p (bare_cue true) before sys.new lines.new }
{
    let npc = program_counter(sys, p);
    let work = call_alone(sys, lines, CallSite { part: p, pc, npc }, Sight::Nothing);
    end_work(sys, lines, p, work)
}

// The end of a tick in which the partition did this work, and received no hypervisor event.
fn end_work(sys: &mut Sys, lines: &mut Lines, p: PartId, work: Option<LoneWork>) -> Option<Note>
    requires { IfSome work (λ done. CanEnd p sys.old lines.old) }
    ensures { (before : SysState) → HasWorked p work before sys.old lines.old → IsLoneTickEnded result p (bare_cue true) before sys.new lines.new }
{
    proof! {
        working_ticks();
        takes_cues();
        passes_keep();
        acts_within_bounds();
        keeps_facts_alone();
    }
    match work {
        Some(work) => {
            let event = end_turn(sys, lines, p, work.reach);
            note_if(is_same_event(event, WholeEvent::Nothing), work.note)
        }
        None => None,
    }
}

// This many ticks more on the partition's execution clock.
fn count_on(sys: &mut Sys, p: PartId, ticks: u64)
    requires partition { p < length sys.old.machine.parts }
    requires clock { (part_at p sys.old.machine).clocks.execution + ticks < 2 ^ 63 }
    ensures { sys.new ≡ with_machine (with_part p (counted_on ticks (part_at p sys.old.machine)) sys.old.machine) sys.old }
{
    engine::count_on(sys, p, ticks);
}

// How many ticks there are, at most this many, before one in which a timer of the partition is due.
fn ticks_undisturbed(sys: &Sys, p: PartId, running: bool, most: u64) -> u64
    requires partition { p < length sys.now.machine.parts }
    ensures within { result ≤ most }
    ensures none { NoneDueIn sys.now.machine.time result running (part_at p sys.now.machine).clocks }
    ensures some { NoneDueAfter sys.now.machine.time 0 running (part_at p sys.now.machine).clocks → 0 < most → 0 < result }
{
    match sys.part(p).clocks.next_due(sys.now(), running) {
        Some(ticks) => most.min(ticks),
        None => most,
    }
}

// How many ticks are left of the frame.
fn frame_left(sys: &Sys) -> u64
    requires { IsMachine sys.now }
    ensures some { 0 < result }
    ensures within { sys.now.machine.time + result ≤ sys.now.machine.clock.frame_start + frame_of sys.now.machine.system.conf sys.now.machine.clock.plan }
{
    let clock = sys.plan_clock();
    let end = clock.frame_start() + u64::from(frame_of(sys.conf(), clock.plan()));
    end - sys.now()
}

// The length of the frame of the plan of a number.
#[tactic(auto, unfolding(cyclic_plans::specs::Slots::frame_of))]
fn frame_of(conf: &Conf, plan: u8) -> u32
    requires { plan < length conf.now.plans }
    ensures { result ≡ frame_of conf.now plan }
{
    conf.raw().plans[usize::from(plan)].frame
}
