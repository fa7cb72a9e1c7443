//! One tick of one partition in isolation: it does its own work, and receives what others did.

ghost use Rattle.std.specs.Prelude.{◌≡◌, ◌+◌, ◌^◌, ◌<◌, ◌≤◌, ◌++◌, ◌≢◌, if◌then◌else◌, [], None, Some, false, length, true};
ghost use Rattle.cue_scripts.specs.Script.{IsCue};
ghost use Rattle.cue_scripts.specs.Values.{event_value};
ghost use Rattle.cyclic_plans.specs.PlanClock.{IsInFrame, started};
ghost use Rattle.machine_model.specs.Machine.{obeyed, obeyed_emissions};
ghost use Rattle.machine_model.specs.Partition.{takes_turns};
ghost use Rattle.machine_model.specs.Emission.{AllReset, NoEvent};
ghost use Rattle.machine_model.specs.View.{view_of};
ghost use Rattle.machine_model.specs.Whole.{event_lines, event_of};
ghost use Rattle.span_model.specs.Passes.{part_at};
ghost use Rattle.system_state.specs.State.{with_machine};
ghost use Rattle.replay_model.specs.Step.{IsOfSystem};
ghost use Rattle.tick_steps.specs.CueValues.{cue_value};
ghost use Rattle.replay_model.specs.Passes.{event_met, rested_in, tick_past};
ghost use Rattle.replay_tick.specs.lemmas.LoneSpanTerms.{CanEnd};
ghost use Rattle.replay_tick.specs.lemmas.LoneWorkTerms.{CanTickAlone, HasMetEvent, IsLoneTickEnded};
ghost use Rattle.replay_tick.specs.LoneWork.{IsLoneTick, most_lines};
ghost use Rattle.tick_steps.specs.Machine.{IsMachine};
ghost use Rattle.replay_model.specs.Taking.{is_same_event};
ghost use Rattle.tick_steps.specs.Work.{IsPartDone, act_beyond};

use crate::traffic::apply_traffic;
use crate::work::{is_unseen, work_alone};
use cue_scripts::{CueSlot, WholeEvent};
use cyclic_plans::PlanClock;
use hypercalls::{Note, Sys};
use machine_model::{acts_within_bounds, keeps_facts_alone};
use replay_model::{away_ticks, passes_keep, resting_ticks_alone, takes_cues, working_ticks};
use tick_steps::{Beyond, Cue, Lines, obey, reset, reset_move, rest_one, takes_turns, whole_of};
use xm_base::{Mode, Order, PartId, proof};
use xm_report::Line;

/// One tick of partition `p` in isolation, and a note with the bytes that it wrote to its console. Where it cannot take
/// its cue there is none, and another tick or a part of one was done.
pub fn tick_alone(sys: &mut Sys, lines: &mut Lines, p: PartId, cue: &Cue<'_>) -> Option<Note>
    // Called for the system of a machine, for a partition that exists, where the hypervisor has not halted, below the
    // limit of ticks, with a stimulus that a script may have, and with no lines.
    requires machine { IsMachine sys.old }
    requires partition { p < length sys.old.machine.parts }
    requires running { sys.old.machine.halted ≡ false }
    requires more { sys.old.machine.ticks < 4000000000 }
    requires cue { IsCue sys.old.machine.system.conf p (cue_value cue.now) }
    requires empty { lines.old ≡ [] }
    // The tick was done exactly where the partition can take its cue: its part of the machine is then that of the tick
    // alone, the hypervisor has halted exactly where the cue says so, and the lines of the tick alone are these lines,
    // at most 24, after one of bytes for a console, which the note names and which still stand in the partition's
    // memory.
    ensures tick { IsLoneTick result p (cue_value cue.now) sys.old.machine sys.new.machine lines.new }
    // Whether the tick was done or not, what holds of the system of every machine holds.
    ensures machine { IsMachine sys.new }
    // What runs and how many partitions there are is the same.
    ensures system { IsOfSystem sys.old.machine sys.new.machine }
{
    match cue.mine {
        CueSlot::Away => tick_away(sys, lines, p, cue),
        CueSlot::Mine { first } => {
            if takes_turns(sys, p) {
                turn_in_slot(sys, lines, p, first, cue)
            } else {
                rest_in_slot(sys, p, cue)
            }
        }
    }
}

// A tick in the slot of another partition, or in a gap.
fn tick_away(sys: &mut Sys, lines: &mut Lines, p: PartId, cue: &Cue<'_>) -> Option<Note>
    requires can { CanTickAlone p (cue_value cue.now) sys.old lines.old }
    requires away { cue.now.mine ≡ CueSlot.Away }
    ensures { IsLoneTickEnded result p (cue_value cue.now) sys.old sys.new lines.new }
{
    proof! {
        away_ticks();
        takes_cues();
        passes_keep();
        keeps_facts_alone();
    }
    if apply_traffic(sys, p, cue.traffic) {
        obey_other(sys, lines, p, cue.order);
        meet_event(sys, lines, p, cue.whole);
        rest_and_pass(sys, p, cue.whole);
        Some(Note::Nothing)
    } else {
        None
    }
}

/// A tick in a slot of the partition's own in which it takes its turn: a hypervisor event is that of its own act.
pub(crate) fn turn_in_slot(
    sys: &mut Sys,
    lines: &mut Lines,
    p: PartId,
    first: bool,
    cue: &Cue<'_>,
) -> Option<Note>
    requires can { CanTickAlone p (cue_value cue.now) sys.old lines.old }
    requires own { cue.now.mine ≡ CueSlot.Mine first }
    requires turns { takes_turns (part_at p sys.old.machine).state ≡ true }
    ensures { IsLoneTickEnded result p (cue_value cue.now) sys.old sys.new lines.new }
{
    proof! {
        working_ticks();
        takes_cues();
        passes_keep();
        acts_within_bounds();
        keeps_facts_alone();
    }
    match work_alone(sys, lines, p, first, cue.seen) {
        Some(work) => {
            let event = end_turn(sys, lines, p, work.reach);
            note_if(is_same_event(event, cue.whole), work.note)
        }
        None => None,
    }
}

/// The end of a tick in which the partition's work reached so far: the hypervisor event of its act, and the clocks.
pub(crate) fn end_turn(sys: &mut Sys, lines: &mut Lines, p: PartId, reach: Beyond) -> WholeEvent
    requires can { CanEnd p sys.old lines.old }
    ensures event { event_value result ≡ event_of (act_beyond reach) }
    ensures state { sys.new ≡ with_machine (tick_past (event_value result) (event_met p (event_value result) sys.old.machine)) sys.old }
    ensures lines { lines.new ≡ lines.old ++ event_lines sys.old.machine.ticks (event_value result) p }
    ensures few { length lines.new ≤ length lines.old + 1 }
{
    let event = whole_of(reach);
    meet_event(sys, lines, p, event);
    pass_tick(sys, event);
    event
}

/// A note, where it is so.
pub(crate) fn note_if(is: bool, note: Note) -> Option<Note>
    ensures { result ≡ (if is then Some note else None) }
{
    if is { Some(note) } else { None }
}

// A tick in a slot of a partition that takes no turns.
fn rest_in_slot(sys: &mut Sys, p: PartId, cue: &Cue<'_>) -> Option<Note>
    requires can { CanTickAlone p (cue_value cue.now) sys.old [] }
    requires own { cue.now.mine ≢ CueSlot.Away }
    requires turns { takes_turns (part_at p sys.old.machine).state ≡ false }
    ensures { IsLoneTickEnded result p (cue_value cue.now) sys.old sys.new [] }
{
    proof! {
        resting_ticks_alone();
        takes_cues();
        passes_keep();
        keeps_facts_alone();
    }
    if is_unseen(cue.seen) && is_same_event(WholeEvent::Nothing, cue.whole) {
        rest_and_pass(sys, p, WholeEvent::Nothing);
        Some(Note::Nothing)
    } else {
        None
    }
}

// An order that another partition gave, where one did.
fn obey_other(sys: &mut Sys, lines: &mut Lines, p: PartId, order: Option<Order>)
    requires partition { p < length sys.old.machine.parts }
    requires room { length lines.old < most_lines }
    ensures done { IsPartDone p (obeyed (view_of sys.old.machine.system p) order (part_at p sys.old.machine)) (obeyed_emissions order (part_at p sys.old.machine)) sys.old sys.new lines.old lines.new }
    ensures few { length lines.new ≤ length lines.old + 1 }
{
    if let Some(order) = order {
        obey(sys, lines, p, order);
    }
}

// A hypervisor event, as one partition meets it.
fn meet_event(sys: &mut Sys, lines: &mut Lines, p: PartId, event: WholeEvent)
    requires partition { p < length sys.old.machine.parts }
    requires room { length lines.old < most_lines }
    ensures { HasMetEvent p (event_value event) sys.old sys.new lines.old lines.new }
{
    match event {
        WholeEvent::Nothing => {}
        WholeEvent::Cold => meet_reset(sys, lines, p, Mode::Cold),
        WholeEvent::Warm => meet_reset(sys, lines, p, Mode::Warm),
        WholeEvent::Halt => sys.halt(),
    }
}

// A reset of the hypervisor: the partition is reset, and the channels are empty.
fn meet_reset(sys: &mut Sys, lines: &mut Lines, p: PartId, mode: Mode)
    requires partition { p < length sys.old.machine.parts }
    requires room { length lines.old < most_lines }
    ensures { HasMetEvent p (AllReset mode) sys.old sys.new lines.old lines.new }
{
    let to = reset_move(mode);
    lines.push(Line::Moved {
        n: sys.ticks(),
        p,
        to,
    });
    reset(sys, p, mode, 0);
    sys.channels_mut().clear();
}

// The partition rests, and the tick is over.
fn rest_and_pass(sys: &mut Sys, p: PartId, event: WholeEvent)
    requires partition { p < length sys.old.machine.parts }
    requires time { sys.old.machine.time + 1 < 2 ^ 64 }
    requires ticks { sys.old.machine.ticks + 1 < 2 ^ 64 }
    requires frame { IsInFrame sys.old.machine.system.conf sys.old.machine.clock sys.old.machine.time }
    ensures { sys.new ≡ with_machine (tick_past (event_value event) (rested_in p sys.old.machine)) sys.old }
{
    let now = sys.now();
    rest_one(sys, p, now);
    pass_tick(sys, event);
}

// The clocks past a tick with a hypervisor event.
fn pass_tick(sys: &mut Sys, event: WholeEvent)
    requires time { sys.old.machine.time + 1 < 2 ^ 64 }
    requires ticks { sys.old.machine.ticks + 1 < 2 ^ 64 }
    requires frame { IsInFrame sys.old.machine.system.conf sys.old.machine.clock sys.old.machine.time }
    ensures { sys.new ≡ with_machine (tick_past (event_value event) sys.old.machine) sys.old }
{
    match event {
        WholeEvent::Nothing => pass_one(sys),
        WholeEvent::Cold | WholeEvent::Warm => restart(sys),
        WholeEvent::Halt => {}
    }
}

// The clocks past a plain tick.
fn pass_one(sys: &mut Sys)
    requires time { sys.old.machine.time + 1 < 2 ^ 64 }
    requires ticks { sys.old.machine.ticks + 1 < 2 ^ 64 }
    requires frame { IsInFrame sys.old.machine.system.conf sys.old.machine.clock sys.old.machine.time }
    ensures { sys.new ≡ with_machine (tick_past NoEvent sys.old.machine) sys.old }
{
    sys.end_ticks(1);
}

// The clocks past a tick in which the hypervisor was reset.
fn restart(sys: &mut Sys)
    requires time { sys.old.machine.time + 1 < 2 ^ 64 }
    requires ticks { sys.old.machine.ticks + 1 < 2 ^ 64 }
    ensures { sys.new ≡ with_machine (record sys.old.machine { clock = started; time = 0; ticks = sys.old.machine.ticks + 1 }) sys.old }
{
    *sys.plan_clock_mut() = PlanClock::start();
    sys.pass_ticks(1);
    sys.set_now(0);
}

/// Whether two hypervisor events are the same.
pub(crate) fn is_same_event(one: WholeEvent, other: WholeEvent) -> bool
    ensures { result ≡ is_same_event (event_value one) (event_value other) }
{
    match one {
        WholeEvent::Nothing => matches!(other, WholeEvent::Nothing),
        WholeEvent::Cold => matches!(other, WholeEvent::Cold),
        WholeEvent::Warm => matches!(other, WholeEvent::Warm),
        WholeEvent::Halt => matches!(other, WholeEvent::Halt),
    }
}
