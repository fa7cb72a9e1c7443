//! An instruction of a partition that calls: the call is served, and reported.

ghost use Rattle.std.specs.Prelude.{◌≡◌, ◌+◌, ◌%◌, ◌^◌, ◌<◌, ◌≤◌, ◌++◌, [], length, map};
ghost use Rattle.std.specs.Bool.{OnTrue};
ghost use Rattle.cyclic_plans.specs.PlanClock.{AsksPlan, IsInFrame};
ghost use Rattle.system_state.specs.Serving as serving;
ghost use Rattle.system_state.specs.Serving.{AreAsked, IsEntered, IsServed, caller_at, upshot_of};
ghost use Rattle.machine_model.specs.Facts.{AreEnds};
ghost use Rattle.machine_model.specs.Hypercalls.{served};
ghost use Rattle.machine_model.specs.LocalTick.{by_act, by_upshot, called};
ghost use Rattle.machine_model.specs.Emission.{Upon, line_of};
ghost use Rattle.machine_model.specs.View.{view_of};
ghost use Rattle.span_model.specs.Passes.{part_at};
ghost use Rattle.xm_ports.specs.Channels.{shapes_of};
ghost use Rattle.tick_steps.specs.Work.{IsPartDone, IsNotedBy, ReachIsUponOne, IsTickWorked, EmitsAlone, act_beyond, note_in, reach_in};
ghost use Rattle.tick_steps.specs.lemmas.WorkTerms.{trace_emissions};

use crate::serving::serve;
use system_state::{Act, Note, Served, Sys, engine};
use tick_steps::{Beyond, Lines, handle_event, obey, program_counter};
use xm_base::{Order, PartId};
use xm_report::Line;

/// An instruction of a partition, at this program counter, called. The call's note, and how it reaches beyond the partition; none where it
/// notes nothing and reaches beyond no partition, as most do.
#[inline(always)]
pub fn call_reported(sys: &mut Sys, lines: &mut Lines, p: PartId, pc: u32) -> Option<(Note, Beyond)>
    // Called for a partition that exists, with an aligned program counter, where the program resumes after the call,
    // with room for the number of one more trace entry, with channels of the configuration's shapes, with made ports
    // that are ends of channels, in the frame of the plan clock, where the plan that is asked for exists, with an
    // execution clock below 2^63, with room for the numbers of more health entries, and with no lines.
    requires partition { p < length sys.old.machine.parts }
    requires pc { pc % 4 ≡ 0 }
    requires next { (part_at p sys.old.machine).core.npc ≡ ((part_at p sys.old.machine).core.pc + 4) % 2 ^ 32 }
    requires traces { (part_at p sys.old.machine).traces.next < 4294967295 }
    requires shapes { sys.old.shapes ≡ shapes_of sys.old.machine.system.conf }
    requires made { AreEnds (view_of sys.old.machine.system p) (part_at p sys.old.machine).made }
    requires frame { IsInFrame sys.old.machine.system.conf sys.old.machine.clock sys.old.machine.time }
    requires asked { AsksPlan sys.old.machine.system.conf sys.old.machine.clock }
    requires clock { (part_at p sys.old.machine).clocks.execution < 2 ^ 63 }
    requires log { (part_at p sys.old.machine).health.next < 4294967294 }
    requires empty { lines.old ≡ [] }
    // A partition whose instruction called is left as it is defined, with its tick on the execution clock, the lines
    // that are emitted, its note, and how it reaches beyond the partition; a call that notes nothing and reaches beyond
    // no partition answers none; the note's entry and places are those of the call.
    ensures worked { IsTickWorked p (called (caller_at p pc (part_at p sys.old.machine).core.pc sys.old)) (note_in result) (reach_in result) sys.old sys.new lines.new }
    ensures alone { EmitsAlone (note_in result) (reach_in result) }
    ensures noted { IsNotedBy p (caller_at p pc (part_at p sys.old.machine).core.pc sys.old).sight (called (caller_at p pc (part_at p sys.old.machine).core.pc sys.old)) (note_in result) sys.old }
    ensures asked { AreAsked (note_in result) (view_of sys.old.machine.system p) (part_at p sys.old.machine).core }
    ensures entered { IsEntered (note_in result) (part_at p sys.old.machine).traces (called (caller_at p pc (part_at p sys.old.machine).core.pc sys.old)).after.traces }
    ensures few { length lines.new ≤ 4 }
{
    let served = serve_call(sys, p, pc);
    engine::count_tick(sys, p);
    if is_quiet(served.note, served.act) {
        return None;
    }
    put_trace(lines, sys.ticks(), p, served.note);
    let reach = follow(sys, lines, p, served.act);
    Some((served.note, reach))
}

// Whether a call notes nothing, and asks for nothing.
#[inline(always)]
fn is_quiet(note: Note, act: Act) -> bool
    ensures note { OnTrue result (note ≡ Note.Nothing) }
    ensures act { OnTrue result (act ≡ Act.Nothing) }
{
    matches!(note, Note::Nothing) && matches!(act, Act::Nothing)
}

// Serves a call that stood at this program counter.
#[inline(always)]
fn serve_call(sys: &mut Sys, p: PartId, pc: u32) -> Served
    requires partition { p < length sys.old.machine.parts }
    requires pc { pc % 4 ≡ 0 }
    requires traces { (part_at p sys.old.machine).traces.next < 4294967295 }
    requires shapes { sys.old.shapes ≡ shapes_of sys.old.machine.system.conf }
    requires frame { IsInFrame sys.old.machine.system.conf sys.old.machine.clock sys.old.machine.time }
    ensures served { IsServed p (caller_at p pc (part_at p sys.old.machine).core.pc sys.old).sight (served (caller_at p pc (part_at p sys.old.machine).core.pc sys.old)) result sys.old sys.new }
    ensures count { length sys.new.machine.parts ≡ length sys.old.machine.parts }
    ensures clock { (part_at p sys.new.machine).clocks.execution ≡ (part_at p sys.old.machine).clocks.execution }
    ensures log { (part_at p sys.new.machine).health ≡ (part_at p sys.old.machine).health }
{
    let npc = program_counter(sys, p);
    serve(sys, p, pc, npc)
}

// Emits the entry that a call made in its partition's traces, where it made one.
fn put_trace(lines: &mut Lines, n: u64, p: PartId, note: Note)
    requires { length lines.old < 40 }
    ensures value { lines.new ≡ lines.old ++ map (line_of n p) (trace_emissions note) }
    ensures few { length lines.new ≤ length lines.old + 1 }
{
    if let Note::Trace(entry) = note {
        let load = entry.load;
        lines.push(Line::Trace {
            n,
            p,
            bits: entry.bits,
            load,
        });
    }
}

// Does what a call asks for, as far as it is the partition's own.
fn follow(sys: &mut Sys, lines: &mut Lines, p: PartId, act: Act) -> Beyond
    requires partition { p < length sys.old.machine.parts }
    requires log { (part_at p sys.old.machine).health.next < 4294967294 }
    requires room { length lines.old ≤ 20 }
    requires one { serving.IsUponOne act sys.old }
    ensures done { IsPartDone p (by_upshot (upshot_of act) (view_of sys.old.machine.system p) sys.old.machine.time (part_at p sys.old.machine)).after (by_upshot (upshot_of act) (view_of sys.old.machine.system p) sys.old.machine.time (part_at p sys.old.machine)).emitted sys.old sys.new lines.old lines.new }
    ensures act { (by_upshot (upshot_of act) (view_of sys.old.machine.system p) sys.old.machine.time (part_at p sys.old.machine)).act ≡ act_beyond result }
    ensures one { ReachIsUponOne result sys.old.machine }
    ensures few { length lines.new ≤ length lines.old + 3 }
{
    match act {
        Act::Nothing => Beyond::Nothing,
        Act::Upon { id, order } => give_order(sys, lines, p, id, order),
        Act::Ask { plan } => Beyond::Plan { plan },
        Act::Whole(event) => Beyond::Whole(event),
        Act::Event { event, word, .. } => {
            Beyond::Whole(handle_event(sys, lines, p, event, word, None))
        }
    }
}

// An order on the partition itself is obeyed at once; another reaches beyond it.
#[inline(never)]
fn give_order(sys: &mut Sys, lines: &mut Lines, p: PartId, id: PartId, order: Order) -> Beyond
    requires partition { p < length sys.old.machine.parts }
    requires room { length lines.old ≤ 20 }
    requires one { id < length sys.old.machine.parts }
    ensures done { IsPartDone p (by_act (Upon id order) (view_of sys.old.machine.system p) (part_at p sys.old.machine)).after (by_act (Upon id order) (view_of sys.old.machine.system p) (part_at p sys.old.machine)).emitted sys.old sys.new lines.old lines.new }
    ensures act { (by_act (Upon id order) (view_of sys.old.machine.system p) (part_at p sys.old.machine)).act ≡ act_beyond result }
    ensures one { ReachIsUponOne result sys.old.machine }
    ensures few { length lines.new ≤ length lines.old + 3 }
{
    if id == p {
        obey(sys, lines, p, order);
        Beyond::Nothing
    } else {
        Beyond::Order { id, order }
    }
}
