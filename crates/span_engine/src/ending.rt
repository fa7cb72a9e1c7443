//! The end of a tick or of a span of ticks: what reaches beyond the partition that worked, the rest of all others, and the clocks.

ghost use Rattle.std.specs.Prelude.{◌≡◌, ◌+◌, ◌-◌, ◌^◌, ◌<◌, ◌≤◌, ◌++◌, length};
ghost use Rattle.cyclic_plans.specs.PlanClock.{IsInFrame};
ghost use Rattle.system_state.specs.State.{with_machine};
ghost use Rattle.machine_model.specs.Health.{done_to_all};
ghost use Rattle.machine_model.specs.Lines.{plan_lines};
ghost use Rattle.machine_model.specs.Lists.{each};
ghost use Rattle.machine_model.specs.Partition.{reset};
ghost use Rattle.machine_model.specs.Emission.{AllHalted, AllReset, Maintenance, Nothing, Plans, UponAll};
ghost use Rattle.machine_model.specs.View.{view_of};
ghost use Rattle.span_model.specs.Passes.{evented};
ghost use Rattle.span_model.specs.Spans.{after_span, plan_line};
ghost use Rattle.tick_steps.specs.lemmas.WorkTerms.{ended_by, ending_lines, reset_lines};
ghost use Rattle.span_engine.specs.lemmas.Ending.{CanEndTick, IsTickEnded};

use cyclic_plans::PlanClock;
use health_monitor::Whole;
use hypercalls::Sys;
use tick_steps::{Beyond, Lines, obey, reset, reset_move, rest};
use xm_base::{Mode, PartId};
use xm_report::{Line, Move};

/// Ends a tick in which partition `p` worked. What reaches beyond no partition, as nearly all does, goes the short way.
#[inline(always)]
pub(crate) fn end_tick(sys: &mut Sys, lines: &mut Lines, p: PartId, reach: Beyond)
    requires can { CanEndTick reach sys.old lines.old }
    requires frame { IsInFrame sys.old.machine.system.conf sys.old.machine.clock sys.old.machine.time }
    ensures { IsTickEnded reach p sys.old sys.new lines.old lines.new }
{
    match reach {
        Beyond::Nothing => end_plainly(sys, lines, p),
        Beyond::Order { .. } | Beyond::Plan { .. } | Beyond::Whole(_) => end_beyond(
            sys, lines, p, reach,
        ),
    }
}

// The same, whatever its reach.
#[inline(never)]
fn end_beyond(sys: &mut Sys, lines: &mut Lines, p: PartId, reach: Beyond)
    requires can { CanEndTick reach sys.old lines.old }
    requires frame { IsInFrame sys.old.machine.system.conf sys.old.machine.clock sys.old.machine.time }
    ensures { IsTickEnded reach p sys.old sys.new lines.old lines.new }
{
    match reach {
        Beyond::Nothing => end_plainly(sys, lines, p),
        Beyond::Order { id, order } => {
            obey(sys, lines, id, order);
            end_plainly(sys, lines, p);
        }
        Beyond::Plan { plan } => {
            sys.plan_clock_mut().ask(plan);
            end_plainly(sys, lines, p);
        }
        Beyond::Whole(event) => end_by_event(sys, lines, p, event),
    }
}

// The rest of all others, and the clocks past the tick.
#[inline(always)]
fn end_plainly(sys: &mut Sys, lines: &mut Lines, p: PartId)
    requires time { sys.old.machine.time + 1 < 2 ^ 64 }
    requires ticks { sys.old.machine.ticks + 1 < 2 ^ 64 }
    requires frame { IsInFrame sys.old.machine.system.conf sys.old.machine.clock sys.old.machine.time }
    requires room { length lines.old < 40 }
    ensures state { sys.new ≡ with_machine (ended_by Nothing p sys.old.machine) sys.old }
    ensures lines { lines.new ≡ lines.old ++ ending_lines Nothing sys.old.machine }
    ensures few { length lines.new ≤ length lines.old + 1 }
{
    let now = sys.now();
    rest(sys, Some(p), now);
    end_ticks(sys, lines, 1);
}

/// The clocks past this many ticks of one frame, of which only the last may start a plan.
#[inline(always)]
pub(crate) fn end_ticks(sys: &mut Sys, lines: &mut Lines, ticks: u64)
    requires some { 0 < ticks }
    requires time { sys.old.machine.time + ticks < 2 ^ 64 }
    requires ticks { sys.old.machine.ticks + ticks < 2 ^ 64 }
    requires frame { IsInFrame sys.old.machine.system.conf sys.old.machine.clock (sys.old.machine.time + ticks - 1) }
    requires room { length lines.old < 40 }
    ensures state { sys.new ≡ with_machine (after_span (ticks - 1) sys.old.machine.parts sys.old.machine) sys.old }
    ensures lines { lines.new ≡ lines.old ++ plan_line (ticks - 1) sys.old.machine }
    ensures few { length lines.new ≤ length lines.old + 1 }
{
    let n = sys.ticks() + ticks - 1;
    if let Some(plan) = sys.end_ticks(ticks) {
        lines.push(Line::PlanIs { n, plan });
    }
}

// The end of a tick with an event of the whole system.
fn end_by_event(sys: &mut Sys, lines: &mut Lines, p: PartId, event: Whole)
    requires time { sys.old.machine.time + 1 < 2 ^ 64 }
    requires ticks { sys.old.machine.ticks + 1 < 2 ^ 64 }
    requires frame { IsInFrame sys.old.machine.system.conf sys.old.machine.clock sys.old.machine.time }
    requires room { length lines.old ≤ 4 }
    ensures state { sys.new ≡ with_machine (ended_by (done_to_all event) p sys.old.machine) sys.old }
    ensures lines { lines.new ≡ lines.old ++ ending_lines (done_to_all event) sys.old.machine }
    ensures few { length lines.new ≤ length lines.old + 34 }
{
    match event {
        Whole::Nothing => end_plainly(sys, lines, p),
        Whole::Maintenance => end_in_maintenance(sys, lines, p),
        Whole::Reset(mode) => end_by_reset(sys, lines, p, mode),
        Whole::Halt => end_by_halt(sys, lines, p),
    }
}

// The maintenance plan comes with the next tick.
fn end_in_maintenance(sys: &mut Sys, lines: &mut Lines, p: PartId)
    requires time { sys.old.machine.time + 1 < 2 ^ 64 }
    requires ticks { sys.old.machine.ticks + 1 < 2 ^ 64 }
    requires room { length lines.old < 40 }
    ensures state { sys.new ≡ with_machine (ended_by (Plans Maintenance) p sys.old.machine) sys.old }
    ensures lines { lines.new ≡ lines.old ++ ending_lines (Plans Maintenance) sys.old.machine }
    ensures few { length lines.new ≤ length lines.old + 1 }
{
    let now = sys.now();
    rest(sys, Some(p), now);
    let old = sys.plan_clock().plan();
    sys.plan_clock_mut().to_maintenance(now);
    put_plan(sys, lines, old);
    sys.pass_ticks(1);
}

// All partitions and the hypervisor are reset: the hardware clock and the plans begin again.
fn end_by_reset(sys: &mut Sys, lines: &mut Lines, p: PartId, mode: Mode)
    requires time { sys.old.machine.time + 1 < 2 ^ 64 }
    requires ticks { sys.old.machine.ticks + 1 < 2 ^ 64 }
    requires room { length lines.old ≤ 4 }
    ensures state { sys.new ≡ with_machine (ended_by (UponAll (AllReset mode)) p sys.old.machine) sys.old }
    ensures lines { lines.new ≡ lines.old ++ ending_lines (UponAll (AllReset mode)) sys.old.machine }
    ensures few { length lines.new ≤ length lines.old + 34 }
{
    put_reset(lines, sys.ticks(), sys.count(), mode);
    reset_all(sys, mode);
    let now = sys.now();
    rest(sys, Some(p), now);
    let old = sys.plan_clock().plan();
    *sys.plan_clock_mut() = PlanClock::start();
    put_plan(sys, lines, old);
    sys.pass_ticks(1);
    sys.set_now(0);
}

// The hypervisor halts, and the clocks stand.
fn end_by_halt(sys: &mut Sys, lines: &mut Lines, p: PartId)
    requires room { length lines.old < 40 }
    ensures state { sys.new ≡ with_machine (ended_by (UponAll AllHalted) p sys.old.machine) sys.old }
    ensures lines { lines.new ≡ lines.old ++ ending_lines (UponAll AllHalted) sys.old.machine }
    ensures few { length lines.new ≤ length lines.old + 1 }
{
    lines.push(Line::Whole {
        n: sys.ticks(),
        to: Move::Halt,
    });
    sys.halt();
    let now = sys.now();
    rest(sys, Some(p), now);
}

// Emits the plan that comes, where it is another than this one.
fn put_plan(sys: &Sys, lines: &mut Lines, old: u8)
    requires { length lines.old < 40 }
    ensures value { lines.new ≡ lines.old ++ plan_lines sys.now.machine.ticks old sys.now.machine.clock.plan }
    ensures few { length lines.new ≤ length lines.old + 1 }
{
    let plan = sys.plan_clock().plan();
    if old != plan {
        lines.push(Line::PlanIs {
            n: sys.ticks(),
            plan,
        });
    }
}

// Emits a reset of all: its own line, and one of each partition.
fn put_reset(lines: &mut Lines, n: u64, count: u8, mode: Mode)
    requires room { length lines.old ≤ 4 }
    requires few { count ≤ 32 }
    ensures value { lines.new ≡ lines.old ++ reset_lines n count mode }
    ensures few { length lines.new ≤ length lines.old + 33 }
{
    let to = reset_move(mode);
    lines.push(Line::Whole { n, to });
    for p in 0..count {
        lines.push(Line::Moved { n, p, to });
    }
}

/// Resets all partitions and the hypervisor, and empties all channels.
pub fn reset_all(sys: &mut Sys, mode: Mode)
    // A reset of all partitions with the hypervisor, whose channels then hold nothing; it adds no line.
    ensures { sys.new ≡ with_machine (evented (AllReset mode) sys.old.machine) sys.old }
{
    reset_parts(sys, mode);
    sys.channels_mut().clear();
    sys.count_reset(mode);
}

// Resets all partitions.
fn reset_parts(sys: &mut Sys, mode: Mode)
    ensures { sys.new ≡ with_machine (record sys.old.machine { parts = each (λ q ps. reset (view_of sys.old.machine.system q) mode 0 ps) sys.old.machine.parts }) sys.old }
{
    for p in 0..sys.count() {
        reset(sys, p, mode, 0);
    }
}
