//! The calls on clocks, timers and plans: numbers 12 to 15.

ghost use Rattle.std.specs.Prelude.{◌≡◌, ◌^◌, ◌<◌, ◌≤ℤ◌, ◌==◌, ◌||◌, not, nat_lt, pos, unsigned_abs, IfNone};
ghost use Rattle.cyclic_plans.specs.PlanClock.{IsInFrame};
ghost use Rattle.sparc_step.specs.Registers.{register_at};
ghost use Rattle.virt_clocks.specs.Clocks.{armed, with_timer};
ghost use Rattle.machine_model.specs.Caller.{answering, invalid_parameter, is_neither, refused_if};
ghost use Rattle.machine_model.specs.Readings.{clock_numbered, clock_of, is_negative, joined};
ghost use Rattle.machine_model.specs.TimeCalls.{get_plan_status, get_time, set_timer, switch_sched_plan};
ghost use Rattle.machine_model.specs.Emission.{Unseen};
ghost use Rattle.system_state.specs.Serving.{IsCaller, IsServed, caller_of};

use crate::acting::show;
use system_state::answering::{
    A, B, C, D, E, INVALID_PARAMETER, OUT_0, answer, answer_written, argument, refused_if, room,
    system_only,
};
use system_state::structures::plan_status;
use system_state::{Act, CallSite, Note, Served, Sys};
use virt_clocks::Clock;

/// Call 12, XM_get_time(a, b): the clock a, at b.
#[tactic(auto, unfolding(machine_model::specs::TimeCalls::get_time))]
pub fn get_time(sys: &mut Sys, site: CallSite) -> Served
    // Called for a caller that exists.
    requires { IsCaller site sys.old }
    // Call 12, `XM_get_time`: the hardware clock or the execution clock is written.
    ensures { IsServed site.part Unseen (get_time (caller_of site sys.old)) result sys.old sys.new }
{
    let number = argument(sys, site, A);
    let at = argument(sys, site, B);
    if let Some(code) = refused_if(is_neither(number), INVALID_PARAMETER) {
        return answer(sys, site, code);
    }
    if let Some(code) = room(sys, site, at, 8) {
        return answer(sys, site, code);
    }
    let time = time_of(sys, site, clock_numbered(number));
    answer_written(sys, site, at, &time.to_be_bytes(), 0)
}

/// Call 13, XM_set_timer(a, b, c, d, e): the timer of clock a, with the deadline b:c and the interval d:e.
#[tactic(auto, unfolding(machine_model::specs::TimeCalls::set_timer))]
pub fn set_timer(sys: &mut Sys, site: CallSite) -> Served
    // Called for a caller that exists.
    requires { IsCaller site sys.old }
    // Call 13, `XM_set_timer`: the timer of that clock has the deadline and the interval, the high word of each first.
    ensures { IsServed site.part Unseen (set_timer (caller_of site sys.old)) result sys.old sys.new }
{
    let number = argument(sys, site, A);
    let deadline_high = argument(sys, site, B);
    let deadline_low = argument(sys, site, C);
    let interval_high = argument(sys, site, D);
    let interval_low = argument(sys, site, E);
    if let Some(code) = refused_if(is_neither(number), INVALID_PARAMETER) {
        return answer(sys, site, code);
    }
    let negative = is_negative(deadline_high) || is_negative(interval_high);
    if let Some(code) = refused_if(negative, INVALID_PARAMETER) {
        return answer(sys, site, code);
    }
    let deadline = joined(deadline_high, deadline_low);
    let interval = joined(interval_high, interval_low);
    arm(sys, site, clock_numbered(number), deadline, interval)
}

/// Call 14, XM_switch_sched_plan(a, b): asks for plan a; the current plan's number, at b.
#[tactic(auto, using(crate::proofs::ShownLemmas::plan_sight, crate::proofs::ActLemmas::plan_wants), unfolding(machine_model::specs::TimeCalls::switch_sched_plan))]
pub fn switch_sched_plan(sys: &mut Sys, site: CallSite) -> Served
    // Called for a caller that exists whose call is 14.
    requires caller { IsCaller site sys.old }
    requires number { register_at (caller_of site sys.old).state.core 8 ≡ 14 }
    // Call 14, `XM_switch_sched_plan`: by a system partition alone: the current plan is written, and another one is
    // asked for.
    ensures { IsServed site.part (caller_of site sys.old).sight (switch_sched_plan (caller_of site sys.old)) result sys.old sys.new }
{
    let plan = argument(sys, site, A);
    let at = argument(sys, site, B);
    if let Some(code) = system_only(sys, site) {
        return answer(sys, site, code);
    }
    if let Some(code) = plan_there(sys, site, plan) {
        return answer(sys, site, code);
    }
    if let Some(code) = room(sys, site, at, 4) {
        return answer(sys, site, code);
    }
    let current = u32::from(sys.plan_clock().plan());
    let ask = Act::Ask { plan: plan as u8 };
    show(sys, site, at, &current.to_be_bytes(), ask, 0)
}

/// Call 15, XM_get_plan_status(a): the status of the plan, at a.
#[tactic(auto, using(crate::proofs::ShownLemmas::plan_status_sight, crate::proofs::ActLemmas::plan_status_wants), unfolding(machine_model::specs::TimeCalls::get_plan_status))]
pub fn get_plan_status(sys: &mut Sys, site: CallSite) -> Served
    // Called for a caller that exists whose call is 15 and in the frame of the plan clock.
    requires caller { IsCaller site sys.old }
    requires number { register_at (caller_of site sys.old).state.core 8 ≡ 15 }
    requires frame { IsInFrame sys.old.machine.system.conf sys.old.machine.clock sys.old.machine.time }
    // Call 15, `XM_get_plan_status`: by a system partition alone: the status of the plan is written.
    ensures { IsServed site.part (caller_of site sys.old).sight (get_plan_status (caller_of site sys.old)) result sys.old sys.new }
{
    let at = argument(sys, site, A);
    if let Some(code) = system_only(sys, site) {
        return answer(sys, site, code);
    }
    if let Some(code) = room(sys, site, at, 20) {
        return answer(sys, site, code);
    }
    let clock = sys.plan_clock();
    let status = plan_status(clock, clock.here(sys.conf(), sys.now()));
    show(sys, site, at, status.bytes(), Act::Nothing, 0)
}

// Plan 0 cannot be asked for, and others have to be there.
#[tactic(auto, unfolding(system_state::specs::Serving::caller_of, machine_model::specs::View::view_of))]
fn plan_there(sys: &Sys, site: CallSite, plan: u32) -> Option<u32>
    requires { IsCaller site sys.now }
    ensures value { result ≡ refused_if (plan == 0 || not (nat_lt plan (caller_of site sys.now).view.sees.plans)) invalid_parameter }
    ensures few { IfNone result (plan < 256) }
{
    let plans = u32::from(sys.conf().sees(site.part).plans);
    refused_if(plan == 0 || plan >= plans, INVALID_PARAMETER)
}

// Whether a double word with this high word is below zero.
fn is_negative(high: u32) -> bool
    ensures { result ≡ is_negative high }
{
    high >= 0x8000_0000
}

// A double word of two words, the high one first.
fn joined(high: u32, low: u32) -> i64
    requires { high < 2 ^ 31 }
    ensures { result ≡ pos (joined high low) }
{
    i64::from(high) * 0x1_0000_0000 + i64::from(low)
}

// Sets the caller's timer on a clock.
#[tactic(auto, unfolding(system_state::specs::Serving::caller_of, machine_model::specs::Caller::with_answer))]
fn arm(sys: &mut Sys, site: CallSite, clock: Clock, deadline: i64, interval: i64) -> Served
    requires caller { IsCaller site sys.old }
    requires deadline { pos 0 ≤ℤ deadline }
    requires interval { pos 0 ≤ℤ interval }
    ensures { IsServed site.part Unseen (answering 0 (record (caller_of site sys.old).state { clocks = with_timer clock (armed (unsigned_abs deadline) (unsigned_abs interval)) (caller_of site sys.old).state.clocks })) result sys.old sys.new }
{
    let own = sys.part_mut(site.part);
    match own.clocks.set_timer(clock, deadline, interval) {
        Ok(()) => {}
        Err(_) => unreachable!(),
    }
    own.core.set(OUT_0, 0);
    Served {
        note: Note::Nothing,
        act: Act::Nothing,
    }
}

// Neither of the two numbers 0 and 1.
fn is_neither(number: u32) -> bool
    ensures { result ≡ is_neither number }
{
    !(number == 0 || number == 1)
}

// The clock with a number: 0 is the hardware clock, 1 the execution clock.
fn clock_numbered(number: u32) -> Clock
    ensures { result ≡ clock_numbered number }
{
    if number == 0 { Clock::Hw } else { Clock::Exec }
}

// What a clock says.
#[tactic(auto, unfolding(system_state::specs::Serving::caller_of))]
fn time_of(sys: &Sys, site: CallSite, clock: Clock) -> u64
    requires { IsCaller site sys.now }
    ensures { result ≡ clock_of clock (caller_of site sys.now) }
{
    match clock {
        Clock::Hw => sys.now(),
        Clock::Exec => sys.part(site.part).clocks.exec(),
    }
}
