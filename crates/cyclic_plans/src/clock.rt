//! The plan clock: it counts frames, and starts the plan that is asked for with the next one.

ghost use Rattle.std.specs.Prelude.{◌≡◌, ◌↔◌, ℕ, ◌+◌, ◌-◌, ◌^◌, ◌<◌, ◌≤◌, length, IfSome, IsNone, Some, unwrap_or};
ghost use Rattle.cyclic_plans.specs.PlanClock.{AsksPlan, Enters, IsInFrame, frame_from, ended, ends_frame, entered_plan, here, in_maintenance, moment, next_plan, other_plan, slot_at, started, ticks_left};
ghost use Rattle.cyclic_plans.specs.Slots.{IsGap, IsHere, frame_of, slots_of};
ghost use Rattle.xm_conf.specs.Description.{described};
ghost use Rattle.xm_conf.specs.Fits.{Fits};

use crate::slots::{Here, here_at, stretch_end};
use std::marker::Model;
use xm_conf::{Conf, Plan};

/// The cyclic plan that runs, the tick with which its frame began, and the plan that is asked for.
#[derive(Debug, Drop)]
pub struct PlanClock {
    plan: u8,
    frame_start: u64,
    asked: Option<u8>,
}

impl Model for PlanClock {
    ghost use Rattle.cyclic_plans.specs.PlanClock.{CyclicClock};

    ghost Value = { CyclicClock };

    ghost view = { λ c. record { plan = c.plan; frame_start = c.frame_start; asked = c.asked } };
}

impl PlanClock {
    /// The clock of a system that begins: plan 0 from tick 0 on.
    #[tactic(auto, unfolding(crate::specs::PlanClock::started))]
    pub fn start() -> PlanClock
        ensures value { result ≡ started }
    {
        PlanClock {
            plan: 0,
            frame_start: 0,
            asked: None,
        }
    }

    /// The clock of a system that goes on: the plan that runs, the tick with which its frame began, and the plan that is
    /// asked for.
    pub fn resumed(plan: u8, frame_start: u64, asked: Option<u8>) -> PlanClock
        // The clock with these values.
        ensures value { result ≡ record { plan = plan; frame_start = frame_start; asked = asked } }
    {
        PlanClock {
            plan,
            frame_start,
            asked,
        }
    }

    /// The number of the plan that runs.
    pub fn plan(&self) -> u8
        ensures value { result ≡ self.now.plan }
    {
        self.plan
    }

    /// The tick with which the frame began.
    pub fn frame_start(&self) -> u64
        ensures value { result ≡ self.now.frame_start }
    {
        self.frame_start
    }

    /// The number of the plan that is asked for, where there is one.
    pub fn asked(&self) -> Option<u8>
        ensures value { result ≡ self.now.asked }
    {
        self.asked
    }

    /// What runs in a tick of the frame, or `None` in a gap between slots.
    #[tactic(auto, using(crate::proofs::ClockLemmas::here_covers, crate::proofs::ClockLemmas::here_gap), unfolding(crate::specs::PlanClock::here, crate::specs::PlanClock::slot_at))]
    pub fn here(&self, conf: &Conf, now: u64) -> Option<Here>
        // Called in the frame of a plan of the configuration.
        requires { IsInFrame conf.now self.now now }
        // The slot that a tick is in, with its partition, and whether the tick is its first; none exactly in a gap.
        ensures value { result ≡ here conf.now self.now now }
        ensures covers { IfSome result (IsHere (moment self.now now) (slots_of conf.now self.now.plan)) }
        ensures gap { IsNone result ↔ IsGap (moment self.now now) (slots_of conf.now self.now.plan) }
    {
        here_at(self.moment(now), &plan_of(conf, self.plan()).slots)
    }

    /// Asks for the plan of the next frame. What was asked before is forgotten.
    pub fn ask(&mut self, plan: u8)
        // A plan is asked for.
        ensures value { self.new ≡ record self.old { asked = Some plan } }
    {
        self.asked = Some(plan);
    }

    /// Ends a tick by a switch to the maintenance plan, plan 1, instead of `advance`.
    #[tactic(auto, unfolding(crate::specs::PlanClock::in_maintenance))]
    pub fn to_maintenance(&mut self, now: u64)
        // Called below the last number of a clock.
        requires { now < 2 ^ 64 - 1 }
        // Plan 1 begins with the next tick.
        ensures value { self.new ≡ in_maintenance now }
    {
        self.begin_frame(MAINTENANCE, now + 1);
    }

    /// Ends a tick. The answer is the plan that starts with the next one, where it is another than before.
    #[tactic(auto, using(crate::proofs::ClockLemmas::entered_in_frame), unfolding(crate::specs::PlanClock::ended, crate::specs::PlanClock::entered_plan))]
    pub fn advance(&mut self, conf: &Conf, now: u64) -> Option<u8>
        // Called in the frame of a plan of the configuration and below the last number of a clock.
        requires in_frame { IsInFrame conf.now self.old now }
        requires now { now < 2 ^ 64 - 1 }
        // The end of a tick: where the frame ends the asked plan or else the same begins, and nothing is asked; the
        // plan is the answer where it is another; the next tick is in the frame.
        ensures clock { self.new ≡ ended conf.now self.old now }
        ensures value { result ≡ entered_plan conf.now self.old now }
        ensures changed { IfSome result (Enters conf.now self.old self.new now) }
        ensures kept { AsksPlan conf.now self.old → IsInFrame conf.now self.new (now + 1) }
    {
        if !self.ends_frame(conf, now) {
            return None;
        }
        let old = self.plan();
        let new = self.next_plan();
        self.begin_frame(new, now + 1);
        other_plan(old, new)
    }

    /// How many ticks are left to the end of the slot or gap, with this one.
    #[tactic(auto, using(crate::proofs::ClockLemmas::ticks_alike, crate::proofs::ClockLemmas::ticks_within, crate::proofs::ClockLemmas::ticks_some), unfolding(crate::specs::PlanClock::ticks_left))]
    pub fn ticks_left(&self, conf: &Conf, now: u64) -> u64
        // Called in the frame of a plan of the configuration.
        requires { IsInFrame conf.now self.now now }
        // The ticks to the end of the slot or gap: it is the same slot or gap in all of them, and within the frame.
        ensures value { result ≡ ticks_left conf.now self.now now }
        ensures alike { (ticks : ℕ) → ticks < result → slot_at conf.now self.now (now + ticks) ≡ slot_at conf.now self.now now }
        ensures within { now + result ≤ self.now.frame_start + frame_of conf.now self.now.plan }
        ensures some { 0 < result }
    {
        let moment = self.moment(now);
        stretch_end(plan_of(conf, self.plan()), moment) - moment
    }

    /// How far a tick is into the frame.
    fn moment(&self, now: u64) -> u64
        requires { self.now.frame_start ≤ now }
        ensures value { result ≡ moment self.now now }
    {
        now - self.frame_start
    }

    /// Whether the frame ends with a tick.
    fn ends_frame(&self, conf: &Conf, now: u64) -> bool
        requires in_frame { IsInFrame conf.now self.now now }
        requires now { now < 2 ^ 64 - 1 }
        ensures value { result ≡ ends_frame conf.now self.now now }
        ensures fits { Fits (described conf.now) }
    {
        self.moment(now + 1) == u64::from(plan_of(conf, self.plan()).frame)
    }

    /// The plan of the next frame.
    fn next_plan(&self) -> u8
        ensures value { result ≡ next_plan self.now }
    {
        self.asked.unwrap_or(self.plan)
    }

    /// Begins the frame of a plan with a tick. What was asked is forgotten.
    fn begin_frame(&mut self, plan: u8, start: u64)
        ensures value { self.new ≡ frame_from plan start }
    {
        self.plan = plan;
        self.frame_start = start;
        self.asked = None;
    }
}

/// The number of the maintenance plan.
const MAINTENANCE: u8 = 1;

/// The plan of a number.
pub(crate) fn plan_of(conf: &Conf, plan: u8) -> &Plan
    requires { plan < length conf.now.plans }
    ensures slots { slots_of conf.now plan ≡ result.now.slots }
    ensures frame { frame_of conf.now plan ≡ result.now.frame }
    ensures few { length result.now.slots ≤ 64 }
    ensures fits { Fits (described conf.now) }
{
    &conf.raw().plans[usize::from(plan)]
}

/// A plan, where it is another than the old one.
fn other_plan(old: u8, new: u8) -> Option<u8>
    ensures value { result ≡ other_plan old new }
{
    if new == old { None } else { Some(new) }
}
