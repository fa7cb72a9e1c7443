//! Plans at the edges of their slots and frames.

ghost use Rattle.std.specs.Prelude.{◌<◌, ◌-◌};
ghost use Rattle.std.specs.Bool.{OnTrue};
ghost use Rattle.cyclic_plans.specs.PlanClock.{IsInFrame};

use crate::clock::plan_of;
use crate::{Here, PlanClock};
use sample::{PlanRow, configured};
use std::ops::Range;
use std::process::Abort;
use std::test::Fail;
use xm_conf::Conf;

mod sample;

// Two slots that fill the frame.
const FULL: PlanRow<'static> = (2000, &[(0, 1000, 0), (1000, 1000, 1)]);

// Gaps before the slots, between them and after them.
const GAPS: PlanRow<'static> = (2000, &[(100, 400, 1), (600, 900, 0)]);

// What runs, by the slot, the partition and whether it is the first tick.
fn here(row: Option<(u8, u8, bool)>) -> Option<Here> {
    match row {
        Some((slot, part, first)) => Some(Here { slot, part, first }),
        None => None,
    }
}

// Whether a tick is in the frame of a plan of the configuration.
fn is_in_frame(conf: &Conf, clock: &PlanClock, now: u64) -> bool
    ensures { OnTrue result (IsInFrame conf.now clock.now now) }
{
    let begun = clock.frame_start();
    usize::from(clock.plan()) < conf.raw().plans.len()
        && begun <= now
        && now - begun < u64::from(plan_of(conf, clock.plan()).frame)
}

// What runs in a tick, and how many ticks are left of it.
fn seen(rt: &impl Abort, conf: &Conf, clock: &PlanClock, now: u64) -> (Option<Here>, u64) {
    assert!(rt; is_in_frame(conf, clock, now), "{now}");
    (clock.here(conf, now), clock.ticks_left(conf, now))
}

// The plan that is entered at the end of a tick.
fn ended(rt: &impl Abort, conf: &Conf, clock: &mut PlanClock, now: u64) -> Option<u8> {
    assert!(rt; is_in_frame(conf, clock, now), "{now}");
    assert!(rt; now < u64::MAX, "{now}");
    clock.advance(conf, now)
}

// Ends this many ticks, none of which enters a plan.
fn quiet(rt: &impl Abort, conf: &Conf, clock: &mut PlanClock, ticks: Range<u64>) {
    for now in ticks {
        assert_eq!(rt; ended(rt, conf, clock, now), None, "{now}");
    }
}

// A call on the plan clock, and what it gives.
#[derive(Drop)]
enum Call {
    // A plan is asked for.
    Ask(u8),
    // The ticks from one on up to another end, none of which enters a plan.
    Pass(u64, u64),
    // A tick ends, and enters a plan.
    End(u64, Option<u8>),
    // A tick ends by the switch to the maintenance plan.
    Maintain(u64),
    // The plan, the start of its frame and what is asked.
    Stand(u8, u64, Option<u8>),
    // What runs in a tick, and how many ticks are left of it.
    See(u64, Option<(u8, u8, bool)>, u64),
}

// A slot runs from its start to its end.
const SLOTS: [Call; 6] = [
    Call::See(0, Some((0, 0, true)), 1000),
    Call::See(1, Some((0, 0, false)), 999),
    Call::See(999, Some((0, 0, false)), 1),
    Call::See(1000, Some((1, 1, true)), 1000),
    Call::See(1001, Some((1, 1, false)), 999),
    Call::See(1999, Some((1, 1, false)), 1),
];

// Nothing runs between slots.
const BETWEEN: [Call; 11] = [
    Call::See(0, None, 100),
    Call::See(99, None, 1),
    Call::See(100, Some((0, 1, true)), 400),
    Call::See(101, Some((0, 1, false)), 399),
    Call::See(499, Some((0, 1, false)), 1),
    Call::See(500, None, 100),
    Call::See(599, None, 1),
    Call::See(600, Some((1, 0, true)), 900),
    Call::See(1499, Some((1, 0, false)), 1),
    Call::See(1500, None, 500),
    Call::See(1999, None, 1),
];

// The plan that was asked for last starts with the next frame.
const ASKED: [Call; 12] = [
    Call::Stand(0, 0, None),
    Call::Pass(0, 10),
    Call::Ask(1),
    Call::Pass(10, 20),
    Call::Stand(0, 0, Some(1)),
    Call::Ask(2),
    Call::Pass(20, 1999),
    Call::Stand(0, 0, Some(2)),
    Call::End(1999, Some(2)),
    Call::Stand(2, 2000, None),
    Call::See(2000, Some((0, 0, true)), 1000),
    Call::See(3999, Some((1, 1, false)), 1),
];

// A plan that is asked for in the last tick starts at once.
const ASKED_LAST: [Call; 8] = [
    Call::Pass(0, 1999),
    Call::Ask(1),
    Call::End(1999, Some(1)),
    Call::Stand(1, 2000, None),
    Call::See(2000, None, 100),
    Call::See(2100, Some((0, 1, true)), 400),
    Call::Pass(2000, 4000),
    Call::Stand(1, 4000, None),
];

// To ask for the plan that runs enters none.
const ASKED_AGAIN: [Call; 7] = [
    Call::Ask(0),
    Call::End(0, None),
    Call::Stand(0, 1, None),
    Call::Ask(1),
    Call::End(1, Some(1)),
    Call::Stand(1, 2, None),
    Call::See(2, None, 2),
];

// Maintenance starts plan 1 with the next tick, and forgets what was asked.
const MAINTENANCE: [Call; 11] = [
    Call::Ask(2),
    Call::Pass(0, 700),
    Call::Maintain(700),
    Call::Stand(1, 701, None),
    Call::See(701, None, 100),
    Call::Pass(701, 900),
    Call::Maintain(900),
    Call::Stand(1, 901, None),
    Call::See(1001, Some((0, 1, true)), 400),
    Call::Pass(901, 2901),
    Call::Stand(1, 2901, None),
];

// The plans of a configuration, and calls on its plan clock from the first tick on.
const RUNS: [(&[PlanRow<'static>], &[Call]); 6] = [
    (&[FULL], &SLOTS),
    (&[GAPS], &BETWEEN),
    (&[FULL, GAPS, FULL], &ASKED),
    (&[FULL, GAPS, FULL], &ASKED_LAST),
    (&[(1, &[(0, 1, 0)]), (3, &[(2, 1, 1)])], &ASKED_AGAIN),
    (&[FULL, GAPS, FULL], &MAINTENANCE),
];

// Does a call, and compares what it gives.
fn try_call(rt: &impl Abort, conf: &Conf, clock: &mut PlanClock, call: &Call) {
    match call {
        Call::Ask(plan) => clock.ask(*plan),
        Call::Pass(first, end) => quiet(rt, conf, clock, *first..*end),
        Call::End(now, plan) => assert_eq!(rt; ended(rt, conf, clock, *now), *plan, "{now}"),
        Call::Maintain(now) => {
            assert!(rt; *now < u64::MAX, "{now}");
            clock.to_maintenance(*now);
        }
        Call::Stand(plan, begun, asked) => {
            let state = (clock.plan(), clock.frame_start(), clock.asked());
            assert_eq!(rt; state, (*plan, *begun, *asked));
        }
        Call::See(now, slot, left) => {
            assert_eq!(rt; seen(rt, conf, clock, *now), (here(*slot), *left), "{now}");
        }
    }
}

#[test]
fn plans_run_at_the_edges_of_their_slots_and_frames(rt: HostRuntime) -> Result<(), Fail> {
    for (plans, calls) in RUNS {
        let conf = configured(&rt, rt.alloc(), plans)?;
        let mut clock = PlanClock::start();
        for call in calls {
            try_call(&rt, &conf, &mut clock, call);
        }
    }
    Ok(())
}
