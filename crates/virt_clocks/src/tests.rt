//! Timers at the edges of their deadlines.

use crate::{Clock, Clocks, Negative, Timer, looked_at_again, next_deadline_is_least};
use std::process::Abort;

// The greatest number of a deadline or an interval.
const MOST: i64 = 0x7fff_ffff_ffff_ffff;

// Clocks after this many ticks in which the partition ran, with a timer on one of them.
#[tactic(auto, unfolding(crate::specs::Clocks::no_clocks))]
fn set(rt: &impl Abort, ticks: u8, clock: Clock, deadline: i64, interval: i64) -> Clocks {
    let mut clocks = Clocks::new();
    for _ in 0..ticks {
        clocks.pass();
    }
    assert_eq!(rt; clocks.set_timer(clock, deadline, interval), Ok(()));
    clocks
}

// A timer, where there are a deadline and an interval.
fn timer(row: Option<(u64, u64)>) -> Option<Timer> {
    match row {
        Some((deadline, interval)) => Some(Timer { deadline, interval }),
        None => None,
    }
}

#[tactic(auto, unfolding(crate::specs::Clocks::no_clocks))]
#[test]
fn a_timer_is_set_unless_a_number_is_negative(rt: HostRuntime) {
    for (deadline, interval, set) in [
        (1, 0, Ok(timer(Some((1, 0))))),
        (10, 4, Ok(timer(Some((10, 4))))),
        (
            MOST,
            MOST,
            Ok(timer(Some((0x7fff_ffff_ffff_ffff, 0x7fff_ffff_ffff_ffff)))),
        ),
        (0, 0, Ok(None)),
        (0, 7, Ok(None)),
        (-1, 0, Err(Negative)),
        (1, -1, Err(Negative)),
        (0, -1, Err(Negative)),
        (-MOST - 1, MOST, Err(Negative)),
        (MOST, -MOST - 1, Err(Negative)),
    ] {
        for (clock, other) in [(Clock::Hw, Clock::Exec), (Clock::Exec, Clock::Hw)] {
            let mut clocks = Clocks::new();
            clocks.pass_many(42);
            assert_eq!(rt; clocks.set_timer(clock, 5, 3), Ok(()));
            assert_eq!(rt; clocks.set_timer(other, 6, 2), Ok(()));
            let answer = clocks.set_timer(clock, deadline, interval);
            let (result, left) = match set {
                Ok(left) => (Ok(()), left),
                Err(negative) => (Err(negative), timer(Some((5, 3)))),
            };
            assert_eq!(rt; answer, result, "{deadline} {interval}");
            assert_eq!(rt; clocks.timer(clock), left, "{deadline} {interval}");
            assert_eq!(rt;
                clocks.timer(other),
                timer(Some((6, 2))),
                "{deadline} {interval}"
            );
            clocks.disarm();
            assert_eq!(rt; (clocks.timer(clock), clocks.timer(other)), (None, None));
            assert_eq!(rt; clocks.exec(), 42);
        }
    }
}

// A clock, how many ticks the partition ran, a deadline and an interval on that clock, and what the hardware clock reads;
// whether the timer is due then, and what it is after that.
type Look = (Clock, u8, i64, i64, u64, bool, Option<(u64, u64)>);

const LOOKS: [Look; 24] = [
    (Clock::Hw, 0, 10, 4, 9, false, Some((10, 4))),
    (Clock::Hw, 0, 10, 4, 10, true, Some((14, 4))),
    (Clock::Hw, 0, 10, 4, 13, true, Some((14, 4))),
    (Clock::Hw, 0, 10, 4, 25, true, Some((26, 4))),
    (Clock::Hw, 0, 10, 4, 26, true, Some((30, 4))),
    (Clock::Hw, 0, 10, 1, 10, true, Some((11, 1))),
    (Clock::Hw, 0, 10, 1, 25, true, Some((26, 1))),
    (Clock::Hw, 0, 10, 0, 9, false, Some((10, 0))),
    (Clock::Hw, 0, 10, 0, 10, true, None),
    (Clock::Hw, 0, 10, 0, 25, true, None),
    (
        Clock::Hw,
        0,
        1,
        MOST - 1,
        1,
        true,
        Some((0x7fff_ffff_ffff_ffff, 0x7fff_ffff_ffff_fffe)),
    ),
    (Clock::Hw, 0, 1, MOST, 1, true, None),
    (Clock::Hw, 0, 2, MOST - 1, 2, true, None),
    (
        Clock::Hw,
        0,
        MOST - 1,
        1,
        0x7fff_ffff_ffff_fffe,
        true,
        Some((0x7fff_ffff_ffff_ffff, 1)),
    ),
    (
        Clock::Hw,
        0,
        MOST,
        1,
        0x7fff_ffff_ffff_fffe,
        false,
        Some((0x7fff_ffff_ffff_ffff, 1)),
    ),
    (Clock::Hw, 0, MOST, 1, 0x7fff_ffff_ffff_ffff, true, None),
    (Clock::Hw, 0, 10, 4, 0xffff_ffff_ffff_ffff, true, None),
    (Clock::Hw, 0, MOST, MOST, 0xffff_ffff_ffff_ffff, true, None),
    (Clock::Hw, 0, 0, 4, 25, false, None),
    (Clock::Exec, 0, 10, 4, 30, false, Some((10, 4))),
    (Clock::Exec, 9, 10, 4, 30, false, Some((10, 4))),
    (Clock::Exec, 10, 10, 4, 30, true, Some((14, 4))),
    (Clock::Exec, 25, 10, 4, 30, true, Some((26, 4))),
    (Clock::Exec, 26, 10, 4, 30, true, Some((30, 4))),
];

// Whether the timer on a clock is due, and that on the other clock.
fn are_due(clocks: &mut Clocks, clock: Clock, now: u64) -> (bool, bool) {
    let (hardware, execution) = (clocks.hw_due(now), clocks.exec_due());
    match clock {
        Clock::Hw => (hardware, execution),
        Clock::Exec => (execution, hardware),
    }
}

#[test]
fn a_timer_that_is_due_is_moved_past_its_clock(rt: HostRuntime) {
    next_deadline_is_least();
    looked_at_again();
    for (clock, ticks, deadline, interval, now, due, left) in LOOKS {
        let mut clocks = set(&rt, ticks, clock, deadline, interval);
        assert_eq!(rt; clocks.exec(), u64::from(ticks));
        let other = match clock {
            Clock::Hw => Clock::Exec,
            Clock::Exec => Clock::Hw,
        };
        for due in [due, false] {
            assert_eq!(rt;
                are_due(&mut clocks, clock, now),
                (due, false),
                "{deadline} {interval} {now} {ticks}"
            );
            assert_eq!(rt;
                clocks.timer(clock),
                timer(left),
                "{deadline} {interval} {now} {ticks}"
            );
            assert_eq!(rt;
                clocks.timer(other),
                None,
                "{deadline} {interval} {now} {ticks}"
            );
        }
    }
}

#[test]
fn the_next_timer_is_the_one_with_fewer_ticks_left(rt: HostRuntime) {
    for (hardware, execution, now, running, left) in [
        (0, 0, 0, true, None),
        (30, 0, 25, true, Some(5)),
        (30, 0, 25, false, Some(5)),
        (30, 0, 30, false, Some(0)),
        (30, 0, 31, true, Some(0)),
        (0, 7, 25, true, Some(4)),
        (0, 7, 25, false, None),
        (0, 3, 25, true, Some(0)),
        (0, 2, 25, true, Some(0)),
        (30, 7, 25, true, Some(4)),
        (30, 7, 25, false, Some(5)),
        (30, 7, 27, true, Some(3)),
        (30, 8, 25, true, Some(5)),
        (30, 9, 25, true, Some(5)),
        (MOST, 0, 0, false, Some(0x7fff_ffff_ffff_ffff)),
    ] {
        let mut clocks = set(&rt, 3, Clock::Exec, execution, 0);
        assert_eq!(rt; clocks.set_timer(Clock::Hw, hardware, 0), Ok(()));
        assert_eq!(rt;
            clocks.next_due(now, running),
            left,
            "{hardware} {execution} {now}"
        );
    }
}
