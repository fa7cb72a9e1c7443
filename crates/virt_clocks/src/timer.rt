//! Timers: what is set, what is due, and what becomes of a timer that was due.

ghost use Rattle.std.specs.Prelude.{◌≡◌, ◌↔◌, ◌-◌, ◌^◌, ◌<◌, ◌≤◌, ◌<ℤ◌, ◌⊎◌, pos, IsTrue, min};
ghost use Rattle.std.specs.Option.{ForSome};
ghost use Rattle.virt_clocks.specs.Clocks.{IsTimer, armed, if_counting, is_due, lesser, looked_at, moved_to, next_deadline, rearmed, ticks_until};

/// The last deadline that a timer can have.
const LAST: u64 = 0x7fff_ffff_ffff_ffff;

/// A clock on which a partition has a timer. Both count microseconds, one a tick.
#[derive(Clone, Copy, Debug, PartialEq, Eq)]
pub enum Clock {
    /// The clock of the machine.
    Hw,
    /// The clock of the partition, which goes on only in the ticks in which it runs.
    Exec,
}

/// A timer that is armed.
#[derive(Clone, Copy, Debug, PartialEq, Eq)]
pub struct Timer {
    /// The reading of its clock from which on it is due.
    pub deadline: u64,
    /// How far the deadline moves on once it was due, or 0 where it is due only once.
    pub interval: u64,
}

/// A deadline or an interval is below 0.
#[derive(Clone, Copy, Debug, PartialEq, Eq)]
pub struct Negative;

/// Whether a deadline or an interval is below 0.
pub(crate) fn is_negative(deadline: i64, interval: i64) -> bool
    ensures { IsTrue result ↔ ((deadline <ℤ pos 0) ⊎ (interval <ℤ pos 0)) }
{
    deadline < 0 || interval < 0
}

/// The timer of a deadline and an interval, or `None` where the deadline is 0.
pub(crate) fn armed(deadline: u64, interval: u64) -> Option<Timer>
    requires deadline { deadline < 2 ^ 63 }
    requires interval { interval < 2 ^ 63 }
    ensures value { result ≡ armed deadline interval }
    ensures timer { ForSome result IsTimer }
{
    if deadline == 0 {
        return None;
    }
    Some(Timer { deadline, interval })
}

/// Whether a timer is due at a reading of its clock.
pub(crate) fn is_due(clock: u64, timer: Option<Timer>) -> bool
    ensures value { result ≡ is_due clock timer }
{
    match timer {
        None => false,
        Some(timer) => timer.deadline <= clock,
    }
}

/// What a timer is after it was looked at at a reading of its clock.
#[tactic(auto, unfolding(crate::specs::Clocks::looked_at))]
pub(crate) fn looked_at(clock: u64, timer: Option<Timer>) -> Option<Timer>
    requires { ForSome timer IsTimer }
    ensures value { result ≡ looked_at clock timer }
    ensures timer { ForSome result IsTimer }
{
    match timer {
        None => None,
        Some(timer) => {
            if timer.deadline <= clock {
                rearmed(clock, timer)
            } else {
                Some(timer)
            }
        }
    }
}

/// What becomes of a timer that is due.
fn rearmed(clock: u64, timer: Timer) -> Option<Timer>
    requires timer { IsTimer timer }
    requires due { timer.deadline ≤ clock }
    ensures value { result ≡ rearmed clock timer }
    ensures timer { ForSome result IsTimer }
{
    if timer.interval == 0 {
        None
    } else {
        moved_on(clock, timer)
    }
}

/// A timer that is due and has an interval, moved on to its next deadline.
fn moved_on(clock: u64, timer: Timer) -> Option<Timer>
    requires timer { IsTimer timer }
    requires due { timer.deadline ≤ clock }
    requires interval { 0 < timer.interval }
    ensures value { result ≡ moved_to (next_deadline clock timer) timer }
    ensures timer { ForSome result IsTimer }
{
    let ahead = timer.interval - (clock - timer.deadline) % timer.interval;
    let deadline = clock.saturating_add(ahead);
    if deadline > LAST {
        return None;
    }
    Some(Timer {
        deadline,
        interval: timer.interval,
    })
}

/// How many ticks are left until a timer is due.
pub(crate) fn ticks_until(clock: u64, timer: Option<Timer>) -> Option<u64>
    ensures value { result ≡ ticks_until clock timer }
{
    match timer {
        None => None,
        Some(timer) => Some(timer.deadline.saturating_sub(clock)),
    }
}

/// A timer whose clock goes on.
pub(crate) fn counted(running: bool, timer: Option<Timer>) -> Option<Timer>
    ensures value { result ≡ if_counting running timer }
{
    if running { timer } else { None }
}

/// The lesser of two numbers, of which each may be missing.
pub(crate) fn lesser(one: Option<u64>, other: Option<u64>) -> Option<u64>
    ensures value { result ≡ lesser one other }
{
    match (one, other) {
        (None, other) => other,
        (one, None) => one,
        (Some(one), Some(other)) => Some(one.min(other)),
    }
}
