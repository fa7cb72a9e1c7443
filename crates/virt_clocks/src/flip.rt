//! A bit of the deadline of a timer flips.

ghost use Rattle.std.specs.Prelude.{◌≡◌, ◌^◌, ◌<◌, bit_xor};
ghost use Rattle.std.specs.Option.{ForSome};
ghost use Rattle.virt_clocks.specs.Clocks.{IsTimer};
ghost use Rattle.virt_clocks.specs.Flips.{deadline_of, flipped_timer, interval_of};

use crate::timer::{Timer, armed};

/// A timer after the flip of a bit of its deadline.
pub(crate) fn flipped_timer(timer: Option<Timer>, bit: u8) -> Option<Timer>
    requires timer { ForSome timer IsTimer }
    requires bit { bit < 63 }
    ensures value { result ≡ flipped_timer bit timer }
    ensures timer { ForSome result IsTimer }
{
    armed(
        flipped_deadline(deadline_of(timer), bit),
        interval_of(timer),
    )
}

// A deadline, or 0 where the timer is not armed.
fn deadline_of(timer: Option<Timer>) -> u64
    requires { ForSome timer IsTimer }
    ensures value { result ≡ deadline_of timer }
    ensures below { result < 2 ^ 63 }
{
    match timer {
        Some(timer) => timer.deadline,
        None => 0,
    }
}

// An interval, or 0 where the timer is not armed.
fn interval_of(timer: Option<Timer>) -> u64
    requires { ForSome timer IsTimer }
    ensures value { result ≡ interval_of timer }
    ensures below { result < 2 ^ 63 }
{
    match timer {
        Some(timer) => timer.interval,
        None => 0,
    }
}

// A deadline after the flip of one of its 63 bits.
fn flipped_deadline(deadline: u64, bit: u8) -> u64
    requires deadline { deadline < 2 ^ 63 }
    requires bit { bit < 63 }
    ensures value { result ≡ bit_xor deadline (2 ^ bit) }
    ensures below { result < 2 ^ 63 }
{
    flipped(deadline, bit)
}

// A number after the flip of a bit.
fn flipped(number: u64, bit: u8) -> u64
    requires { bit < 63 }
    ensures { result ≡ bit_xor number (2 ^ bit) }
{
    number ^ (1 << bit)
}
