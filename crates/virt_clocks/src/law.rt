//! The laws of a timer, over all timers and clocks.

ghost use Rattle.virt_clocks.specs.Laws.{DueAtEither, LooksAgain, NextDeadlineIsLeast};

/// A timer that is moved on waits for the least of its deadlines that is past the clock.
pub fn next_deadline_is_least()
    // Law: the next deadline is the least that is past the clock and whole intervals from the old one.
    ensures law { NextDeadlineIsLeast }
{}

/// A timer on either clock that is looked at now and again later is then as if it was looked at later alone, and was
/// due at one of the two looks exactly where it is due then.
pub fn looked_at_again()
    // Law: a timer that is looked at now and again later is then as if it was looked at later alone; and it is due at
    // the later look alone exactly where it is due at one of the two.
    ensures timer { LooksAgain }
    ensures due { DueAtEither }
{}
