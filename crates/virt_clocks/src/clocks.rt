//! The clocks of one partition.

ghost use Rattle.std.specs.Prelude.{◌≡◌, ◌↔◌, ◌+◌, ◌^◌, ◌<◌, ◌<ℤ◌, ◌⊎◌, ◌||◌, None, pos, is_some, unsigned_abs, IfSome, IsErr, IsNone, OnErr, OnOk};
ghost use Rattle.std.specs.Option.{ForSome};
ghost use Rattle.virt_clocks.specs.Flips.{flipped_timer};
ghost use Rattle.virt_clocks.specs.Clocks.{AreTimers, IsFirstDue, IsTimer, NoneCounted, armed, is_due, lesser, looked_at, next_due, no_clocks, ticks_until, timer_of, with_timer};

use crate::flip::flipped_timer;
use crate::timer::{
    Clock, Negative, Timer, armed, counted, is_due, is_negative, lesser, looked_at, ticks_until,
};
use std::marker::Model;

/// The clocks of a partition: how many ticks it ran, and its timers.
#[derive(Debug, Drop)]
pub struct Clocks {
    execution: u64,
    hardware_timer: Option<Timer>,
    execution_timer: Option<Timer>,
}

impl Model for Clocks {
    ghost use Rattle.virt_clocks.specs.Clocks.{AreTimers, PartitionClocks};

    ghost Value = { PartitionClocks };

    ghost view = { λ c. record { execution = c.execution; hardware_timer = c.hardware_timer; execution_timer = c.execution_timer } };

    ghost invariant = { λ c. AreTimers (record { execution = c.execution; hardware_timer = c.hardware_timer; execution_timer = c.execution_timer }) };
}

impl Clocks {
    /// The clocks of a partition that begins. No timer is armed.
    #[tactic(auto, unfolding(crate::specs::Clocks::no_clocks))]
    pub fn new() -> Clocks
        ensures value { result ≡ no_clocks }
    {
        Clocks {
            execution: 0,
            hardware_timer: None,
            execution_timer: None,
        }
    }

    /// The clocks of a partition that goes on: how many ticks it ran, and its timers.
    pub fn resumed(
        execution: u64,
        hardware_timer: Option<Timer>,
        execution_timer: Option<Timer>,
    ) -> Clocks
        // Called with timers that can be set: a deadline of 1 to 2^63 - 1, and an interval below 2^63.
        requires hardware { ForSome hardware_timer IsTimer }
        requires execution { ForSome execution_timer IsTimer }
        // The clocks with these values.
        ensures value { result ≡ record { execution = execution; hardware_timer = hardware_timer; execution_timer = execution_timer } }
    {
        Clocks {
            execution,
            hardware_timer,
            execution_timer,
        }
    }

    /// How many ticks the partition ran.
    pub fn exec(&self) -> u64
        // The execution clock.
        ensures value { result ≡ self.now.execution }
    {
        self.execution
    }

    /// The timer on a clock, or `None` where it is not armed.
    pub fn timer(&self, clock: Clock) -> Option<Timer>
        // The timer of a clock.
        ensures value { result ≡ timer_of clock self.now }
        // Both timers are such as can be set.
        ensures timers { AreTimers self.now }
    {
        match clock {
            Clock::Hw => self.hardware_timer,
            Clock::Exec => self.execution_timer,
        }
    }

    /// Arms the timer on a clock, or disarms it where the deadline is 0.
    ///
    /// The deadline is a reading of that clock, in microseconds. With an interval of 0 the timer is due once.
    pub fn set_timer(&mut self, clock: Clock, deadline: i64, interval: i64) -> Result<(), Negative>
        // Refused exactly where the deadline or the interval is negative, and then nothing changed; else the timer is
        // set, or disarmed by the deadline 0.
        ensures negative { IsErr result ↔ ((deadline <ℤ pos 0) ⊎ (interval <ℤ pos 0)) }
        ensures set { OnOk result (self.new ≡ with_timer clock (armed (unsigned_abs deadline) (unsigned_abs interval)) self.old) }
        ensures unchanged { OnErr result (self.new ≡ self.old) }
    {
        if is_negative(deadline, interval) {
            return Err(Negative);
        }
        let timer = armed(deadline.unsigned_abs(), interval.unsigned_abs());
        match clock {
            Clock::Hw => self.hardware_timer = timer,
            Clock::Exec => self.execution_timer = timer,
        }
        Ok(())
    }

    /// A bit of the deadline of the timer on a clock flips. The deadline of a timer that is not armed is 0; one that becomes 0
    /// disarms the timer.
    pub fn flip_deadline(&mut self, clock: Clock, bit: u8)
        // Called for one of the 63 bits of a deadline.
        requires { bit < 63 }
        // The bit flips, and no other bit of either timer or of the execution clock.
        ensures value { self.new ≡ with_timer clock (flipped_timer bit (timer_of clock self.old)) self.old }
    {
        match clock {
            Clock::Hw => self.hardware_timer = flipped_timer(self.hardware_timer, bit),
            Clock::Exec => self.execution_timer = flipped_timer(self.execution_timer, bit),
        }
    }

    /// Counts a tick in which the partition ran.
    pub fn pass(&mut self)
        // Called below 2^63 ticks.
        requires { self.old.execution < 2 ^ 63 }
        // A tick that the partition ran is counted.
        ensures value { self.new ≡ record self.old { execution = self.old.execution + 1 } }
    {
        self.execution += 1;
    }

    /// Counts ticks in which the partition ran. More can be counted after them.
    pub fn pass_many(&mut self, ticks: u64)
        // Called for ticks that leave fewer than 2^63.
        requires { self.old.execution + ticks < 2 ^ 63 }
        // The ticks that the partition ran are counted.
        ensures value { self.new ≡ record self.old { execution = self.old.execution + ticks } }
        // More can be counted after them.
        ensures passes { self.new.execution < 2 ^ 63 }
    {
        self.execution += ticks;
    }

    /// Disarms both timers.
    pub fn disarm(&mut self)
        // Both timers are disarmed.
        ensures value { self.new ≡ record self.old { hardware_timer = None; execution_timer = None } }
    {
        self.hardware_timer = None;
        self.execution_timer = None;
    }

    /// Whether the timer on the hardware clock is due. If so, it is moved on or disarmed.
    #[tactic(auto, using(crate::proofs::LookLemmas::stays_undue))]
    pub fn hw_due(&mut self, now: u64) -> bool
        // The timer is due where it is armed and the clock is at its deadline or past it.
        ensures value { result ≡ is_due now self.old.hardware_timer }
        // A timer that is due is moved on to its least deadline past the clock, or disarmed.
        ensures timer { self.new ≡ record self.old { hardware_timer = looked_at now self.old.hardware_timer } }
    {
        if !is_due(now, self.hardware_timer) {
            return false;
        }
        self.hardware_timer = looked_at(now, self.hardware_timer);
        true
    }

    /// Whether the timer on the execution clock is due. If so, it is moved on or disarmed.
    #[tactic(auto, using(crate::proofs::LookLemmas::stays_undue))]
    pub fn exec_due(&mut self) -> bool
        // The timer is due where it is armed and the clock is at its deadline or past it.
        ensures value { result ≡ is_due self.old.execution self.old.execution_timer }
        // A timer that is due is moved on to its least deadline past the clock, or disarmed.
        ensures timer { self.new ≡ record self.old { execution_timer = looked_at self.old.execution self.old.execution_timer } }
    {
        if !is_due(self.execution, self.execution_timer) {
            return false;
        }
        self.execution_timer = looked_at(self.execution, self.execution_timer);
        true
    }

    /// How many ticks are left until a timer is due if nothing changes, 0 where one is due at once, or `None` where no
    /// timer is armed. The timer on the execution clock counts only where the partition runs.
    pub fn next_due(&self, now: u64, running: bool) -> Option<u64>
        // How many ticks are left until a timer is due; none where none is armed and counted; it is the least number.
        ensures value { result ≡ next_due now running self.now }
        ensures none { IsNone result ↔ NoneCounted running self.now }
        ensures least { IfSome result (IsFirstDue now running self.now) }
    {
        if !self.is_armed() {
            return None;
        }
        self.first_due(now, running)
    }

    // Whether a timer is armed.
    fn is_armed(&self) -> bool
        ensures { result ≡ (is_some self.now.hardware_timer || is_some self.now.execution_timer) }
    {
        self.hardware_timer.is_some() || self.execution_timer.is_some()
    }

    // The ticks that are left, where a timer is armed.
    #[tactic(auto, unfolding(crate::specs::Clocks::next_due))]
    fn first_due(&self, now: u64, running: bool) -> Option<u64>
        ensures value { result ≡ next_due now running self.now }
        ensures none { IsNone result ↔ NoneCounted running self.now }
        ensures least { IfSome result (IsFirstDue now running self.now) }
    {
        let execution_timer = counted(running, self.execution_timer);
        lesser(
            ticks_until(now, self.hardware_timer),
            ticks_until(self.execution, execution_timer),
        )
    }
}
