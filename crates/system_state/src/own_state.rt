//! The state of one partition.

ghost use Rattle.std.specs.Prelude.{◌≡◌, ◌%◌, ◌<◌, ◌||◌, IfOk};
ghost use Rattle.std.specs.List.{list_any};
ghost use Rattle.virt_clocks.specs.Clocks.{looked_at};
ghost use Rattle.system_state.specs.lemmas.StateTerms.{booted_own};
ghost use Rattle.system_state.specs.State.{IsFrom, is_timed};
ghost use Rattle.system_state.specs.lemmas.TurningTerms.{HasHeard, HasMet};

use crate::interrupts::{EXECUTION_TIMER, HARDWARE_TIMER, SLOT_START};
use health_monitor::HealthEntry;
use sparc_step::{Core, Processor};
use std::alloc::Global;
use std::marker::Model;
use virt_clocks::{Clock, Clocks};
use virt_traps::Virt;
use xm_base::{Memory, State};
use xm_ports::Ports;
use xm_traces::{Ring, TraceEntry};

/// The state of a partition, but for its memory and its input words, which belong to the system.
#[derive(Debug, Drop)]
pub struct PartState {
    /// The registers, as they are cached for many instructions.
    pub core: Processor,
    pub virt: Virt,
    pub clocks: Clocks,
    pub state: State,
    /// How many warm resets there were since the last cold one.
    pub resets: u32,
    /// What the last reset left for the partition to ask for.
    pub reset_status: u32,
    pub ports: Ports,
    pub traces: Ring<TraceEntry>,
    pub health: Ring<HealthEntry>,
    /// How many of its input words it has read.
    pub used: usize,
}

impl Model for PartState {
    ghost use Rattle.system_state.specs.State.{OwnState};

    ghost Value = { OwnState };

    ghost view = { λ own. record {
      core = own.core;
      virt = own.virt;
      clocks = own.clocks;
      state = own.state;
      resets = own.resets;
      reset_status = own.reset_status;
      ports = own.ports;
      traces = own.traces;
      health = own.health;
      used = own.used;
    } };
}

impl PartState {
    /// A partition as it boots.
    #[tactic(auto, unfolding(crate::specs::lemmas::StateTerms::booted_own))]
    pub(crate) fn boot(alloc: Global, entry: u32) -> Result<PartState, Memory>
        requires { entry % 4 ≡ 0 }
        ensures { IfOk result (λ own. own ≡ booted_own entry) }
    {
        Ok(PartState {
            core: Processor::of(&Core::start(entry)),
            virt: Virt::new(),
            clocks: Clocks::new(),
            state: State::Ready,
            resets: 0,
            reset_status: 0,
            ports: Ports::new(),
            traces: Ring::new(alloc)?,
            health: Ring::new(alloc)?,
            used: 0,
        })
    }

    /// The interrupts of a tick become pending: the start of a slot, and those of the timers that are due.
    #[inline(always)]
    #[tactic(auto, unfolding(machine_model::specs::LocalTick::with_interrupts, machine_model::specs::Partition::hardware_looked_at, machine_model::specs::Partition::execution_looked_at))]
    pub(crate) fn meet(&mut self, now: u64, first: bool)
        ensures met { HasMet now first self.old self.new }
        ensures timer { self.new.clocks.hardware_timer ≡ looked_at now self.old.clocks.hardware_timer }
    {
        if first {
            self.virt.raise(SLOT_START);
        }
        if self.clocks.hw_due(now) {
            self.virt.raise(HARDWARE_TIMER);
        }
        if self.clocks.exec_due() {
            self.virt.raise(EXECUTION_TIMER);
        }
    }

    /// An interrupt becomes pending, unless the partition has halted.
    pub(crate) fn raise(&mut self, interrupt: u8)
        requires { interrupt < 32 }
        ensures raised { HasHeard interrupt self.old self.new }
        ensures clocks { self.new.clocks ≡ self.old.clocks }
    {
        match self.state {
            State::Ready | State::Idle | State::Suspended => self.virt.raise(interrupt),
            State::Halted => {}
        }
    }

    /// The deadline of its timer on the hardware clock, or the last time where it is not armed.
    pub(crate) fn deadline(&self) -> u64
        ensures { IsFrom result self.now.clocks.hardware_timer }
    {
        match self.clocks.timer(Clock::Hw) {
            Some(timer) => timer.deadline,
            None => u64::MAX,
        }
    }

    /// Whether its timer on the hardware clock is armed.
    pub(crate) fn is_timed(&self) -> bool
        ensures { result ≡ is_timed self.now.clocks }
    {
        self.clocks.timer(Clock::Hw).is_some()
    }
}

/// Whether the hardware timer of one of these partitions is armed. Four are looked at in one turn of the loop.
pub(crate) fn any_timed(parts: &[PartState]) -> bool
    ensures { result ≡ list_any (λ own. is_timed own.clocks) parts.now }
{
    let mut at = 0;
    while parts.len() - at >= 4 {
        if are_timed(&parts[at], &parts[at + 1], &parts[at + 2], &parts[at + 3]) {
            return true;
        }
        at += 4;
    }
    any_left(&parts[at..])
}

// Whether the timer of one of these four is.
fn are_timed(first: &PartState, second: &PartState, third: &PartState, fourth: &PartState) -> bool
    ensures { result ≡ (is_timed first.now.clocks || (is_timed second.now.clocks || (is_timed third.now.clocks || is_timed fourth.now.clocks))) }
{
    first.is_timed() || second.is_timed() || third.is_timed() || fourth.is_timed()
}

// The same of partitions one after the other.
fn any_left(parts: &[PartState]) -> bool
    ensures { result ≡ list_any (λ own. is_timed own.clocks) parts.now }
{
    parts.iter().any(|own| own.is_timed())
}
