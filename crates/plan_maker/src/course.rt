//! The slots of a plan that is being made.

ghost use Rattle.std.specs.Prelude.{◌≡◌, ◌+◌, ◌^◌, ◌<◌, IfOk, IfSome, OnOk};
ghost use Rattle.plan_maker.specs.Course.{at_rest, continues, run_slot, slots_so_far, with_run};

use std::alloc::{AllocError, Global};
use std::marker::Model;
use xm_base::Memory;
use xm_conf::Slot;

/// The slots so far: those that have ended, and the last one, which may go on.
#[derive(Debug, Drop)]
pub struct Course {
    ended: Vec<Slot>,
    last: Option<Slot>,
}

impl Model for Course {
    ghost use Rattle.plan_maker.specs.Course as plain;

    ghost Value = { plain.Course };

    ghost view = { λ course. record { ended = course.ended.items; last = course.last } };
}

impl Course {
    /// The course before the first tick.
    pub(crate) fn new(alloc: Global) -> Course
        ensures { result ≡ at_rest }
    {
        Course {
            ended: Vec::new(alloc),
            last: None,
        }
    }

    /// A partition runs for this many ticks from a tick on.
    pub(crate) fn run(&mut self, part: u8, tick: u32, count: u32) -> Result<(), Memory>
        requires { IfSome self.old.last (λ slot. slot.start + slot.duration + count < 2 ^ 32) }
        ensures { OnOk result (self.new ≡ with_run part tick count self.old) }
    {
        match self.last {
            None => {
                self.last = Some(run_slot(part, tick, count));
                Ok(())
            }
            Some(slot) => {
                if continues(part, tick, slot) {
                    self.last = Some(longer(slot, count));
                    return Ok(());
                }
                self.ended.push(slot)?;
                self.last = Some(run_slot(part, tick, count));
                Ok(())
            }
        }
    }

    /// All slots of the course.
    pub(crate) fn slots(self) -> Result<Vec<Slot>, Memory>
        ensures { IfOk result (λ slots. slots.items ≡ slots_so_far self) }
    {
        let Course { mut ended, last } = self;
        if let Some(slot) = last {
            ended.push(slot)?;
        }
        Ok(ended)
    }
}

/// The slot of a run of this many ticks.
fn run_slot(part: u8, tick: u32, count: u32) -> Slot
    ensures { result ≡ run_slot part tick count }
{
    Slot {
        start: tick,
        duration: count,
        part,
    }
}

/// Whether a run of a partition from a tick on continues a slot.
fn continues(part: u8, tick: u32, slot: Slot) -> bool
    requires { slot.start + slot.duration < 2 ^ 32 }
    ensures { result ≡ continues part tick slot }
{
    slot.part == part && slot.start + slot.duration == tick
}

/// A slot that lasts this many ticks longer.
fn longer(slot: Slot, count: u32) -> Slot
    requires { slot.duration + count < 2 ^ 32 }
    ensures { result ≡ record slot { duration = slot.duration + count } }
{
    Slot {
        start: slot.start,
        duration: slot.duration + count,
        part: slot.part,
    }
}
