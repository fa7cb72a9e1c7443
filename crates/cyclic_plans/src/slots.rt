//! The slots of a plan: which runs at a moment of the frame, and when it ends.

ghost use Rattle.std.specs.Prelude.{◌≡◌, ◌≤◌, length};
ghost use Rattle.xm_base.specs.Options.{on};
ghost use Rattle.cyclic_plans.specs.Slots.{covers, gap_end, here_in, slot_from, stretch_end};

use xm_conf::{Plan, Slot};

/// What runs in a tick.
#[derive(Clone, Copy, Debug, PartialEq, Eq)]
pub struct Here {
    /// The number of the slot in its plan.
    pub slot: u8,
    /// The number of its partition.
    pub part: u8,
    /// Whether it is the first tick of the slot.
    pub first: bool,
}

/// Whether a slot runs at a moment of the frame.
fn covers(moment: u64, slot: &Slot) -> bool
    ensures value { result ≡ covers moment slot.now }
{
    let start = u64::from(slot.start);
    start <= moment && moment < start + u64::from(slot.duration)
}

/// The slot that runs at a moment of the frame, with its number, or `None` in a gap.
pub(crate) fn slot_at(moment: u64, slots: &[Slot]) -> Option<(u8, Slot)>
    requires { length slots.now ≤ 64 }
    ensures value { result ≡ slot_from moment 0 slots.now }
{
    for (number, slot) in slots.iter().enumerate() {
        if covers(moment, slot) {
            return Some((number as u8, *slot));
        }
    }
    None
}

/// What runs at a moment of the frame, or `None` in a gap.
pub(crate) fn here_at(moment: u64, slots: &[Slot]) -> Option<Here>
    requires { length slots.now ≤ 64 }
    ensures value { result ≡ on (here_in moment) (slot_from moment 0 slots.now) }
{
    match slot_at(moment, slots) {
        None => None,
        Some((number, slot)) => Some(Here {
            slot: number,
            part: slot.part,
            first: u64::from(slot.start) == moment,
        }),
    }
}

/// The moment at which a gap ends: the next start of a slot, or the end of the frame.
fn gap_end(frame: u32, moment: u64, slots: &[Slot]) -> u32
    ensures value { result ≡ gap_end frame moment slots.now }
{
    slots
        .iter()
        .map(|slot| slot.start)
        .filter(|start| moment < u64::from(*start))
        .fold(frame, u32::min)
}

/// The moment at which the slot that runs at a moment ends, or the gap.
pub(crate) fn stretch_end(plan: &Plan, moment: u64) -> u64
    requires { length plan.now.slots ≤ 64 }
    ensures value { result ≡ stretch_end plan.now.frame moment plan.now.slots }
{
    match slot_at(moment, &plan.slots) {
        Some((_, slot)) => u64::from(slot.start) + u64::from(slot.duration),
        None => u64::from(gap_end(plan.frame, moment, &plan.slots)),
    }
}
