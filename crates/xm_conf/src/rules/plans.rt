//! Plans with their slots.

ghost use Rattle.std.specs.Prelude.{◌≡◌, ◌≤◌, ◌-◌, Some, length, slice_get};
ghost use Rattle.xm_conf.specs.Along.{along, added_by_each, head_of};
ghost use Rattle.xm_conf.specs.lemmas.FitsTerms.{HasCounts};
ghost use Rattle.xm_conf.specs.Rules as rules;

use super::broken::{unless, unless_by};
use crate::first::{first_along, first_of_each};
use crate::item::{Broken, Item};
use crate::plan::{Plan, Slot};
use crate::raw::RawConf;

const LONGEST: u32 = 1_000_000_000;

/// Whether a time is at least 1 and at most the longest.
#[tactic(auto, unfolding(crate::specs::Rules::is_time, crate::specs::Rules::longest))]
fn is_time(time: u32) -> bool
    ensures { result ≡ rules.is_time time }
{
    0 < time && time <= LONGEST
}

/// Whether a slot lasts, and ends inside the frame.
#[tactic(auto, unfolding(crate::specs::Rules::in_frame))]
fn in_frame(frame: u32, slot: &Slot) -> bool
    ensures { result ≡ rules.in_frame frame slot.now }
{
    let end = u64::from(slot.start) + u64::from(slot.duration);
    0 < slot.duration && end <= u64::from(frame)
}

/// A slot that does not last, or ends after the frame.
#[tactic(auto, unfolding(crate::specs::Rules::late_slot))]
fn late_slot(p: u8, frame: u32, n: u8, slot: &Slot) -> Option<Broken>
    ensures { result ≡ head_of (rules.late_slot p frame n slot.now) }
{
    unless_by(in_frame(frame, slot), 11, Item::Slot(p, n), Item::Plan(p))
}

/// The first slot that does not last, or ends after the frame.
fn late_slots(p: u8, frame: u32, slots: &[Slot]) -> Option<Broken>
    requires { length slots.now ≤ 64 }
    ensures { result ≡ head_of (added_by_each (rules.late_slot p frame) slots.now) }
{
    first_of_each(slots, |n, slot| late_slot(p, frame, n, slot))
}

/// A plan whose frame is too short or too long, or its first slot that does not fit into it.
#[tactic(auto, unfolding(crate::specs::Rules::frame_broken))]
fn frame_broken(p: u8, plan: &Plan) -> Option<Broken>
    requires { length plan.now.slots ≤ 64 }
    ensures { result ≡ head_of (rules.frame_broken p plan.now) }
{
    if !is_time(plan.frame) {
        return unless(false, 11, Item::Plan(p));
    }
    late_slots(p, plan.frame, &plan.slots)
}

/// Whether a slot starts at or after the end of an earlier one.
fn is_after(earlier: &Slot, slot: &Slot) -> bool
    ensures { result ≡ rules.follows (Some earlier.now) slot.now }
{
    let end = u64::from(earlier.start) + u64::from(earlier.duration);
    end <= u64::from(slot.start)
}

/// Whether a slot starts at or after the end of the one before it.
fn follows(before: &[Slot], slot: &Slot) -> bool
    ensures { result ≡ rules.follows (slice_get before.now (length before.now - 1)) slot.now }
{
    match before.last() {
        Some(earlier) => is_after(earlier, slot),
        None => true,
    }
}

/// A slot that starts before the end of the one before it.
#[tactic(auto, unfolding(crate::specs::Rules::early_slot))]
fn early_slot(p: u8, before: &[Slot], slot: &Slot) -> Option<Broken>
    requires { length before.now ≤ 64 }
    ensures { result ≡ head_of (rules.early_slot p before.now slot.now) }
{
    let n = before.len() as u8;
    let earlier = Item::Slot(p, n.saturating_sub(1));
    unless_by(follows(before, slot), 12, Item::Slot(p, n), earlier)
}

/// The first slot that starts before the end of the one before it.
fn early_slots(p: u8, slots: &[Slot]) -> Option<Broken>
    requires { length slots.now ≤ 64 }
    ensures { result ≡ head_of (along (rules.early_slot p) slots.now) }
{
    first_along(slots, |before, slot| early_slot(p, before, slot))
}

/// A slot whose partition is none.
#[tactic(auto, unfolding(crate::specs::Rules::stray_slot))]
fn stray_slot(parts: usize, p: u8, n: u8, slot: &Slot) -> Option<Broken>
    ensures { result ≡ head_of (rules.stray_slot parts p n slot.now) }
{
    unless(usize::from(slot.part) < parts, 13, Item::Slot(p, n))
}

/// The first slot of a plan whose partition is none.
fn stray_slots(parts: usize, p: u8, slots: &[Slot]) -> Option<Broken>
    requires { length slots.now ≤ 64 }
    ensures { result ≡ head_of (added_by_each (rules.stray_slot parts p) slots.now) }
{
    first_of_each(slots, |n, slot| stray_slot(parts, p, n, slot))
}

/// The first plan or slot whose time does not fit.
#[tactic(auto, using(crate::proofs::CountLemmas::few_slots), unfolding(crate::specs::Rules::rule_11))]
pub(super) fn rule_11(raw: &RawConf) -> Option<Broken>
    requires { HasCounts raw.now }
    ensures { result ≡ head_of (rules.rule_11 raw.now) }
{
    first_of_each(&raw.plans, frame_broken)
}

/// The first slot that starts before the end of the one before it.
#[tactic(auto, using(crate::proofs::CountLemmas::few_slots), unfolding(crate::specs::Rules::early_slots, crate::specs::Rules::rule_12))]
pub(super) fn rule_12(raw: &RawConf) -> Option<Broken>
    requires { HasCounts raw.now }
    ensures { result ≡ head_of (rules.rule_12 raw.now) }
{
    first_of_each(&raw.plans, |n, plan| early_slots(n, &plan.slots))
}

/// The first slot whose partition is none.
#[tactic(auto, using(crate::proofs::CountLemmas::few_slots), unfolding(crate::specs::Rules::stray_slots, crate::specs::Rules::rule_13))]
pub(super) fn rule_13(raw: &RawConf) -> Option<Broken>
    requires { HasCounts raw.now }
    ensures { result ≡ head_of (rules.rule_13 raw.now) }
{
    first_of_each(
        &raw.plans,
        |n, plan| stray_slots(raw.parts.len(), n, &plan.slots),
    )
}
