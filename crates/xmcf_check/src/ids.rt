//! Ids are 0, 1, 2 and so on in their order.

ghost use Rattle.std.specs.Prelude.{◌≡◌, ◌≤◌, All, length};
ghost use Rattle.xm_conf.specs.Limits.{most_parts};
ghost use Rattle.xm_conf.specs.Along.{added_by_each, head_of};
ghost use Rattle.xm_conf.specs.Rules as rules;
ghost use Rattle.xm_conf.specs.declared.item.Item.TheVariants as item;
ghost use Rattle.xmcf_check.specs.lemmas.Misplaced.{misplace};

use crate::broken::{alone, unless};
use crate::gathered::{Ids, PlanIds};
use xm_conf::{Broken, Item, first_of_each};

/// The place of the first id that is not its place.
fn misplaced(ids: &[u32]) -> Option<u8>
    requires { length ids.now ≤ 64 }
    ensures { result ≡ head_of (added_by_each misplace ids.now) }
{
    first_of_each(ids, |n, id| misplace(n, *id))
}

/// The place, where the id is another.
fn misplace(n: u8, id: u32) -> Option<u8>
    ensures { result ≡ head_of (misplace n id) }
{
    if id == u32::from(n) {
        return None;
    }
    Some(n)
}

/// The first UART whose id is not its place.
fn uarts_misplaced(ids: &[u32]) -> Option<Broken>
    requires { length ids.now ≤ 8 }
    ensures { result ≡ head_of (added_by_each (rules.misplaced item.Uart) ids.now) }
{
    match misplaced(ids) {
        Some(n) => Some(alone(2, Item::Uart(n))),
        None => None,
    }
}

/// The first slot of a plan whose id is not its place.
fn slots_misplaced(p: u8, ids: &[u32]) -> Option<Broken>
    requires { length ids.now ≤ 64 }
    ensures { result ≡ head_of (added_by_each (rules.misplaced (item.Slot p)) ids.now) }
{
    match misplaced(ids) {
        Some(n) => Some(alone(2, Item::Slot(p, n))),
        None => None,
    }
}

/// The first partition whose id is not its place.
fn parts_misplaced(ids: &[u32]) -> Option<Broken>
    requires { length ids.now ≤ most_parts }
    ensures { result ≡ head_of (added_by_each (rules.misplaced item.Part) ids.now) }
{
    match misplaced(ids) {
        Some(n) => Some(alone(2, Item::Part(n))),
        None => None,
    }
}

/// A plan whose id is not its place, or the first of its slots.
#[tactic(auto, using(xm_conf::specs::lemmas::AlongLemmas::in_turn), unfolding(xm_conf::specs::Rules::plan_misplaced))]
fn plan_misplaced(n: u8, ids: &PlanIds) -> Option<Broken>
    requires { length ids.now.slots ≤ 64 }
    ensures { result ≡ head_of (rules.plan_misplaced n ids.now) }
{
    let broken = unless(ids.plan == u32::from(n), 2, Item::Plan(n));
    if broken.is_some() {
        return broken;
    }
    slots_misplaced(n, &ids.slots)
}

/// The first plan or slot whose id is not its place.
fn plans_misplaced(ids: &[PlanIds]) -> Option<Broken>
    requires few { length ids.now ≤ 8 }
    requires slots { All (λ plan. length plan.slots ≤ 64) ids.now }
    ensures { result ≡ head_of (added_by_each rules.plan_misplaced ids.now) }
{
    first_of_each(ids, |n, plan| plan_misplaced(n, plan))
}

/// The first item whose id is not its place.
#[tactic(auto, using(xm_conf::specs::lemmas::AlongLemmas::in_turn), unfolding(xm_conf::specs::Rules::rule_2))]
pub(crate) fn rule_2(ids: &Ids) -> Option<Broken>
    requires uarts { length ids.now.uarts ≤ 8 }
    requires plans { length ids.now.plans ≤ 8 }
    requires slots { All (λ plan. length plan.slots ≤ 64) ids.now.plans }
    requires parts { length ids.now.parts ≤ most_parts }
    ensures { result ≡ head_of (rules.rule_2 ids.now) }
{
    let broken = unless(ids.processor == 0, 2, Item::Whole);
    if broken.is_some() {
        return broken;
    }
    let broken = uarts_misplaced(&ids.uarts);
    if broken.is_some() {
        return broken;
    }
    let broken = plans_misplaced(&ids.plans);
    if broken.is_some() {
        return broken;
    }
    parts_misplaced(&ids.parts)
}
