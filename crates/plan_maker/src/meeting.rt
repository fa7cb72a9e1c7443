//! Whether a plan meets a partition's requirement.

ghost use Rattle.std.specs.Prelude.{◌≡◌, ℕ, ◌+◌, ◌-◌, ◌*◌, ◌/◌, ◌^◌, ◌<◌, ◌≤◌, All, IfSome, IsNone, Some, nat_lt, sum_by};
ghost use Rattle.xm_conf.specs.Fits.{InFrame, InTurn, IsNeed, IsTime};
ghost use Rattle.plan_maker.specs.Planned.{IsAnswer, IsEnough};
ghost use Rattle.plan_maker.specs.lemmas.ServedTerms.{shared};
ghost use Rattle.plan_maker.specs.Served.{window_time};

use crate::answer::Met;
use xm_base::PartId;
use xm_conf::{Need, Plan, Slot};

/// Whether a plan gives a partition its duration in each window of its frame.
pub fn met(plan: &Plan, need: Option<Need>, p: PartId) -> Met
    // Called for a plan with a frame of at most 1000000, with slots inside it that follow one another, and with a
    // requirement that keeps its rule.
    requires frame { IsTime plan.now.frame }
    requires short { plan.now.frame ≤ 1000000 }
    requires inside { All (InFrame plan.now.frame) plan.now.slots }
    requires in_turn { InTurn plan.now.slots }
    requires need { IfSome need IsNeed }
    // Whether a plan meets a requirement: there is none, the frame is not whole windows, the first window with too
    // little time, or each has enough.
    ensures { IsAnswer plan.now p need result }
{
    match need {
        None => Met::NoNeed,
        Some(need) => met_by(plan, need, p),
    }
}

/// Whether a plan gives a partition the duration of a requirement in each window of its frame.
#[tactic(auto, using(crate::proofs::SharedLemmas::met_in_all, crate::proofs::SharedLemmas::missed_in))]
fn met_by(plan: &Plan, need: Need, part: u8) -> Met
    requires short { plan.now.frame ≤ 1000000 }
    requires inside { All (InFrame plan.now.frame) plan.now.slots }
    requires in_turn { InTurn plan.now.slots }
    requires need { IsNeed need }
    ensures { IsAnswer plan.now part (Some need) result }
{
    if plan.frame % need.period != 0 {
        return Met::Uneven;
    }
    match first_missed(plan, need, part) {
        None => Met::Met,
        Some(window) => Met::Missed { window },
    }
}

/// The first window in which a partition has less than its duration.
#[tactic(auto, using(crate::proofs::SharedLemmas::window_inside))]
fn first_missed(plan: &Plan, need: Need, part: u8) -> Option<u32>
    requires short { plan.now.frame ≤ 1000000 }
    requires inside { All (InFrame plan.now.frame) plan.now.slots }
    requires in_turn { InTurn plan.now.slots }
    requires need { IsNeed need }
    ensures none { IsNone result → (window : ℕ) → window < plan.now.frame / need.period → IsEnough plan.now part need window }
    ensures short { IfSome result (λ window. window_time part plan.now.slots need.period window < need.duration) }
    ensures below { IfSome result (λ window. window < plan.now.frame / need.period) }
    ensures before { IfSome result (λ window. (earlier : ℕ) → earlier < window → IsEnough plan.now part need earlier) }
{
    for window in 0..plan.frame / need.period {
        if lacks(plan, need, part, window) {
            return Some(window);
        }
    }
    None
}

/// Whether a partition has less than its duration in a window.
#[tactic(auto, using(crate::proofs::SharedLemmas::lacks_window))]
fn lacks(plan: &Plan, need: Need, part: u8, window: u32) -> bool
    requires short { plan.now.frame ≤ 1000000 }
    requires inside { All (InFrame plan.now.frame) plan.now.slots }
    requires in_turn { InTurn plan.now.slots }
    requires need { IsNeed need }
    requires window { (window + 1) * need.period ≤ plan.now.frame }
    ensures { result ≡ nat_lt (window_time part plan.now.slots need.period window) need.duration }
{
    let start = window * need.period;
    lacking(&plan.slots, need.duration, part, start, start + need.period) > 0
}

/// The ticks that a partition lacks of this many, from a tick on up to an end.
fn lacking(slots: &[Slot], ticks: u32, part: u8, start: u32, end: u32) -> u32
    requires { All (λ slot. slot.start + slot.duration < 2 ^ 32) slots.now }
    ensures { result ≡ ticks - sum_by (shared part start end) slots.now }
{
    let mut lacking = ticks;
    for slot in slots {
        lacking = lacking.saturating_sub(shared(*slot, part, start, end));
    }
    lacking
}

/// The ticks that a slot gives a partition, from a tick on up to an end.
fn shared(slot: Slot, part: u8, start: u32, end: u32) -> u32
    requires { slot.start + slot.duration < 2 ^ 32 }
    ensures { result ≡ shared part start end slot }
{
    if slot.part != part {
        return 0;
    }
    let from = slot.start.max(start);
    let to = (slot.start + slot.duration).min(end);
    to.saturating_sub(from)
}
