//! The plan that is made from the requirements of a configuration.

ghost use Rattle.std.specs.Prelude.{◌≡◌, ◌+◌, ◌++◌, ◌<◌, ◌≤◌, All, IfErr, IfOk, Ok, length, vec_capacity, vec_len};
ghost use Rattle.xm_conf.specs.Limits.{most_parts};
ghost use Rattle.xm_conf.specs.Along.{added_by_each};
ghost use Rattle.xm_conf.specs.Description.{described};
ghost use Rattle.xm_conf.specs.Fits.{Fits};
ghost use Rattle.plan_maker.specs.lemmas.NeededTerms.{ArePossible};
ghost use Rattle.plan_maker.specs.Needed.{common_period, required, required_by, requirements};
ghost use Rattle.plan_maker.specs.Planned.{GivesPlan, IsHopeless, IsPlanRefused, IsRequirementServed, KeepsRules, frame_slots, plan_in, plan_with, planned};

use crate::jobs::Requirement;
use crate::moment::Moment;
use crate::period::{common_period, demand};
use fault_messages::PlanFault;
use std::alloc::Global;
use xm_base::Memory;
use xm_conf::{Conf, Need, Part, Plan, Slot};

/// The most slots of a plan.
const MOST_SLOTS: u32 = 64;

/// Makes a plan that gives each partition its duration in each of its periods. In each tick the partition runs whose
/// period ends first, of those that have not had their duration yet; of two whose periods end together, the one with the
/// lower number. The frame is the least common multiple of the periods, in microseconds.
pub fn make(alloc: Global, conf: &Conf) -> Result<Plan, PlanFault>
    // The plan that the definition makes tick by tick (of the partitions that have not had their duration in their
    // current window, the one whose window ends first runs), or the first of the refusals.
    ensures answer { GivesPlan result (planned (requirements conf.now)) }
    // Each refusal has its cause: no requirement; a common period above 1000000 at this partition; a demand above the
    // common period; more than 64 slots.
    ensures refused { IfErr result (IsPlanRefused (requirements conf.now)) }
    // After an overload no plan that keeps the rules meets the requirements, whatever its frame.
    ensures hopeless { IfErr result (IsHopeless (requirements conf.now)) }
    // The frame and the slots keep the rules of a plan.
    ensures rules { IfOk result KeepsRules }
    // In each window of each requirement the partition has exactly its duration, and the frame is whole windows: so
    // nothing but an overload makes the rule miss a requirement.
    ensures served { IfOk result (λ plan. All (IsRequirementServed plan) (requirements conf.now)) }
{
    made(alloc, conf)
}

/// The plan of a configuration.
fn made(alloc: Global, conf: &Conf) -> Result<Plan, PlanFault>
    ensures answer { GivesPlan result (planned (requirements conf.now)) }
    ensures possible { ArePossible 0 (requirements conf.now) }
{
    match requirements(alloc, conf) {
        Ok(requirements) => planned(alloc, &requirements),
        Err(_) => Err(PlanFault::Memory),
    }
}

/// The plan that is made from requirements.
#[tactic(auto, using(crate::proofs::PlanLemmas::planned_none, crate::proofs::PlanLemmas::planned_long, crate::proofs::PlanLemmas::planned_period, crate::proofs::PlanLemmas::period_short))]
fn planned(alloc: Global, requirements: &[Requirement]) -> Result<Plan, PlanFault>
    requires possible { ArePossible 0 requirements.now }
    requires few { length requirements.now ≤ most_parts }
    ensures { GivesPlan result (planned requirements.now) }
{
    if requirements.is_empty() {
        return Err(PlanFault::NoNeed);
    }
    match common_period(requirements) {
        Err(part) => Err(PlanFault::Period { part }),
        Ok(frame) => plan_in(alloc, requirements, frame),
    }
}

/// The plan of a frame, where the demand is not too great for it.
#[tactic(auto, using(crate::proofs::PlanLemmas::plan_overload, crate::proofs::PlanLemmas::plan_enough))]
fn plan_in(alloc: Global, requirements: &[Requirement], frame: u32) -> Result<Plan, PlanFault>
    requires possible { ArePossible 0 requirements.now }
    requires few { length requirements.now ≤ most_parts }
    requires short { frame ≤ 1000000 }
    ensures { GivesPlan result (plan_in requirements.now frame) }
{
    let needed = demand(frame, requirements);
    if needed > frame {
        return Err(PlanFault::Overload {
            demand: needed,
            period: frame,
        });
    }
    match frame_slots(alloc, requirements, frame) {
        Ok(slots) => plan_with(frame, slots),
        Err(_) => Err(PlanFault::Memory),
    }
}

/// The plan of a frame with these slots, where they are not too many.
#[tactic(auto, unfolding(crate::specs::Planned::most_slots))]
fn plan_with(frame: u32, slots: Vec<Slot>) -> Result<Plan, PlanFault>
    requires { length slots.items ≤ 1000000 }
    ensures { GivesPlan result (plan_with frame slots.items) }
{
    let found = count(&slots);
    if found > MOST_SLOTS {
        return Err(PlanFault::Slots { found });
    }
    Ok(Plan { frame, slots })
}

/// How many slots there are.
fn count(slots: &[Slot]) -> u32
    requires { length slots.now ≤ 1000000 }
    ensures { result ≡ length slots.now }
{
    slots.len() as u32
}

/// The slots of a frame.
fn frame_slots(alloc: Global, requirements: &[Requirement], frame: u32) -> Result<Vec<Slot>, Memory>
    requires possible { ArePossible 0 requirements.now }
    requires short { frame ≤ 1000000 }
    ensures value { IfOk result (λ slots. slots.items ≡ frame_slots requirements.now frame) }
    ensures few { IfOk result (λ slots. length slots.items ≤ frame) }
{
    let mut moment = Moment::first(alloc, frame, requirements)?;
    while moment.tick() < frame {
        moment.turn(frame)?;
    }
    let slots = moment.course().slots()?;
    Ok(slots)
}

/// The requirements of the partitions that have one.
fn requirements(alloc: Global, conf: &Conf) -> Result<Vec<Requirement>, Memory>
    ensures value { IfOk result (λ found. found.items ≡ requirements conf.now) }
    ensures possible { ArePossible 0 (requirements conf.now) }
    ensures few { length (requirements conf.now) ≤ most_parts }
{
    required_of(alloc, parts_of(conf))
}

/// The partitions of a configuration.
fn parts_of(conf: &Conf) -> &[Part]
    ensures value { result.now ≡ conf.now.parts }
    ensures few { length result.now ≤ most_parts }
    ensures fits { Fits (described conf.now) }
{
    &conf.raw().parts
}

/// The requirements of those of the partitions that have one.
fn required_of(alloc: Global, parts: &[Part]) -> Result<Vec<Requirement>, Memory>
    requires { length parts.now ≤ most_parts }
    ensures { IfOk result (λ found. found.items ≡ added_by_each required_by parts.now) }
{
    let mut found = Vec::with_capacity(alloc, parts.len())?;
    for (number, part) in parts.iter().enumerate() {
        add(&mut found, number as u8, part.need);
    }
    Ok(found)
}

/// Adds the requirement of a partition, where it has one.
fn add(found: &mut Vec<Requirement>, part: u8, need: Option<Need>)
    requires { vec_len found.old < vec_capacity found.old }
    ensures items { found.new.items ≡ found.old.items ++ required part need }
    ensures len { vec_len found.new ≤ vec_len found.old + 1 }
    ensures capacity { vec_capacity found.new ≡ vec_capacity found.old }
{
    if let Some(need) = need {
        found.push_reserved(Requirement {
            part,
            duration: need.duration,
            period: need.period,
        });
    }
}
