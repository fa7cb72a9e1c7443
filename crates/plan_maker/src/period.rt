//! The common period of requirements, and what they demand of it.

ghost use Rattle.xm_conf.specs.Limits.{most_parts};
ghost use Rattle.std.specs.Prelude.{◌≡◌, ◌+◌, ◌-◌, ◌<◌, ◌≤◌, All, length};
ghost use Rattle.plan_maker.specs.lemmas.NeededTerms.{IsPossible};
ghost use Rattle.plan_maker.specs.Needed.{common_period, demand, demanded, first_divided, least_multiple, longest_common};

use crate::jobs::Requirement;

/// The longest common period, in ticks.
const LONGEST: u32 = 1_000_000;

/// The common period of requirements, or the partition at which it grows too long.
#[tactic(auto, using(crate::proofs::PeriodLemmas::common_goes_on, crate::proofs::PeriodLemmas::common_stops, crate::proofs::PeriodLemmas::common_ends), unfolding(crate::specs::Needed::common_period, crate::specs::Needed::longest_common, xm_conf::specs::Rules::longest))]
pub(crate) fn common_period(requirements: &[Requirement]) -> Result<u32, u8>
    requires { All IsPossible requirements.now }
    ensures { result ≡ common_period requirements.now }
{
    let mut common = 1;
    for requirement in requirements {
        common = least_multiple(common, requirement.period);
        if common > LONGEST {
            return Err(requirement.part);
        }
    }
    Ok(common)
}

/// The least common multiple of two numbers, or a number above the longest common period where that is above it.
#[tactic(auto, unfolding(crate::specs::Needed::least_multiple))]
fn least_multiple(a: u32, b: u32) -> u32
    requires some_a { 0 < a }
    requires some_b { 0 < b }
    requires most_a { a ≤ 1000000000 }
    requires most_b { b ≤ 1000000000 }
    ensures value { result ≤ LONGEST → result ≡ least_multiple a b }
    ensures above { LONGEST < result → LONGEST < least_multiple a b }
    ensures some { 0 < result }
{
    first_divided(a.max(b), a.min(b))
}

/// The first multiple of a number that another one divides, or the first one above the longest common period.
#[tactic(auto, using(crate::proofs::PeriodLemmas::divided_next, crate::proofs::PeriodLemmas::divided_here, crate::proofs::PeriodLemmas::divided_least))]
fn first_divided(step: u32, divisor: u32) -> u32
    requires some { 0 < step }
    requires most { step ≤ 1000000000 }
    requires divisor { 0 < divisor }
    ensures value { result ≤ LONGEST → result ≡ first_divided (divisor - 1) step divisor step }
    ensures above { LONGEST < result → LONGEST < first_divided (divisor - 1) step divisor step }
    ensures some { 0 < result }
{
    let mut multiple = step;
    for _ in 1..divisor {
        if multiple > LONGEST {
            return multiple;
        }
        if multiple % divisor == 0 {
            return multiple;
        }
        multiple += step;
    }
    multiple
}

/// The ticks of a common period that all requirements demand.
#[tactic(auto, unfolding(crate::specs::Needed::demand))]
pub(crate) fn demand(period: u32, requirements: &[Requirement]) -> u32
    requires possible { All IsPossible requirements.now }
    requires few { length requirements.now ≤ most_parts }
    requires short { period ≤ 1000000 }
    ensures { result ≡ demand period requirements.now }
{
    let mut total = 0;
    for requirement in requirements {
        total += demanded(period, *requirement);
    }
    total
}

/// The ticks of a common period that a requirement demands.
#[tactic(auto, using(crate::proofs::PeriodLemmas::demanded_most))]
fn demanded(period: u32, requirement: Requirement) -> u32
    requires { IsPossible requirement }
    ensures value { result ≡ demanded period requirement }
    ensures most { result ≤ period }
{
    period / requirement.period * requirement.duration
}
