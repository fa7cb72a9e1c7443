//! How many there are of each.

ghost use Rattle.std.specs.Prelude.{◌≡◌, ◌<◌, ◌≤◌, IfNone};
ghost use Rattle.xm_conf.specs.lemmas.FitsTerms.{HasCounts};
ghost use Rattle.xm_conf.specs.Limits.{most_parts};
ghost use Rattle.xm_conf.specs.Along.{added_by_each, head_of};
ghost use Rattle.xm_conf.specs.Rules as rules;

use super::broken::unless;
use crate::channel::{Chan, ChanKind};
use crate::first::first_of_each;
use crate::item::{Broken, Item};
use crate::limits::{DESTS, LINKS};
use crate::part::Part;
use crate::plan::Plan;
use crate::raw::RawConf;

const REGIONS: usize = 8;

const UARTS: usize = 8;

const PLANS: u8 = 8;

const SLOTS: usize = 64;

const AREAS: usize = 8;

const PORTS: usize = 32;

const CHANS: u8 = 64;

/// Whether there are regions, plans and partitions.
#[tactic(auto, unfolding(crate::specs::Rules::has_some))]
fn has_some(raw: &RawConf) -> bool
    ensures { result ≡ rules.has_some raw.now }
{
    !raw.regions.is_empty() && !raw.plans.is_empty() && !raw.parts.is_empty()
}

/// A configuration that lacks something, and the first region and UART past their limits.
#[tactic(auto, unfolding(crate::specs::Rules::list_counts))]
fn list_counts(raw: &RawConf) -> Option<Broken>
    ensures { result ≡ head_of (rules.list_counts raw.now) }
{
    if !has_some(raw) {
        return unless(false, 1, Item::Whole);
    }
    if REGIONS < raw.regions.len() {
        return unless(false, 1, Item::Region(8));
    }
    unless(raw.uarts.len() <= UARTS, 1, Item::Uart(8))
}

/// A plan past the limit, and too few or too many slots.
#[tactic(auto, unfolding(crate::specs::Rules::plan_counts))]
fn plan_counts(n: u8, plan: &Plan) -> Option<Broken>
    ensures first { result ≡ head_of (rules.plan_counts n plan.now) }
    ensures below { IfNone result (n < 8) }
{
    if n >= PLANS || plan.slots.is_empty() {
        return unless(false, 1, Item::Plan(n));
    }
    unless(plan.slots.len() <= SLOTS, 1, Item::Slot(n, 64))
}

/// The first plan past the limit, or with too few or too many slots.
fn plans_counts(plans: &[Plan]) -> Option<Broken>
    ensures { result ≡ head_of (added_by_each rules.plan_counts plans.now) }
{
    first_of_each(plans, plan_counts)
}

/// A partition past this many, and too few or too many areas and ports.
#[tactic(auto, unfolding(crate::specs::Rules::part_counts))]
fn part_counts(most: u8, n: u8, part: &Part) -> Option<Broken>
    ensures first { result ≡ head_of (rules.part_counts most n part.now) }
    ensures below { IfNone result (n < most) }
{
    if n >= most || part.areas.is_empty() {
        return unless(false, 1, Item::Part(n));
    }
    if AREAS < part.areas.len() {
        return unless(false, 1, Item::Area(n, 8));
    }
    unless(part.ports.len() <= PORTS, 1, Item::Port(n, 32))
}

/// The first partition past this many, or with too few or too many areas and ports.
fn parts_counts(most: u8, parts: &[Part]) -> Option<Broken>
    ensures { result ≡ head_of (added_by_each (rules.part_counts most) parts.now) }
{
    first_of_each(parts, |n, part| part_counts(most, n, part))
}

/// A channel past the limit, and the destination past the limit of a sampling channel.
#[tactic(auto, unfolding(crate::specs::Rules::chan_counts, crate::specs::Rules::dest_counts))]
fn chan_counts(n: u8, chan: &Chan) -> Option<Broken>
    ensures first { result ≡ head_of (rules.chan_counts n chan.now) }
    ensures below { IfNone result (n < 64) }
{
    if n >= CHANS {
        return unless(false, 1, Item::Chan(n));
    }
    match chan.kind {
        ChanKind::Sampling { .. } => unless(chan.dests.len() <= DESTS, 1, Item::End(n, 17)),
        ChanKind::Queuing { .. } => None,
    }
}

/// The first channel past the limit, or with a destination past the limit.
fn chans_counts(chans: &[Chan]) -> Option<Broken>
    ensures { result ≡ head_of (added_by_each rules.chan_counts chans.now) }
{
    first_of_each(chans, chan_counts)
}

/// The first item that is missing, or past its limit, where this many partitions are the most.
#[tactic(auto, using(crate::specs::lemmas::AlongLemmas::in_turn), unfolding(crate::specs::Rules::rule_1))]
fn first_count(most: u8, raw: &RawConf) -> Option<Broken>
    ensures { result ≡ head_of (rules.rule_1 most raw.now) }
{
    let broken = list_counts(raw);
    if broken.is_some() {
        return broken;
    }
    let broken = plans_counts(&raw.plans);
    if broken.is_some() {
        return broken;
    }
    let broken = parts_counts(most, &raw.parts);
    if broken.is_some() {
        return broken;
    }
    let broken = chans_counts(&raw.chans);
    if broken.is_some() {
        return broken;
    }
    unless(raw.links.len() <= LINKS, 1, Item::Link(64))
}

/// The first item that is missing, or past its limit, where this many partitions are the most.
#[tactic(auto, using(crate::proofs::CountLemmas::counted))]
pub(super) fn rule_1(most: u8, raw: &RawConf) -> Option<Broken>
    requires { most ≤ most_parts }
    ensures first { result ≡ head_of (rules.rule_1 most raw.now) }
    ensures counted { IfNone result (HasCounts raw.now) }
{
    first_count(most, raw)
}
