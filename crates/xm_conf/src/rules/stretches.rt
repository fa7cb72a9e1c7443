//! Areas that are disjoint from each other and from the hypervisor.

ghost use Rattle.std.specs.Prelude.{◌≡◌, ◌++◌, ◌<◌, ◌≤◌, All, IfSome, length};
ghost use Rattle.std.specs.List.{position_from};
ghost use Rattle.xm_conf.specs.Along.{along, added_by_each, head_of};
ghost use Rattle.xm_conf.specs.lemmas.FitsTerms.{HasCounts};
ghost use Rattle.xm_conf.specs.Limits.{most_parts};
ghost use Rattle.xm_conf.specs.Rules as rules;
ghost use Rattle.xm_conf.specs.lemmas.Walks as walks;

use super::broken::beside;
use super::memory::overlaps;
use crate::first::{first_along, first_of_each};
use crate::item::{Broken, Item};
use crate::part::{Area, Part};
use crate::raw::{RawConf, Region};

/// The addresses of an area.
fn stretch(area: &Area) -> Region
    ensures { result ≡ rules.stretch area.now }
{
    Region {
        start: area.start,
        size: area.size,
    }
}

/// The hypervisor's memory, from the start of region 0.
fn hypervisor(size: u32, regions: &[Region]) -> Option<Region>
    ensures { result ≡ rules.hypervisor size regions.now }
{
    match regions.first() {
        Some(region) => Some(Region {
            start: region.start,
            size,
        }),
        None => None,
    }
}

/// The hypervisor, where its memory overlaps a stretch.
#[tactic(auto, unfolding(crate::specs::lemmas::Walks::whole_hits))]
fn whole_hit(at: &Region, whole: Option<Region>) -> Option<Item>
    ensures { result ≡ head_of (walks.whole_hits at.now whole) }
{
    match whole {
        Some(region) => {
            if overlaps(&region, at) {
                Some(Item::Whole)
            } else {
                None
            }
        }
        None => None,
    }
}

/// The number of the first area that overlaps a stretch.
fn first_area(at: &Region, areas: &[Area]) -> Option<usize>
    ensures first { result ≡ position_from (λ area. rules.overlaps (rules.stretch area) at.now) 0 areas.now }
    ensures within { IfSome result (λ n. n < length areas.now) }
{
    areas.iter().position(|area| overlaps(&stretch(area), at))
}

/// The first area of a partition that overlaps a stretch.
#[tactic(auto, using(crate::proofs::MeetLemmas::first_hit), unfolding(crate::specs::lemmas::Walks::area_hits))]
fn area_hit(at: &Region, p: u8, areas: &[Area]) -> Option<Item>
    requires { length areas.now ≤ 8 }
    ensures { result ≡ head_of (walks.area_hits at.now p areas.now) }
{
    match first_area(at, areas) {
        Some(n) => Some(Item::Area(p, n as u8)),
        None => None,
    }
}

/// The first area of all partitions that overlaps a stretch.
fn parts_hit(at: &Region, parts: &[Part]) -> Option<Item>
    requires few { length parts.now ≤ most_parts }
    requires areas { All (λ part. length part.areas ≤ 8) parts.now }
    ensures { result ≡ head_of (added_by_each (walks.part_hits at.now) parts.now) }
{
    first_of_each(parts, |n, part| part_hit(at, n, part))
}

/// The first area of a partition that overlaps a stretch.
#[tactic(auto, unfolding(crate::specs::lemmas::Walks::part_hits, crate::specs::lemmas::Walks::area_hits, crate::specs::Rules::part_stretches))]
fn part_hit(at: &Region, p: u8, part: &Part) -> Option<Item>
    requires { length part.now.areas ≤ 8 }
    ensures { result ≡ head_of (walks.part_hits at.now p part.now) }
{
    area_hit(at, p, &part.areas)
}

/// The first of what stands before an area and overlaps a stretch.
#[tactic(auto, using(crate::specs::lemmas::AlongLemmas::in_turn))]
fn first_before(at: &Region, whole: Option<Region>, parts: &[Part], before: &[Area]) -> Option<Item>
    requires few { length parts.now ≤ most_parts }
    requires areas { All (λ part. length part.areas ≤ 8) parts.now }
    requires before { length before.now ≤ 8 }
    ensures { result ≡ head_of (walks.whole_hits at.now whole ++ added_by_each (walks.part_hits at.now) parts.now ++ walks.area_hits at.now (length parts.now) before.now) }
{
    let found = whole_hit(at, whole);
    if found.is_some() {
        return found;
    }
    let found = parts_hit(at, parts);
    if found.is_some() {
        return found;
    }
    area_hit(at, parts.len() as u8, before)
}

/// An area that overlaps one before it.
fn area_meets(whole: Option<Region>, parts: &[Part], before: &[Area], area: &Area) -> Option<Broken>
    requires few { length parts.now ≤ most_parts }
    requires areas { All (λ part. length part.areas ≤ 8) parts.now }
    requires before { length before.now ≤ 8 }
    ensures { result ≡ head_of (walks.area_meets (rules.whole_stretch whole ++ added_by_each rules.part_stretches parts.now) (length parts.now) before.now area.now) }
{
    let earlier = first_before(&stretch(area), whole, parts, before);
    let later = Item::Area(parts.len() as u8, before.len() as u8);
    beside(9, later, earlier)
}

/// The first area of a partition that overlaps one before it.
fn areas_meet(whole: Option<Region>, parts: &[Part], areas: &[Area]) -> Option<Broken>
    requires few { length parts.now ≤ most_parts }
    requires areas { All (λ part. length part.areas ≤ 8) parts.now }
    requires next { length areas.now ≤ 8 }
    ensures { result ≡ head_of (along (walks.area_meets (rules.whole_stretch whole ++ added_by_each rules.part_stretches parts.now) (length parts.now)) areas.now) }
{
    first_along(areas, |before, area| area_meets(whole, parts, before, area))
}

/// The first area of a partition that overlaps one before it.
#[tactic(auto, unfolding(crate::specs::lemmas::Walks::part_meets))]
fn part_meets(whole: Option<Region>, before: &[Part], part: &Part) -> Option<Broken>
    requires few { length before.now ≤ most_parts }
    requires areas { All (λ part. length part.areas ≤ 8) before.now }
    requires next { length part.now.areas ≤ 8 }
    ensures { result ≡ head_of (walks.part_meets whole before.now part.now) }
{
    areas_meet(whole, before, &part.areas)
}

/// The first area of all that overlaps the hypervisor or an area before it.
#[tactic(auto, using(crate::proofs::MeetLemmas::rule_9_along, crate::proofs::CountLemmas::few_areas))]
pub(super) fn rule_9(raw: &RawConf) -> Option<Broken>
    requires { HasCounts raw.now }
    ensures { result ≡ head_of (rules.rule_9 raw.now) }
{
    first_along(
        &raw.parts,
        |before, part| part_meets(hypervisor(raw.hv_size, &raw.regions), before, part),
    )
}
