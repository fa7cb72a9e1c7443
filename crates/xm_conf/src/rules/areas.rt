//! Areas: whole pages inside a region, and not too many.

ghost use Rattle.std.specs.Prelude.{◌≡◌, ◌≤◌, length, sum_by};
ghost use Rattle.std.specs.List.{list_any};
ghost use Rattle.xm_conf.specs.Along.{added_by_each, head_of};
ghost use Rattle.xm_conf.specs.lemmas.FitsTerms.{HasCounts};
ghost use Rattle.xm_conf.specs.Rules as rules;
ghost use Rattle.xm_conf.specs.lemmas.Room.{room_after};

use super::broken::unless;
use super::memory::is_paged;
use crate::first::first_of_each;
use crate::item::{Broken, Item};
use crate::part::{Area, Part};
use crate::raw::{RawConf, Region};

const MEMORY: u32 = 33_554_432;

/// Whether an area is whole pages.
fn is_sized(area: &Area) -> bool
    ensures { result ≡ rules.is_sized area.now.start area.now.size }
{
    is_paged(area.start) && is_paged(area.size) && 0 < area.size
}

/// An area that is not whole pages.
#[tactic(auto, unfolding(crate::specs::Rules::unsized_area))]
fn unsized_area(p: u8, n: u8, area: &Area) -> Option<Broken>
    ensures { result ≡ head_of (rules.unsized_area p n area.now) }
{
    unless(is_sized(area), 7, Item::Area(p, n))
}

/// The first area of a partition that is not whole pages.
fn unsized_areas(p: u8, areas: &[Area]) -> Option<Broken>
    requires { length areas.now ≤ 8 }
    ensures { result ≡ head_of (added_by_each (rules.unsized_area p) areas.now) }
{
    first_of_each(areas, |n, area| unsized_area(p, n, area))
}

/// Whether a region has all addresses of an area.
#[tactic(auto, unfolding(crate::specs::Rules::has_area))]
fn has_area(area: &Area, region: &Region) -> bool
    ensures { result ≡ rules.has_area area.now region.now }
{
    let end = u64::from(area.start) + u64::from(area.size);
    region.start <= area.start && end <= u64::from(region.start) + u64::from(region.size)
}

/// Whether an area lies inside a region.
fn is_inside(regions: &[Region], area: &Area) -> bool
    ensures { result ≡ list_any (rules.has_area area.now) regions.now }
{
    regions.iter().any(|region| has_area(area, region))
}

/// An area that is not inside a region.
#[tactic(auto, unfolding(crate::specs::Rules::outside_area))]
fn outside_area(regions: &[Region], p: u8, n: u8, area: &Area) -> Option<Broken>
    ensures { result ≡ head_of (rules.outside_area regions.now p n area.now) }
{
    unless(is_inside(regions, area), 8, Item::Area(p, n))
}

/// The first area of a partition that is not inside a region.
fn outside_areas(regions: &[Region], p: u8, areas: &[Area]) -> Option<Broken>
    requires { length areas.now ≤ 8 }
    ensures { result ≡ head_of (added_by_each (rules.outside_area regions.now p) areas.now) }
{
    first_of_each(areas, |n, area| outside_area(regions, p, n, area))
}

/// What is left of a room for bytes after these areas, or `None` where they have more.
#[tactic(auto, using(crate::proofs::RoomLemmas::room_loop))]
fn room_left(areas: &[Area], room: u32) -> Option<u32>
    ensures { result ≡ room_after room (sum_by (λ area. area.size) areas.now) }
{
    let mut room = room;
    for area in areas {
        room = room.checked_sub(area.size)?;
    }
    Some(room)
}

/// What is left of a room for bytes after the areas of these partitions.
#[tactic(auto, using(crate::proofs::RoomLemmas::room_loop), unfolding(crate::specs::Rules::part_size))]
fn room_left_all(parts: &[Part], room: u32) -> Option<u32>
    ensures { result ≡ room_after room (sum_by rules.part_size parts.now) }
{
    let mut room = room;
    for part in parts {
        room = room_left(&part.areas, room)?;
    }
    Some(room)
}

/// The first area that is not whole pages.
#[tactic(auto, using(crate::proofs::CountLemmas::few_areas), unfolding(crate::specs::Rules::unsized_areas, crate::specs::Rules::rule_7))]
pub(super) fn rule_7(raw: &RawConf) -> Option<Broken>
    requires { HasCounts raw.now }
    ensures { result ≡ head_of (rules.rule_7 raw.now) }
{
    first_of_each(&raw.parts, |n, part| unsized_areas(n, &part.areas))
}

/// The first area that is not inside a region.
#[tactic(auto, using(crate::proofs::CountLemmas::few_areas), unfolding(crate::specs::Rules::outside_areas, crate::specs::Rules::rule_8))]
pub(super) fn rule_8(raw: &RawConf) -> Option<Broken>
    requires { HasCounts raw.now }
    ensures { result ≡ head_of (rules.rule_8 raw.now) }
{
    first_of_each(
        &raw.parts,
        |n, part| outside_areas(&raw.regions, n, &part.areas),
    )
}

/// The whole, where all areas together have too many bytes.
#[tactic(auto, using(crate::proofs::RoomLemmas::has_room), unfolding(crate::specs::Rules::rule_10, crate::specs::Rules::most_memory))]
pub(super) fn rule_10(raw: &RawConf) -> Option<Broken>
    ensures { result ≡ head_of (rules.rule_10 raw.now) }
{
    let room = room_left_all(&raw.parts, MEMORY);
    unless(room.is_some(), 10, Item::Whole)
}
