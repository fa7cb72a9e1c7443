//! Regions and the hypervisor's memory.

ghost use Rattle.std.specs.Prelude.{◌≡◌, ◌++◌, ◌≤◌, ◌<◌, length, slice_get};
ghost use Rattle.xm_conf.specs.Along.{head_of};
ghost use Rattle.xm_conf.specs.lemmas.FitsTerms.{HasCounts};
ghost use Rattle.xm_conf.specs.Rules as rules;
ghost use Rattle.xm_conf.specs.declared.item.Item.TheVariants as item;

use super::broken::{repeated, unless};
use crate::first::{first_along, first_of_each};
use crate::item::{Broken, Item};
use crate::raw::{RawConf, Region};

const PAGE: u32 = 4096;

const ADDRESSES: u64 = 1 << 32;

/// Whether a number of bytes is a number of pages.
#[tactic(auto, unfolding(crate::specs::Rules::is_paged, crate::specs::Rules::page))]
pub(super) fn is_paged(bytes: u32) -> bool
    ensures { result ≡ rules.is_paged bytes }
{
    bytes % PAGE == 0
}

/// Whether a region is whole pages, below the end of all addresses.
#[tactic(auto, unfolding(crate::specs::Rules::is_region, crate::specs::Rules::addresses))]
fn is_region(region: &Region) -> bool
    ensures { result ≡ rules.is_region region.now }
{
    let (start, size) = (region.start, region.size);
    let end = u64::from(start) + u64::from(size);
    is_paged(start) && is_paged(size) && 0 < size && end <= ADDRESSES
}

/// Whether two stretches of memory have an address in common.
#[tactic(auto, unfolding(crate::specs::Rules::overlaps))]
pub(super) fn overlaps(a: &Region, b: &Region) -> bool
    ensures { result ≡ rules.overlaps a.now b.now }
{
    let a_end = u64::from(a.start) + u64::from(a.size);
    let b_end = u64::from(b.start) + u64::from(b.size);
    u64::from(a.start) < b_end && u64::from(b.start) < a_end
}

/// A region that is not whole pages.
#[tactic(auto, unfolding(crate::specs::Rules::unsized_region))]
fn unsized_region(n: u8, region: &Region) -> Option<Broken>
    ensures { result ≡ head_of (rules.unsized_region n region.now) }
{
    unless(is_region(region), 4, Item::Region(n))
}

/// A region that overlaps an earlier one.
fn overlapping_region(before: &[Region], region: &Region) -> Option<Broken>
    requires { length before.now ≤ 8 }
    ensures { result ≡ head_of (rules.repeated 5 item.Region rules.overlaps before.now region.now) }
{
    repeated(5, before, region, overlaps, Item::Region)
}

/// Whether a size is at most that of region 0.
fn fits_first(size: u32, regions: &[Region]) -> bool
    ensures { result ≡ rules.fits_into size (slice_get regions.now 0) }
{
    match regions.first() {
        Some(region) => size <= region.size,
        None => false,
    }
}

/// The hypervisor, where it has no whole pages of region 0.
#[tactic(auto, unfolding(crate::specs::Rules::rule_6))]
fn rule_6(raw: &RawConf) -> Option<Broken>
    ensures { result ≡ head_of (rules.rule_6 raw.now) }
{
    let size = raw.hv_size;
    let fits = is_paged(size) && 0 < size && fits_first(size, &raw.regions);
    unless(fits, 6, Item::Whole)
}

/// The first region that is not whole pages or overlaps an earlier one, or the hypervisor.
#[tactic(auto, using(crate::specs::lemmas::AlongLemmas::in_turn), unfolding(crate::specs::Rules::rule_4, crate::specs::Rules::rule_5))]
pub(super) fn regions_broken(raw: &RawConf) -> Option<Broken>
    requires { HasCounts raw.now }
    ensures { result ≡ head_of (rules.rule_4 raw.now ++ rules.rule_5 raw.now ++ rules.rule_6 raw.now) }
{
    let broken = first_of_each(&raw.regions, unsized_region);
    if broken.is_some() {
        return broken;
    }
    let broken = first_along(&raw.regions, overlapping_region);
    if broken.is_some() {
        return broken;
    }
    rule_6(raw)
}
