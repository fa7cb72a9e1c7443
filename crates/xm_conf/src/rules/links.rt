//! Links between partitions.

ghost use Rattle.std.specs.Prelude.{◌≡◌, ◌<◌, ◌≤◌, length};
ghost use Rattle.xm_conf.specs.Along.{head_of};
ghost use Rattle.xm_conf.specs.lemmas.FitsTerms.{HasCounts};
ghost use Rattle.xm_conf.specs.Limits.{most_links};
ghost use Rattle.xm_conf.specs.Rules as rules;
ghost use Rattle.xm_conf.specs.declared.item.Item.TheVariants as item;

use super::broken::{repeated, unless};
use crate::first::{first_along, first_of_each};
use crate::item::{Broken, Item};
use crate::limits::LINK_NUMBERS;
use crate::link::Link;
use crate::raw::RawConf;

/// Whether a partition exists, where there are this many.
fn exists(parts: usize, part: u8) -> bool
    ensures { result ≡ rules.exists parts part }
{
    usize::from(part) < parts
}

/// Whether a link may stand: its number is one, and it goes from one partition to another.
#[tactic(auto, unfolding(crate::specs::Rules::is_link))]
fn is_link(parts: usize, link: &Link) -> bool
    ensures { result ≡ rules.is_link parts link.now }
{
    link.number < LINK_NUMBERS
        && exists(parts, link.source)
        && exists(parts, link.dest)
        && link.source != link.dest
}

/// A link that may not stand.
#[tactic(auto, unfolding(crate::specs::Rules::unfit_link))]
fn unfit_link(parts: usize, n: u8, link: &Link) -> Option<Broken>
    ensures { result ≡ head_of (rules.unfit_link parts n link.now) }
{
    unless(is_link(parts, link), 21, Item::Link(n))
}

/// Whether two links have the same source and number.
#[tactic(auto, unfolding(crate::specs::Rules::same_link))]
fn same_link(a: &Link, b: &Link) -> bool
    ensures { result ≡ rules.same_link a.now b.now }
{
    a.source == b.source && a.number == b.number
}

/// A link with an earlier one's source and number.
fn repeated_link(before: &[Link], link: &Link) -> Option<Broken>
    requires { length before.now ≤ most_links }
    ensures { result ≡ head_of (rules.repeated 22 item.Link rules.same_link before.now link.now) }
{
    repeated(22, before, link, same_link, Item::Link)
}

/// The first link that may not stand, or else the first with an earlier one's source and number.
#[tactic(auto, using(crate::specs::lemmas::AlongLemmas::in_turn), unfolding(crate::specs::Rules::rule_21, crate::specs::Rules::rule_22, crate::specs::Rules::link_rules))]
pub(super) fn links_broken(raw: &RawConf) -> Option<Broken>
    requires { HasCounts raw.now }
    ensures { result ≡ head_of (rules.link_rules raw.now) }
{
    let parts = raw.parts.len();
    let broken = first_of_each(&raw.links, |n, link| unfit_link(parts, n, link));
    if broken.is_some() {
        return broken;
    }
    first_along(&raw.links, repeated_link)
}
