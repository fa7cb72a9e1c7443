//! A configuration that meets the rules.

ghost use Rattle.std.specs.Prelude.{◌≡◌, ◌↔◌, ◌<◌, ◌≤◌, All, Contains, IfErr, IfSome, IfOk, IsNone, IsOk, IsSomeAnd, Some, length, slice_get};
ghost use Rattle.std.specs.List.{find, list_any, position_from};
ghost use Rattle.xm_base.specs.Options.{on};
ghost use Rattle.xm_conf.specs.Description.{described};
ghost use Rattle.xm_conf.specs.Fits.{Fits, FitsWithin};
ghost use Rattle.xm_conf.specs.Limits.{most_parts};
ghost use Rattle.xm_conf.specs.Rules.{first_broken as first_broken_of};
ghost use Rattle.xm_conf.specs.View.{HasEnd, IsLinkOf, channel_of, has_end, counts_seen, is_link_of, is_port, is_system, link_of, sees};

use crate::channel::{Chan, End};
use crate::item::Broken;
use crate::limits::PARTS;
use crate::link::Link;
use crate::part::Part;
use crate::raw::RawConf;
use crate::rules::first_broken;
use std::marker::Model;

/// What a partition sees of the whole system: how many partitions and plans there are.
#[derive(Clone, Copy, Debug, PartialEq, Eq)]
pub struct Seen {
    pub parts: u8,
    pub plans: u8,
}

/// A configuration that meets the rules.
#[derive(Debug, Drop)]
pub struct Conf {
    raw: RawConf,
}

impl Model for Conf {
    ghost use Rattle.xm_conf.specs.Configuration as plain;
    ghost use Rattle.xm_conf.specs.Description.{described};
    ghost use Rattle.xm_conf.specs.Fits.{Fits};

    ghost Value = { plain.Conf };

    ghost view = { λ conf. conf.raw };

    ghost invariant = { λ conf. Fits (described conf.raw) };
}

impl Conf {
    /// The configuration, where it meets the rules, or else the first rule that is broken.
    pub fn new(raw: RawConf) -> Result<Conf, Broken>
        // A configuration is taken exactly where it meets the rules, as it was given; else the answer is the first rule
        // that is broken, with its item and the item that it clashes with.
        ensures value { IfOk result (λ conf. conf ≡ raw) }
        ensures fits { IsOk result ↔ Fits (described raw) }
        ensures refused { IfErr result (λ broken. first_broken_of most_parts (described raw) ≡ Some broken) }
    {
        Conf::within(PARTS, raw)
    }

    /// The same, where it may have no more than this many partitions.
    #[tactic(auto, using(crate::proofs::RuleLaws::first_broken_none, crate::specs::lemmas::FitLemmas::fits_within))]
    pub fn within(most: u8, raw: RawConf) -> Result<Conf, Broken>
        // Called for a number of partitions that is within the limit.
        requires { most ≤ most_parts }
        // As `Conf::new` with a lesser limit of partitions, as version 1 of the formats has it; what is taken meets the
        // rules.
        ensures value { IfOk result (λ conf. conf ≡ raw) }
        ensures fits { IsOk result ↔ FitsWithin most (described raw) }
        ensures refused { IfErr result (λ broken. first_broken_of most (described raw) ≡ Some broken) }
    {
        match first_broken(most, &raw) {
            Some(broken) => Err(broken),
            None => Ok(Conf { raw }),
        }
    }

    /// The configuration as it was given.
    pub fn raw(&self) -> &RawConf
        // The configuration as it was given, which meets the rules.
        ensures value { result.now ≡ self.now }
        ensures fits { Fits (described self.now) }
    {
        &self.raw
    }

    /// How many partitions there are.
    #[tactic(auto, unfolding(crate::specs::Description::described))]
    pub fn part_count(&self) -> u8
        // How many partitions there are.
        ensures value { result ≡ length self.now.parts }
        // They are no more than the limit.
        ensures few { result ≤ most_parts }
    {
        self.raw.parts.len() as u8
    }

    /// The channel that has a port of a partition as an end, or `None` where none has.
    #[tactic(auto, using(crate::proofs::ViewLemmas::channel_of_found, crate::proofs::ViewLemmas::channel_of_none), unfolding(crate::specs::View::channel_of, crate::specs::Description::described))]
    pub fn channel_of(&self, part: u8, port: u8) -> Option<u8>
        // The channel of a port, and none exactly where it is the end of no channel.
        ensures value { result ≡ channel_of self.now part port }
        ensures found { IfSome result (λ c. IsSomeAnd (slice_get self.now.chans c) (HasEnd part port)) }
        ensures none { IsNone result ↔ All (λ chan. ¬ (HasEnd part port chan)) self.now.chans }
    {
        channel_with_end(&self.raw.chans, part, port)
    }

    /// The partition to which a partition's link of a number goes, or `None` where it has none.
    #[tactic(auto, using(crate::proofs::ViewLemmas::link_of_found, crate::proofs::ViewLemmas::link_of_none), unfolding(crate::specs::View::link_of))]
    pub fn link_of(&self, part: u8, number: u8) -> Option<u8>
        // The partition to which a partition's link of a number goes, and none exactly where it has none.
        ensures value { result ≡ link_of self.now part number }
        ensures found { IfSome result (λ dest. Contains self.now.links (record { number = number; source = part; dest = dest })) }
        ensures none { IsNone result ↔ All (λ link. ¬ (IsLinkOf part number link)) self.now.links }
    {
        dest_of(&self.raw.links, part, number)
    }

    /// What a partition sees: the two counts for a system partition, and 0 and 0 for another.
    #[tactic(auto, unfolding(crate::specs::View::sees, crate::specs::Description::described))]
    pub fn sees(&self, part: u8) -> Seen
        // The counts that a partition sees.
        ensures { result ≡ sees self.now part }
    {
        let parts = self.raw.parts.len() as u8;
        let plans = self.raw.plans.len() as u8;
        counts_seen(parts, plans, is_system_part(&self.raw.parts, part))
    }
}

/// Whether an end is a port of a partition.
#[tactic(auto, unfolding(crate::specs::View::is_port))]
fn is_port(part: u8, port: u8, end: &End) -> bool
    ensures { result ≡ is_port part port end.now }
{
    end.part == part && end.port == port
}

/// Whether one of these ends is a port of a partition.
fn have_port(part: u8, port: u8, ends: &[End]) -> bool
    ensures { result ≡ list_any (is_port part port) ends.now }
{
    ends.iter().any(|end| is_port(part, port, end))
}

/// Whether a port of a partition is an end of a channel.
#[tactic(auto, unfolding(crate::specs::View::has_end))]
fn has_end(part: u8, port: u8, chan: &Chan) -> bool
    ensures { result ≡ has_end part port chan.now }
{
    is_port(part, port, &chan.source) || have_port(part, port, &chan.dests)
}

/// The place of the first channel that has a port of a partition as an end.
fn first_with_end(chans: &[Chan], part: u8, port: u8) -> Option<usize>
    ensures first { result ≡ position_from (has_end part port) 0 chans.now }
    ensures within { IfSome result (λ c. c < length chans.now) }
{
    chans.iter().position(|chan| has_end(part, port, chan))
}

/// The number of the first channel that has a port of a partition as an end.
fn channel_with_end(chans: &[Chan], part: u8, port: u8) -> Option<u8>
    requires { length chans.now ≤ 64 }
    ensures { result ≡ position_from (has_end part port) 0 chans.now }
{
    match first_with_end(chans, part, port) {
        Some(c) => Some(c as u8),
        None => None,
    }
}

/// Whether a link is a partition's, of a number.
#[tactic(auto, unfolding(crate::specs::View::is_link_of))]
fn is_link_of(part: u8, number: u8, link: &Link) -> bool
    ensures { result ≡ is_link_of part number link.now }
{
    link.source == part && link.number == number
}

/// The first link that is a partition's, of a number.
fn first_link(links: &[Link], part: u8, number: u8) -> Option<Link>
    ensures { result ≡ find (is_link_of part number) links.now }
{
    links
        .iter()
        .copied()
        .find(|link| is_link_of(part, number, link))
}

/// Where the first link goes that is a partition's, of a number.
fn dest_of(links: &[Link], part: u8, number: u8) -> Option<u8>
    ensures { result ≡ on (λ link. link.dest) (find (is_link_of part number) links.now) }
{
    match first_link(links, part, number) {
        Some(link) => Some(link.dest),
        None => None,
    }
}

/// Whether a partition, where there is one, is a system partition.
fn is_system_part(parts: &[Part], part: u8) -> bool
    ensures { result ≡ is_system (slice_get parts.now part) }
{
    match parts.get(usize::from(part)) {
        Some(part) => part.system,
        None => false,
    }
}

/// The two counts for a system partition, and 0 and 0 for another.
fn counts_seen(parts: u8, plans: u8, system: bool) -> Seen
    ensures { result ≡ counts_seen parts plans system }
{
    if system {
        return Seen { parts, plans };
    }
    Seen { parts: 0, plans: 0 }
}
