//! Channels: their messages, and the ports at their ends.

ghost use Rattle.std.specs.Prelude.{◌≡◌, ◌≤◌, IfNone, Some, length, slice_get, option_copied};
ghost use Rattle.xm_conf.specs.Along.{added_by_each, head_of};
ghost use Rattle.xm_conf.specs.lemmas.FitsTerms.{HasCounts, HasFewEnds};
ghost use Rattle.xm_conf.specs.Limits.{most_dests};
ghost use Rattle.xm_conf.specs.Rules as rules;

use super::broken::unless;
use crate::channel::{Chan, ChanKind, End};
use crate::first::first_of_each;
use crate::item::{Broken, Item};
use crate::part::Part;
use crate::port::{Kind, Port, Way};
use crate::raw::RawConf;

const LENGTH: u16 = 4096;

const MESSAGES: u8 = 64;

/// Whether a channel has destinations as its kind wants, and as many messages.
#[tactic(auto, unfolding(crate::specs::Rules::is_kind))]
fn is_kind(kind: ChanKind, dests: &[End]) -> bool
    ensures { result ≡ rules.is_kind kind dests.now }
{
    match kind {
        ChanKind::Sampling { .. } => !dests.is_empty(),
        ChanKind::Queuing { most } => dests.len() == 1 && 0 < most && most <= MESSAGES,
    }
}

/// A channel with messages or destinations that are none.
#[tactic(auto, unfolding(crate::specs::Rules::unfit_chan))]
fn unfit_chan(n: u8, chan: &Chan) -> Option<Broken>
    ensures { result ≡ head_of (rules.unfit_chan n chan.now) }
{
    let length = chan.length;
    let fits = 0 < length && length <= LENGTH && is_kind(chan.kind, &chan.dests);
    unless(fits, 15, Item::Chan(n))
}

/// A partition's port.
fn port_of(port: u8, part: &Part) -> Option<&Port>
    ensures { option_copied result ≡ slice_get part.now.ports port }
{
    part.ports.get(usize::from(port))
}

/// The port at the end of a channel.
#[tactic(auto, unfolding(crate::specs::Rules::port_at))]
fn port_at<'a>(parts: &'a [Part], end: &End) -> Option<&'a Port>
    ensures { option_copied result ≡ rules.port_at parts.now end.now }
{
    match parts.get(usize::from(end.part)) {
        Some(part) => port_of(end.port, part),
        None => None,
    }
}

/// An end that is no port.
#[tactic(auto, unfolding(crate::specs::Rules::stray_end))]
fn stray_end(parts: &[Part], item: Item, end: &End) -> Option<Broken>
    ensures { result ≡ head_of (rules.stray_end parts.now item end.now) }
{
    unless(port_at(parts, end).is_some(), 16, item)
}

/// A destination that is no port.
#[tactic(auto, unfolding(crate::specs::Rules::stray_dest))]
fn stray_dest(parts: &[Part], c: u8, n: u8, end: &End) -> Option<Broken>
    requires { n ≤ most_dests }
    ensures { result ≡ head_of (rules.stray_dest parts.now c n end.now) }
{
    stray_end(parts, Item::End(c, n + 1), end)
}

/// The first destination that is no port.
fn stray_dests(parts: &[Part], c: u8, dests: &[End]) -> Option<Broken>
    requires { length dests.now ≤ most_dests }
    ensures { result ≡ head_of (added_by_each (rules.stray_dest parts.now c) dests.now) }
{
    first_of_each(dests, |n, end| stray_dest(parts, c, n, end))
}

/// The first end of a channel that is no port.
#[tactic(auto, using(crate::specs::lemmas::AlongLemmas::in_turn), unfolding(crate::specs::Rules::stray_ends))]
fn stray_ends(parts: &[Part], c: u8, chan: &Chan) -> Option<Broken>
    requires { length chan.now.dests ≤ most_dests }
    ensures { result ≡ head_of (rules.stray_ends parts.now c chan.now) }
{
    let broken = stray_end(parts, Item::End(c, 0), &chan.source);
    if broken.is_some() {
        return broken;
    }
    stray_dests(parts, c, &chan.dests)
}

/// Whether a port's kind is the channel's.
fn is_of_kind(chan: ChanKind, kind: Kind) -> bool
    ensures { result ≡ rules.is_of_kind chan kind }
{
    match (chan, kind) {
        (ChanKind::Sampling { .. }, Kind::Sampling) => true,
        (ChanKind::Sampling { .. }, Kind::Queuing) => false,
        (ChanKind::Queuing { .. }, Kind::Sampling) => false,
        (ChanKind::Queuing { .. }, Kind::Queuing) => true,
    }
}

/// Whether two ways are one.
fn is_way(a: Way, b: Way) -> bool
    ensures { result ≡ rules.is_way a b }
{
    match (a, b) {
        (Way::Source, Way::Source) => true,
        (Way::Source, Way::Destination) => false,
        (Way::Destination, Way::Source) => false,
        (Way::Destination, Way::Destination) => true,
    }
}

/// Whether a port may be an end.
fn is_end(kind: ChanKind, way: Way, port: &Port) -> bool
    ensures { result ≡ rules.may_be_end kind way (Some port.now) }
{
    is_of_kind(kind, port.kind) && is_way(way, port.way)
}

/// Whether a port, where there is one, may be an end.
fn may_be_end(kind: ChanKind, way: Way, port: Option<&Port>) -> bool
    ensures { result ≡ rules.may_be_end kind way (option_copied port.entry) }
{
    match port {
        Some(port) => is_end(kind, way, port),
        None => true,
    }
}

/// An end whose port is of another kind or way.
#[tactic(auto, unfolding(crate::specs::Rules::wrong_end))]
fn wrong_end(parts: &[Part], kind: ChanKind, way: Way, item: Item, end: &End) -> Option<Broken>
    ensures { result ≡ head_of (rules.wrong_end parts.now kind way item end.now) }
{
    unless(may_be_end(kind, way, port_at(parts, end)), 17, item)
}

/// A destination whose port is of another kind or way.
#[tactic(auto, unfolding(crate::specs::Rules::wrong_dest))]
fn wrong_dest(parts: &[Part], kind: ChanKind, c: u8, n: u8, end: &End) -> Option<Broken>
    requires { n ≤ most_dests }
    ensures { result ≡ head_of (rules.wrong_dest parts.now kind c n end.now) }
{
    wrong_end(parts, kind, Way::Destination, Item::End(c, n + 1), end)
}

/// The first destination whose port is of another kind or way.
fn wrong_dests(parts: &[Part], kind: ChanKind, c: u8, dests: &[End]) -> Option<Broken>
    requires { length dests.now ≤ most_dests }
    ensures { result ≡ head_of (added_by_each (rules.wrong_dest parts.now kind c) dests.now) }
{
    first_of_each(dests, |n, end| wrong_dest(parts, kind, c, n, end))
}

/// The first end of a channel whose port is of another kind or way.
#[tactic(auto, using(crate::specs::lemmas::AlongLemmas::in_turn), unfolding(crate::specs::Rules::wrong_ends))]
fn wrong_ends(parts: &[Part], c: u8, chan: &Chan) -> Option<Broken>
    requires { length chan.now.dests ≤ most_dests }
    ensures { result ≡ head_of (rules.wrong_ends parts.now c chan.now) }
{
    let broken = wrong_end(parts, chan.kind, Way::Source, Item::End(c, 0), &chan.source);
    if broken.is_some() {
        return broken;
    }
    wrong_dests(parts, chan.kind, c, &chan.dests)
}

/// The first channel with messages or destinations that are none.
#[tactic(auto, unfolding(crate::specs::Rules::rule_15))]
fn first_unfit(raw: &RawConf) -> Option<Broken>
    requires { HasCounts raw.now }
    ensures { result ≡ head_of (rules.rule_15 raw.now) }
{
    first_of_each(&raw.chans, unfit_chan)
}

/// The first channel with messages or destinations that are none.
#[tactic(auto, using(crate::proofs::CountLemmas::messaged))]
pub(super) fn rule_15(raw: &RawConf) -> Option<Broken>
    requires { HasCounts raw.now }
    ensures first { result ≡ head_of (rules.rule_15 raw.now) }
    ensures ends { IfNone result (HasFewEnds raw.now) }
{
    first_unfit(raw)
}

/// The first end that is no port.
#[tactic(auto, unfolding(crate::specs::Rules::rule_16))]
pub(super) fn rule_16(raw: &RawConf) -> Option<Broken>
    requires { HasFewEnds raw.now }
    ensures { result ≡ head_of (rules.rule_16 raw.now) }
{
    first_of_each(&raw.chans, |n, chan| stray_ends(&raw.parts, n, chan))
}

/// The first end whose port is of another kind or way.
#[tactic(auto, unfolding(crate::specs::Rules::rule_17))]
pub(super) fn rule_17(raw: &RawConf) -> Option<Broken>
    requires { HasFewEnds raw.now }
    ensures { result ≡ head_of (rules.rule_17 raw.now) }
{
    first_of_each(&raw.chans, |n, chan| wrong_ends(&raw.parts, n, chan))
}
