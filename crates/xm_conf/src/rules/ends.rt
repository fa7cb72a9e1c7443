//! Ends of channels that are different ports.

ghost use Rattle.std.specs.Prelude.{◌≡◌, ◌++◌, ◌<◌, ◌≤◌, All, IfSome, length};
ghost use Rattle.std.specs.List.{position_from};
ghost use Rattle.xm_conf.specs.Along.{along, added_by_each, head_of};
ghost use Rattle.xm_conf.specs.lemmas.FitsTerms.{HasFewEnds};
ghost use Rattle.xm_conf.specs.Limits.{most_dests};
ghost use Rattle.xm_conf.specs.Rules as rules;
ghost use Rattle.xm_conf.specs.lemmas.Walks as walks;
ghost use Rattle.xm_conf.specs.declared.item.Item.TheVariants as item;

use super::broken::beside;
use crate::channel::{Chan, End};
use crate::first::{first_along, first_of_each};
use crate::item::{Broken, Item};
use crate::raw::RawConf;

/// Whether two ends are one port.
#[tactic(auto, unfolding(crate::specs::Rules::same_end))]
fn same_end(a: &End, b: &End) -> bool
    ensures { result ≡ rules.same_end a.now b.now }
{
    a.part == b.part && a.port == b.port
}

/// The number of the first destination that is one port with an end.
fn first_dest(at: &End, dests: &[End]) -> Option<usize>
    ensures first { result ≡ position_from (λ dest. rules.same_end dest at.now) 0 dests.now }
    ensures within { IfSome result (λ n. n < length dests.now) }
{
    dests.iter().position(|dest| same_end(dest, at))
}

/// The first destination of a channel that is one port with an end.
#[tactic(auto, using(crate::proofs::MeetLemmas::first_hit), unfolding(crate::specs::lemmas::Walks::dest_hits))]
fn dest_hit(at: &End, c: u8, dests: &[End]) -> Option<Item>
    requires { length dests.now ≤ most_dests }
    ensures { result ≡ head_of (walks.dest_hits at.now c dests.now) }
{
    match first_dest(at, dests) {
        Some(n) => Some(Item::End(c, n as u8 + 1)),
        None => None,
    }
}

/// The source of a channel, where it is one port with an end.
#[tactic(auto, unfolding(crate::specs::lemmas::Walks::source_hits))]
fn source_hit(at: &End, c: u8, source: &End) -> Option<Item>
    ensures { result ≡ head_of (walks.source_hits at.now c source.now) }
{
    if same_end(source, at) {
        return Some(Item::End(c, 0));
    }
    None
}

/// The first end of a channel that is one port with an end.
#[tactic(auto, using(crate::specs::lemmas::AlongLemmas::in_turn), unfolding(crate::specs::lemmas::Walks::chan_hits, crate::specs::lemmas::Walks::source_hits, crate::specs::lemmas::Walks::dest_hits, crate::specs::Rules::chan_ends))]
fn chan_hit(at: &End, c: u8, chan: &Chan) -> Option<Item>
    requires { length chan.now.dests ≤ most_dests }
    ensures { result ≡ head_of (walks.chan_hits at.now c chan.now) }
{
    let found = source_hit(at, c, &chan.source);
    if found.is_some() {
        return found;
    }
    dest_hit(at, c, &chan.dests)
}

/// The first end of all channels that is one port with an end.
fn chans_hit(at: &End, chans: &[Chan]) -> Option<Item>
    requires few { length chans.now ≤ 64 }
    requires dests { All (λ chan. length chan.dests ≤ most_dests) chans.now }
    ensures { result ≡ head_of (added_by_each (walks.chan_hits at.now) chans.now) }
{
    first_of_each(chans, |n, chan| chan_hit(at, n, chan))
}

/// The first end that stands before a destination and is one port with an end.
#[tactic(auto, using(crate::specs::lemmas::AlongLemmas::in_turn))]
fn first_before(at: &End, chans: &[Chan], source: &End, before: &[End]) -> Option<Item>
    requires few { length chans.now ≤ 64 }
    requires dests { All (λ chan. length chan.dests ≤ most_dests) chans.now }
    requires before { length before.now ≤ most_dests }
    ensures { result ≡ head_of (added_by_each (walks.chan_hits at.now) chans.now ++ walks.source_hits at.now (length chans.now) source.now ++ walks.dest_hits at.now (length chans.now) before.now) }
{
    let found = chans_hit(at, chans);
    if found.is_some() {
        return found;
    }
    let c = chans.len() as u8;
    let found = source_hit(at, c, source);
    if found.is_some() {
        return found;
    }
    dest_hit(at, c, before)
}

/// A destination that is a port of an end before it.
fn dest_meets(chans: &[Chan], source: &End, before: &[End], dest: &End) -> Option<Broken>
    requires few { length chans.now ≤ 64 }
    requires dests { All (λ chan. length chan.dests ≤ most_dests) chans.now }
    requires before { length before.now ≤ most_dests }
    ensures { result ≡ head_of (walks.dest_meets (walks.before_dests chans.now source.now) (length chans.now) before.now dest.now) }
{
    let earlier = first_before(dest, chans, source, before);
    let later = Item::End(chans.len() as u8, before.len() as u8 + 1);
    beside(18, later, earlier)
}

/// The first destination of a channel that is a port of an end before it.
fn dests_meet(chans: &[Chan], source: &End, dests: &[End]) -> Option<Broken>
    requires few { length chans.now ≤ 64 }
    requires dests { All (λ chan. length chan.dests ≤ most_dests) chans.now }
    requires next { length dests.now ≤ most_dests }
    ensures { result ≡ head_of (along (walks.dest_meets (walks.before_dests chans.now source.now) (length chans.now)) dests.now) }
{
    first_along(
        dests,
        |before, dest| dest_meets(chans, source, before, dest),
    )
}

/// A source that is a port of an end before it.
fn source_meets(chans: &[Chan], source: &End) -> Option<Broken>
    requires few { length chans.now ≤ 64 }
    requires dests { All (λ chan. length chan.dests ≤ most_dests) chans.now }
    ensures { result ≡ head_of (rules.meets 18 rules.same_end (added_by_each rules.chan_ends chans.now) (item.End (length chans.now) 0, source.now)) }
{
    beside(
        18,
        Item::End(chans.len() as u8, 0),
        chans_hit(source, chans),
    )
}

/// The first end of a channel that is a port of an end before it.
#[tactic(auto, using(crate::specs::lemmas::AlongLemmas::in_turn), unfolding(crate::specs::lemmas::Walks::chan_meets))]
fn chan_meets(before: &[Chan], chan: &Chan) -> Option<Broken>
    requires few { length before.now ≤ 64 }
    requires dests { All (λ chan. length chan.dests ≤ most_dests) before.now }
    requires next { length chan.now.dests ≤ most_dests }
    ensures { result ≡ head_of (walks.chan_meets before.now chan.now) }
{
    let broken = source_meets(before, &chan.source);
    if broken.is_some() {
        return broken;
    }
    dests_meet(before, &chan.source, &chan.dests)
}

/// The first end of all channels that is a port of an end before it.
#[tactic(auto, using(crate::proofs::MeetLemmas::rule_18_along))]
pub(super) fn rule_18(raw: &RawConf) -> Option<Broken>
    requires { HasFewEnds raw.now }
    ensures { result ≡ head_of (rules.rule_18 raw.now) }
{
    first_along(&raw.chans, chan_meets)
}
