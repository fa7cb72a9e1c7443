//! The group of a partition.

ghost use Rattle.std.specs.Prelude.{◌≡◌, ◌↔◌, ◌<◌, ◌≤◌, ℕ, All, IsTrue, length, true};
ghost use Rattle.xm_conf.specs.Description.{described};
ghost use Rattle.xm_conf.specs.Fits.{Fits};
ghost use Rattle.xm_flows.specs.Groups.{HasNoSystem, IsClosed, IsGroupOf};
ghost use Rattle.xm_flows.specs.lemmas.MasksTerms.{HasLowEnds, HasLowSource, IsClosureOf};
ghost use Rattle.xm_flows.specs.Masks.{group_of, members_of, widened as widened_over, widened_all as widened_over_all, widened_by as widened_by_channel, widened_by_link as widened_by_its_link, widened_by_links as widened_over_links};

use crate::answer::Group;
use crate::mask::{has_dest, has_no_system, is_member, with_ends, with_member};
use xm_base::PartId;
use xm_conf::{Chan, ChanKind, Conf, Link, Part};

/// The mask with what the rule of its kind asks for a channel.
fn widened_by(mask: u32, chan: &Chan) -> u32
    requires { HasLowEnds chan.now }
    ensures { result ≡ widened_by_channel chan.now.kind chan.now.source chan.now.dests mask }
{
    match chan.kind {
        ChanKind::Sampling { .. } => {
            if has_dest(mask, &chan.dests) {
                with_member(mask, chan.source.part)
            } else {
                mask
            }
        }
        ChanKind::Queuing { .. } => {
            if is_member(mask, chan.source.part) || has_dest(mask, &chan.dests) {
                with_ends(with_member(mask, chan.source.part), &chan.dests)
            } else {
                mask
            }
        }
    }
}

/// The mask after the channels of a round.
fn widened(mask: u32, chans: &[Chan]) -> u32
    requires { All HasLowEnds chans.now }
    ensures { result ≡ widened_over chans.now mask }
{
    let mut wider = mask;
    for chan in chans {
        wider = widened_by(wider, chan);
    }
    wider
}

/// The mask with the partition that a link to a member comes from.
fn widened_by_link(mask: u32, link: &Link) -> u32
    requires { HasLowSource link.now }
    ensures { result ≡ widened_by_its_link link.now mask }
{
    if is_member(mask, link.dest) {
        with_member(mask, link.source)
    } else {
        mask
    }
}

/// The mask after the links of a round.
fn widened_by_links(mask: u32, links: &[Link]) -> u32
    requires { All HasLowSource links.now }
    ensures { result ≡ widened_over_links links.now mask }
{
    let mut wider = mask;
    for link in links {
        wider = widened_by_link(wider, link);
    }
    wider
}

/// The mask after a round over the channels and the links.
fn widened_all(mask: u32, chans: &[Chan], links: &[Link]) -> u32
    requires ends { All HasLowEnds chans.now }
    requires sources { All HasLowSource links.now }
    ensures { result ≡ widened_over_all chans.now links.now mask }
{
    widened_by_links(widened(mask, chans), links)
}

/// The mask after the round that adds nothing more.
fn closed(mask: u32, chans: &[Chan], links: &[Link]) -> u32
    requires ends { All HasLowEnds chans.now }
    requires sources { All HasLowSource links.now }
    ensures { IsClosureOf chans.now links.now mask result }
{
    let mut members = mask;
    let mut wider = widened_all(members, chans, links);
    while wider != members {
        members = wider;
        wider = widened_all(members, chans, links);
    }
    members
}

/// The channels of a configuration.
fn chans_of(conf: &Conf) -> &[Chan]
    ensures value { result.now ≡ conf.now.chans }
    ensures low { All HasLowEnds result.now }
    ensures fits { Fits (described conf.now) }
{
    &conf.raw().chans
}

/// The links of a configuration.
fn links_of(conf: &Conf) -> &[Link]
    ensures value { result.now ≡ conf.now.links }
    ensures low { All HasLowSource result.now }
{
    &conf.raw().links
}

/// The partitions of a configuration.
fn parts_of(conf: &Conf) -> &[Part]
    ensures value { result.now ≡ conf.now.parts }
    ensures few { length result.now ≤ 32 }
{
    &conf.raw().parts
}

/// The group of a partition: the least set that has it and from which, whatever a channel or a link joins to a member, no partition is left
/// out that could change by it what the member meets.
pub fn group(conf: &Conf, p: PartId) -> Group
    // Called for a partition that exists.
    requires { p < length conf.now.parts }
    // The group is what as many rounds over the channels and links as there are partitions leave.
    ensures value { result ≡ group_of conf.now p }
    // The group of a partition has it, and each partition that by a channel or a link can change what a member meets;
    // it is part of every set of partitions that does both.
    ensures members { IsGroupOf conf.now p (members_of result.members) }
    // Its members are partitions that there are.
    ensures within { (q : ℕ) → members_of result.members q ≡ true → q < length conf.now.parts }
    // It is covered exactly where no member is a system partition, and so exactly where its members are a closed set,
    // of which the laws speak.
    ensures covered { IsTrue result.covered ↔ HasNoSystem conf.now (members_of result.members) }
    ensures closed { IsTrue result.covered ↔ IsClosed conf.now (members_of result.members) }
{
    let chans = chans_of(conf);
    let links = links_of(conf);
    let members = closed(with_member(0, p), chans, links);
    let covered = has_no_system(members, parts_of(conf));
    Group { members, covered }
}
