//! What others may do to the channels of a partition, and over links to it.

ghost use Rattle.std.specs.Prelude.{◌≡◌, ◌==◌, ◌&&◌, ◌<◌, ◌≤◌, length, option_map, slice_get};
ghost use Rattle.std.specs.List.{list_any};
ghost use Rattle.machine_model.specs.Lists.{is_number};
ghost use Rattle.machine_model.specs.View.{name_of, named, part_of};
ghost use Rattle.cue_scripts.specs.Script.{chan_called, gives_queue, heard_in, is_queue, is_system_partition, most_heard, signals};

use xm_base::PartId;
use xm_conf::{Chan, ChanKind, Conf, End, LINK_NUMBERS, Link, Part};

/// How many bytes a message has at most that others put into the channel which partition `p` calls `q`, where `p` is a destination of it.
#[tactic(auto, unfolding(crate::specs::Script::most_heard))]
pub(crate) fn most_heard(conf: &Conf, p: PartId, q: u8) -> Option<u16>
    requires { p < length conf.now.parts }
    ensures { result ≡ most_heard conf.now p q }
{
    match chan_called(conf, p, q) {
        Some(chan) => heard_in(p, chan),
        None => None,
    }
}

/// Whether others take messages out of the channel that partition `p` calls `q`: it is a queue, and `p` is its source.
#[tactic(auto, unfolding(crate::specs::Script::gives_queue))]
pub(crate) fn gives_queue(conf: &Conf, p: PartId, q: u8) -> bool
    requires { p < length conf.now.parts }
    ensures { result ≡ gives_queue conf.now p q }
{
    match chan_called(conf, p, q) {
        Some(chan) => is_queue(chan.kind) && chan.source.part == p,
        None => false,
    }
}

/// Whether partition `p` is a system partition.
#[tactic(auto, unfolding(crate::specs::Script::is_system_partition))]
pub(crate) fn is_system(conf: &Conf, p: PartId) -> bool
    requires { p < length conf.now.parts }
    ensures { result ≡ is_system_partition conf.now p }
{
    configured(conf, p).system
}

/// How many bytes a message has at most that others put into a channel, where partition `p` is a destination of it.
fn heard_in(p: PartId, chan: &Chan) -> Option<u16>
    ensures { result ≡ heard_in p (Some chan.now) }
{
    if is_destination(p, &chan.dests) {
        Some(chan.length)
    } else {
        None
    }
}

/// Whether one of these ends is a partition's.
fn is_destination(p: PartId, ends: &[End]) -> bool
    ensures { result ≡ list_any (λ end. end.part == p) ends.now }
{
    ends.iter().any(|end| end.part == p)
}

/// Whether messages wait in a channel of this kind.
fn is_queue(kind: ChanKind) -> bool
    ensures { result ≡ is_queue kind }
{
    match kind {
        ChanKind::Sampling { .. } => false,
        ChanKind::Queuing { .. } => true,
    }
}

/// The channel that partition `p` calls `q`.
#[tactic(auto, unfolding(crate::specs::Script::chan_called))]
fn chan_called(conf: &Conf, p: PartId, q: u8) -> Option<&Chan>
    requires { p < length conf.now.parts }
    ensures { option_map (λ chan. chan.now) result ≡ chan_called conf.now p q }
{
    match named(conf, p, q) {
        Some(c) => chan_at(conf, c),
        None => None,
    }
}

/// A channel by its number.
fn chan_at(conf: &Conf, c: u8) -> Option<&Chan>
    ensures { option_map (λ chan. chan.now) result ≡ slice_get conf.now.chans c }
{
    conf.raw().chans.get(usize::from(c))
}

/// The number of the channel that partition `p` calls `q`.
#[tactic(auto, unfolding(machine_model::specs::View::named))]
fn named(conf: &Conf, p: PartId, q: u8) -> Option<u8>
    requires { p < length conf.now.parts }
    ensures { result ≡ named conf.now p q }
{
    match conf.channel_of(p, q) {
        Some(c) => {
            if is_number(name_of(conf, p, c), q) {
                Some(c)
            } else {
                None
            }
        }
        None => None,
    }
}

/// Whether there is a number, and it is this one.
fn is_number(found: Option<u8>, number: u8) -> bool
    ensures { result ≡ is_number found number }
{
    match found {
        Some(found) => found == number,
        None => false,
    }
}

/// Partition `p`'s name for a channel: its lowest port on it.
pub fn name_of(conf: &Conf, p: PartId, chan: u8) -> Option<u8>
    // Called for a partition that exists.
    requires { p < length conf.now.parts }
    // A partition's name for a channel, its lowest port on it, by which a script speaks of the channel.
    ensures { result ≡ name_of conf.now p chan }
{
    let ports = port_count(conf, p);
    let mut port = 0;
    while port < ports {
        if is_number(conf.channel_of(p, port), chan) {
            return Some(port);
        }
        port += 1;
    }
    None
}

/// Whether a partition may be signalled over a link of a number.
#[tactic(auto, unfolding(crate::specs::Script::signals))]
pub(crate) fn signals(conf: &Conf, p: PartId, number: u8) -> bool
    ensures { result ≡ signals conf.now p number }
{
    number < LINK_NUMBERS && any_goes(&conf.raw().links, p, number)
}

/// Whether one of these links has a number and goes to a partition.
fn any_goes(links: &[Link], p: PartId, number: u8) -> bool
    ensures { result ≡ list_any (λ link. link.dest == p && link.number == number) links.now }
{
    links
        .iter()
        .any(|link| link.dest == p && link.number == number)
}

/// How many ports a partition has.
fn port_count(conf: &Conf, p: PartId) -> u8
    requires { p < length conf.now.parts }
    ensures { result ≡ length (part_of conf.now p).ports }
{
    configured(conf, p).ports.len() as u8
}

/// What the configuration says of a partition.
fn configured(conf: &Conf, p: PartId) -> &Part
    requires { p < length conf.now.parts }
    ensures value { result.now ≡ part_of conf.now p }
    ensures few { length result.now.ports ≤ 32 }
{
    &conf.raw().parts[usize::from(p)]
}
