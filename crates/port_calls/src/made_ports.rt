//! The made ports that calls name.

ghost use Rattle.std.specs.Prelude.{◌≡◌, ◌<◌, IfSome, length, slice_get};
ghost use Rattle.machine_model.specs.Caller.{a_of};
ghost use Rattle.machine_model.specs.PortEffects.{made_port};
ghost use Rattle.machine_model.specs.Lists.{then_some};
ghost use Rattle.machine_model.specs.Structures.{refresh_of};
ghost use Rattle.machine_model.specs.View.{part_of};
ghost use Rattle.xm_conf.specs.Description.{described};
ghost use Rattle.xm_conf.specs.Fits.{Fits};
ghost use Rattle.xm_conf.specs.View.{channel_of};
ghost use Rattle.xm_ports.specs.Channels.{IsTable, most_of, shapes_of};
ghost use Rattle.xm_ports.specs.Ports.{are_same_kind, is_made};
ghost use Rattle.xm_base.specs.Options.{on};
ghost use Rattle.port_calls.specs.lemmas.MadePortsTerms.{HasKind, IsMade, found_end, found_in, port_in};
ghost use Rattle.system_state.specs.Serving.{IsCaller, caller_of};

use machine_model::keeps_shapes;
use system_state::answering::{A, argument};
use system_state::{CallSite, Sys};
use xm_base::{PartId, proof};
use xm_conf::{ChanKind, Conf, Kind, Port, Way};
use xm_ports::Channels;

/// A made port with its channel.
#[derive(Clone, Copy, Debug)]
pub(crate) struct MadePort {
    pub(crate) way: Way,
    pub(crate) chan: u8,
    pub(crate) kind: ChanKind,
    /// How many bytes a message has at most.
    pub(crate) length: u16,
}

/// The made port of a kind that the call names by its first argument.
#[tactic(auto, unfolding(machine_model::specs::PortEffects::made_port))]
pub(crate) fn made_port(sys: &Sys, site: CallSite, kind: Kind) -> Option<MadePort>
    requires caller { IsCaller site sys.now }
    requires shapes { sys.now.shapes ≡ shapes_of sys.now.machine.system.conf }
    ensures value { on (port_in site.part sys.now) result ≡ made_port kind (caller_of site sys.now) }
    ensures made { IfSome result (IsMade kind site.part sys.now) }
{
    let port = made_number(sys, site)?;
    // As many partitions run as are configured.
    proof! {
        let _count = sys.count();
        keeps_shapes();
    }
    let found = found_in(sys.conf(), site.part, port, kind)?;
    proof! { look_at(sys.channels(), found.chan, kind); }
    Some(found)
}

/// The number that the call gives by its first argument, where it is that of a made port.
fn made_number(sys: &Sys, site: CallSite) -> Option<u8>
    requires { IsCaller site sys.now }
    ensures { result ≡ then_some (is_made (a_of (caller_of site sys.now)) (caller_of site sys.now).state.made) (a_of (caller_of site sys.now)) }
{
    let port = u8::try_from(argument(sys, site, A)).unwrap_or(u8::MAX);
    if is_made(sys, site, port) {
        Some(port)
    } else {
        None
    }
}

/// Whether the caller has made a port.
#[tactic(auto, unfolding(system_state::specs::Serving::caller_of))]
fn is_made(sys: &Sys, site: CallSite, port: u8) -> bool
    requires { IsCaller site sys.now }
    ensures value { result ≡ is_made port (caller_of site sys.now).state.made }
    ensures count { length (caller_of site sys.now).state.made ≡ 32 }
{
    sys.part(site.part).ports.is_made(port)
}

/// A port of a partition with its channel, where it is of a kind and the end of a channel.
#[tactic(auto, unfolding(crate::specs::lemmas::MadePortsTerms::found_in, machine_model::specs::View::part_of))]
fn found_in(conf: &Conf, p: PartId, port: u8, kind: Kind) -> Option<MadePort>
    requires { p < length conf.now.parts }
    ensures value { result ≡ found_in conf.now p port kind }
    ensures few { IfSome result (λ found. found.chan < 64) }
    ensures fits { Fits (described conf.now) }
{
    match port_at(conf, p, port) {
        Some(entry) if is_kind(entry.kind, kind) => found_end(conf, p, port, entry.way),
        _ => None,
    }
}

/// A port of a partition, where there is one of that number.
#[tactic(auto, unfolding(machine_model::specs::View::part_of))]
fn port_at(conf: &Conf, p: PartId, port: u8) -> Option<Port>
    requires { p < length conf.now.parts }
    ensures value { result ≡ slice_get (part_of conf.now p).ports port }
    ensures fits { Fits (described conf.now) }
{
    conf.raw().parts[usize::from(p)]
        .ports
        .get(usize::from(port))
        .copied()
}

/// A port of a way with the channel that has it as an end.
#[tactic(auto, unfolding(xm_conf::specs::Description::described))]
fn found_end(conf: &Conf, p: PartId, port: u8, way: Way) -> Option<MadePort>
    ensures value { result ≡ found_end conf.now way (channel_of conf.now p port) }
    ensures few { IfSome result (λ found. found.chan < 64) }
{
    let chan = conf.channel_of(p, port)?;
    let entry = &conf.raw().chans[usize::from(chan)];
    Some(MadePort {
        way,
        chan,
        kind: entry.kind,
        length: entry.length,
    })
}

/// The refresh period of a sampling channel; a queue has none.
pub(crate) fn refresh_of(kind: ChanKind) -> u32
    ensures { result ≡ refresh_of kind }
{
    match kind {
        ChanKind::Sampling { refresh } => refresh,
        ChanKind::Queuing { most: _ } => 0,
    }
}

/// How many messages a channel holds at most.
pub(crate) fn most_of(kind: ChanKind) -> u8
    ensures { result ≡ most_of kind }
{
    match kind {
        ChanKind::Sampling { refresh: _ } => 1,
        ChanKind::Queuing { most } => most,
    }
}

/// Whether two kinds are one.
fn is_kind(a: Kind, b: Kind) -> bool
    ensures { result ≡ are_same_kind a b }
{
    match a {
        Kind::Sampling => matches!(b, Kind::Sampling),
        Kind::Queuing => matches!(b, Kind::Queuing),
    }
}

/// For the proof: what holds of all channels.
fn look_at(channels: &Channels, chan: u8, kind: Kind)
    requires { HasKind kind chan channels.now }
    ensures { IsTable channels.now }
{
    match kind {
        Kind::Sampling => {
            let _sample = channels.get_sampling(chan);
        }
        Kind::Queuing => {
            let _first = channels.first(chan);
        }
    }
}
