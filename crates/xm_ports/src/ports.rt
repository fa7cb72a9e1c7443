//! The ports that a partition has made.

ghost use Rattle.std.specs.Prelude.{◌≡◌, ◌<◌, ◌≤◌, IfOk, IfSome, IsSome, IsSomeAnd, OnErr, OnOk, length as length_of, option_map, slice_get};
ghost use Rattle.xm_conf.specs.View.{channel_of};
ghost use Rattle.xm_ports.specs.Ports.{IsCalled, IsPort, agrees, agrees_end, agrees_most, created, granted, is_called, are_same_kind, is_made, is_way_of, no_ports, port_with, ports_of, shape_of_port, unless_made, way_number, with_port};
ghost use Rattle.xm_ports.specs.Channels.{shape_of};

use std::marker::Model;
use xm_base::PartId;
use xm_conf::{Chan, ChanKind, Conf, Kind, Port, Way};

/// How many ports a partition has at most.
const PORTS: usize = 32;

/// Why a port is not made.
#[derive(Clone, Copy, Debug, PartialEq, Eq)]
pub enum CreateFault {
    /// The partition has no port of that name and kind.
    NoPort,
    /// The way is not the port's, or the length or the number of messages is not that of its channel.
    Differs,
    /// The port is the end of no channel.
    NoChannel,
    /// The port is made.
    Already,
}

/// Which ports of a partition are made, by their numbers.
#[derive(Debug, Drop)]
pub struct Ports {
    made: [bool; PORTS],
}

impl Model for Ports {
    ghost use Rattle.std.specs.Prelude.{Bool, List};

    ghost Value = { List Bool };

    ghost view = { λ ports. ports.made };
}

impl Ports {
    /// No port is made.
    #[tactic(auto, unfolding(crate::specs::Ports::no_ports))]
    pub fn new() -> Ports
        ensures value { result ≡ no_ports }
    {
        Ports {
            made: [false; PORTS],
        }
    }

    /// The ports of these numbers are made.
    pub fn resumed(made: [bool; PORTS]) -> Ports
        // Exactly these ports are made.
        ensures value { result ≡ made }
    {
        Ports { made }
    }

    /// Whether the port of a number is made. A partition has no port of a number above 31.
    pub fn is_made(&self, port: u8) -> bool
        // Whether the port of a number is, never above 31.
        ensures value { result ≡ is_made port self.now }
        ensures count { length_of self.now ≡ 32 }
    {
        self.made.get(usize::from(port)).copied().unwrap_or(false)
    }

    /// Makes a port of the partition `p`, and gives its number. The way is 0 for a source and 1 for a destination;
    /// `length` is in bytes, and `most`, a number of messages, is looked at for queuing ports alone.
    #[tactic(auto, unfolding(crate::specs::Ports::created, crate::specs::Ports::created_over))]
    pub fn create(
        &mut self,
        conf: &Conf,
        p: PartId,
        name: &[u8],
        kind: Kind,
        way: u32,
        length: u32,
        most: u32,
    ) -> Result<u8, CreateFault>
        // Called for a partition that exists.
        requires { p < length_of conf.now.parts }
        // The port's number, or the first of the four tests that fails; a refusal changes nothing.
        ensures answer { result ≡ created conf.now p name.now kind way length most self.old }
        ensures made { IfOk result (λ port. self.new ≡ with_port port self.old) }
        ensures unchanged { OnErr result (self.new ≡ self.old) }
        ensures port { IfOk result (IsPort conf.now p name.now kind) }
    {
        let Some(port) = port_with(ports_of(conf, p), name, kind) else {
            return Err(CreateFault::NoPort);
        };
        let port = self.grant(conf, p, port, way, length, most)?;
        self.made[usize::from(port)] = true;
        Ok(port)
    }
}

impl Ports {
    /// What an order to make a port of this number answers.
    #[tactic(auto, unfolding(crate::specs::Ports::granted))]
    fn grant(
        &self,
        conf: &Conf,
        p: PartId,
        port: u8,
        way: u32,
        length: u32,
        most: u32,
    ) -> Result<u8, CreateFault>
        requires part { p < length_of conf.now.parts }
        requires port { port < length_of (ports_of (slice_get conf.now.parts p)) }
        ensures answer { result ≡ granted (ports_of (slice_get conf.now.parts p)) (shape_of_port conf.now p) way length most self.now port }
        ensures made { IfOk result (λ made. made ≡ port) }
        ensures end { OnOk result (IsSome (channel_of conf.now p port)) }
    {
        let channel = chan_of(conf, p, port);
        if !is_way_of(ports_of(conf, p), port, way) || !agrees_end(channel, length, most) {
            return Err(CreateFault::Differs);
        }
        match channel {
            None => Err(CreateFault::NoChannel),
            Some(_) => self.unless_made(port),
        }
    }

    /// The port's number, where it is not made.
    fn unless_made(&self, port: u8) -> Result<u8, CreateFault>
        ensures answer { result ≡ unless_made (is_made port self.now) port }
        ensures made { IfOk result (λ made. made ≡ port) }
    {
        if self.is_made(port) {
            return Err(CreateFault::Already);
        }
        Ok(port)
    }
}

/// The ports of a partition.
#[tactic(auto, unfolding(xm_conf::specs::Description::described))]
fn ports_of(conf: &Conf, p: PartId) -> &[Port]
    requires { p < length_of conf.now.parts }
    ensures value { result.now ≡ ports_of (slice_get conf.now.parts p) }
    ensures few { length_of result.now ≤ 32 }
{
    let part = &conf.raw().parts[usize::from(p)];
    &part.ports
}

/// The number of the first port with that name and kind.
fn port_with(ports: &[Port], name: &[u8], kind: Kind) -> Option<u8>
    requires { length_of ports.now ≤ 32 }
    ensures value { result ≡ port_with name.now kind ports.now }
    ensures found { IfSome result (λ port. IsSomeAnd (slice_get ports.now port) (IsCalled name.now kind)) }
{
    match place_with(ports, name, kind) {
        Some(port) => Some(port as u8),
        None => None,
    }
}

/// The place of the first port with that name and kind.
#[tactic(auto, unfolding(crate::specs::Ports::port_with))]
fn place_with(ports: &[Port], name: &[u8], kind: Kind) -> Option<usize>
    ensures value { result ≡ port_with name.now kind ports.now }
    ensures within { IfSome result (λ port. port < length_of ports.now) }
{
    ports.iter().position(|port| is_called(port, name, kind))
}

/// Whether a port has that name and kind.
#[tactic(auto, unfolding(crate::specs::Ports::is_called))]
fn is_called(port: &Port, name: &[u8], kind: Kind) -> bool
    ensures { result ≡ is_called name.now kind port.now }
{
    port.name.bytes() == name && is_kind(port.kind, kind)
}

/// Whether two kinds are one.
fn is_kind(a: Kind, b: Kind) -> bool
    ensures { result ≡ are_same_kind a b }
{
    match a {
        Kind::Sampling => matches!(b, Kind::Sampling),
        Kind::Queuing => matches!(b, Kind::Queuing),
    }
}

/// Whether a number is that of a port's way.
fn is_way_of(ports: &[Port], port: u8, way: u32) -> bool
    requires { port < length_of ports.now }
    ensures { result ≡ is_way_of way (slice_get ports.now port) }
{
    way == way_number(ports[usize::from(port)].way)
}

/// The number of a way in a call.
fn way_number(way: Way) -> u32
    ensures { result ≡ way_number way }
{
    match way {
        Way::Source => 0,
        Way::Destination => 1,
    }
}

/// The channel that has a port of a partition as an end, where there is one.
#[tactic(auto, unfolding(crate::specs::Ports::shape_of_port))]
fn chan_of(conf: &Conf, p: PartId, port: u8) -> Option<&Chan>
    ensures shape { option_map (λ chan. shape_of chan.now) result ≡ shape_of_port conf.now p port }
    ensures end { IsSome result → IsSome (channel_of conf.now p port) }
{
    match conf.channel_of(p, port) {
        Some(c) => Some(&conf.raw().chans[usize::from(c)]),
        None => None,
    }
}

/// Whether a length and a number of messages are those of a channel, where there is one.
fn agrees_end(channel: Option<&Chan>, length: u32, most: u32) -> bool
    ensures { result ≡ agrees_end length most (option_map (λ chan. shape_of chan.now) channel.entry) }
{
    match channel {
        Some(chan) => agrees(chan, length, most),
        None => true,
    }
}

/// Whether a length is a channel's, and for a queue the number of messages, too.
#[tactic(auto, unfolding(crate::specs::Ports::agrees))]
fn agrees(chan: &Chan, length: u32, most: u32) -> bool
    ensures { result ≡ agrees length most (shape_of chan.now) }
{
    length == u32::from(chan.length) && agrees_most(chan.kind, most)
}

/// Whether a number of messages is that of a kind of channel; for a sampling channel each is.
fn agrees_most(kind: ChanKind, most: u32) -> bool
    ensures { result ≡ agrees_most most kind }
{
    match kind {
        ChanKind::Sampling { refresh: _ } => true,
        ChanKind::Queuing { most: stated } => most == u32::from(stated),
    }
}
