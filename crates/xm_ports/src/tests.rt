//! Messages and ports, tried by hand.

ghost use Rattle.std.specs.Prelude.{◌≡◌, IfOk, IfSome, length, map};
ghost use Rattle.xm_ports.specs.Channels.{shape_of, shapes_of};
ghost use Rattle.xm_ports.specs.lemmas.Tried.{AreTried, tried_shapes};

use crate::{Channels, CreateFault, Full, Ports};
use std::alloc::{AllocError, Global};
use std::process::Abort;
use std::test::Fail;
use xm_base::Memory;
use xm_conf::{
    Action, Area, Chan, ChanKind, Conf, End, HmTable, Kind, Name, Part, Plan, Port, RawConf,
    Region, Slot, Way,
};

/// The number of the sampling channel.
const LAST: u8 = 0;

/// The number of the queue.
const QUEUE: u8 = 1;

/// A port: its name, its kind and its way.
type PortRow = (&'static [u8], Kind, Way);

/// The ports of the first partition. The last is the end of no channel.
const SOURCES: [PortRow; 3] = [
    (b"a", Kind::Sampling, Way::Source),
    (b"b", Kind::Queuing, Way::Source),
    (b"c", Kind::Sampling, Way::Source),
];

/// The ports of the second partition.
const DESTINATIONS: [PortRow; 2] = [
    (b"a", Kind::Sampling, Way::Destination),
    (b"b", Kind::Queuing, Way::Destination),
];

fn ports(alloc: Global, rows: &[PortRow]) -> Result<Vec<Port>, AllocError> {
    let mut ports = Vec::new(alloc);
    for (name, kind, way) in rows {
        if let Some(name) = Name::new(name) {
            ports.push(Port {
                name,
                kind: *kind,
                way: *way,
            })?;
        }
    }
    Ok(ports)
}

/// A partition with these ports, and one page of memory.
fn part(alloc: Global, name: Name, start: u32, rows: &[PortRow]) -> Result<Part, AllocError> {
    let area = Area {
        start,
        size: 0x1000,
        read_only: false,
    };
    Ok(Part {
        name,
        system: false,
        console: None,
        need: None,
        trace_mask: 0,
        hm: HmTable {
            actions: [Action::Halt; 12],
            logged: 0,
        },
        areas: Vec::from_array(alloc, [area])?,
        ports: ports(alloc, rows)?,
    })
}

/// A channel from a port of the first partition to the same port of the second.
fn chan(alloc: Global, kind: ChanKind, port: u8) -> Result<Chan, AllocError>
    ensures { IfOk result (λ chan. shape_of chan ≡ record { kind = kind; length = 8 }) }
{
    Ok(Chan {
        kind,
        length: 8,
        source: End { part: 0, port },
        dests: Vec::from_array(alloc, [End { part: 1, port }])?,
    })
}

/// A sampling channel, and a queue of two messages, each of at most 8 bytes.
fn chans(alloc: Global) -> Result<Vec<Chan>, AllocError>
    ensures { IfOk result (λ chans. map shape_of chans.items ≡ tried_shapes) }
{
    let last = chan(alloc, ChanKind::Sampling { refresh: 1000 }, 0)?;
    let queue = chan(alloc, ChanKind::Queuing { most: 2 }, 1)?;
    Ok(Vec::from_array(alloc, [last, queue])?)
}

/// Two partitions with these channels.
#[tactic(auto, unfolding(crate::specs::Channels::shapes_of))]
fn conf(alloc: Global) -> Result<Option<Conf>, AllocError>
    ensures shapes { IfOk result (λ conf. IfSome conf (λ c. shapes_of c ≡ tried_shapes)) }
    ensures parts { IfOk result (λ conf. IfSome conf (λ c. length c.parts ≡ 2)) }
{
    let (Some(first), Some(second)) = (Name::new(b"A"), Name::new(b"B")) else {
        return Ok(None);
    };
    let region = Region {
        start: 0x4000_0000,
        size: 0x0040_0000,
    };
    let slot = Slot {
        start: 0,
        duration: 1000,
        part: 0,
    };
    let plan = Plan {
        frame: 1000,
        slots: Vec::from_array(alloc, [slot])?,
    };
    let parts = [
        part(alloc, first, 0x4010_0000, &SOURCES)?,
        part(alloc, second, 0x4020_0000, &DESTINATIONS)?,
    ];
    let raw = RawConf {
        name: first,
        regions: Vec::from_array(alloc, [region])?,
        hv_size: 0x1000,
        uarts: Vec::new(alloc),
        plans: Vec::from_array(alloc, [plan])?,
        parts: Vec::from_array(alloc, parts)?,
        chans: chans(alloc)?,
        links: Vec::new(alloc),
    };
    Ok(Conf::new(raw).ok())
}

/// An order to make a port: name, kind, way, length and number of messages, and what it answers.
type Order = (&'static [u8], Kind, u32, u32, u32, Result<u8, CreateFault>);

const ORDERS: [Order; 14] = [
    (b"x", Kind::Sampling, 0, 8, 0, Err(CreateFault::NoPort)),
    (b"a", Kind::Queuing, 0, 8, 2, Err(CreateFault::NoPort)),
    (b"a", Kind::Sampling, 1, 8, 0, Err(CreateFault::Differs)),
    (b"a", Kind::Sampling, 2, 8, 0, Err(CreateFault::Differs)),
    (b"a", Kind::Sampling, 0, 7, 0, Err(CreateFault::Differs)),
    (b"b", Kind::Queuing, 0, 8, 1, Err(CreateFault::Differs)),
    (b"c", Kind::Sampling, 1, 8, 0, Err(CreateFault::Differs)),
    (b"c", Kind::Sampling, 0, 99, 5, Err(CreateFault::NoChannel)),
    (b"a", Kind::Sampling, 0, 8, 77, Ok(0)),
    (b"a", Kind::Sampling, 0, 8, 0, Err(CreateFault::Already)),
    (b"a", Kind::Sampling, 0, 9, 0, Err(CreateFault::Differs)),
    (b"b", Kind::Queuing, 0, 8, 2, Ok(1)),
    (b"b", Kind::Queuing, 0, 8, 2, Err(CreateFault::Already)),
    (b"b", Kind::Queuing, 1, 8, 2, Err(CreateFault::Differs)),
];

#[test]
fn a_port_is_made_once_where_it_fits(rt: HostRuntime) -> Result<(), Fail> {
    let conf = conf(rt.alloc())?.expect(&rt, "a configuration");
    let mut ports = Ports::new();
    for (name, kind, way, length, most, answer) in ORDERS {
        assert!(rt; ports.create(&conf, 0, name, kind, way, length, most) == answer);
    }
    for (port, made) in [
        (0, true),
        (1, true),
        (2, false),
        (31, false),
        (32, false),
        (255, false),
    ] {
        assert!(rt; ports.is_made(port) == made);
    }
    Ok(())
}

/// The channels, without a message.
fn tried(rt: &impl Abort, alloc: Global) -> Result<Channels, Memory>
    ensures tried { IfOk result AreTried }
{
    let conf = conf(alloc)?.expect(rt, "a configuration");
    Channels::new(alloc, &conf)
}

/// A call on the channels, and what it gives.
#[derive(Drop)]
enum Call {
    /// A message is sent to the queue.
    Send(&'static [u8], Result<(), Full>),
    /// The first message of the queue is taken: how many bytes it has, and what is in the buffer then.
    Receive(Option<usize>, [u8; 8]),
    /// How many messages wait, and the first of them.
    Wait(usize, Option<&'static [u8]>),
    /// A message is written to the sampling channel at a time.
    Put(&'static [u8], u64),
    /// The message that the sampling channel holds, with its time.
    Hold(Option<(u64, &'static [u8])>),
    /// The first message of the queue is dropped.
    Drop,
    /// All messages are dropped.
    Clear,
}

const CALLS: [Call; 40] = [
    Call::Receive(None, [0; 8]),
    Call::Wait(0, None),
    Call::Send(b"ab", Ok(())),
    Call::Send(b"c", Ok(())),
    Call::Send(b"d", Err(Full)),
    Call::Wait(2, Some(b"ab")),
    Call::Receive(Some(2), *b"ab\0\0\0\0\0\0"),
    Call::Send(b"d", Ok(())),
    Call::Receive(Some(1), *b"cb\0\0\0\0\0\0"),
    Call::Wait(1, Some(b"d")),
    Call::Receive(Some(1), *b"db\0\0\0\0\0\0"),
    Call::Receive(None, *b"db\0\0\0\0\0\0"),
    Call::Wait(0, None),
    Call::Hold(None),
    Call::Put(b"first", 5),
    Call::Hold(Some((5, b"first"))),
    Call::Hold(Some((5, b"first"))),
    Call::Put(b"longest!", 1005),
    Call::Hold(Some((1005, b"longest!"))),
    Call::Put(b"c", 1006),
    Call::Hold(Some((1006, b"c"))),
    Call::Put(b"last", 5),
    Call::Send(b"ab", Ok(())),
    Call::Send(b"c", Ok(())),
    Call::Clear,
    Call::Hold(None),
    Call::Wait(0, None),
    Call::Send(b"d", Ok(())),
    Call::Send(b"e", Ok(())),
    Call::Send(b"f", Err(Full)),
    Call::Wait(2, Some(b"d")),
    Call::Hold(None),
    Call::Drop,
    Call::Wait(1, Some(b"e")),
    Call::Send(b"f", Ok(())),
    Call::Drop,
    Call::Wait(1, Some(b"f")),
    Call::Drop,
    Call::Drop,
    Call::Wait(0, None),
];

/// Whether a message is sent to the queue, with this answer.
fn is_sent(channels: &mut Channels, bytes: &[u8], answer: Result<(), Full>) -> bool
    requires tried { AreTried channels.old }
    ensures tried { AreTried channels.new }
{
    if bytes.is_empty() || bytes.len() > 8 {
        return false;
    }
    channels.send(QUEUE, bytes) == answer
}

/// Whether a message is written to the sampling channel.
fn is_put(channels: &mut Channels, bytes: &[u8], now: u64) -> bool
    requires tried { AreTried channels.old }
    ensures tried { AreTried channels.new }
{
    if bytes.is_empty() || bytes.len() > 8 {
        return false;
    }
    channels.put_sampling(LAST, bytes, now);
    true
}

/// Receives a message from the queue.
fn receive(channels: &mut Channels, into: &mut [u8]) -> Option<usize>
    requires tried { AreTried channels.old }
    requires room { length into.old ≡ 8 }
    ensures tried { AreTried channels.new }
    ensures room { length into.new ≡ 8 }
{
    let waits = channels.first(QUEUE).is_some();
    let count = channels.receive(QUEUE, into);
    if count.is_some() == waits {
        count
    } else {
        None
    }
}

/// Whether this many messages wait, of which this is the first.
fn wait(channels: &Channels, count: usize, bytes: Option<&[u8]>) -> bool
    requires tried { AreTried channels.now }
{
    channels.count(QUEUE) == count && channels.first(QUEUE) == bytes
}

/// Whether the sampling channel holds this message.
fn holds(channels: &Channels, held: Option<(u64, &[u8])>) -> bool
    requires tried { AreTried channels.now }
{
    match (channels.get_sampling(LAST), held) {
        (Some(sample), Some((time, bytes))) => sample.time == time && sample.bytes == bytes,
        (None, None) => true,
        _ => false,
    }
}

/// Whether a call gives what it is to give.
fn is_right(channels: &mut Channels, call: &Call, into: &mut [u8; 8]) -> bool
    requires tried { AreTried channels.old }
    ensures tried { AreTried channels.new }
{
    match call {
        Call::Send(bytes, answer) => is_sent(channels, bytes, *answer),
        Call::Receive(count, left) => receive(channels, into) == *count && *into == *left,
        Call::Wait(count, first) => wait(channels, *count, *first),
        Call::Put(bytes, now) => is_put(channels, bytes, *now),
        Call::Hold(held) => holds(channels, *held),
        Call::Drop => {
            channels.drop_first(QUEUE);
            true
        }
        Call::Clear => {
            channels.clear();
            true
        }
    }
}

#[test]
fn messages_wait_in_order_and_the_last_sample_stays(rt: HostRuntime) -> Result<(), Fail> {
    let mut channels = tried(&rt, rt.alloc())?;
    let mut into = [0; 8];
    for number in 0..CALLS.len() {
        assert!(rt;
            is_right(&mut channels, &CALLS[number], &mut into),
            "call {number}"
        );
    }
    Ok(())
}
