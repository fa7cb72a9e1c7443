//! Scripts, tried by hand.

ghost use Rattle.std.specs.Prelude.{◌≡◌, IfOk, IfSome, length};

use crate::{ScriptFault, ScriptWriter, build_script, read_script};
use std::alloc::{AllocError, Global};
use std::process::Abort;
use std::test::Fail;
use xm_base::{Memory, TICKS};
use xm_conf::{
    Action, Area, Chan, ChanKind, Conf, End, HmTable, Kind, Name, Part, Plan, Port, RawConf,
    Region, Slot, Way,
};

/// The ports of a partition: a destination of a sampling channel and one of a queue, the sources of a queue and a sampling channel, and a
/// second end of the latter, which goes by the lower port.
const ROWS: [PortRow; 5] = [
    (b"a", Kind::Sampling, Way::Destination),
    (b"b", Kind::Queuing, Way::Destination),
    (b"c", Kind::Queuing, Way::Source),
    (b"d", Kind::Sampling, Way::Source),
    (b"e", Kind::Sampling, Way::Destination),
];

/// The ports of its peer.
const PEER: [PortRow; 4] = [
    (b"a", Kind::Sampling, Way::Source),
    (b"b", Kind::Queuing, Way::Source),
    (b"c", Kind::Queuing, Way::Destination),
    (b"d", Kind::Sampling, Way::Destination),
];

type PortRow = (&'static [u8], Kind, Way);

fn ports(alloc: Global, rows: &[PortRow]) -> Result<Vec<Port>, AllocError> {
    let mut ports = Vec::new(alloc);
    for (name, kind, way) in rows {
        if let Some(name) = Name::new(name) {
            ports.push(Port {
                name,
                kind: *kind,
                way: *way,
            })?;
        }
    }
    Ok(ports)
}

fn part(
    alloc: Global,
    name: Name,
    system: bool,
    start: u32,
    rows: &[PortRow],
) -> Result<Part, AllocError> {
    let area = Area {
        start,
        size: 0x1000,
        read_only: false,
    };
    Ok(Part {
        name,
        system,
        console: None,
        need: None,
        trace_mask: 0,
        hm: HmTable {
            actions: [Action::Halt; 12],
            logged: 0,
        },
        areas: Vec::from_array(alloc, [area])?,
        ports: ports(alloc, rows)?,
    })
}

fn chan(
    alloc: Global,
    kind: ChanKind,
    port: u8,
    source: u8,
    dests: &[End],
) -> Result<Chan, AllocError> {
    Ok(Chan {
        kind,
        length: 8,
        source: End { part: source, port },
        dests: Vec::from_slice(alloc, dests)?,
    })
}

fn end(part: u8, port: u8) -> End {
    End { part, port }
}

/// A system partition and its peer, with four channels between them.
fn conf(alloc: Global) -> Result<Option<Conf>, AllocError>
    ensures { IfOk result (λ conf. IfSome conf (λ c. length c.parts ≡ 2)) }
{
    let (Some(first), Some(second)) = (Name::new(b"A"), Name::new(b"B")) else {
        return Ok(None);
    };
    let region = Region {
        start: 0x4000_0000,
        size: 0x0040_0000,
    };
    let slot = Slot {
        start: 0,
        duration: 1000,
        part: 0,
    };
    let plan = Plan {
        frame: 1000,
        slots: Vec::from_array(alloc, [slot])?,
    };
    let parts = [
        part(alloc, first, true, 0x4010_0000, &ROWS)?,
        part(alloc, second, false, 0x4020_0000, &PEER)?,
    ];
    let raw = RawConf {
        name: first,
        regions: Vec::from_array(alloc, [region])?,
        hv_size: 0x1000,
        uarts: Vec::new(alloc),
        plans: Vec::from_array(alloc, [plan])?,
        parts: Vec::from_array(alloc, parts)?,
        chans: chans(alloc)?,
        links: Vec::new(alloc),
    };
    Ok(Conf::new(raw).ok())
}

/// Its channels: two from partition 1 to partition 0, one back, and one from partition 0 to both.
fn chans(alloc: Global) -> Result<Vec<Chan>, AllocError> {
    let chans = [
        chan(
            alloc,
            ChanKind::Sampling { refresh: 1000 },
            0,
            1,
            &[end(0, 0)],
        )?,
        chan(alloc, ChanKind::Queuing { most: 2 }, 1, 1, &[end(0, 1)])?,
        chan(alloc, ChanKind::Queuing { most: 2 }, 2, 0, &[end(1, 2)])?,
        chan(
            alloc,
            ChanKind::Sampling { refresh: 1000 },
            3,
            0,
            &[end(1, 3), end(0, 4)],
        )?,
    ];
    Ok(Vec::from_array(alloc, chans)?)
}

/// A script with two cues away, a warm reset and one more cue away, for partition 1.
const RESET: [u8; 31] =
    *b"XMSC\x00\x01\x01\x00\x00\x00\x00\x00\x00\x00\x04\x00\x00\x00\x00\x02\x02\x00\x00\x00\x02\x00\x00\x00\x00\x00\x01";

/// A script with each kind of part, for partition 0.
const ALL: &[u8] = b"XMSC\x00\x01\x00\x00\x00\x00\x00\x00\x00\x00\x0b\
\x02\x02\x00\x00\x00\x00\
\x02\x00\x01\x00\x00\x03abc\x00\x00\x00\
\x02\x00\x01\x01\x00\x01d\x02\x00\x00\
\x02\x00\x02\x02\x03\x00\x00\
\x02\x00\x00\x05\x00\x00\x00\x07\x00\x00\
\x02\x00\x00\x06\xff\xff\xff\xff\x01\x00\
\x02\x01\x00\x00\x00\x01\
\x02\x01\x00\x00\x00\x02\x04\x01\x02\x03\x04\
\x01\x00\x00\x00\x01\
\x00\x00\x00\x00\x01\
\x02\x00\x00\x04\x03\x00";

/// The longest script, of cues that are alike.
const LONGEST: &[u8] = b"XMSC\x00\x01\x00\x00\x00\x00\x00\xee\x6b\x28\x00\x01\xee\x6b\x28\x00";

/// The same number of cues in entries that change twice.
const THREE: &[u8] =
    b"XMSC\x00\x01\x00\x00\x00\x00\x00\xee\x6b\x28\x00\x01\x00\x00\x00\x05\x00\xee\x6b\x27\xfa\x01\x00\x00\x00\x01";

/// Pieces that are written at once, each whose running slot it is and how many cues, with the file of the script.
const PIECES: [([(bool, u32); 4], &[u8]); 3] = [
    ([(false, 0), (true, 0), (false, 0), (true, 0)], EMPTY),
    (
        [(false, 0), (true, 1), (true, 3_999_999_998), (true, 1)],
        LONGEST,
    ),
    (
        [(true, 2), (true, 3), (false, 3_999_999_994), (true, 1)],
        THREE,
    ),
];

/// A message into the channel with two ends in partition 0.
const LOOPED: &[u8] =
    b"XMSC\x00\x01\x00\x00\x00\x00\x00\x00\x00\x00\x01\x02\x00\x01\x03\x00\x01z\x00\x00\x00";

/// A script of no cue.
const EMPTY: &[u8] = b"XMSC\x00\x01\x00\x00\x00\x00\x00\x00\x00\x00\x00";

/// Scripts, each with its partition and its number of cues.
const SCRIPTS: [(u8, &[u8], u32); 5] = [
    (1, &RESET, 4),
    (0, ALL, 11),
    (0, LONGEST, 4_000_000_000),
    (0, LOOPED, 1),
    (0, EMPTY, 0),
];

/// What comes after the head of a script of two cues for partition 0, and its first fault.
const FAULTS: [(&[u8], ScriptFault); 32] = [
    (b"\x03", ScriptFault::Field { at: 15 }),
    (b"", ScriptFault::Short { at: 15 }),
    (b"\x00\x00\x00\x00\x00", ScriptFault::Field { at: 16 }),
    (b"\x01\x00\x00\x00\x03", ScriptFault::Field { at: 16 }),
    (b"\x01\x00\x00\x00", ScriptFault::Short { at: 16 }),
    (b"\x00\x00\x00\x00\x01\x00", ScriptFault::Field { at: 20 }),
    (b"\x01\x00\x00\x00\x01\x01", ScriptFault::Field { at: 20 }),
    (b"\x02\x03", ScriptFault::Field { at: 16 }),
    (b"\x02\x00\x04", ScriptFault::Field { at: 17 }),
    (b"\x02\x01\x01", ScriptFault::Field { at: 17 }),
    (b"\x02\x00\x01\x02", ScriptFault::Field { at: 18 }),
    (b"\x02\x00\x01\x04", ScriptFault::Field { at: 18 }),
    (b"\x02\x00\x01\x05", ScriptFault::Field { at: 18 }),
    (b"\x02\x00\x01\x03\x00\x09", ScriptFault::Field { at: 19 }),
    (b"\x02\x00\x01\x00\x00\x00", ScriptFault::Field { at: 19 }),
    (b"\x02\x00\x01\x00\x00\x09", ScriptFault::Field { at: 19 }),
    (
        b"\x02\x00\x01\x00\x00\x08abcdefg",
        ScriptFault::Short { at: 21 },
    ),
    (b"\x02\x00\x02\x01", ScriptFault::Field { at: 18 }),
    (b"\x02\x00\x02\x03", ScriptFault::Field { at: 18 }),
    (b"\x02\x00\x03\x00", ScriptFault::Field { at: 18 }),
    (b"\x02\x00\x03", ScriptFault::Short { at: 18 }),
    (b"\x02\x02\x00\x01", ScriptFault::Field { at: 18 }),
    (b"\x02\x00\x00\x07", ScriptFault::Field { at: 18 }),
    (
        b"\x02\x00\x00\x05\x00\x00\x00",
        ScriptFault::Short { at: 19 },
    ),
    (b"\x02\x00\x00\x00\x04", ScriptFault::Field { at: 19 }),
    (b"\x02\x00\x00\x00\x03", ScriptFault::Field { at: 19 }),
    (b"\x02\x00\x00\x00\x01\x01", ScriptFault::Field { at: 20 }),
    (b"\x02\x01\x00\x00\x00\x03", ScriptFault::Field { at: 20 }),
    (
        b"\x02\x01\x00\x00\x00\x02\x05",
        ScriptFault::Field { at: 21 },
    ),
    (b"\x02\x00\x00\x00\x00\x00", ScriptFault::Field { at: 15 }),
    (b"\x02\x01\x00\x00\x00\x00", ScriptFault::Field { at: 15 }),
    (
        b"\x00\x00\x00\x00\x02\xff",
        ScriptFault::Trailing { at: 20 },
    ),
];

/// Heads that are refused for partition 0.
const HEADS: [(&[u8], ScriptFault); 8] = [
    (b"XMS", ScriptFault::Short { at: 0 }),
    (b"XMSD", ScriptFault::Magic),
    (b"XMSC\x00", ScriptFault::Short { at: 4 }),
    (b"XMSC\x00\x02", ScriptFault::Version { found: 2 }),
    (b"XMSC\x00\x01", ScriptFault::Short { at: 6 }),
    (b"XMSC\x00\x01\x01", ScriptFault::Field { at: 6 }),
    (
        b"XMSC\x00\x01\x00\x00\x00\x00\x00\xee\x6b\x28",
        ScriptFault::Short { at: 7 },
    ),
    (
        b"XMSC\x00\x01\x00\x00\x00\x00\x00\xee\x6b\x28\x01",
        ScriptFault::Field { at: 7 },
    ),
];

#[test]
fn what_is_read_is_written_again(rt: HostRuntime) -> Result<(), Fail> {
    let conf = conf(rt.alloc())?.expect(&rt, "a configuration");
    for (p, bytes, count) in SCRIPTS {
        match read_script(rt.alloc(), &conf, p, bytes) {
            Ok(script) => {
                assert_eq!(rt; script.count(), count);
                let file = build_script(rt.alloc(), p, &script)?;
                assert!(rt; file.as_slice() == bytes);
            }
            Err(_) => assert!(rt; false),
        }
    }
    Ok(())
}

/// A script of these pieces, but for those that go past the limit of ticks.
fn written(alloc: Global, pieces: [(bool, u32); 4]) -> Result<ScriptWriter, Memory> {
    let mut writer = ScriptWriter::new(alloc);
    for (own, count) in pieces {
        if u64::from(writer.cues()) + u64::from(count) <= TICKS {
            writer.add_alike(own, count)?;
        }
    }
    Ok(writer)
}

#[test]
fn plain_cues_are_written_at_once(rt: HostRuntime) -> Result<(), Fail> {
    for (pieces, bytes) in PIECES {
        let writer = written(rt.alloc(), pieces)?;
        match writer.finish(rt.alloc(), 0) {
            Ok(file) => assert!(rt; file.as_slice() == bytes),
            Err(_) => assert!(rt; false),
        }
    }
    Ok(())
}

#[test]
fn the_first_fault_is_reported(rt: HostRuntime) -> Result<(), Fail> {
    let conf = conf(rt.alloc())?.expect(&rt, "a configuration");
    for (bytes, fault) in HEADS {
        assert!(rt; read_script(rt.alloc(), &conf, 0, bytes).err() == Some(fault));
    }
    for (bytes, fault) in FAULTS {
        let mut file = Vec::from_slice(rt.alloc(), EMPTY)?;
        file.pop();
        file.push(2)?;
        file.extend_from_slice(bytes)?;
        assert!(rt; read_script(rt.alloc(), &conf, 0, &file).err() == Some(fault));
    }
    Ok(())
}

#[test]
fn a_partition_that_is_not_system_sees_nothing(rt: HostRuntime) -> Result<(), Fail> {
    let conf = conf(rt.alloc())?.expect(&rt, "a configuration");
    let bytes = b"XMSC\x00\x01\x01\x00\x00\x00\x00\x00\x00\x00\x01\x02\x01\x00\x00\x00\x01";
    assert!(rt;
        read_script(rt.alloc(), &conf, 1, bytes).err() == Some(ScriptFault::Field { at: 20 })
    );
    Ok(())
}

#[test]
fn a_script_that_is_cut_is_short(rt: HostRuntime) -> Result<(), Fail> {
    let conf = conf(rt.alloc())?.expect(&rt, "a configuration");
    for cut in 0..ALL.len() {
        match read_script(rt.alloc(), &conf, 0, &ALL[..cut]) {
            Err(ScriptFault::Short { at }) => assert!(rt; at <= cut),
            _ => assert!(rt; false),
        }
    }
    let cut = read_script(rt.alloc(), &conf, 1, &RESET[..30]);
    assert!(rt; cut.err() == Some(ScriptFault::Short { at: 27 }));
    let other = read_script(rt.alloc(), &conf, 0, &RESET);
    assert!(rt; other.err() == Some(ScriptFault::Field { at: 6 }));
    Ok(())
}
