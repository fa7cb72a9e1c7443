//! A saved machine goes on where memory is ample: its logs, its channels and its input words are there.

ghost use Rattle.std.specs.Prelude.{◌≡◌, IfOk, IfSome, length};

use crate::restore;
use guest_memory::Ram;
use loaded_system::System;
use saved_machines::{Saved, read_machine};
use std::alloc::{AllocError, Global};
use std::process::Abort;
use std::test::Fail;
use xef_images::{Segment, Xef};
use xm_base::Memory;
use xm_conf::{
    Action, Area, Chan, ChanKind, Conf, End, HmTable, Kind, Name, Part, Plan, Port, RawConf,
    Region, Slot, Way,
};

/// Bytes of a file, and how many zeros stand before them.
type Run = (usize, &'static [u8]);

/// The file of a machine after 90 ticks, as the second simulator (examples/model) saves it. Its partition has two traces,
/// a health event, a message in a sampling channel, a queue that is full, and two of three input words left.
const FILE: [Run; 22] = [
    (
        0,
        b"XMSM\0\x01\0\0\x0f\x04\0\x01\x02\x03\x04\x05\x06\x07\x08\x09\x0a\x0b\x0c\x0d\x0e\x0f",
    ),
    (7, b"Z"),
    (7, b"Z"),
    (16, b"\x01"),
    (7, b"\x12\0\x05abcde\x02\0\x08abcdefgh\0\x01a"),
    (17, b"Z@\x10\0\xc0@\x10\0\xc4"),
    (5, b"\x07"),
    (9, b" \xff\xff\xff\xff"),
    (37, b"\x02\0\0\0\x03"),
    (484, b"@\x10\x10\x10@\x10\x10\x04\0\0\0\x01"),
    (55, b"\x02"),
    (7, b"#\0\0\0\x01"),
    (4, b"abcdefgh"),
    (7, b"(\0\0\0\x02\0\0\0\x01abcdefgh"),
    (1495, b"\x01"),
    (7, b"+"),
    (11, b"\x05"),
    (1263, b"\x02\0\0\0\x03\0\0\0\x01@\x10\x10"),
    (5, b"abcdefgh"),
    (7, b"\x01"),
    (68, b"a\0b\0c\0d"),
    (165, b"\xc7\x19\x0f\xb6j7 9\xcdd\x0f\x82\x0e\xb0U\x22"),
];

/// The digest of the container that it names.
const CONTAINER: [u8; 16] = [0, 1, 2, 3, 4, 5, 6, 7, 8, 9, 10, 11, 12, 13, 14, 15];

/// The bytes of the file.
fn file(alloc: Global) -> Result<Vec<u8>, AllocError> {
    let mut bytes = Vec::new(alloc);
    for (zeros, run) in FILE {
        put_zeros(&mut bytes, zeros)?;
        bytes.extend_from_slice(run)?;
    }
    Ok(bytes)
}

/// Puts this many zeros.
fn put_zeros(bytes: &mut Vec<u8>, zeros: usize) -> Result<(), AllocError> {
    for _ in 0..zeros {
        bytes.push(0)?;
    }
    Ok(())
}

/// The ports of the partition: their names, kinds and ways.
const PORTS: [(&[u8], Kind, Way); 4] = [
    (b"a", Kind::Sampling, Way::Source),
    (b"b", Kind::Queuing, Way::Source),
    (b"c", Kind::Sampling, Way::Destination),
    (b"d", Kind::Queuing, Way::Destination),
];

/// Its areas.
const AREAS: [Area; 2] = [
    Area {
        start: 0x4010_0000,
        size: 0x4000,
        read_only: false,
    },
    Area {
        start: 0x4010_4000,
        size: 0x1000,
        read_only: true,
    },
];

fn ports(alloc: Global) -> Result<Vec<Port>, AllocError> {
    let mut ports = Vec::new(alloc);
    for (name, kind, way) in PORTS {
        if let Some(name) = Name::new(name) {
            ports.push(Port { name, kind, way })?;
        }
    }
    Ok(ports)
}

fn part(alloc: Global, name: Name) -> Result<Part, AllocError> {
    Ok(Part {
        name,
        system: false,
        console: None,
        need: None,
        trace_mask: 0,
        hm: HmTable {
            actions: [Action::Halt; 12],
            logged: 0,
        },
        areas: Vec::from_slice(alloc, &AREAS)?,
        ports: ports(alloc)?,
    })
}

/// A channel from a port to another.
fn chan(alloc: Global, kind: ChanKind, source: u8, dest: u8) -> Result<Chan, AllocError> {
    Ok(Chan {
        kind,
        length: 8,
        source: End {
            part: 0,
            port: source,
        },
        dests: Vec::from_array(
            alloc,
            [End {
                part: 0,
                port: dest,
            }],
        )?,
    })
}

/// The configuration: one partition, a sampling channel, and a queue of two messages.
fn conf(alloc: Global) -> Result<Option<Conf>, AllocError>
    ensures { IfOk result (λ conf. IfSome conf (λ c. length c.parts ≡ 1)) }
{
    let Some(name) = Name::new(b"A") else {
        return Ok(None);
    };
    let region = Region {
        start: 0x4000_0000,
        size: 0x0040_0000,
    };
    let slot = Slot {
        start: 0,
        duration: 1000,
        part: 0,
    };
    let plan = Plan {
        frame: 1000,
        slots: Vec::from_array(alloc, [slot])?,
    };
    let chans = [
        chan(alloc, ChanKind::Sampling { refresh: 700 }, 0, 2)?,
        chan(alloc, ChanKind::Queuing { most: 2 }, 1, 3)?,
    ];
    let raw = RawConf {
        name,
        regions: Vec::from_array(alloc, [region])?,
        hv_size: 0x1000,
        uarts: Vec::new(alloc),
        plans: Vec::from_array(alloc, [plan])?,
        parts: Vec::from_array(alloc, [part(alloc, name)?])?,
        chans: Vec::from_array(alloc, chans)?,
        links: Vec::new(alloc),
    };
    Ok(Conf::new(raw).ok())
}

/// The image of the partition: a word at the beginning of its first area.
fn image(alloc: Global) -> Result<Option<Xef>, AllocError> {
    let segment = Segment {
        address: 0x4010_0000,
        memory: 4,
        bytes: Vec::from_slice(alloc, &[0x10, 0x80, 0, 0])?,
    };
    let segments = Vec::from_array(alloc, [segment])?;
    Ok(Xef::new(0x4010_0000, segments))
}

fn system(rt: &impl Abort, alloc: Global) -> Result<System, AllocError> {
    let conf = conf(alloc)?.expect(rt, "a configuration");
    let image = image(alloc)?.expect(rt, "an image");
    let images = Vec::from_array(alloc, [image])?;
    Ok(System::new(conf, images).ok().expect(rt, "a system"))
}

#[test]
fn a_saved_machine_goes_on(rt: HostRuntime) -> Result<(), Fail> {
    let system = system(&rt, rt.alloc())?;
    let loaded = Ram::new(rt.alloc(), system.conf())?;
    let bytes = file(rt.alloc())?;
    let saved = read_machine(rt.alloc(), system.conf(), &loaded, CONTAINER, &bytes);
    let saved = saved.ok().expect(&rt, "a saved machine");
    let sys = restore(rt.alloc(), system, &saved)?;
    assert!(rt; sys.count() == 1);
    assert_eq!(rt; sys.ticks(), 90);
    assert_eq!(rt; sys.part(0).traces.counts().next, 2);
    assert_eq!(rt; sys.part(0).health.counts().next, 1);
    assert_eq!(rt; sys.input(0, 0), Some(2));
    assert_eq!(rt; sys.input(0, 2), None);
    Ok(())
}
