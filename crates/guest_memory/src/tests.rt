//! Two partitions and their memories, at the edges of their areas.

ghost use Rattle.std.specs.Prelude.{◌≡◌, ◌<◌, IfOk, IfSome, length, map};
ghost use Rattle.guest_memory.specs.Loading.{memory_areas};

use crate::{Outside, Ram};
use guest_bus::{Bus, BusFault, Size};
use loaded_system::System;
use std::alloc::{AllocError, Global};
use std::process::Abort;
use std::test::Fail;
use xef_images::{Segment, Xef};
use xm_base::{Memory, PartId};
use xm_conf::{Action, Area, Conf, HmTable, Name, Part, Plan, RawConf, Region, Slot};

/// The areas of the first partition: two side by side, and one after them that may only be read.
const FIRST: [Area; 3] = [
    Area {
        start: 0x4010_0000,
        size: 0x1000,
        read_only: false,
    },
    Area {
        start: 0x4010_1000,
        size: 0x1000,
        read_only: false,
    },
    Area {
        start: 0x4010_2000,
        size: 0x1000,
        read_only: true,
    },
];

/// The areas of the second partition: one that begins where the first partition's end, and the last page of all.
const SECOND: [Area; 2] = [
    Area {
        start: 0x4010_3000,
        size: 0x1000,
        read_only: false,
    },
    Area {
        start: 0xffff_f000,
        size: 0x1000,
        read_only: false,
    },
];

/// A partition with these areas.
fn part(alloc: Global, name: Name, areas: &[Area]) -> Result<Part, AllocError> {
    Ok(Part {
        name,
        system: false,
        console: None,
        need: None,
        trace_mask: 0,
        hm: HmTable {
            actions: [Action::Halt; 12],
            logged: 0,
        },
        areas: Vec::from_slice(alloc, areas)?,
        ports: Vec::new(alloc),
    })
}

/// The configuration of the two partitions.
fn conf(alloc: Global) -> Result<Option<Conf>, AllocError>
    ensures { IfOk result (λ conf. IfSome conf (λ c. length c.parts ≡ 2)) }
{
    let (Some(first), Some(second)) = (Name::new(b"A"), Name::new(b"B")) else {
        return Ok(None);
    };
    let regions = [
        Region {
            start: 0x4000_0000,
            size: 0x0040_0000,
        },
        Region {
            start: 0xffff_f000,
            size: 0x1000,
        },
    ];
    let slot = Slot {
        start: 0,
        duration: 1000,
        part: 0,
    };
    let plan = Plan {
        frame: 1000,
        slots: Vec::from_array(alloc, [slot])?,
    };
    let parts = [part(alloc, first, &FIRST)?, part(alloc, second, &SECOND)?];
    let raw = RawConf {
        name: first,
        regions: Vec::from_array(alloc, regions)?,
        hv_size: 0x1000,
        uarts: Vec::new(alloc),
        plans: Vec::from_array(alloc, [plan])?,
        parts: Vec::from_array(alloc, parts)?,
        chans: Vec::new(alloc),
        links: Vec::new(alloc),
    };
    Ok(Conf::new(raw).ok())
}

/// The memories of the two partitions.
fn fresh(rt: &impl Abort, alloc: Global) -> Result<Ram, Memory>
    ensures { IfOk result (λ ram. length ram.areas ≡ 2) }
{
    let conf = conf(alloc)?.expect(rt, "a configuration");
    fresh_of(alloc, &conf)
}

/// The memories of two partitions.
fn fresh_of(alloc: Global, conf: &Conf) -> Result<Ram, Memory>
    requires { length conf.now.parts ≡ 2 }
    ensures { IfOk result (λ ram. length ram.areas ≡ 2) }
{
    Ram::new(alloc, conf)
}

/// The edges of the first partition's areas: an address, a size, and what a load and a store there answer.
const EDGES: [(u32, Size, Result<u64, BusFault>, Result<(), BusFault>); 9] = [
    (0x4010_0000, Size::Eight, Ok(0), Ok(())),
    (0x4010_1ffc, Size::Four, Ok(0), Ok(())),
    (0x4010_1fff, Size::One, Ok(0), Ok(())),
    (
        0x4010_1fff,
        Size::Four,
        Err(BusFault::Unaligned),
        Err(BusFault::Unaligned),
    ),
    (0x4010_2000, Size::Two, Ok(0), Err(BusFault::Outside)),
    (0x4010_2fff, Size::One, Ok(0), Err(BusFault::Outside)),
    // The first byte of the second partition.
    (
        0x4010_3000,
        Size::One,
        Err(BusFault::Outside),
        Err(BusFault::Outside),
    ),
    (
        0x400f_fff8,
        Size::Eight,
        Err(BusFault::Outside),
        Err(BusFault::Outside),
    ),
    (
        0xffff_fff8,
        Size::Eight,
        Err(BusFault::Outside),
        Err(BusFault::Outside),
    ),
];

/// A value whose eight bytes differ, and what is there when it was stored in a size: the value that a load of this
/// size gives, and all eight bytes from the address on.
const STORED: [(Size, u64, u64); 4] = [
    (Size::One, 0x88, 0x8800_0000_0000_0000),
    (Size::Two, 0x7788, 0x7788_0000_0000_0000),
    (Size::Four, 0x5566_7788, 0x5566_7788_0000_0000),
    (Size::Eight, 0x1122_3344_5566_7788, 0x1122_3344_5566_7788),
];

#[test]
fn a_processor_loads_and_stores_within_areas(rt: HostRuntime) -> Result<(), Fail> {
    let mut ram = fresh(&rt, rt.alloc())?;
    for (address, size, load, store) in EDGES {
        assert_eq!(rt; ram.load(address, size), load, "load at {address}");
        assert_eq!(rt; ram.store(address, size, 0), store, "store at {address}");
    }
    assert_eq!(rt; ram.fetch(0x4010_2ffc), Ok(0));
    assert_eq!(rt; ram.fetch(0x4010_3000), Err(BusFault::Outside));
    assert_eq!(rt; ram.fetch(0x4010_0002), Err(BusFault::Unaligned));
    for (size, value, eight) in STORED {
        let mut ram = fresh(&rt, rt.alloc())?;
        let bytes = size.bytes();
        assert_eq!(rt; ram.store(0x4010_0ff8, size, 0x1122_3344_5566_7788), Ok(()));
        assert_eq!(rt; ram.load(0x4010_0ff8, size), Ok(value), "{bytes} bytes");
        assert_eq!(rt;
            ram.load(0x4010_0ff8, Size::Eight),
            Ok(eight),
            "{bytes} bytes"
        );
        assert_eq!(rt;
            ram.fetch(0x4010_0ff8),
            Ok((eight >> 32) as u32),
            "{bytes} bytes"
        );
        // The bytes before, and those after, which are the next area's.
        assert_eq!(rt;
            ram.load(0x4010_0ff0, Size::Eight),
            Ok(0),
            "before {bytes} bytes"
        );
        assert_eq!(rt;
            ram.load(0x4010_1000, Size::Eight),
            Ok(0),
            "after {bytes} bytes"
        );
    }
    Ok(())
}

/// Ranges: a partition, an address, and what reading and writing four bytes there answers.
const RANGES: [(PartId, u32, Result<(), u32>, Result<(), u32>); 13] = [
    (0, 0x4010_0000, Ok(()), Ok(())),
    // From one area into the next.
    (0, 0x4010_0ffe, Ok(()), Ok(())),
    // The last that may be written, and the first that may not.
    (0, 0x4010_1ffc, Ok(()), Ok(())),
    (0, 0x4010_1ffd, Ok(()), Err(0x4010_2000)),
    // The last that may be read, and the first that may not.
    (0, 0x4010_2ffc, Ok(()), Err(0x4010_2ffc)),
    (0, 0x4010_2ffd, Err(0x4010_3000), Err(0x4010_2ffd)),
    // The first byte of the second partition.
    (0, 0x4010_3000, Err(0x4010_3000), Err(0x4010_3000)),
    (0, 0xffff_ffff, Err(0xffff_ffff), Err(0xffff_ffff)),
    // Up to the last address and past it.
    (1, 0xffff_f000, Ok(()), Ok(())),
    (1, 0xffff_fffc, Ok(()), Ok(())),
    (1, 0xffff_fffd, Err(0), Err(0)),
    (1, 0xffff_ffff, Err(0), Err(0)),
    // Before the last page.
    (1, 0xffff_effe, Err(0xffff_effe), Err(0xffff_effe)),
];

#[test]
fn a_copy_is_refused_at_its_first_byte_that_is_not_allowed(rt: HostRuntime) -> Result<(), Fail> {
    for (p, address, read, write) in RANGES {
        let p: PartId = p & 1;
        let mut ram = fresh(&rt, rt.alloc())?;
        let mut into = [9; 4];
        let copied = ram.copy_in(p, address, &mut into);
        assert_eq!(rt;
            copied,
            read.map_err(|address| Outside { address }),
            "read at {address}"
        );
        assert_eq!(rt;
            ram.may_read(p, address, 4),
            read.is_ok(),
            "read at {address}"
        );
        assert_eq!(rt;
            ram.may_write(p, address, 4),
            write.is_ok(),
            "write at {address}"
        );
        let copied = ram.copy_out(p, address, &[1, 2, 3, 4]);
        assert_eq!(rt;
            copied,
            write.map_err(|address| Outside { address }),
            "write at {address}"
        );
    }
    Ok(())
}

/// Writes bytes, and answers whether that was allowed.
fn put(ram: &mut Ram, p: PartId, address: u32, from: &[u8]) -> bool
    requires { p < length ram.old.areas }
    ensures areas { ram.new.areas ≡ ram.old.areas }
{
    match ram.copy_out(p, address, from) {
        Ok(()) => true,
        Err(_) => false,
    }
}

/// Stores a word of ones for the selected partition. Where that is allowed, it gives a byte of the first partition.
fn first_after_store(ram: &mut Ram, address: u32, seen: u32) -> Option<u8> {
    match ram.store(address, Size::Four, 0xffff_ffff) {
        Ok(()) => ram.byte(0, seen),
        Err(_) => None,
    }
}

/// The partition that is selected, and what a processor loads at the start of the first partition and of the second.
const SEEN: [(PartId, Result<u64, BusFault>, Result<u64, BusFault>); 2] = [
    (0, Ok(0x0102_0304), Err(BusFault::Outside)),
    (1, Err(BusFault::Outside), Ok(0x0506_0708)),
];

/// The partition that is selected, an address at which a word of ones is stored, and the first byte of the first partition after a store that is allowed.
const CHANGED: [(PartId, u32, Option<u8>); 5] = [
    (0, 0x4010_0000, Some(0xff)),
    (1, 0x4010_3000, Some(1)),
    (1, 0xffff_fffc, Some(1)),
    // An address of the other partition.
    (0, 0x4010_3000, None),
    (1, 0x4010_0000, None),
];

#[test]
fn a_processor_sees_and_changes_the_selected_partition_alone(rt: HostRuntime) -> Result<(), Fail> {
    for (p, first, second) in SEEN {
        let mut ram = fresh(&rt, rt.alloc())?;
        assert!(rt; put(&mut ram, 0, 0x4010_0000, &[1, 2, 3, 4]));
        assert!(rt; put(&mut ram, 1, 0x4010_3000, &[5, 6, 7, 8]));
        ram.select(p & 1);
        assert_eq!(rt; ram.selected(), p);
        // What is written by a partition's number stands there for this one alone.
        assert!(rt; put(&mut ram, 1, 0x4010_3004, &[9]));
        assert_eq!(rt; ram.byte(0, 0x4010_0000), Some(1));
        assert_eq!(rt; ram.byte(0, 0x4010_0004), Some(0));
        assert_eq!(rt; ram.byte(1, 0x4010_3004), Some(9));
        assert_eq!(rt; ram.load(0x4010_0000, Size::Four), first, "partition {p}");
        assert_eq!(rt; ram.load(0x4010_3000, Size::Four), second, "partition {p}");
    }
    for (p, address, byte) in CHANGED {
        let mut ram = fresh(&rt, rt.alloc())?;
        assert!(rt; put(&mut ram, 0, 0x4010_0000, &[1, 2, 3, 4]));
        ram.select(p & 1);
        let first = first_after_store(&mut ram, address, 0x4010_0000);
        assert_eq!(rt; first, byte, "partition {p} stores at {address}");
    }
    Ok(())
}

/// Places among all bytes, and the byte there after a write at the start of each partition.
const WHOLE: [(usize, Option<u8>); 6] = [
    (0, Some(1)),
    (3, Some(4)),
    (0x2fff, Some(0)),
    (0x3000, Some(5)),
    (0x4fff, Some(0)),
    (0x5000, None),
];

#[test]
fn the_bytes_of_all_areas_stand_one_after_the_other(rt: HostRuntime) -> Result<(), Fail> {
    let mut ram = fresh(&rt, rt.alloc())?;
    assert!(rt; put(&mut ram, 0, 0x4010_0000, &[1, 2, 3, 4]));
    assert!(rt; put(&mut ram, 1, 0x4010_3000, &[5, 6, 7, 8]));
    for (place, byte) in WHOLE {
        assert_eq!(rt; ram.whole().get(place).copied(), byte, "place {place}");
    }
    Ok(())
}

/// A segment of eight bytes that begins with these.
fn segment(alloc: Global, address: u32, bytes: &[u8]) -> Result<Segment, AllocError> {
    Ok(Segment {
        address,
        memory: 8,
        bytes: Vec::from_slice(alloc, bytes)?,
    })
}

/// The system of the two partitions. The image of the first one has a segment in the area that may only be read, too.
fn system(rt: &impl Abort, alloc: Global) -> Result<System, Memory>
    ensures { IfOk result (λ system. length system.conf.parts ≡ 2) }
{
    let conf = conf(alloc)?.expect(rt, "a configuration");
    let first = [
        segment(alloc, 0x4010_0000, &[1, 2, 3, 4, 5])?,
        segment(alloc, 0x4010_2ff8, &[6])?,
    ];
    let second = [segment(alloc, 0x4010_3000, &[7])?];
    let images = [
        Xef::new(0x4010_0000, Vec::from_array(alloc, first)?).expect(rt, "an image"),
        Xef::new(0x4010_3000, Vec::from_array(alloc, second)?).expect(rt, "an image"),
    ];
    let system = System::new(conf, Vec::from_array(alloc, images)?);
    Ok(system.ok().expect(rt, "a system"))
}

/// Loads the image of a partition.
fn reload(ram: &mut Ram, system: &System, p: PartId)
    requires areas { ram.old.areas ≡ map memory_areas system.now.conf.parts }
    requires partition { p < length system.now.conf.parts }
    ensures areas { ram.new.areas ≡ ram.old.areas }
{
    ram.reload(p, system.image(p));
}

/// A partition, an address, and the byte there, where it has one.
const HELD: [(PartId, u32, Option<u8>); 12] = [
    (0, 0x400f_ffff, None),
    (0, 0x4010_0000, Some(0)),
    (0, 0x4010_1000, Some(0)),
    // The area that may only be read.
    (0, 0x4010_2fff, Some(0)),
    (0, 0x4010_3000, None),
    (0, 0xffff_ffff, None),
    (1, 0x4010_2fff, None),
    (1, 0x4010_3000, Some(0)),
    (1, 0x4010_3fff, Some(0)),
    (1, 0x4010_4000, None),
    (1, 0xffff_efff, None),
    (1, 0xffff_ffff, Some(0)),
];

/// A partition, an address, and the byte there after a reload of the first one.
const RELOADED: [(PartId, u32, u8); 9] = [
    (0, 0x4010_0000, 1),
    (0, 0x4010_0004, 5),
    // After the bytes of a segment, and after the segment.
    (0, 0x4010_0005, 0),
    (0, 0x4010_0008, 0),
    // The next area, which has no segment.
    (0, 0x4010_1fff, 0),
    // The area that may only be read.
    (0, 0x4010_2ff8, 6),
    (0, 0x4010_2ff9, 0),
    // The other partition.
    (1, 0x4010_3000, 9),
    (1, 0x4010_300f, 9),
];

#[test]
fn a_partition_has_bytes_in_its_areas_and_a_reload_leaves_its_image_and_zeros(
    rt: HostRuntime,
) -> Result<(), Fail> {
    let system = system(&rt, rt.alloc())?;
    let mut ram = Ram::new(rt.alloc(), system.conf())?;
    for (p, address, byte) in HELD {
        let p: PartId = p & 1;
        assert_eq!(rt; ram.byte(p, address), byte, "partition {p} at {address}");
    }
    assert!(rt; put(&mut ram, 0, 0x4010_0000, &[9; 16]));
    assert!(rt; put(&mut ram, 0, 0x4010_1ffc, &[9; 4]));
    assert!(rt; put(&mut ram, 1, 0x4010_3000, &[9; 16]));
    reload(&mut ram, &system, 0);
    for (p, address, byte) in RELOADED {
        let p: PartId = p & 1;
        assert_eq!(rt;
            ram.byte(p, address),
            Some(byte),
            "partition {p} at {address}"
        );
    }
    Ok(())
}
