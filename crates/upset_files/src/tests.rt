//! A file of upsets, read where memory is ample.

use crate::{UpsetCause, UpsetFault, read_upsets};
use std::alloc::{AllocError, Global};
use std::process::Abort;
use std::test::Fail;
use upset_model::UpsetLine;
use xm_base::PartId;
use xm_conf::{Action, Area, Conf, HmTable, Name, Part, Plan, RawConf, Region, Slot};
use xm_report::Place;

/// A partition with one page of memory.
fn part(alloc: Global, name: Name, start: u32) -> Result<Part, AllocError> {
    let area = Area {
        start,
        size: 0x1000,
        read_only: true,
    };
    Ok(Part {
        name,
        system: false,
        console: None,
        need: None,
        trace_mask: 0,
        hm: HmTable {
            actions: [Action::Halt; 12],
            logged: 0,
        },
        areas: Vec::from_array(alloc, [area])?,
        ports: Vec::new(alloc),
    })
}

/// Two partitions, each with one page of memory.
fn conf(alloc: Global) -> Result<Option<Conf>, AllocError> {
    let (Some(first), Some(second)) = (Name::new(b"A"), Name::new(b"B")) else {
        return Ok(None);
    };
    let region = Region {
        start: 0x4000_0000,
        size: 0x0040_0000,
    };
    let slot = Slot {
        start: 0,
        duration: 1000,
        part: 0,
    };
    let plan = Plan {
        frame: 1000,
        slots: Vec::from_array(alloc, [slot])?,
    };
    let parts = [
        part(alloc, first, 0x4010_0000)?,
        part(alloc, second, 0x4020_0000)?,
    ];
    let raw = RawConf {
        name: first,
        regions: Vec::from_array(alloc, [region])?,
        hv_size: 0x1000,
        uarts: Vec::new(alloc),
        plans: Vec::from_array(alloc, [plan])?,
        parts: Vec::from_array(alloc, parts)?,
        chans: Vec::new(alloc),
        links: Vec::new(alloc),
    };
    Ok(Conf::new(raw).ok())
}

/// A line.
fn line(tick: u64, part: PartId, place: Place, bit: u8) -> UpsetLine {
    UpsetLine {
        tick,
        part,
        place,
        bit,
    }
}

/// Lines for a run from the boot on.
const TEXT: &[u8] = b"0 0 40100fff 7\n3 1 w127 31\n3 0 exec 62\n9 1 tbr 12\n";

#[test]
fn lines_are_read_in_their_order(rt: HostRuntime) -> Result<(), Fail> {
    let conf = conf(rt.alloc())?.expect(&rt, "a configuration");
    let lines = [
        line(0, 0, Place::MemoryByte(0x4010_0fff), 7),
        line(3, 1, Place::Windowed(127), 31),
        line(3, 0, Place::ExecutionDeadline, 62),
        line(9, 1, Place::TrapBase, 12),
    ];
    match read_upsets(rt.alloc(), TEXT, &conf, 0, 10) {
        Ok(found) => assert!(rt; found.as_slice() == lines.as_slice()),
        Err(_) => assert!(rt; false),
    }
    Ok(())
}

/// Lines for a run from tick 3 on.
const LATER: &[u8] = b"3 1 w127 31\n9 1 tbr 12\n";

#[test]
fn a_run_that_goes_on_begins_at_its_tick(rt: HostRuntime) -> Result<(), Fail> {
    let conf = conf(rt.alloc())?.expect(&rt, "a configuration");
    let lines = [
        line(3, 1, Place::Windowed(127), 31),
        line(9, 1, Place::TrapBase, 12),
    ];
    match read_upsets(rt.alloc(), LATER, &conf, 3, 10) {
        Ok(found) => assert!(rt; found.as_slice() == lines.as_slice()),
        Err(_) => assert!(rt; false),
    }
    let unreached = UpsetFault::Line {
        line: 1,
        cause: UpsetCause::Unreached,
    };
    match read_upsets(rt.alloc(), LATER, &conf, 4, 10) {
        Ok(_) => assert!(rt; false),
        Err(fault) => assert!(rt; fault == unreached),
    }
    Ok(())
}
