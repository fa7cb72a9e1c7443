//! Configurations with plans of their own.

use std::alloc::{AllocError, Global};
use std::process::Abort;
use xm_conf::{Action, Area, Conf, HmTable, Name, Part, Plan, RawConf, Region, Slot};

/// A plan: its frame, and the start, duration and partition of each slot.
pub(super) type PlanRow<'a> = (u32, &'a [(u32, u32, u8)]);

/// A configuration of two partitions with these plans.
pub(super) fn configured(
    rt: &impl Abort,
    alloc: Global,
    rows: &[PlanRow<'_>],
) -> Result<Conf, AllocError> {
    let raw = RawConf {
        name: letter(rt, b'S'),
        regions: vec![in alloc;
            Region {
                start: 0x4000_0000,
                size: 0x0040_0000
            },
        ]?,
        hv_size: 0x0010_0000,
        uarts: Vec::new(alloc),
        plans: plans(alloc, rows)?,
        parts: parts(rt, alloc)?,
        chans: Vec::new(alloc),
        links: Vec::new(alloc),
    };
    match Conf::new(raw) {
        Ok(conf) => Ok(conf),
        Err(_) => panic!(rt; "the sample is refused"),
    }
}

/// The name of one letter.
fn letter(rt: &impl Abort, byte: u8) -> Name {
    Name::new(&[byte]).expect(rt, "a letter")
}

fn plans(alloc: Global, rows: &[PlanRow<'_>]) -> Result<Vec<Plan>, AllocError> {
    let mut plans = Vec::new(alloc);
    for (frame, slots) in rows {
        plans.push(Plan {
            frame: *frame,
            slots: slots_of(alloc, slots)?,
        })?;
    }
    Ok(plans)
}

fn slots_of(alloc: Global, rows: &[(u32, u32, u8)]) -> Result<Vec<Slot>, AllocError> {
    let mut slots = Vec::new(alloc);
    for (start, duration, part) in rows {
        slots.push(Slot {
            start: *start,
            duration: *duration,
            part: *part,
        })?;
    }
    Ok(slots)
}

fn parts(rt: &impl Abort, alloc: Global) -> Result<Vec<Part>, AllocError> {
    let mut parts = Vec::new(alloc);
    for (name, start) in [(b'A', 0x4010_0000), (b'B', 0x4020_0000)] {
        parts.push(part(rt, alloc, name, start)?)?;
    }
    Ok(parts)
}

fn part(rt: &impl Abort, alloc: Global, name: u8, start: u32) -> Result<Part, AllocError> {
    let area = Area {
        start,
        size: 0x1000,
        read_only: false,
    };
    Ok(Part {
        name: letter(rt, name),
        system: false,
        console: None,
        need: None,
        trace_mask: 0,
        hm: HmTable {
            actions: [Action::Halt; 12],
            logged: 0,
        },
        areas: vec![in alloc; area]?,
        ports: Vec::new(alloc),
    })
}
