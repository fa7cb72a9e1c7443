//! The system that runs one raw image.

ghost use Rattle.std.specs.Prelude.{◌≡◌, IfOk, IsTrue, length};
ghost use Rattle.xm_conf.specs.Name.{is_name};
ghost use Rattle.loaded_system.specs.Bare.{IsBare, IsImageLength, bare_conf, bare_image, bare_part, bare_plan, bare_regions, bare_system, default_table};

use crate::system::System;
use std::alloc::Global;
use xef_images::{Segment, Xef};
use xm_base::{IMAGE_BYTES, Memory};
use xm_conf::{Area, Conf, EVENTS, Event, HmTable, Name, Part, Plan, RawConf, Region, Slot};

/// Why an image makes no system.
#[derive(Clone, Copy, Debug, PartialEq, Eq)]
pub enum BareFault {
    /// It has no bytes, or more than `IMAGE_BYTES`.
    Length { found: usize },
    /// Memory ran out for it.
    Memory,
}

/// Where the hypervisor's region begins.
const HYPERVISOR_START: u32 = 0x3000_0000;

/// The bytes of the hypervisor's region.
const HYPERVISOR_BYTES: u32 = 4096;

/// Where the area of the partition begins, and where its image is loaded and entered.
const AREA_START: u32 = 0x4000_0000;

/// The bytes of that area.
const AREA_BYTES: u32 = 0x0010_0000;

/// The microseconds of the frame and of its one slot.
const FRAME: u32 = 1000;

/// The system of one partition that runs a raw image: one plan of one slot, and one area of 1 MiB at whose start
/// the image is loaded and entered. Refused where the image has no bytes or more than `IMAGE_BYTES`.
pub fn bare(alloc: Global, image: &[u8]) -> Result<System, BareFault>
    // The system of a raw image; a refusal gives the length, which is 0 or above the limit.
    ensures value { IsBare result image.now }
{
    let found = image.len();
    if found == 0 || IMAGE_BYTES < found {
        return Err(BareFault::Length { found });
    }
    match system(alloc, image) {
        Ok(system) => Ok(system),
        Err(_) => Err(BareFault::Memory),
    }
}

/// The system of an image.
fn system(alloc: Global, image: &[u8]) -> Result<System, Memory>
    requires { IsImageLength (length image.now) }
    ensures { IfOk result (λ system. system ≡ bare_system image.now) }
{
    let conf = conf(alloc)?;
    let xef = xef(alloc, image)?;
    let images = Vec::from_array(alloc, [xef])?;
    let Ok(system) = System::new(conf, images) else {
        unreachable!();
    };
    Ok(system)
}

/// The image of one segment, at the start of the area.
#[tactic(auto, unfolding(crate::specs::Bare::bare_image))]
fn xef(alloc: Global, image: &[u8]) -> Result<Xef, Memory>
    requires { IsImageLength (length image.now) }
    ensures { IfOk result (λ xef. xef ≡ bare_image image.now) }
{
    let segment = Segment {
        address: AREA_START,
        memory: image.len() as u32,
        bytes: Vec::from_slice(alloc, image)?,
    };
    let segments = Vec::from_array(alloc, [segment])?;
    let Some(xef) = Xef::new(AREA_START, segments) else {
        unreachable!();
    };
    Ok(xef)
}

/// The configuration.
fn conf(alloc: Global) -> Result<Conf, Memory>
    ensures { IfOk result (λ conf. conf ≡ bare_conf) }
{
    let raw = raw(alloc)?;
    let Ok(conf) = Conf::new(raw) else {
        unreachable!();
    };
    Ok(conf)
}

/// What the configuration is made of.
#[tactic(auto, unfolding(crate::specs::Bare::bare_conf))]
fn raw(alloc: Global) -> Result<RawConf, Memory>
    ensures { IfOk result (λ raw. raw ≡ bare_conf) }
{
    let regions = regions(alloc)?;
    let uarts = Vec::from_array(alloc, [name(b"Uart")])?;
    let plan = plan(alloc)?;
    let part = part(alloc)?;
    Ok(RawConf {
        name: name(b"bare"),
        regions,
        hv_size: HYPERVISOR_BYTES,
        uarts,
        plans: Vec::from_array(alloc, [plan])?,
        parts: Vec::from_array(alloc, [part])?,
        chans: Vec::new(alloc),
        links: Vec::new(alloc),
    })
}

/// The hypervisor's region, and the partition's.
#[tactic(auto, unfolding(crate::specs::Bare::bare_regions))]
fn regions(alloc: Global) -> Result<Vec<Region>, Memory>
    ensures { IfOk result (λ regions. regions.items ≡ bare_regions) }
{
    let hypervisor = Region {
        start: HYPERVISOR_START,
        size: HYPERVISOR_BYTES,
    };
    let area = Region {
        start: AREA_START,
        size: AREA_BYTES,
    };
    Ok(Vec::from_array(alloc, [hypervisor, area])?)
}

/// The plan: one slot, all of the frame.
#[tactic(auto, unfolding(crate::specs::Bare::bare_plan))]
fn plan(alloc: Global) -> Result<Plan, Memory>
    ensures { IfOk result (λ plan. plan ≡ bare_plan) }
{
    let slot = Slot {
        start: 0,
        duration: FRAME,
        part: 0,
    };
    Ok(Plan {
        frame: FRAME,
        slots: Vec::from_array(alloc, [slot])?,
    })
}

/// The partition.
#[tactic(auto, unfolding(crate::specs::Bare::bare_part))]
fn part(alloc: Global) -> Result<Part, Memory>
    ensures { IfOk result (λ part. part ≡ bare_part) }
{
    let area = Area {
        start: AREA_START,
        size: AREA_BYTES,
        read_only: false,
    };
    Ok(Part {
        name: name(b"bare"),
        system: false,
        console: Some(0),
        need: None,
        trace_mask: 0,
        hm: default_table(),
        areas: Vec::from_array(alloc, [area])?,
        ports: Vec::new(alloc),
    })
}

/// The health table that has the default action for each event, and logs all of them.
pub fn default_table() -> HmTable
    ensures value { result ≡ default_table }
{
    HmTable {
        actions: EVENTS.map(Event::default_action),
        logged: 0x0fff,
    }
}

/// The name that these bytes are.
fn name(bytes: &[u8]) -> Name
    requires { IsTrue (is_name bytes.now) }
    ensures { result ≡ bytes.now }
{
    let Some(name) = Name::new(bytes) else {
        unreachable!();
    };
    name
}
