//! The partitions.

ghost use Rattle.std.specs.Prelude.{◌≡◌, ◌<◌, ◌++◌, IfOk, IsTrue, codes, decimal};
ghost use Rattle.xm_conf.specs.Name.{is_name};
ghost use Rattle.generated_system.specs.Generated.{all_parts, area_start, generated_part, generated_way};

use loaded_system::default_table;
use std::alloc::Global;
use xm_base::{Memory, PartId};
use xm_conf::{Area, Kind, Name, Part, Port, Way};
use xm_report::Pen;

/// How many partitions a generated system has.
pub(crate) const PARTS: u8 = 16;

/// Where the area of the first partition begins, and the bytes of each.
const AREAS_START: u32 = 0x4010_0000;

const AREA_BYTES: u32 = 4096;

/// All partitions.
#[tactic(auto, using(crate::proofs::NumberedLemmas::numbered_more), unfolding(crate::specs::Generated::all_parts))]
pub(crate) fn parts(alloc: Global) -> Result<Vec<Part>, Memory>
    ensures { IfOk result (λ parts. parts.items ≡ all_parts) }
{
    let mut parts = Vec::new(alloc);
    for p in 0..PARTS {
        parts.push(part(alloc, p)?)?;
    }
    Ok(parts)
}

// A partition.
#[tactic(auto, unfolding(crate::specs::Generated::generated_part, crate::specs::Generated::port_name))]
fn part(alloc: Global, p: PartId) -> Result<Part, Memory>
    requires { p < 16 }
    ensures { IfOk result (λ part. part ≡ generated_part p) }
{
    let area = Area {
        start: area_start(p),
        size: AREA_BYTES,
        read_only: false,
    };
    let port = Port {
        name: name(b"q"),
        kind: Kind::Queuing,
        way: way_of(p),
    };
    Ok(Part {
        name: part_name(p),
        system: false,
        console: None,
        need: None,
        trace_mask: 0,
        hm: default_table(),
        areas: Vec::from_array(alloc, [area])?,
        ports: Vec::from_array(alloc, [port])?,
    })
}

/// Where the area of a partition begins.
#[tactic(auto, unfolding(crate::specs::Generated::area_start))]
pub(crate) fn area_start(p: PartId) -> u32
    requires { p < 16 }
    ensures { result ≡ area_start p }
{
    AREAS_START + AREA_BYTES * u32::from(p)
}

// The name of a partition.
fn part_name(p: PartId) -> Name
    requires { p < 16 }
    ensures { result ≡ codes "G" ++ decimal p }
{
    let mut pen = Pen::new();
    pen.text(b"G");
    pen.number(u64::from(p));
    name(pen.bytes())
}

/// The name that these bytes are.
pub(crate) fn name(bytes: &[u8]) -> Name
    requires { IsTrue (is_name bytes.now) }
    ensures { result ≡ bytes.now }
{
    let Some(name) = Name::new(bytes) else {
        unreachable!();
    };
    name
}

// The end of a channel that a partition has.
#[tactic(auto, unfolding(crate::specs::Generated::generated_way))]
fn way_of(p: PartId) -> Way
    ensures { result ≡ generated_way p }
{
    if p % 2 == 0 {
        Way::Source
    } else {
        Way::Destination
    }
}
