//! Words of a block, within whose length the steps that are left do not end.

ghost use Rattle.std.specs.Prelude.{◌≡◌, ◌+◌, ◌<◌, ◌≤◌, ◌^◌, drop, length};
ghost use Rattle.std.specs.Bool.{OnTrue};
ghost use Rattle.fast_loop.specs.declared.parts.PartEnd.TheVariants as ends;
ghost use Rattle.fast_loop.specs.lemmas.Coming.{IsMoved, IsPart, left_at};
ghost use Rattle.fast_loop.specs.Keeping.{AreLengths, AreRowsOf};
ghost use Rattle.fast_loop.specs.lemmas.Ahead.{IsAheadWithin};

use crate::one::{Came, one};
use crate::parts::{Part, PartEnd};
use crate::places::distance;
use crate::running::extended;
use crate::ways::Way;
use guest_bus::HasWords;
use predecode::Row;
use sparc_step::Processor;

// The words of a block from a place on, up to one that goes elsewhere or is left to others.
#[inline(always)]
fn block<B: HasWords>(
    own: &mut Processor,
    rows: &[Row],
    bus: &mut B,
    origin: u32,
    from: usize,
    limit: usize,
) -> Part
    requires ahead { IsAheadWithin rows.now from limit }
    requires rows { AreRowsOf rows.now (B.areas bus.old) (B.memory bus.old) origin }
    requires limit { limit < 2 ^ 34 }
    ensures part { IsPart result origin from limit (B.areas bus.old) own.old own.new (B.memory bus.old) (B.memory bus.new) }
    ensures rows { AreRowsOf rows.now (B.areas bus.old) (B.memory bus.new) origin }
    ensures areas { B.areas bus.new ≡ B.areas bus.old }
    ensures others { B.others bus.new ≡ B.others bus.old }
{
    let mut at = from;
    let mut rest = after(rows, from);
    loop {
        match one(own, rows, rest, bus, origin, at) {
            Came::Next(Way::Idle) => {
                at += 1;
                rest = after(rest, 1);
            }
            Came::Next(Way::Sums) => {
                at += 1;
                rest = after(rest, 1);
            }
            Came::Next(Way::Bits) => {
                at += 1;
                rest = after(rest, 1);
            }
            Came::Next(Way::Tests) => {
                at += 1;
                rest = after(rest, 1);
            }
            Came::Next(Way::Shifts) => {
                at += 1;
                rest = after(rest, 1);
            }
            Came::Next(Way::Loads) => {
                at += 1;
                rest = after(rest, 1);
            }
            Came::Next(Way::Stores) => {
                at += 1;
                rest = after(rest, 1);
            }
            Came::Passed => {
                at += 2;
                rest = after(rest, 2);
            }
            Came::Jump(displacement) => return moved(at, limit, 1, displacement),
            Came::Turn(displacement) => return moved(at, limit, 2, displacement),
            Came::PairTurn(displacement) => return moved(at + 1, limit, 2, displacement),
            Came::Slot(displacement) => {
                return Part::of(at + 1, limit, PartEnd::Slot(displacement));
            }
            Came::PairSlot(displacement) => {
                return Part::of(at + 2, limit, PartEnd::Slot(displacement));
            }
            Came::Calls => return Part::of(at, limit, PartEnd::Calls),
            Came::Stays => return Part::of(at, limit, PartEnd::Stays),
        }
    }
}

/// The same, and on as long as the steps that are left do not end within the block that follows.
#[inline(always)]
pub(crate) fn blocks<B: HasWords>(
    own: &mut Processor,
    rows: &[Row],
    lengths: &[u8],
    bus: &mut B,
    origin: u32,
    from: usize,
    end: usize,
) -> Part
    requires ahead { IsAheadWithin rows.now from end }
    requires rows { AreRowsOf rows.now (B.areas bus.old) (B.memory bus.old) origin }
    requires lengths { AreLengths lengths.now rows.now }
    requires few { end < from + 2 ^ 32 }
    ensures part { IsPart result origin from end (B.areas bus.old) own.old own.new (B.memory bus.old) (B.memory bus.new) }
    ensures rows { AreRowsOf rows.now (B.areas bus.old) (B.memory bus.new) origin }
    ensures areas { B.areas bus.new ≡ B.areas bus.old }
    ensures others { B.others bus.new ≡ B.others bus.old }
{
    let mut at = from;
    let mut limit = end;
    loop {
        let part = block(own, rows, bus, origin, at, limit);
        if !enters(part, rows, lengths) {
            return part;
        }
        at = part.at;
        limit = part.limit;
    }
}

// Whether a part goes on, and the steps that are left do not end within the block that follows.
#[inline(always)]
fn enters(part: Part, rows: &[Row], lengths: &[u8]) -> bool
    requires lengths { AreLengths lengths.now rows.now }
    requires few { left_at part.at part.limit < 2 ^ 63 }
    ensures goes { OnTrue result (part.end ≡ ends.Goes) }
    ensures place { OnTrue result (part.at < length rows.now) }
    ensures ahead { OnTrue result (IsAheadWithin rows.now part.at (part.at + left_at part.at part.limit)) }
{
    matches!(part.end, PartEnd::Goes)
        && part.at < rows.len()
        && is_within(rows, lengths, part.at, part.limit.wrapping_sub(part.at))
}

// Whether a block is no longer than the steps that are left.
#[inline(always)]
fn is_within(rows: &[Row], lengths: &[u8], at: usize, left: usize) -> bool
    requires lengths { AreLengths lengths.now rows.now }
    requires place { at < length rows.now }
    requires few { left < 2 ^ 63 }
    ensures { OnTrue result (IsAheadWithin rows.now at (at + left)) }
{
    extended(lengths[at]) < left
}

// The rows that follow this many.
#[inline(always)]
fn after(rows: &[Row], count: usize) -> &[Row]
    requires { count ≤ length rows.now }
    ensures { result.now ≡ drop count rows.now }
{
    rows.split_at(count).1
}

/// The part that ends where the word at a displacement from a place follows, this many steps after that place.
#[inline(always)]
pub(crate) fn moved(at: usize, limit: usize, count: usize, displacement: u32) -> Part
    requires some { 0 < count }
    requires few { count < 3 }
    ensures { IsMoved result at limit count displacement }
{
    let distance = distance(displacement);
    Part::of(
        at.wrapping_add(distance),
        limit.wrapping_add(distance).wrapping_sub(count),
        PartEnd::Goes,
    )
}
