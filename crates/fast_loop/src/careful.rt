//! Words one by one, where a block has no known length or the steps that are left end within it.

ghost use Rattle.std.specs.Prelude.{◌≡◌, ◌+◌, ◌<◌, ◌^◌, length};
ghost use Rattle.std.specs.Bool.{OnTrue};
ghost use Rattle.fast_loop.specs.declared.parts.PartEnd.TheVariants as ends;
ghost use Rattle.fast_loop.specs.lemmas.Coming.{IsPart, left_at};
ghost use Rattle.fast_loop.specs.Keeping.{AreRowsOf};

use crate::blocks::moved;
use crate::one::in_slot;
use crate::parts::{Part, PartEnd};
use crate::shifting::shift;
use crate::simple::{Step, execute};
use crate::sites::{AfterOne, OneByOne};
use guest_bus::HasWords;
use predecode::Row;
use sparc_step::Processor;
use xm_base::proof;

// Words from a place on up to a stop, or up to the first after which another than the next follows.
#[inline(always)]
fn words<B: HasWords>(
    own: &mut Processor,
    rows: &[Row],
    bus: &mut B,
    origin: u32,
    from: usize,
    limit: usize,
) -> Part
    requires from { from < length rows.now }
    requires room { from < limit }
    requires rows { AreRowsOf rows.now (B.areas bus.old) (B.memory bus.old) origin }
    requires limit { limit < 2 ^ 34 }
    ensures part { IsPart result origin from limit (B.areas bus.old) own.old own.new (B.memory bus.old) (B.memory bus.new) }
    ensures rows { AreRowsOf rows.now (B.areas bus.old) (B.memory bus.new) origin }
    ensures areas { B.areas bus.new ≡ B.areas bus.old }
    ensures others { B.others bus.new ≡ B.others bus.old }
{
    let stop = rows.len().min(limit);
    let mut at = from;
    while at < stop {
        proof! { let _zero = own.get(0); }
        match execute(own, rows, bus, origin, at, false, false, OneByOne) {
            Step::Next(_) => at += 1,
            Step::Passed => at += 1,
            Step::Compared => at += 1,
            Step::Taken(displacement) => {
                if at + 1 >= stop {
                    return Part::of(at + 1, limit, PartEnd::Slot(displacement));
                }
                return if in_slot(own, rows, bus, origin, at + 1, AfterOne) {
                    moved(at, limit, 2, displacement)
                } else {
                    Part::of(at + 1, limit, PartEnd::Slot(displacement))
                };
            }
            Step::Jumped(displacement) => return moved(at, limit, 1, displacement),
            Step::Calls => return Part::of(at, limit, PartEnd::Calls),
            Step::Shifts => {
                if !shift(own, rows, bus, origin, at) {
                    return Part::of(at, limit, PartEnd::Stays);
                }
                at += 1;
            }
            Step::Stays => return Part::of(at, limit, PartEnd::Stays),
        }
    }
    Part::of(at, limit, PartEnd::Goes)
}

// The same, and on as long as the steps that are left end within the block that follows.
#[inline(never)]
fn careful<B: HasWords>(
    own: &mut Processor,
    rows: &[Row],
    lengths: &[u8],
    bus: &mut B,
    origin: u32,
    from: usize,
    end: usize,
) -> Part
    requires from { from < length rows.now }
    requires room { from < end }
    requires rows { AreRowsOf rows.now (B.areas bus.old) (B.memory bus.old) origin }
    requires lengths { length lengths.now ≡ length rows.now }
    requires few { end < from + 2 ^ 32 }
    ensures part { IsPart result origin from end (B.areas bus.old) own.old own.new (B.memory bus.old) (B.memory bus.new) }
    ensures rows { AreRowsOf rows.now (B.areas bus.old) (B.memory bus.new) origin }
    ensures areas { B.areas bus.new ≡ B.areas bus.old }
    ensures others { B.others bus.new ≡ B.others bus.old }
{
    let mut at = from;
    let mut limit = end;
    loop {
        let part = words(own, rows, bus, origin, at, limit);
        if !goes_within(part, lengths) {
            return part;
        }
        at = part.at;
        limit = part.limit;
    }
}

// Whether a part goes on, and the steps that are left end within the block that follows. One without a length is taken to have as many
// words as the number that stands for it.
#[inline(always)]
fn goes_within(part: Part, lengths: &[u8]) -> bool
    ensures goes { OnTrue result (part.end ≡ ends.Goes) }
    ensures place { OnTrue result (part.at < length lengths.now) }
    ensures left { OnTrue result (0 < left_at part.at part.limit) }
{
    matches!(part.end, PartEnd::Goes)
        && part.at < lengths.len()
        && part.limit.wrapping_sub(part.at).wrapping_sub(1) < usize::from(lengths[part.at])
}

/// The same. Where it ended stands in registers, and not in memory that the loop would read after each block.
#[inline(always)]
pub(crate) fn carefully<B: HasWords>(
    own: &mut Processor,
    rows: &[Row],
    lengths: &[u8],
    bus: &mut B,
    origin: u32,
    from: usize,
    limit: usize,
) -> Part
    requires from { from < length rows.now }
    requires room { from < limit }
    requires rows { AreRowsOf rows.now (B.areas bus.old) (B.memory bus.old) origin }
    requires lengths { length lengths.now ≡ length rows.now }
    requires few { limit < from + 2 ^ 32 }
    ensures part { IsPart result origin from limit (B.areas bus.old) own.old own.new (B.memory bus.old) (B.memory bus.new) }
    ensures rows { AreRowsOf rows.now (B.areas bus.old) (B.memory bus.new) origin }
    ensures areas { B.areas bus.new ≡ B.areas bus.old }
    ensures others { B.others bus.new ≡ B.others bus.old }
{
    let part = careful(own, rows, lengths, bus, origin, from, limit);
    Part::of(part.at, part.limit, part.end)
}
