//! Straight runs.

ghost use Rattle.std.specs.Prelude.{◌≡◌, ◌+◌, ◌-◌, ◌^◌, ◌<◌, ◌≤◌, ◌%◌, false, length};
ghost use Rattle.std.specs.Bool.{OnTrue};
ghost use Rattle.fast_loop.specs.Runs.{AreSteps, IsCall};
ghost use Rattle.fast_loop.specs.Keeping.{AreLengths, AreRowsOf};
ghost use Rattle.fast_loop.specs.lemmas.Places.{at_place, at_slot};

use crate::blocks::blocks;
use crate::careful::carefully;
use crate::parts::{Part, PartEnd};
use crate::places::{address, address_after, distance, place_of};
use guest_bus::HasWords;
use predecode::{Kind, Row};
use sparc_step::Processor;

// Each run is shorter, so that places and steps are small numbers. The rest of a number is found faster than the least of two, and what
// it leaves is done by the runs after it.
const MOST: u64 = 0x1000_0000;

/// The length of a block that is not known.
pub const UNKNOWN: u8 = 255;

/// The length of a block that is done word by word.
pub const SINGLE: u8 = 254;

/// How a run ended.
#[derive(Clone, Copy, Debug)]
pub struct RunEnd {
    /// How many instructions went.
    pub went: u64,
    /// Whether the one after them is known to call the hypervisor. It was not done.
    pub calls: bool,
    /// Whether more rows are wanted where it ended.
    pub unmade: bool,
}

/// Instructions, at most this many, up to the first that is left to others: one that traps or calls, whose access is refused, that
/// needs a window spilled or filled by a search, that writes a word with a row, or that has no row. The rows are those of the words from
/// an address on, and the lengths those of the blocks that begin at their places.
#[inline(always)]
pub fn run_rows<B: HasWords>(
    own: &mut Processor,
    rows: &[Row],
    lengths: &[u8],
    bus: &mut B,
    origin: u32,
    most: u64,
) -> RunEnd
    // Called with rows of the words from an address on, and with lengths of the blocks that begin at them, where these are known.
    requires rows { AreRowsOf rows.now (B.areas bus.old) (B.memory bus.old) origin }
    requires lengths { AreLengths lengths.now rows.now }
    // The answered number of steps, which all went, and the registers and the memory that they leave; no more steps than are asked for.
    ensures steps { AreSteps result.went (B.areas bus.old) own.old (B.memory bus.old) own.new (B.memory bus.new) }
    ensures few { result.went ≤ most }
    // Where it reports a call, the step that would be next is one; fewer steps than are asked for went before it.
    ensures room { OnTrue result.calls (result.went < most) }
    ensures call { OnTrue result.calls (IsCall (B.areas bus.old) own.new (B.memory bus.new)) }
    // The rows are still those of the words.
    ensures rows { AreRowsOf rows.now (B.areas bus.new) (B.memory bus.new) origin }
    // Areas and the memories of others are as before.
    ensures areas { B.areas bus.new ≡ B.areas bus.old }
    ensures others { B.others bus.new ≡ B.others bus.old }
{
    let pc = own.pc();
    if own.npc() != pc.wrapping_add(4) {
        return RunEnd {
            went: 0,
            calls: false,
            unmade: false,
        };
    }
    let from = place_of(origin, pc);
    run_in(own, rows, lengths, bus, origin, from, most % MOST)
}

// The same from a place on.
#[inline(always)]
fn run_in<B: HasWords>(
    own: &mut Processor,
    rows: &[Row],
    lengths: &[u8],
    bus: &mut B,
    origin: u32,
    from: usize,
    most: u64,
) -> RunEnd
    requires rows { AreRowsOf rows.now (B.areas bus.old) (B.memory bus.old) origin }
    requires lengths { AreLengths lengths.now rows.now }
    requires near { from < 2 ^ 33 }
    requires most { most < 2 ^ 32 }
    ensures steps { AreSteps result.went (B.areas bus.old) (at_place origin from own.old) (B.memory bus.old) own.new (B.memory bus.new) }
    ensures few { result.went ≤ most }
    ensures room { OnTrue result.calls (result.went < most) }
    ensures call { OnTrue result.calls (IsCall (B.areas bus.old) own.new (B.memory bus.new)) }
    ensures rows { AreRowsOf rows.now (B.areas bus.new) (B.memory bus.new) origin }
    ensures areas { B.areas bus.new ≡ B.areas bus.old }
    ensures others { B.others bus.new ≡ B.others bus.old }
{
    let mut at = from;
    // The place where the steps that are left would end.
    let mut limit = from + most as usize;
    while at < rows.len() {
        let left = limit.wrapping_sub(at);
        let length = lengths[at];
        let part = if extended(length) < left {
            blocks(own, rows, lengths, bus, origin, at, limit)
        } else {
            if left == 0 || length == UNKNOWN {
                return ended(own, origin, at, most - left as u64, false, left > 0);
            }
            carefully(own, rows, lengths, bus, origin, at, limit)
        };
        at = part.at;
        limit = part.limit;
        match part.end {
            PartEnd::Goes => {}
            PartEnd::Slot(displacement) => {
                let went = most - limit.wrapping_sub(at) as u64;
                return ended_in_slot(own, rows, origin, at, displacement, went);
            }
            PartEnd::Calls => {
                let went = most - limit.wrapping_sub(at) as u64;
                return ended(own, origin, at, went, true, false);
            }
            PartEnd::Stays => {
                let went = most - limit.wrapping_sub(at) as u64;
                return ended(own, origin, at, went, false, is_empty(rows, at));
            }
        }
    }
    let went = most - limit.wrapping_sub(at) as u64;
    ended(own, origin, at, went, false, went < most)
}

/// What the steps that are left are compared with: the length of a block less 1, or a number that is not below any, where it is none.
#[inline(always)]
pub(crate) fn extended(length: u8) -> usize
    ensures known { length < 128 → result ≡ length }
    ensures none { 128 ≤ length → 2 ^ 63 ≤ result }
{
    usize::from(length ^ 0x80).wrapping_sub(0x80)
}

// Whether a place has no row yet.
#[inline(always)]
fn is_empty(rows: &[Row], at: usize) -> bool {
    at >= rows.len() || matches!(rows[at].kind, Kind::Empty)
}

// The end of a run before the word at a place, after this many.
#[inline(always)]
fn ended(
    own: &mut Processor,
    origin: u32,
    at: usize,
    went: u64,
    calls: bool,
    unmade: bool,
) -> RunEnd
    requires { origin % 4 ≡ 0 }
    ensures at { own.new ≡ at_place origin at own.old }
    ensures went { result.went ≡ went }
    ensures calls { result.calls ≡ calls }
{
    own.place(address(origin, at), address_after(origin, at));
    RunEnd {
        went,
        calls,
        unmade,
    }
}

// The end of a run before the word at the place of a delay slot, after which a displacement from the word before it follows.
#[inline(always)]
fn ended_in_slot(
    own: &mut Processor,
    rows: &[Row],
    origin: u32,
    at: usize,
    displacement: u32,
    went: u64,
) -> RunEnd
    requires origin { origin % 4 ≡ 0 }
    requires some { 0 < at }
    ensures at { own.new ≡ at_slot origin at (at - 1 + displacement) own.old }
    ensures went { result.went ≡ went }
    ensures calls { result.calls ≡ false }
{
    let to = (at - 1).wrapping_add(distance(displacement));
    own.place(address(origin, at), address(origin, to));
    RunEnd {
        went,
        calls: false,
        unmade: is_empty(rows, at),
    }
}
