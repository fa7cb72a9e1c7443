//! One word of a block.

ghost use Rattle.std.specs.Prelude.{◌≡◌, ◌<◌, drop, false, length, slice_get, Some};
ghost use Rattle.predecode.specs.declared.rows.Row.{Row as Placed};
ghost use Rattle.std.specs.Bool.{OnTrue};
ghost use Rattle.fast_loop.specs.lemmas.Coming.{IsCame, IsOn, IsSlotDone};
ghost use Rattle.fast_loop.specs.Keeping.{AreRowsOf};
ghost use Rattle.fast_loop.specs.lemmas.Ahead.{IsAhead};

use crate::places::address;
use crate::shifting::shift;
use crate::simple::{Step, execute, execute_first};
use crate::sites::{AfterBranch, AfterPair, InBlock};
use crate::ways::Way;
use guest_bus::HasWords;
use predecode::Row;
use sparc_step::Processor;
use xm_base::proof;

/// What came of a word.
#[derive(Clone, Copy, Debug)]
pub(crate) enum Came {
    /// It was done, and the next word follows.
    Next(Way),
    /// It and the branch after it were done, and the word after that follows.
    Passed,
    /// It was done, and the word at a displacement from its place follows.
    Jump(u32),
    /// It and the one in its delay slot were done, and the word at a displacement from its place follows.
    Turn(u32),
    /// It was done. The one in its delay slot follows, and then the word at a displacement from its own place.
    Slot(u32),
    /// It, the branch after it and the one in the delay slot were done, and the word at a displacement from the branch follows.
    PairTurn(u32),
    /// It and the branch after it were done. The one in the delay slot follows, and then the word at a displacement from the branch.
    PairSlot(u32),
    /// It calls the hypervisor. It was not done, and nothing changed.
    Calls,
    /// It was not done, and nothing changed.
    Stays,
}

/// Does the word at a place of a block, the branch after it where both are a pair, and the one in the delay slot.
#[inline(always)]
pub(crate) fn one<B: HasWords>(
    own: &mut Processor,
    rows: &[Row],
    rest: &[Row],
    bus: &mut B,
    origin: u32,
    at: usize,
) -> Came
    requires ahead { IsAhead rows.now at }
    requires rest { rest.now ≡ drop at rows.now }
    requires rows { AreRowsOf rows.now (B.areas bus.old) (B.memory bus.old) origin }
    ensures came { IsCame result origin at (B.areas bus.old) own.old own.new (B.memory bus.old) (B.memory bus.new) }
    ensures on { IsOn result rows.now at }
    ensures rows { AreRowsOf rows.now (B.areas bus.old) (B.memory bus.new) origin }
    ensures areas { B.areas bus.new ≡ B.areas bus.old }
    ensures others { B.others bus.new ≡ B.others bus.old }
{
    proof! { let _zero = own.get(0); }
    match execute_first(own, rows, rest, bus, origin, at, true, false, InBlock) {
        Step::Next(way) => Came::Next(way),
        Step::Passed => {
            proof! { let _then = own.get(0); }
            Came::Passed
        }
        Step::Compared => {
            proof! { let _then = own.get(0); }
            let displacement = number_at(rows, at + 1);
            if in_slot(own, rows, bus, origin, at + 2, AfterPair) {
                Came::PairTurn(displacement)
            } else {
                Came::PairSlot(displacement)
            }
        }
        Step::Taken(displacement) => {
            if in_slot(own, rows, bus, origin, at + 1, AfterBranch) {
                Came::Turn(displacement)
            } else {
                Came::Slot(displacement)
            }
        }
        Step::Jumped(displacement) => Came::Jump(displacement),
        Step::Calls => Came::Calls,
        Step::Shifts => {
            if shift(own, rows, bus, origin, at) {
                Came::Next(Way::Loads)
            } else {
                Came::Stays
            }
        }
        Step::Stays => Came::Stays,
    }
}

/// Does the word in a delay slot. The answer is whether it did.
#[inline(always)]
pub(crate) fn in_slot<B: HasWords, S: Copy>(
    own: &mut Processor,
    rows: &[Row],
    bus: &mut B,
    origin: u32,
    at: usize,
    site: S,
) -> bool
    requires place { at < length rows.now }
    requires rows { AreRowsOf rows.now (B.areas bus.old) (B.memory bus.old) origin }
    ensures done { OnTrue result (IsSlotDone origin at (B.areas bus.old) own.old own.new (B.memory bus.old) (B.memory bus.new)) }
    ensures registers { result ≡ false → own.new ≡ own.old }
    ensures memory { result ≡ false → B.memory bus.new ≡ B.memory bus.old }
    ensures rows { AreRowsOf rows.now (B.areas bus.old) (B.memory bus.new) origin }
    ensures areas { B.areas bus.new ≡ B.areas bus.old }
    ensures others { B.others bus.new ≡ B.others bus.old }
{
    proof! { let _zero = own.get(0); }
    match execute(own, rows, bus, origin, at, false, true, site) {
        Step::Next(_) => true,
        Step::Shifts => shift(own, rows, bus, origin, at),
        Step::Passed => true,
        Step::Compared => true,
        Step::Taken(_) => false,
        Step::Jumped(_) => false,
        Step::Calls => false,
        Step::Stays => false,
    }
}

// The number of the row of a place.
#[inline(always)]
fn number_at(rows: &[Row], at: usize) -> u32
    requires { at < length rows.now }
    ensures { (row : Placed) → slice_get rows.now at ≡ Some row → result ≡ row.number }
{
    rows[at].number
}
