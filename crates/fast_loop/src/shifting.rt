//! Windows that are spilled and filled within a run.

ghost use Rattle.std.specs.Prelude.{◌≡◌, ◌≢◌, ℕ, ◌+◌, ◌<◌, ◌%◌, false, length, Some, slice_get};
ghost use Rattle.std.specs.Bool.{OnTrue};
ghost use Rattle.guest_bus.specs.Words.{word_address};
ghost use Rattle.sparc_step.specs.Registers.{in_window, register_at, window_filled, with_register};
ghost use Rattle.predecode.specs.Kinds.{Sum, is_exit};
ghost use Rattle.predecode.specs.Rows.{AreRegisterNumbers};
ghost use Rattle.predecode.specs.declared.kinds.Kind.TheVariants as kind;
ghost use Rattle.predecode.specs.declared.rows.Row.{Row as Placed};
ghost use Rattle.fast_loop.specs.lemmas.Effects.{address_so};
ghost use Rattle.fast_loop.specs.Keeping.{AreRowsOf};
ghost use Rattle.fast_loop.specs.lemmas.Shifts.{IsShift, IsSpilled};
ghost use Rattle.fast_loop.specs.lemmas.Steps.{AreOperands};

use crate::moving::have_rows;
use crate::places::address;
use crate::working::sum_of;
use guest_bus::HasWords;
use predecode::{Kind, Row};
use sparc_step::Processor;
use xm_base::proof;

// The frame pointer.
const FRAME: u8 = 30;

/// Does the SAVE of a place with the spill or its RESTORE with the fill that it needs, where the save area needs no search and no word of
/// it has a row. The answer is whether it did.
#[inline(always)]
pub(crate) fn shift<B: HasWords>(
    own: &mut Processor,
    rows: &[Row],
    bus: &mut B,
    origin: u32,
    at: usize,
) -> bool
    requires place { at < length rows.now }
    requires rows { AreRowsOf rows.now (B.areas bus.old) (B.memory bus.old) origin }
    ensures done { OnTrue result ((row : Placed) → slice_get rows.now at ≡ Some row → IsShift row (word_address origin at) (B.areas bus.old) own.old own.new (B.memory bus.old) (B.memory bus.new)) }
    ensures used { OnTrue result ((row : Placed) → slice_get rows.now at ≡ Some row → is_exit row.kind ≡ false) }
    ensures registers { result ≡ false → own.new ≡ own.old }
    ensures bytes { result ≡ false → B.memory bus.new ≡ B.memory bus.old }
    ensures rows { AreRowsOf rows.now (B.areas bus.old) (B.memory bus.new) origin }
    ensures areas { B.areas bus.new ≡ B.areas bus.old }
    ensures others { B.others bus.new ≡ B.others bus.old }
{
    let row = rows[at];
    match row.kind {
        Kind::Save => save(own, rows, bus, origin, &row, address(origin, at)),
        Kind::Restore => restore(own, bus, &row),
        _ => false,
    }
}

// SAVE, with its spill.
#[inline(never)]
fn save<B: HasWords>(
    own: &mut Processor,
    rows: &[Row],
    bus: &mut B,
    origin: u32,
    row: &Row,
    here: u32,
) -> bool
    requires kind { row.now.kind ≡ kind.Save }
    requires registers { AreRegisterNumbers row.now }
    requires aligned { here % 4 ≡ 0 }
    requires rows { AreRowsOf rows.now (B.areas bus.old) (B.memory bus.old) origin }
    ensures done { OnTrue result (IsShift row.now here (B.areas bus.old) own.old own.new (B.memory bus.old) (B.memory bus.new)) }
    ensures registers { result ≡ false → own.new ≡ own.old }
    ensures bytes { result ≡ false → B.memory bus.new ≡ B.memory bus.old }
    ensures rows { AreRowsOf rows.now (B.areas bus.old) (B.memory bus.new) origin }
    ensures areas { B.areas bus.new ≡ B.areas bus.old }
    ensures others { B.others bus.new ≡ B.others bus.old }
{
    let window = (own.cwp() + 7) % 8;
    if window != own.inv() {
        return false;
    }
    if spill(own, rows, bus, origin, here) {
        enter_below(own, row);
        true
    } else {
        false
    }
}

// RESTORE, with its fill.
#[inline(never)]
fn restore<B: HasWords>(own: &mut Processor, bus: &B, row: &Row) -> bool
    requires kind { row.now.kind ≡ kind.Restore }
    requires registers { AreRegisterNumbers row.now }
    ensures done { (here : ℕ) → OnTrue result (IsShift row.now here (B.areas bus.now) own.old own.new (B.memory bus.now) (B.memory bus.now)) }
    ensures registers { result ≡ false → own.new ≡ own.old }
{
    let window = (own.cwp() + 1) % 8;
    if window != own.inv() {
        return false;
    }
    match bus.get_words(own.get(FRAME)) {
        Some(words) => {
            enter_filled(own, row, &words);
            true
        }
        None => false,
    }
}

// The spill of the window below the invalid one. One that would write over the word at an address, or over a word with a row, is left.
#[inline(always)]
fn spill<B: HasWords>(
    own: &mut Processor,
    rows: &[Row],
    bus: &mut B,
    origin: u32,
    here: u32,
) -> bool
    requires needed { (own.old.cwp + 7) % 8 ≡ own.old.inv }
    requires aligned { here % 4 ≡ 0 }
    requires rows { AreRowsOf rows.now (B.areas bus.old) (B.memory bus.old) origin }
    ensures done { OnTrue result (IsSpilled here (B.areas bus.old) own.old own.new (B.memory bus.old) (B.memory bus.new)) }
    ensures registers { result ≡ false → own.new ≡ own.old }
    ensures bytes { result ≡ false → B.memory bus.new ≡ B.memory bus.old }
    ensures rows { AreRowsOf rows.now (B.areas bus.old) (B.memory bus.new) origin }
    ensures areas { B.areas bus.new ≡ B.areas bus.old }
    ensures others { B.others bus.new ≡ B.others bus.old }
{
    let window = (own.inv() + 7) % 8;
    let address = own.stack_of(window);
    let distance = here.wrapping_sub(address);
    if distance < 64 {
        return false;
    }
    if have_rows(rows, origin, address) {
        return false;
    }
    let words = own.saved(window);
    if bus.put_words(address, &words) {
        own.set_inv(window);
        true
    } else {
        false
    }
}

// The sum of the operands becomes a register of the window below, which is valid.
#[inline(always)]
fn enter_below(own: &mut Processor, row: &Row)
    requires valid { (own.old.cwp + 7) % 8 ≢ own.old.inv }
    requires registers { AreOperands row.now }
    requires result { row.now.rd < 32 }
    ensures entered { own.new ≡ with_register (in_window own.old ((own.old.cwp + 7) % 8)) row.now.rd (address_so Sum row.now own.old) }
    ensures zero { register_at own.old 0 ≡ 0 }
{
    proof! { let _zero = own.get(0); }
    let value = sum_of(own, row);
    own.enter_below();
    own.set(row.rd, value);
}

// The sum of the operands becomes a register of the window above, which is filled.
#[inline(always)]
fn enter_filled(own: &mut Processor, row: &Row, words: &[u32; 16])
    requires needed { (own.old.cwp + 1) % 8 ≡ own.old.inv }
    requires registers { AreOperands row.now }
    requires result { row.now.rd < 32 }
    ensures done { own.new ≡ with_register (in_window (window_filled own.old words.now) own.old.inv) row.now.rd (address_so Sum row.now own.old) }
    ensures apart { (r : ℕ) → r < 32 → register_at (window_filled own.old words.now) r ≡ register_at own.old r }
    ensures whole { length own.old.windows ≡ 128 }
    ensures counted { length words.now ≡ 16 }
    ensures zero { register_at own.old 0 ≡ 0 }
{
    proof! { let _zero = own.get(0); }
    let value = sum_of(own, row);
    own.enter_filled(words);
    own.set(row.rd, value);
}
