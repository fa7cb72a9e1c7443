//! Loads and stores.

ghost use Rattle.std.specs.Prelude.{◌≡◌, ◌≢◌, ◌^◌, ◌+◌, ◌<◌, ◌≤◌, false, length, None, not, slice_get, Some, true};
ghost use Rattle.std.specs.Bool.{OnTrue};
ghost use Rattle.guest_bus.specs.Access.{after_store, store_fault};
ghost use Rattle.predecode.specs.Kinds.{is_unmade};
ghost use Rattle.predecode.specs.declared.rows.Row.{Row as Placed};
ghost use Rattle.predecode.specs.lemmas.Reached.{word_after};
ghost use Rattle.guest_bus.specs.declared.bus.Size.TheVariants.{Eight};
ghost use Rattle.sparc_code.specs.declared.instruction.MemOp.TheVariants.{LdD, StD};
ghost use Rattle.sparc_step.specs.Cached.{register_of};
ghost use Rattle.sparc_step.specs.Registers.{register_at};
ghost use Rattle.sparc_step.specs.Transfers.{pair_at};
ghost use Rattle.fast_loop.specs.lemmas.Effects.{IsTransferred, extended_by, load_by_size, store_by_size};
ghost use Rattle.fast_loop.specs.Keeping.{AreRowsOf};
ghost use Rattle.fast_loop.specs.lemmas.Moves.{HasMoved, HaveNoRows};

use crate::simple::Step;
use crate::ways::Way;
use guest_bus::{Bus, Size};
use predecode::{Kind, Row};
use sparc_step::Processor;
use sparc_step::transfers::{signed_byte, signed_half};

/// The loads of less than a double word, by their size, and whether they extend a sign. One that is refused changes nothing.
#[inline(always)]
pub(crate) fn load<B: Bus>(
    own: &mut Processor,
    bus: &mut B,
    row: &Row,
    address: u32,
    size: Size,
    signed: bool,
) -> Step
    requires rd { row.now.rd < 33 }
    requires held { 0 < row.now.rd }
    requires size { size ≢ Eight }
    ensures moved { HasMoved result (load_by_size signed size) (register_of row.now.rd) address (B.areas bus.old) own.old own.new (B.memory bus.old) (B.memory bus.new) }
    ensures memory { B.memory bus.new ≡ B.memory bus.old }
    ensures areas { B.areas bus.new ≡ B.areas bus.old }
    ensures others { B.others bus.new ≡ B.others bus.old }
{
    match bus.load(address, size) {
        Ok(value) => {
            own.put(row.rd, extended(value, size, signed));
            Step::Next(Way::Loads)
        }
        Err(_) => Step::Stays,
    }
}

// A value of this many bytes as a word.
#[inline(always)]
fn extended(value: u64, size: Size, signed: bool) -> u32
    ensures { result ≡ extended_by signed size value }
{
    if signed {
        match size {
            Size::One => signed_byte(value),
            Size::Two => signed_half(value),
            Size::Four => (value % 0x1_0000_0000) as u32,
            Size::Eight => (value % 0x1_0000_0000) as u32,
        }
    } else {
        (value % 0x1_0000_0000) as u32
    }
}

/// LDD. One that is refused changes nothing.
#[inline(always)]
pub(crate) fn load_double<B: Bus>(own: &mut Processor, bus: &mut B, row: &Row, address: u32) -> Step
    requires { row.now.rd < 32 }
    ensures moved { HasMoved result LdD row.now.rd address (B.areas bus.old) own.old own.new (B.memory bus.old) (B.memory bus.new) }
    ensures memory { B.memory bus.new ≡ B.memory bus.old }
    ensures areas { B.areas bus.new ≡ B.areas bus.old }
    ensures others { B.others bus.new ≡ B.others bus.old }
{
    if row.rd % 2 != 0 {
        return Step::Stays;
    }
    match bus.load(address, Size::Eight) {
        Ok(value) => {
            own.set_pair(row.rd, value);
            Step::Next(Way::Loads)
        }
        Err(_) => Step::Stays,
    }
}

// Whether the word of a place has a row.
#[inline(always)]
fn has_row(rows: &[Row], place: usize) -> bool
    requires { place < 2 ^ 30 }
    ensures { result ≡ false → HaveNoRows rows.now place 1 }
{
    if place < rows.len() {
        is_made(rows, place)
    } else {
        false
    }
}

// Whether the row of a place is made.
#[inline(always)]
fn is_made(rows: &[Row], place: usize) -> bool
    requires { place < length rows.now }
    ensures { (row : Placed) → slice_get rows.now place ≡ Some row → result ≡ not (is_unmade row.kind) }
{
    match rows[place].kind {
        Kind::Empty => false,
        _ => true,
    }
}

/// STB, STH and ST, by their size. One that is refused, or writes a word that has a row, changes nothing.
#[inline(always)]
pub(crate) fn store_register<B: Bus>(
    own: &Processor,
    rows: &[Row],
    bus: &mut B,
    origin: u32,
    rd: u8,
    address: u32,
    size: Size,
) -> Step
    requires rd { rd < 32 }
    requires size { size ≢ Eight }
    requires rows { AreRowsOf rows.now (B.areas bus.old) (B.memory bus.old) origin }
    ensures moved { HasMoved result (store_by_size size) rd address (B.areas bus.old) own.now own.now (B.memory bus.old) (B.memory bus.new) }
    ensures rows { AreRowsOf rows.now (B.areas bus.old) (B.memory bus.new) origin }
    ensures areas { B.areas bus.new ≡ B.areas bus.old }
    ensures others { B.others bus.new ≡ B.others bus.old }
{
    if has_row(rows, word_after(origin, address)) {
        return Step::Stays;
    }
    if store_word(own, bus, rd, address, size) {
        Step::Next(Way::Stores)
    } else {
        Step::Stays
    }
}

/// STD. One that is refused, or writes a word that has a row, changes nothing.
#[inline(always)]
pub(crate) fn store_double<B: Bus>(
    own: &Processor,
    rows: &[Row],
    bus: &mut B,
    origin: u32,
    rd: u8,
    address: u32,
) -> Step
    requires rd { rd < 32 }
    requires rows { AreRowsOf rows.now (B.areas bus.old) (B.memory bus.old) origin }
    ensures moved { HasMoved result StD rd address (B.areas bus.old) own.now own.now (B.memory bus.old) (B.memory bus.new) }
    ensures rows { AreRowsOf rows.now (B.areas bus.old) (B.memory bus.new) origin }
    ensures areas { B.areas bus.new ≡ B.areas bus.old }
    ensures others { B.others bus.new ≡ B.others bus.old }
{
    if rd % 2 != 0 {
        return Step::Stays;
    }
    if have_two(rows, origin, address) {
        return Step::Stays;
    }
    if store_pair(own, bus, rd, address) {
        Step::Next(Way::Stores)
    } else {
        Step::Stays
    }
}

// Stores a register. The answer is whether it was not refused.
#[inline(always)]
fn store_word<B: Bus>(own: &Processor, bus: &mut B, rd: u8, address: u32, size: Size) -> bool
    requires rd { rd < 32 }
    requires size { size ≢ Eight }
    ensures done { OnTrue result (IsTransferred (store_by_size size) rd address (B.areas bus.old) own.now own.now (B.memory bus.old) (B.memory bus.new)) }
    ensures stored { B.memory bus.new ≡ after_store (B.areas bus.old) (B.memory bus.old) address size (register_at own.now rd) }
    ensures untouched { result ≡ false → B.memory bus.new ≡ B.memory bus.old }
    ensures areas { B.areas bus.new ≡ B.areas bus.old }
    ensures others { B.others bus.new ≡ B.others bus.old }
{
    let value = u64::from(own.get(rd));
    store(bus, address, size, value)
}

// Stores a pair of registers.
#[inline(always)]
fn store_pair<B: Bus>(own: &Processor, bus: &mut B, rd: u8, address: u32) -> bool
    requires { rd + 1 < 32 }
    ensures done { OnTrue result (IsTransferred StD rd address (B.areas bus.old) own.now own.now (B.memory bus.old) (B.memory bus.new)) }
    ensures stored { B.memory bus.new ≡ after_store (B.areas bus.old) (B.memory bus.old) address Eight (pair_at own.now rd) }
    ensures untouched { result ≡ false → B.memory bus.new ≡ B.memory bus.old }
    ensures areas { B.areas bus.new ≡ B.areas bus.old }
    ensures others { B.others bus.new ≡ B.others bus.old }
{
    let value = own.pair(rd);
    store(bus, address, Size::Eight, value)
}

// Stores a value.
#[inline(always)]
fn store<B: Bus>(bus: &mut B, address: u32, size: Size, value: u64) -> bool
    ensures free { OnTrue result (store_fault (B.areas bus.old) address size ≡ None) }
    ensures memory { B.memory bus.new ≡ after_store (B.areas bus.old) (B.memory bus.old) address size value }
    ensures untouched { result ≡ false → B.memory bus.new ≡ B.memory bus.old }
    ensures areas { B.areas bus.new ≡ B.areas bus.old }
    ensures others { B.others bus.new ≡ B.others bus.old }
{
    match bus.store(address, size, value) {
        Ok(()) => true,
        Err(_) => false,
    }
}

// How many words after the first one another stands, by its address.
#[inline(always)]
#[tactic(auto, unfolding(predecode::specs::lemmas::Reached::word_after))]
fn word_after(origin: u32, address: u32) -> usize
    ensures value { result ≡ word_after origin address }
    ensures few { result < 2 ^ 30 }
{
    (address.wrapping_sub(origin) >> 2) as usize
}

// Whether the word of an address or the next one has a row.
#[inline(always)]
fn have_two(rows: &[Row], origin: u32, address: u32) -> bool
    requires { length rows.now ≤ 2 ^ 30 }
    ensures { result ≡ false → HaveNoRows rows.now (word_after origin address) 2 }
{
    let place = word_after(origin, address);
    if has_row(rows, place) {
        true
    } else {
        has_row(rows, word_after(origin, address.wrapping_add(4)))
    }
}

/// Whether some of the sixteen words from an address on may have rows.
#[inline(always)]
pub(crate) fn have_rows(rows: &[Row], origin: u32, address: u32) -> bool
    requires { length rows.now ≤ 2 ^ 30 }
    ensures { result ≡ false → HaveNoRows rows.now (word_after origin address) 16 }
{
    let place = word_after(origin, address);
    if place >= rows.len() && place < 0x4000_0000 - 16 {
        false
    } else {
        has_some(rows, origin, address)
    }
}

// Whether one of sixteen words has a row.
#[cold]
#[inline(never)]
fn has_some(rows: &[Row], origin: u32, address: u32) -> bool
    requires { length rows.now ≤ 2 ^ 30 }
    ensures { result ≡ false → HaveNoRows rows.now (word_after origin address) 16 }
{
    for k in 0..16u32 {
        if has_row(rows, word_after(origin, address.wrapping_add(4 * k))) {
            return true;
        }
    }
    false
}
