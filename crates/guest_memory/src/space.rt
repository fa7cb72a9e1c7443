//! The memory of one partition.

ghost use Rattle.std.specs.Prelude.{◌≡◌, ◌+◌, ◌≤◌, ◌↔◌, false, IsNone, OnErr, OnOk, length, take, drop, IfSome};
ghost use Rattle.std.specs.FinMap.{get};
ghost use Rattle.std.specs.Int.{byte_len};
ghost use Rattle.guest_bus.specs.Access.{Stores, after_store, fetched, loaded, store_fault, width_of};
ghost use Rattle.guest_bus.specs.Memory.{bytes_at, is_readable, is_writable, with_bytes};
ghost use Rattle.guest_memory.specs.Flat.{AllBytes, listed, memory_in};
ghost use Rattle.guest_memory.specs.lemmas.FlatTerms.{IsSpace, FindsPlace};
ghost use Rattle.guest_memory.specs.Memories.{ArePlaced, answer_by, first_refused};

use crate::access::Access;
use crate::bytes::{byte_at, part, put_value, value_at, word, write_at};
use crate::entry::{Entry, Place};
use crate::find::place_of;
use crate::outside::Outside;
use crate::range::{place_within, read, refused, write};
use guest_bus::{BusFault, Size};

/// The byte at an address.
pub(crate) fn byte(entries: &[Entry], bytes: &[u8], address: u32) -> Option<u8>
    requires { IsSpace entries.now bytes.now }
    ensures value { result ≡ get (memory_in (listed entries.now) bytes.now) address }
    ensures none { IsNone result ↔ (is_readable (listed entries.now) address ≡ false) }
{
    match place_of(entries, u64::from(address)) {
        Some(place) => Some(byte_at(bytes, place.byte)),
        None => None,
    }
}

/// Where an access of a size begins, or why it is refused.
fn accessed(entries: &[Entry], address: u32, size: Size) -> Result<Place, BusFault>
    requires { ArePlaced (listed entries.now) }
    ensures { FindsPlace (is_readable (listed entries.now)) result entries.now address (byte_len (width_of size)) }
{
    if address % size.bytes() != 0 {
        return Err(BusFault::Unaligned);
    }
    match place_of(entries, u64::from(address)) {
        Some(place) => Ok(place),
        None => Err(BusFault::Outside),
    }
}

/// The word that a fetch answers.
pub(crate) fn fetch(entries: &[Entry], bytes: &[u8], address: u32) -> Result<u32, BusFault>
    requires { IsSpace entries.now bytes.now }
    ensures value { result ≡ fetched (listed entries.now) (memory_in (listed entries.now) bytes.now) address }
{
    match accessed(entries, address, Size::Four) {
        Ok(place) => Ok(word(bytes, place.byte)),
        Err(fault) => Err(fault),
    }
}

/// The value that a load answers.
pub(crate) fn load(
    entries: &[Entry],
    bytes: &[u8],
    address: u32,
    size: Size,
) -> Result<u64, BusFault>
    requires { IsSpace entries.now bytes.now }
    ensures value { result ≡ loaded (listed entries.now) (memory_in (listed entries.now) bytes.now) address size }
{
    match accessed(entries, address, size) {
        Ok(place) => Ok(value_at(bytes, place.byte, size)),
        Err(fault) => Err(fault),
    }
}

/// Where a store of a size begins, or why it is refused.
fn stored(entries: &[Entry], address: u32, size: Size) -> Result<Place, BusFault>
    requires { ArePlaced (listed entries.now) }
    ensures { FindsPlace (is_writable (listed entries.now)) result entries.now address (byte_len (width_of size)) }
{
    match accessed(entries, address, size) {
        Ok(place) => {
            if Access::Write.is_refused(place.read_only) {
                Err(BusFault::Outside)
            } else {
                Ok(place)
            }
        }
        Err(fault) => Err(fault),
    }
}

/// Stores a value where nothing refuses it, by a search.
#[cold]
#[inline(never)]
pub(crate) fn store(
    entries: &[Entry],
    bytes: &mut [u8],
    address: u32,
    size: Size,
    value: u64,
) -> Result<(), BusFault>
    requires { IsSpace entries.now bytes.old }
    ensures fault { Stores result (store_fault (listed entries.now) address size) }
    ensures memory { memory_in (listed entries.now) bytes.new ≡ after_store (listed entries.now) (memory_in (listed entries.now) bytes.old) address size value }
    ensures length { length bytes.new ≡ length bytes.old }
    ensures bytes { AllBytes bytes.new }
{
    match stored(entries, address, size) {
        Ok(place) => {
            put_value(bytes, place.byte, size, value);
            Ok(())
        }
        Err(fault) => Err(fault),
    }
}

/// This many bytes from an address on, where one area has all of them.
pub(crate) fn bytes<'a>(
    entries: &[Entry],
    bytes: &'a [u8],
    address: u32,
    count: usize,
) -> Option<&'a [u8]>
    requires { IsSpace entries.now bytes.now }
    ensures { IfSome result (λ found. found.now ≡ bytes_at (memory_in (listed entries.now) bytes.now) address count) }
{
    match place_within(entries, Access::Read, address, count) {
        Some(place) => Some(part(bytes, place.byte, count)),
        None => None,
    }
}

/// Copies the bytes from an address on, where all may be read.
#[inline(always)]
pub(crate) fn copy_in(
    entries: &[Entry],
    bytes: &[u8],
    address: u32,
    into: &mut [u8],
) -> Result<(), Outside>
    requires { IsSpace entries.now bytes.now }
    ensures answer { result ≡ answer_by (first_refused (is_readable (listed entries.now)) address (length into.old)) }
    ensures read { OnOk result (into.new ≡ bytes_at (memory_in (listed entries.now) bytes.now) address (length into.old)) }
    ensures unchanged { OnErr result (into.new ≡ into.old) }
{
    match place_within(entries, Access::Read, address, into.len()) {
        Some(place) => {
            copy_part(bytes, place.byte, into);
            Ok(())
        }
        None => copy_pieces_in(entries, bytes, address, into),
    }
}

/// Copies bytes from a place on.
fn copy_part(bytes: &[u8], at: usize, into: &mut [u8])
    requires { at + length into.old ≤ length bytes.now }
    ensures { into.new ≡ take (length into.old) (drop at bytes.now) }
{
    into.copy_from_slice(part(bytes, at, into.len()));
}

/// The same piece by piece.
#[cold]
#[inline(never)]
fn copy_pieces_in(
    entries: &[Entry],
    bytes: &[u8],
    address: u32,
    into: &mut [u8],
) -> Result<(), Outside>
    requires { IsSpace entries.now bytes.now }
    ensures answer { result ≡ answer_by (first_refused (is_readable (listed entries.now)) address (length into.old)) }
    ensures read { OnOk result (into.new ≡ bytes_at (memory_in (listed entries.now) bytes.now) address (length into.old)) }
    ensures unchanged { OnErr result (into.new ≡ into.old) }
{
    match refused(entries, Access::Read, address, into.len()) {
        Some(at) => Err(Outside::at(at)),
        None => {
            read(entries, bytes, u64::from(address), into);
            Ok(())
        }
    }
}

/// Writes bytes from an address on, where all may be written.
#[inline(always)]
pub(crate) fn copy_out(
    entries: &[Entry],
    bytes: &mut [u8],
    address: u32,
    from: &[u8],
) -> Result<(), Outside>
    requires { IsSpace entries.now bytes.old }
    ensures answer { result ≡ answer_by (first_refused (is_writable (listed entries.now)) address (length from.now)) }
    ensures written { OnOk result (memory_in (listed entries.now) bytes.new ≡ with_bytes (memory_in (listed entries.now) bytes.old) address from.now) }
    ensures unchanged { OnErr result (bytes.new ≡ bytes.old) }
    ensures length { length bytes.new ≡ length bytes.old }
    ensures bytes { AllBytes bytes.new }
{
    match place_within(entries, Access::Write, address, from.len()) {
        Some(place) => {
            write_at(bytes, place.byte, from);
            Ok(())
        }
        None => copy_pieces_out(entries, bytes, address, from),
    }
}

/// The same piece by piece.
#[cold]
#[inline(never)]
fn copy_pieces_out(
    entries: &[Entry],
    bytes: &mut [u8],
    address: u32,
    from: &[u8],
) -> Result<(), Outside>
    requires { IsSpace entries.now bytes.old }
    ensures answer { result ≡ answer_by (first_refused (is_writable (listed entries.now)) address (length from.now)) }
    ensures written { OnOk result (memory_in (listed entries.now) bytes.new ≡ with_bytes (memory_in (listed entries.now) bytes.old) address from.now) }
    ensures unchanged { OnErr result (bytes.new ≡ bytes.old) }
    ensures length { length bytes.new ≡ length bytes.old }
    ensures bytes { AllBytes bytes.new }
{
    match refused(entries, Access::Write, address, from.len()) {
        Some(at) => Err(Outside::at(at)),
        None => {
            write(entries, bytes, u64::from(address), from);
            Ok(())
        }
    }
}
