//! Ranges of addresses, which may run through several areas.

ghost use Rattle.std.specs.Prelude.{◌≡◌, ◌+◌, ◌<◌, ◌≤◌, ◌^◌, true, false, IfSome, IsNone, length, take};
ghost use borrow.Rule.Slice.PartMut.{put_mid};
ghost use Rattle.guest_bus.specs.Memory.{all_from, bytes_at, is_readable, with_bytes};
ghost use Rattle.guest_memory.specs.lemmas.FlatTerms.{IsSpace, StandsInArea};
ghost use Rattle.guest_memory.specs.Flat.{listed, memory_in};
ghost use Rattle.guest_memory.specs.Loading.{LiesInAreas, areas_with_image};
ghost use Rattle.guest_memory.specs.Memories.{ArePlaced, first_refused};
ghost use Rattle.guest_memory.specs.lemmas.MemoriesTerms.{allows_byte};

use crate::access::Access;
use crate::bytes::{clear, part, write_at};
use crate::entry::{Entry, Place};
use crate::find::place_of;
use xef_images::Xef;

/// How many bytes from an address on are allowed in the area that has it, or `None` where the first is not.
fn room(entries: &[Entry], access: Access, address: u64) -> Option<usize>
    requires { ArePlaced (listed entries.now) }
    ensures some { IfSome result (λ room. 0 < room) }
    ensures allowed { IfSome result (λ room. all_from (allows_byte access (listed entries.now)) address room ≡ true) }
    ensures ends { IfSome result (λ room. address + room ≤ 2 ^ 32) }
    ensures none { IsNone result → allows_byte access (listed entries.now) address ≡ false }
{
    match place_of(entries, address) {
        Some(place) => {
            if access.is_refused(place.read_only) {
                None
            } else {
                Some(place.room)
            }
        }
        None => None,
    }
}

/// Where the byte at an address lies, where its area has this many bytes from it on, and allows them.
#[inline(always)]
pub(crate) fn place_within(
    entries: &[Entry],
    access: Access,
    address: u32,
    count: usize,
) -> Option<Place>
    requires { ArePlaced (listed entries.now) }
    ensures allowed { IfSome result (λ place. all_from (allows_byte access (listed entries.now)) address count ≡ true) }
    ensures stands { IfSome result (λ place. StandsInArea address count place entries.now) }
{
    match place_of(entries, u64::from(address)) {
        Some(place) => {
            if place.room < count {
                None
            } else if access.is_refused(place.read_only) {
                None
            } else {
                Some(place)
            }
        }
        None => None,
    }
}

/// Whether this many bytes from an address on are allowed.
#[inline(always)]
pub(crate) fn are_allowed(entries: &[Entry], access: Access, address: u32, count: usize) -> bool
    requires { ArePlaced (listed entries.now) }
    ensures { result ≡ all_from (allows_byte access (listed entries.now)) address count }
{
    place_within(entries, access, address, count).is_some()
        || is_none_refused(entries, access, address, count)
}

/// The same, by a search for the first that is not allowed.
#[cold]
#[inline(never)]
fn is_none_refused(entries: &[Entry], access: Access, address: u32, count: usize) -> bool
    requires { ArePlaced (listed entries.now) }
    ensures { result ≡ all_from (allows_byte access (listed entries.now)) address count }
{
    refused(entries, access, address, count).is_none()
}

/// The first of this many addresses from one on that is not allowed.
pub(crate) fn refused(entries: &[Entry], access: Access, address: u32, count: usize) -> Option<u64>
    requires { ArePlaced (listed entries.now) }
    ensures value { result ≡ first_refused (allows_byte access (listed entries.now)) address count }
    ensures ends { IsNone result → address + count ≤ 2 ^ 32 }
{
    let mut at = u64::from(address);
    let mut left = count;
    while left > 0 {
        match room(entries, access, at) {
            Some(room) => {
                let piece = room.min(left);
                at += piece as u64;
                left -= piece;
            }
            None => return Some(at),
        }
    }
    None
}

/// Copies the bytes from an address on.
pub(crate) fn read(entries: &[Entry], bytes: &[u8], address: u64, into: &mut [u8])
    requires space { IsSpace entries.now bytes.now }
    requires allowed { all_from (is_readable (listed entries.now)) address (length into.old) ≡ true }
    requires ends { address + length into.old ≤ 2 ^ 32 }
    ensures read { into.new ≡ bytes_at (memory_in (listed entries.now) bytes.now) address (length into.old) }
{
    let mut done = 0;
    while done < into.len() {
        done += read_piece(entries, bytes, address + done as u64, into, done);
    }
}

/// Copies the bytes from an address on that stand in one area to a place, and answers how many.
fn read_piece(entries: &[Entry], bytes: &[u8], address: u64, into: &mut [u8], done: usize) -> usize
    requires space { IsSpace entries.now bytes.now }
    requires readable { is_readable (listed entries.now) address ≡ true }
    requires some { done < length into.old }
    ensures some { 0 < result }
    ensures within { done + result ≤ length into.old }
    ensures read { into.new ≡ put_mid done result into.old (bytes_at (memory_in (listed entries.now) bytes.now) address result) }
{
    match place_of(entries, address) {
        Some(place) => {
            let count = place.room.min(into.len() - done);
            write_at(into, done, part(bytes, place.byte, count));
            count
        }
        None => unreachable!(),
    }
}

/// Writes bytes from an address on, in areas that may only be read, too.
pub(crate) fn write(entries: &[Entry], bytes: &mut [u8], address: u64, from: &[u8])
    requires space { IsSpace entries.now bytes.old }
    requires allowed { all_from (is_readable (listed entries.now)) address (length from.now) ≡ true }
    requires ends { address + length from.now ≤ 2 ^ 32 }
    ensures written { memory_in (listed entries.now) bytes.new ≡ with_bytes (memory_in (listed entries.now) bytes.old) address from.now }
    ensures length { length bytes.new ≡ length bytes.old }
{
    let mut done = 0;
    while done < from.len() {
        done += write_piece(entries, bytes, address + done as u64, &from[done..]);
    }
}

/// Writes the first of some bytes from an address on, as many as stand in one area, and answers how many.
fn write_piece(entries: &[Entry], bytes: &mut [u8], address: u64, from: &[u8]) -> usize
    requires space { IsSpace entries.now bytes.old }
    requires readable { is_readable (listed entries.now) address ≡ true }
    requires some { 0 < length from.now }
    ensures some { 0 < result }
    ensures within { result ≤ length from.now }
    ensures written { memory_in (listed entries.now) bytes.new ≡ with_bytes (memory_in (listed entries.now) bytes.old) address (take result from.now) }
    ensures length { length bytes.new ≡ length bytes.old }
{
    match place_of(entries, address) {
        Some(place) => {
            let count = place.room.min(from.len());
            write_at(bytes, place.byte, &from[..count]);
            count
        }
        None => unreachable!(),
    }
}

/// Loads an image, with zeros in all other places.
pub(crate) fn load_image(entries: &[Entry], bytes: &mut [u8], image: &Xef)
    requires space { IsSpace entries.now bytes.old }
    requires inside { LiesInAreas (listed entries.now) image.now }
    ensures memory { memory_in (listed entries.now) bytes.new ≡ areas_with_image (listed entries.now) image.now }
    ensures length { length bytes.new ≡ length bytes.old }
{
    clear(bytes);
    for segment in image.segments() {
        write(entries, bytes, u64::from(segment.address), &segment.bytes);
    }
}
