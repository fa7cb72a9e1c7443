//! A bit of a byte of a partition's memory flips.

ghost use Rattle.std.specs.Prelude.{◌≡◌, ◌+◌, ◌^◌, ◌<◌, ◌≤◌, [], ◌∷◌, bit_xor, length, slice_index, true};
ghost use borrow.Rule.Slice.PartMut.{put_mid};
ghost use Rattle.guest_bus.specs.Memory.{is_readable};
ghost use Rattle.guest_memory.specs.Flat.{AllBytes, listed, memory_in};
ghost use Rattle.guest_memory.specs.Flips.{with_flipped};
ghost use Rattle.guest_memory.specs.lemmas.FlatTerms.{IsPartOf, IsSpace, SameAround, memory_of_part};

use crate::bytes::{byte_at, put_value};
use crate::entry::Entry;
use crate::find::place_of;
use crate::table::Table;
use guest_bus::Size;

/// A bit of the byte at an address of a partition flips, among the bytes of all.
pub(crate) fn flip(table: &Table, whole: &mut [u8], address: u32, bit: u8)
    requires part { IsPartOf table.now whole.old }
    requires readable { is_readable (listed table.now.entries) address ≡ true }
    requires bit { bit < 8 }
    ensures memory { memory_of_part table.now whole.new ≡ with_flipped address bit (memory_of_part table.now whole.old) }
    ensures others { SameAround table.now whole.old whole.new }
    ensures bytes { AllBytes whole.new }
{
    let place = table.place() as usize;
    let end = place + table.size() as usize;
    flip_in(table.entries(), &mut whole[place..end], address, bit);
}

// The same among the bytes of the partition alone.
fn flip_in(entries: &[Entry], bytes: &mut [u8], address: u32, bit: u8)
    requires space { IsSpace entries.now bytes.old }
    requires readable { is_readable (listed entries.now) address ≡ true }
    requires bit { bit < 8 }
    ensures memory { memory_in (listed entries.now) bytes.new ≡ with_flipped address bit (memory_in (listed entries.now) bytes.old) }
    ensures length { length bytes.new ≡ length bytes.old }
    ensures bytes { AllBytes bytes.new }
{
    match place_of(entries, u64::from(address)) {
        Some(place) => flip_byte(bytes, place.byte, bit),
        // The address is in an area.
        None => {}
    }
}

// A bit of the byte at a place flips.
fn flip_byte(bytes: &mut [u8], at: usize, bit: u8)
    requires at { at + 1 ≤ length bytes.old }
    requires bit { bit < 8 }
    ensures value { bytes.new ≡ put_mid at 1 bytes.old (bit_xor (slice_index bytes.old at) (2 ^ bit) ∷ []) }
    ensures bytes { AllBytes bytes.new }
{
    let flipped = flipped(byte_at(bytes, at), bit);
    put_value(bytes, at, Size::One, u64::from(flipped));
}

// A byte after the flip of a bit.
fn flipped(byte: u8, bit: u8) -> u8
    requires { bit < 8 }
    ensures { result ≡ bit_xor byte (2 ^ bit) }
{
    byte ^ (1 << bit)
}
