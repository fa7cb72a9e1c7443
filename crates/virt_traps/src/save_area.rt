//! The save area of a window: 64 bytes at its stack pointer.

ghost use Rattle.std.specs.Prelude.{◌≡◌, ◌+◌, ◌*◌, ◌/◌, ◌%◌, ◌^◌, ◌<◌, ◌≤◌, ◌++◌, true, length, slice_index, slice_set};
ghost use Rattle.std.specs.Int.{to_be_bytes, w32, w64};
ghost use Rattle.guest_bus.specs.Memory.{is_readable, is_writable, with_bytes};
ghost use Rattle.guest_bus.specs.Words.{allows, bytes_of, words_at};
ghost use Rattle.virt_traps.specs.lemmas.SaveAreaTerms.{allowed_for};
ghost use Rattle.virt_traps.specs.SaveArea.{is_usable};

use crate::windows::WindowMove;
use guest_bus::{Bus, Size};

// How many double words a save area has.
const DOUBLES: u8 = 8;

// The last address of a save area, which ends with the address space there.
const LAST: u32 = 0xffff_ffc0;

/// Whether a window may be moved by a save area at the address. Nothing changes.
#[tactic(auto, unfolding(crate::specs::SaveArea::is_usable))]
pub(crate) fn is_usable<B: Bus>(bus: &mut B, address: u32, which: WindowMove) -> bool
    ensures answer { result ≡ is_usable (allowed_for which (B.areas bus.old)) address }
    ensures memory { B.memory bus.new ≡ B.memory bus.old }
    ensures areas { B.areas bus.new ≡ B.areas bus.old }
    ensures others { B.others bus.new ≡ B.others bus.old }
{
    address % 8 == 0 && address <= LAST && may_all_be_used(bus, address, DOUBLES, which)
}

// Whether this many double words may be used from the address on. Nothing changes.
fn may_all_be_used<B: Bus>(bus: &mut B, address: u32, doubles: u8, which: WindowMove) -> bool
    requires aligned { address % 8 ≡ 0 }
    requires inside { address + 8 * doubles ≤ 2 ^ 32 }
    ensures answer { result ≡ allows (allowed_for which (B.areas bus.old)) address (8 * doubles) }
    ensures memory { B.memory bus.new ≡ B.memory bus.old }
    ensures areas { B.areas bus.new ≡ B.areas bus.old }
    ensures others { B.others bus.new ≡ B.others bus.old }
{
    for i in 0..doubles {
        if !may_be_used(bus, address + 8 * u32::from(i), which) {
            return false;
        }
    }
    true
}

// Whether a double word may be used. For a spill what stands there is written again, so nothing changes.
fn may_be_used<B: Bus>(bus: &mut B, address: u32, which: WindowMove) -> bool
    requires { address % 8 ≡ 0 }
    ensures answer { result ≡ allows (allowed_for which (B.areas bus.old)) address 8 }
    ensures memory { B.memory bus.new ≡ B.memory bus.old }
    ensures areas { B.areas bus.new ≡ B.areas bus.old }
    ensures others { B.others bus.new ≡ B.others bus.old }
{
    match bus.load(address, Size::Eight) {
        Ok(value) => match which {
            WindowMove::Spill => bus.store(address, Size::Eight, value).is_ok(),
            WindowMove::Fill => true,
        },
        Err(_) => false,
    }
}

/// Writes the locals of a window, and after them its ins, to its save area.
pub(crate) fn store_words<B: Bus>(words: &[u32; 16], bus: &mut B, address: u32)
    requires usable { is_usable (is_writable (B.areas bus.old)) address ≡ true }
    ensures memory { B.memory bus.new ≡ with_bytes (B.memory bus.old) address (bytes_of words.now) }
    ensures areas { B.areas bus.new ≡ B.areas bus.old }
    ensures others { B.others bus.new ≡ B.others bus.old }
{
    store_doubles(words, bus, address, DOUBLES);
}

// Writes words, this many double words.
fn store_doubles<B: Bus>(words: &[u32], bus: &mut B, address: u32, doubles: u8)
    requires counted { length words.now ≡ 2 * doubles }
    requires aligned { address % 8 ≡ 0 }
    requires inside { address + 8 * doubles ≤ 2 ^ 32 }
    requires allowed { allows (is_writable (B.areas bus.old)) address (8 * doubles) ≡ true }
    ensures memory { B.memory bus.new ≡ with_bytes (B.memory bus.old) address (bytes_of words.now) }
    ensures areas { B.areas bus.new ≡ B.areas bus.old }
    ensures others { B.others bus.new ≡ B.others bus.old }
{
    for i in 0..doubles {
        let value = double_of(words, 2 * usize::from(i));
        let Ok(()) = bus.store(address + 8 * u32::from(i), Size::Eight, value) else {
            unreachable!();
        };
    }
}

/// Reads the locals of a window, and after them its ins, from its save area.
pub(crate) fn load_words<B: Bus>(bus: &mut B, address: u32) -> [u32; 16]
    requires usable { is_usable (is_readable (B.areas bus.old)) address ≡ true }
    ensures words { result ≡ words_at (B.memory bus.old) address 16 }
    ensures memory { B.memory bus.new ≡ B.memory bus.old }
    ensures areas { B.areas bus.new ≡ B.areas bus.old }
    ensures others { B.others bus.new ≡ B.others bus.old }
{
    let mut words = [0; 16];
    load_doubles(&mut words, bus, address, DOUBLES);
    words
}

// Reads words, this many double words.
fn load_doubles<B: Bus>(words: &mut [u32], bus: &mut B, address: u32, doubles: u8)
    requires counted { length words.old ≡ 2 * doubles }
    requires aligned { address % 8 ≡ 0 }
    requires inside { address + 8 * doubles ≤ 2 ^ 32 }
    requires allowed { allows (is_readable (B.areas bus.old)) address (8 * doubles) ≡ true }
    ensures words { words.new ≡ words_at (B.memory bus.old) address (2 * doubles) }
    ensures memory { B.memory bus.new ≡ B.memory bus.old }
    ensures areas { B.areas bus.new ≡ B.areas bus.old }
    ensures others { B.others bus.new ≡ B.others bus.old }
{
    for i in 0..doubles {
        let Ok(value) = bus.load(address + 8 * u32::from(i), Size::Eight) else {
            unreachable!();
        };
        set_double(words, 2 * usize::from(i), value);
    }
}

// A double word of two words one after the other, the first of them high.
fn double_of(words: &[u32], at: usize) -> u64
    requires { at + 1 < length words.now }
    ensures { to_be_bytes w64 result ≡ to_be_bytes w32 (slice_index words.now at) ++ to_be_bytes w32 (slice_index words.now (at + 1)) }
{
    joined(words[at], words[at + 1])
}

// A double word of two words.
fn joined(high: u32, low: u32) -> u64
    ensures { to_be_bytes w64 result ≡ to_be_bytes w32 high ++ to_be_bytes w32 low }
{
    u64::from(high) << 32 | u64::from(low)
}

// Sets two words one after the other to those of a double word, the high one first.
fn set_double(words: &mut [u32], at: usize, value: u64)
    requires { at + 1 < length words.old }
    ensures { words.new ≡ slice_set (slice_set words.old at (value / 2 ^ 32)) (at + 1) (value % 2 ^ 32) }
{
    words[at] = (value >> 32) as u32;
    words[at + 1] = (value & 0xffff_ffff) as u32;
}
