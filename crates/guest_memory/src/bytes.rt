//! Big endian values at a place of bytes.

ghost use Rattle.std.specs.Prelude.{◌≡◌, ℕ, ◌+◌, ◌*◌, ◌<◌, ◌≤◌, Some, length, replicate, slice_get, slice_index, take, drop};
ghost use Rattle.std.specs.Int.{byte_len, from_be_bytes, to_be_bytes, w16, w32, w64};
ghost use borrow.Rule.Slice.PartMut.{put_mid};
ghost use Rattle.guest_bus.specs.Access.{width_of};
ghost use Rattle.guest_bus.specs.Words.{bytes_of};
ghost use Rattle.guest_memory.specs.Flat.{AllBytes};

use guest_bus::Size;

/// The byte at a place.
pub(crate) fn byte_at(bytes: &[u8], at: usize) -> u8
    requires { at + 1 ≤ length bytes.now }
    ensures { slice_get bytes.now at ≡ Some result }
{
    bytes[at]
}

/// This many bytes from a place on.
pub(crate) fn part(bytes: &[u8], at: usize, count: usize) -> &[u8]
    requires { at + count ≤ length bytes.now }
    ensures { result.now ≡ take count (drop at bytes.now) }
{
    &bytes[at..at + count]
}

/// The big endian value of a size at a place.
pub(crate) fn value_at(bytes: &[u8], at: usize, size: Size) -> u64
    requires { at + byte_len (width_of size) ≤ length bytes.now }
    ensures { result ≡ from_be_bytes (width_of size) (take (byte_len (width_of size)) (drop at bytes.now)) }
{
    match size {
        Size::One => u64::from(bytes[at]),
        Size::Two => u64::from(half(bytes, at)),
        Size::Four => u64::from(word(bytes, at)),
        Size::Eight => double(bytes, at),
    }
}

/// The big endian number of two bytes at a place.
fn half(bytes: &[u8], at: usize) -> u16
    requires { at + 2 ≤ length bytes.now }
    ensures { result ≡ from_be_bytes w16 (take 2 (drop at bytes.now)) }
{
    let Ok(half) = <[u8; 2]>::try_from(&bytes[at..at + 2]) else {
        unreachable!();
    };
    u16::from_be_bytes(half)
}

/// The big endian number of four bytes at a place.
pub(crate) fn word(bytes: &[u8], at: usize) -> u32
    requires { at + 4 ≤ length bytes.now }
    ensures { result ≡ from_be_bytes w32 (take 4 (drop at bytes.now)) }
{
    let Ok(word) = <[u8; 4]>::try_from(&bytes[at..at + 4]) else {
        unreachable!();
    };
    u32::from_be_bytes(word)
}

/// The big endian number of eight bytes at a place.
fn double(bytes: &[u8], at: usize) -> u64
    requires { at + 8 ≤ length bytes.now }
    ensures { result ≡ from_be_bytes w64 (take 8 (drop at bytes.now)) }
{
    let Ok(double) = <[u8; 8]>::try_from(&bytes[at..at + 8]) else {
        unreachable!();
    };
    u64::from_be_bytes(double)
}

/// Puts the low bytes of a value at a place, the highest of them first.
pub(crate) fn put_value(bytes: &mut [u8], at: usize, size: Size, value: u64)
    requires { at + byte_len (width_of size) ≤ length bytes.old }
    ensures value { bytes.new ≡ put_mid at (byte_len (width_of size)) bytes.old (to_be_bytes (width_of size) value) }
    ensures bytes { AllBytes bytes.new }
{
    let value = value.to_be_bytes();
    match size {
        Size::One => bytes[at..at + 1].copy_from_slice(&value[7..]),
        Size::Two => bytes[at..at + 2].copy_from_slice(&value[6..]),
        Size::Four => bytes[at..at + 4].copy_from_slice(&value[4..]),
        Size::Eight => bytes[at..at + 8].copy_from_slice(&value),
    }
}

/// Puts bytes at a place of others.
pub(crate) fn write_at(bytes: &mut [u8], at: usize, from: &[u8])
    requires { at + length from.now ≤ length bytes.old }
    ensures value { bytes.new ≡ put_mid at (length from.now) bytes.old from.now }
    ensures bytes { AllBytes bytes.new }
{
    bytes[at..at + from.len()].copy_from_slice(from);
}

/// Puts sixteen words at a place, the highest byte of each first.
#[inline(always)]
pub(crate) fn put_words(bytes: &mut [u8], at: usize, words: &[u32; 16])
    requires { at + 64 ≤ length bytes.old }
    ensures value { bytes.new ≡ put_mid at 64 bytes.old (bytes_of words.now) }
    ensures bytes { AllBytes bytes.new }
    ensures counted { length words.now ≡ 16 }
{
    // They are put together first, so that they are written as one.
    let together = bytes_of(words);
    write_at(bytes, at, &together);
}

/// The bytes of sixteen words.
#[inline(always)]
fn bytes_of(words: &[u32; 16]) -> [u8; 64]
    ensures { result ≡ bytes_of words.now }
{
    let mut bytes = [0; 64];
    for i in 0..16usize {
        put_word(&mut bytes, 4 * i, words[i]);
    }
    bytes
}

/// Puts a word at a place, its highest byte first.
#[inline(always)]
fn put_word(bytes: &mut [u8], at: usize, word: u32)
    requires { at + 4 ≤ length bytes.old }
    ensures { bytes.new ≡ put_mid at 4 bytes.old (to_be_bytes w32 word) }
{
    bytes[at..at + 4].copy_from_slice(&word.to_be_bytes());
}

/// The sixteen words from a place on.
#[inline(always)]
pub(crate) fn get_words(bytes: &[u8], at: usize) -> [u32; 16]
    requires { at + 64 ≤ length bytes.now }
    ensures each { (k : ℕ) → k < 16 → slice_index result k ≡ from_be_bytes w32 (take 4 (drop (at + 4 * k) bytes.now)) }
    ensures counted { length result ≡ 16 }
{
    let mut words = [0; 16];
    for i in 0..8usize {
        let two = two_words(bytes, at + 8 * i);
        words[2 * i] = two.0;
        words[2 * i + 1] = two.1;
    }
    words
}

/// The two words from a place on, read as one.
#[inline(always)]
fn two_words(bytes: &[u8], at: usize) -> (u32, u32)
    requires { at + 8 ≤ length bytes.now }
    ensures first { result.0 ≡ from_be_bytes w32 (take 4 (drop at bytes.now)) }
    ensures second { result.1 ≡ from_be_bytes w32 (take 4 (drop (at + 4) bytes.now)) }
{
    let both = double(bytes, at);
    ((both >> 32) as u32, (both % 0x1_0000_0000) as u32)
}

/// Makes all bytes zero.
pub(crate) fn clear(bytes: &mut [u8])
    ensures value { bytes.new ≡ replicate (length bytes.old) 0 }
{
    bytes.fill(0);
}
