//! A cursor that reads big endian numbers, one after the other.

ghost use Rattle.std.specs.Prelude.{◌≡◌, IfOk, length};
ghost use Rattle.std.specs.Int.{w8, w16, w32, w64};
ghost use Rattle.xm_base.specs.Cursor.{IsNumberOf, left, next, cursor_start};
ghost use Rattle.xm_base.specs.CursorMoves.{Moves};

use byteorder::{BigEndian, ByteOrder};
use std::marker::Model;

/// Fewer bytes are left than were asked for.
#[derive(Clone, Copy, Debug, PartialEq, Eq)]
pub struct Short {
    /// Where the bytes that are missed would begin.
    pub at: usize,
}

/// Bytes, and a place among them from which they are read.
#[derive(Debug, Drop)]
pub struct Cursor<'a> {
    bytes: &'a [u8],
    at: usize,
}

impl<'a> Model for Cursor<'a> {
    ghost use Rattle.std.specs.Prelude.{◌≤◌, length};
    ghost use Rattle.xm_base.specs.Cursor.{Place};

    ghost Value = { Place };

    ghost view = { λ cursor. record { bytes = cursor.bytes.now; at = cursor.at } };

    ghost invariant = { λ cursor. cursor.at ≤ length cursor.bytes.now };
}

impl<'a> Cursor<'a> {
    /// A cursor at the first of the bytes.
    pub fn new(bytes: &'a [u8]) -> Cursor<'a>
        ensures { result ≡ cursor_start bytes.now }
    {
        Cursor { bytes, at: 0 }
    }

    /// The cursor's place, counted from the first byte.
    pub fn at(&self) -> usize
        ensures { result ≡ self.now.at }
    {
        self.at
    }

    /// How many bytes are left.
    pub fn left(&self) -> usize
        ensures { result ≡ left self.now }
    {
        self.bytes.len() - self.at
    }

    /// The next byte.
    pub fn u8(&mut self) -> Result<u8, Short>
        // The bytes are there and the cursor is past them; or fewer are left than asked, the answer has the cursor's
        // place, and it stays.
        ensures moves { Moves 1 self.old self.new result }
        // The number is the big endian number of the next bytes, and they are the number's bytes.
        ensures number { IfOk result (λ number. IsNumberOf w8 (next 1 self.old) number) }
    {
        Ok(self.take(1)?[0])
    }

    /// The next two bytes as a number.
    pub fn u16(&mut self) -> Result<u16, Short>
        // The bytes are there and the cursor is past them; or fewer are left than asked, the answer has the cursor's
        // place, and it stays.
        ensures moves { Moves 2 self.old self.new result }
        // The number is the big endian number of the next bytes, and they are the number's bytes.
        ensures number { IfOk result (λ number. IsNumberOf w16 (next 2 self.old) number) }
    {
        Ok(half_word(self.take(2)?))
    }

    /// The next four bytes as a number.
    pub fn u32(&mut self) -> Result<u32, Short>
        // The bytes are there and the cursor is past them; or fewer are left than asked, the answer has the cursor's
        // place, and it stays.
        ensures moves { Moves 4 self.old self.new result }
        // The number is the big endian number of the next bytes, and they are the number's bytes.
        ensures number { IfOk result (λ number. IsNumberOf w32 (next 4 self.old) number) }
    {
        Ok(word(self.take(4)?))
    }

    /// The next eight bytes as a number.
    pub fn u64(&mut self) -> Result<u64, Short>
        // The bytes are there and the cursor is past them; or fewer are left than asked, the answer has the cursor's
        // place, and it stays.
        ensures moves { Moves 8 self.old self.new result }
        // The number is the big endian number of the next bytes, and they are the number's bytes.
        ensures number { IfOk result (λ number. IsNumberOf w64 (next 8 self.old) number) }
    {
        Ok(double_word(self.take(8)?))
    }

    /// The next bytes, this many.
    pub fn take(&mut self, n: usize) -> Result<&'a [u8], Short>
        // The bytes are there and the cursor is past them; or fewer are left than asked, the answer has the cursor's
        // place, and it stays.
        ensures moves { Moves n self.old self.new result }
        // The bytes are the next ones.
        ensures bytes { IfOk result (λ bytes. bytes.now ≡ next n self.old) }
    {
        if self.left() < n {
            return Err(Short { at: self.at });
        }
        let bytes = &self.bytes[self.at..self.at + n];
        self.at += n;
        Ok(bytes)
    }
}

/// The number that two bytes are.
fn half_word(bytes: &[u8]) -> u16
    requires { length bytes.now ≡ 2 }
    ensures { IsNumberOf w16 bytes.now result }
{
    BigEndian::read_u16(bytes)
}

/// The number that four bytes are.
fn word(bytes: &[u8]) -> u32
    requires { length bytes.now ≡ 4 }
    ensures { IsNumberOf w32 bytes.now result }
{
    BigEndian::read_u32(bytes)
}

/// The number that eight bytes are.
fn double_word(bytes: &[u8]) -> u64
    requires { length bytes.now ≡ 8 }
    ensures { IsNumberOf w64 bytes.now result }
{
    BigEndian::read_u64(bytes)
}
