//! Fields that are put after bytes.

ghost use Rattle.std.specs.Prelude.{◌∷◌, []};
ghost use Rattle.bin_config.specs.lemmas.Puts.{Puts};
ghost use Rattle.bin_config.specs.Xmc as xmc;

use byteorder::{BigEndian, ByteOrder};
use xm_base::Memory;

/// Puts bytes as they are.
pub(crate) fn append(bytes: &mut Vec<u8>, piece: &[u8]) -> Result<(), Memory>
    ensures { Puts result bytes.old.items bytes.new.items piece.now }
{
    match bytes.extend_from_slice(piece) {
        Ok(()) => Ok(()),
        Err(_) => Err(Memory),
    }
}

/// Puts one byte.
pub(crate) fn put_byte(bytes: &mut Vec<u8>, byte: u8) -> Result<(), Memory>
    ensures { Puts result bytes.old.items bytes.new.items (byte ∷ []) }
{
    append(bytes, &[byte])
}

/// Puts a number of two bytes.
pub(crate) fn put_half_word(bytes: &mut Vec<u8>, number: u16) -> Result<(), Memory>
    ensures { Puts result bytes.old.items bytes.new.items (xmc.half_word number) }
{
    let mut piece = [0; 2];
    BigEndian::write_u16(&mut piece, number);
    append(bytes, &piece)
}

/// Puts a number of four bytes.
pub(crate) fn put_word(bytes: &mut Vec<u8>, number: u32) -> Result<(), Memory>
    ensures { Puts result bytes.old.items bytes.new.items (xmc.word_field number) }
{
    let mut piece = [0; 4];
    BigEndian::write_u32(&mut piece, number);
    append(bytes, &piece)
}
