//! Numbers that are put after bytes.

ghost use Rattle.std.specs.Prelude.{◌≡◌, ◌++◌, OnOk};
ghost use Rattle.std.specs.Int.{to_be_bytes, w16, w32, w64};

use byteorder::{BigEndian, ByteOrder};
use xm_base::Memory;

/// Puts a number of two bytes.
pub fn put_half(out: &mut Vec<u8>, number: u16) -> Result<(), Memory>
    // The two bytes of a number are put after others, big endian.
    ensures { OnOk result (out.new.items ≡ out.old.items ++ to_be_bytes w16 number) }
{
    let mut bytes = [0; 2];
    BigEndian::write_u16(&mut bytes, number);
    out.extend_from_slice(&bytes)?;
    Ok(())
}

/// Puts a number of four bytes.
pub fn put_word(out: &mut Vec<u8>, number: u32) -> Result<(), Memory>
    // The four bytes of a number are put after others, big endian.
    ensures { OnOk result (out.new.items ≡ out.old.items ++ to_be_bytes w32 number) }
{
    let mut bytes = [0; 4];
    BigEndian::write_u32(&mut bytes, number);
    out.extend_from_slice(&bytes)?;
    Ok(())
}

/// Puts a number of eight bytes.
pub fn put_double(out: &mut Vec<u8>, number: u64) -> Result<(), Memory>
    // The eight bytes of a number are put after others, big endian.
    ensures { OnOk result (out.new.items ≡ out.old.items ++ to_be_bytes w64 number) }
{
    let mut bytes = [0; 8];
    BigEndian::write_u64(&mut bytes, number);
    out.extend_from_slice(&bytes)?;
    Ok(())
}
