//! Numbers that are put after bytes.

ghost use Rattle.std.specs.Prelude.{◌≡◌, ◌++◌, OnOk};
ghost use Rattle.std.specs.Int.{to_be_bytes, w16, w32, w8};
ghost use Rattle.machine_model.specs.Structures.{flag};

use xm_base::Memory;

/// Puts a number of one byte.
pub(crate) fn put_byte(out: &mut Vec<u8>, number: u8) -> Result<(), Memory>
    ensures { OnOk result (out.new.items ≡ out.old.items ++ to_be_bytes w8 number) }
{
    out.extend_from_slice(&number.to_be_bytes())?;
    Ok(())
}

/// Puts a flag.
pub(crate) fn put_flag(out: &mut Vec<u8>, set: bool) -> Result<(), Memory>
    ensures { OnOk result (out.new.items ≡ out.old.items ++ to_be_bytes w8 (flag set)) }
{
    put_byte(out, if set { 1 } else { 0 })
}

/// Puts the low 8 bits of a count.
pub(crate) fn put_byte_count(out: &mut Vec<u8>, count: usize) -> Result<(), Memory>
    ensures { OnOk result (out.new.items ≡ out.old.items ++ to_be_bytes w8 count) }
{
    let bytes = (count as u64).to_be_bytes();
    out.extend_from_slice(&bytes[7..])?;
    Ok(())
}

/// Puts the low 16 bits of a count.
pub(crate) fn put_half_count(out: &mut Vec<u8>, count: usize) -> Result<(), Memory>
    ensures { OnOk result (out.new.items ≡ out.old.items ++ to_be_bytes w16 count) }
{
    let bytes = (count as u64).to_be_bytes();
    out.extend_from_slice(&bytes[6..])?;
    Ok(())
}

/// Puts the low 32 bits of a count.
pub(crate) fn put_word_count(out: &mut Vec<u8>, count: usize) -> Result<(), Memory>
    ensures { OnOk result (out.new.items ≡ out.old.items ++ to_be_bytes w32 count) }
{
    let bytes = (count as u64).to_be_bytes();
    out.extend_from_slice(&bytes[4..])?;
    Ok(())
}
