//! Named values in a line.

ghost use Rattle.std.specs.Prelude.{◌≡◌, ◌++◌, OnOk, decimal, length};
ghost use Rattle.hex.specs.Hex.{encode_lower};
ghost use Rattle.fault_messages.specs.Texts.{address_text};

use crate::digits::{address_digits, digest_digits};
use std::alloc::Global;
use xm_base::Memory;

/// Writes an address with eight hexadecimal digits, after its name.
pub fn put_address(lines: &mut Vec<u8>, name: &[u8], address: u32) -> Result<(), Memory>
    // After the bytes so far and a name: the address with eight hexadecimal digits.
    ensures { OnOk result (lines.new.items ≡ lines.old.items ++ (name.now ++ address_text address)) }
{
    lines.extend_from_slice(name)?;
    lines.extend_from_slice(&address_digits(address))?;
    Ok(())
}

/// Writes a number with decimal digits, after its name.
pub fn put_number(
    alloc: Global,
    lines: &mut Vec<u8>,
    name: &[u8],
    number: usize,
) -> Result<(), Memory>
    // After the bytes so far and a name: the number with decimal digits.
    ensures { OnOk result (lines.new.items ≡ lines.old.items ++ (name.now ++ decimal number)) }
{
    let digits = format!(in alloc; "{number}")?;
    lines.extend_from_slice(name)?;
    lines.extend_from_slice(digits.as_bytes())?;
    Ok(())
}

/// Writes a digest with 32 hexadecimal digits, after its name.
pub fn put_digest(lines: &mut Vec<u8>, name: &[u8], digest: &[u8]) -> Result<(), Memory>
    // Called with the 16 bytes of a digest.
    requires { length digest.now ≡ 16 }
    // After the bytes so far and a name: the digest with 32 hexadecimal digits.
    ensures { OnOk result (lines.new.items ≡ lines.old.items ++ (name.now ++ encode_lower digest.now)) }
{
    lines.extend_from_slice(name)?;
    lines.extend_from_slice(&digest_digits(digest))?;
    Ok(())
}
