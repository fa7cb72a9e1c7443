//! Hexadecimal digits as text.

ghost use Rattle.std.specs.Prelude.{◌≡◌, IsAscii, length};
ghost use Rattle.hex.specs.Hex.{encode_lower};
ghost use Rattle.fault_messages.specs.Texts.{address_text};

use std::str;

/// The eight digits of an address.
pub(crate) fn address_digits(address: u32) -> [u8; 8]
    ensures value { result ≡ address_text address }
    ensures ascii { IsAscii result }
{
    let mut digits = [0; 8];
    hex::encode_to_slice(address.to_be_bytes(), &mut digits).unwrap();
    digits
}

/// The 32 digits of a digest.
pub(crate) fn digest_digits(digest: &[u8]) -> [u8; 32]
    requires { length digest.now ≡ 16 }
    ensures value { result ≡ encode_lower digest.now }
    ensures ascii { IsAscii result }
{
    let mut digits = [0; 32];
    hex::encode_to_slice(digest, &mut digits).unwrap();
    digits
}

/// Digits as text.
pub(crate) fn text(digits: &[u8]) -> &str
    requires { IsAscii digits.now }
    ensures { result.now ≡ digits.now }
{
    let Ok(text) = str::from_utf8(digits) else {
        unreachable!();
    };
    text
}
