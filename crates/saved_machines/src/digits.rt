//! Digests as text.

ghost use Rattle.std.specs.Prelude.{◌≡◌, IsAscii};
ghost use Rattle.hex.specs.Hex.{encode_lower};

use std::str;

/// The 32 digits of a digest.
pub(crate) fn digest_digits(digest: [u8; 16]) -> [u8; 32]
    ensures value { result ≡ encode_lower digest }
    ensures ascii { IsAscii result }
{
    let mut digits = [0; 32];
    hex::encode_to_slice(digest, &mut digits).unwrap();
    digits
}

/// Digits as text.
pub(crate) fn text(digits: &[u8]) -> &str
    requires { IsAscii digits.now }
    ensures { result.now ≡ digits.now }
{
    let Ok(text) = str::from_utf8(digits) else {
        unreachable!();
    };
    text
}
