//! Names of systems, partitions, ports and UARTs.

ghost use Rattle.std.specs.Prelude.{◌≡◌, ◌↔◌, IsNone};
ghost use Rattle.std.specs.List.{list_all};
ghost use Rattle.xm_conf.specs.Name.{IsName, is_name, is_name_byte, name_from_bytes};

use std::marker::Model;

/// Bytes of the longest name.
const MOST: usize = 31;

/// The name of a part of the system.
#[derive(Clone, Copy, Debug)]
pub struct Name {
    bytes: [u8; MOST],
    count: u8,
}

impl Model for Name {
    ghost use Rattle.std.specs.Prelude.{ℕ, List, take, length};
    ghost use Rattle.xm_conf.specs.Name.{IsNameBuffer, padded};
    ghost use Rattle.xm_conf.specs.NameKept.{kept_back};

    ghost Value = { List ℕ };

    ghost view = { λ name. take name.count name.bytes };

    ghost invariant = { λ name. IsNameBuffer name.bytes name.count };

    ghost inverse = { λ bytes. record { bytes = padded bytes; count = length bytes } };

    ghost inverse_ok = { λ name kept. kept_back name kept };
}

impl Name {
    /// The name that these bytes are, or `None` where they are none.
    pub fn new(bytes: &[u8]) -> Option<Name>
        // The name of the bytes, and none exactly where they are no name.
        ensures value { result ≡ name_from_bytes bytes.now }
        ensures refused { IsNone result ↔ ¬ (IsName bytes.now) }
    {
        if !is_name(bytes) {
            return None;
        }
        let mut padded = [0; MOST];
        padded[..bytes.len()].copy_from_slice(bytes);
        Some(Name {
            bytes: padded,
            count: bytes.len() as u8,
        })
    }

    /// The name's bytes.
    pub fn bytes(&self) -> &[u8]
        // The bytes of a name, which are one.
        ensures value { result.now ≡ self.now }
        ensures name { IsName self.now }
    {
        &self.bytes[..usize::from(self.count)]
    }
}

impl PartialEq for Name {
    ghost use Rattle.std.specs.Str.{bytes_eq};
    ghost use Rattle.std.specs.Cmp.Lexicographic.{nat_list_eq_equiv};
    ghost use Rattle.std.specs.Cmp.{partial_equiv_from_equiv};

    ghost eq = { bytes_eq };

    ghost laws = { partial_equiv_from_equiv nat_list_eq_equiv };

    fn eq(&self, other: &Name) -> bool {
        self.bytes() == other.bytes()
    }
}

impl Eq for Name {
    ghost use Rattle.std.specs.Cmp.Lexicographic.{nat_list_eq_equiv};

    ghost laws = { nat_list_eq_equiv };
}

/// Whether the bytes are a name.
fn is_name(bytes: &[u8]) -> bool
    ensures { result ≡ is_name bytes.now }
{
    !bytes.is_empty() && bytes.len() <= MOST && are_name_bytes(bytes)
}

/// Whether each byte may stand in a name.
fn are_name_bytes(bytes: &[u8]) -> bool
    ensures { result ≡ list_all is_name_byte bytes.now }
{
    bytes.iter().all(|byte| is_name_byte(*byte))
}

/// Whether the byte may stand in a name.
fn is_name_byte(byte: u8) -> bool
    ensures { result ≡ is_name_byte byte }
{
    match byte {
        b'"' | b'&' | b'\'' | b'<' => false,
        b' '..=b'~' => true,
        _ => false,
    }
}
