//! Where the files of the images stand in a container.

ghost use Rattle.std.specs.Prelude.{◌≡◌, ◌-◌, ◌≤◌, Ok, drop, length, take};
ghost use Rattle.std.specs.Int.{from_be_bytes, w32};
ghost use Rattle.loaded_system.specs.System.{System as Meaning};
ghost use Rattle.xm_container.specs.Box.{entries_text};
ghost use Rattle.xm_container.specs.Reading.{unpacked};
ghost use Rattle.xm_container.specs.lemmas.EntriesTerms.{BeginsSized};

use crate::law::unpacked_is_packed;
use byteorder::{BigEndian, ByteOrder};
use xm_base::proof;

/// The images of a container, one after the other, each after the number of its partition and its length.
pub(crate) fn entries_of(bytes: &[u8]) -> &[u8]
    requires { (system : Meaning) × (unpacked bytes.now ≡ Ok system) }
    ensures { (system : Meaning) → unpacked bytes.now ≡ Ok system → result.now ≡ entries_text 0 system.images }
{
    proof! { unpacked_is_packed(); }
    let (_, table) = sized(fields_of(bytes));
    after_first(table)
}

/// The file of the first of the images, and the images after it.
pub(crate) fn first_file(entries: &[u8]) -> (&[u8], &[u8])
    requires { BeginsSized (drop 1 entries.now) }
    ensures { (begun : BeginsSized (drop 1 entries.now)) → (result.0.now ≡ begun.text) × (result.1.now ≡ begun.rest) }
{
    sized(after_first(entries))
}

/// The bytes that stand after their length, and what stands after them.
fn sized(bytes: &[u8]) -> (&[u8], &[u8])
    requires { BeginsSized bytes.now }
    ensures { (begun : BeginsSized bytes.now) → (result.0.now ≡ begun.text) × (result.1.now ≡ begun.rest) }
{
    let (length, after) = bytes.split_at(4);
    after.split_at(word(length) as usize)
}

/// The number of four bytes.
fn word(bytes: &[u8]) -> u32
    requires { length bytes.now ≡ 4 }
    ensures { result ≡ from_be_bytes w32 bytes.now }
{
    BigEndian::read_u32(bytes)
}

/// What stands between the length of a container and its digest.
fn fields_of(bytes: &[u8]) -> &[u8]
    requires { 26 ≤ length bytes.now }
    ensures { result.now ≡ take (length bytes.now - 26) (drop 10 bytes.now) }
{
    &bytes[10..bytes.len() - 16]
}

/// All bytes but the first.
fn after_first(bytes: &[u8]) -> &[u8]
    requires { 1 ≤ length bytes.now }
    ensures { result.now ≡ drop 1 bytes.now }
{
    &bytes[1..]
}
