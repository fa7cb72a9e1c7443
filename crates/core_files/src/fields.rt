//! Bytes at a place of a slice.

ghost use Rattle.std.specs.Prelude.{◌≡◌, ◌+◌, ◌≤◌, ◌++◌, length, replicate, take};
ghost use Rattle.machine_model.specs.Structures.{word};

use system_state::structures::Structure;

/// Writes bytes at a place, and returns the place after them. The bytes before the place stay.
pub(crate) fn write_at(into: &mut [u8], at: usize, from: &[u8]) -> usize
    requires { at + length from.now ≤ length into.old }
    ensures text { take result into.new ≡ take at into.old ++ from.now }
    ensures place { result ≡ at + length from.now }
    ensures room { length into.new ≡ length into.old }
{
    let after = at + from.len();
    into[at..after].copy_from_slice(from);
    after
}

/// Writes a structure at a place, and returns the place after it.
pub(crate) fn put_structure(into: &mut [u8], at: usize, structure: &Structure) -> usize
    requires { at + length structure.now ≤ length into.old }
    ensures text { take result into.new ≡ take at into.old ++ structure.now }
    ensures place { result ≡ at + length structure.now }
    ensures room { length into.new ≡ length into.old }
{
    write_at(into, at, structure.bytes())
}

/// Writes a word at a place, and returns the place after it.
pub(crate) fn put_word(into: &mut [u8], at: usize, number: u32) -> usize
    requires { at + 4 ≤ length into.old }
    ensures text { take result into.new ≡ take at into.old ++ word number }
    ensures place { result ≡ at + 4 }
    ensures room { length into.new ≡ length into.old }
{
    write_at(into, at, &number.to_be_bytes())
}

/// Writes the low 32 bits of a count as a word at a place, and returns the place after it.
pub(crate) fn put_count(into: &mut [u8], at: usize, count: usize) -> usize
    requires { at + 4 ≤ length into.old }
    ensures text { take result into.new ≡ take at into.old ++ word count }
    ensures place { result ≡ at + 4 }
    ensures room { length into.new ≡ length into.old }
{
    let bytes = (count as u64).to_be_bytes();
    write_at(into, at, &bytes[4..])
}

/// Writes this number of zeros at a place, and returns the place after them.
pub(crate) fn put_zeros(into: &mut [u8], at: usize, count: usize) -> usize
    requires { at + count ≤ length into.old }
    ensures text { take result into.new ≡ take at into.old ++ replicate count 0 }
    ensures place { result ≡ at + count }
    ensures room { length into.new ≡ length into.old }
{
    let after = at + count;
    into[at..after].fill(0);
    after
}
