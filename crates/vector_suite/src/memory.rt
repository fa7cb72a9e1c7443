//! The memory of a vector: one area of bytes.

ghost use Rattle.std.specs.Prelude.{◌≡◌, ◌+◌, ◌<◌, ◌≤◌, ◌↔◌, IfSome, IsSome, IsTrue, length, take, drop};
ghost use Rattle.std.specs.Int.{byte_len, from_be_bytes, to_be_bytes, w32};
ghost use borrow.Rule.Slice.PartMut.{put_mid};
ghost use Rattle.guest_bus.specs.Access.{Stores, after_store, fetched, loaded, store_fault, width_of};
ghost use Rattle.guest_bus.specs.Memory.{all_from, is_readable};
ghost use Rattle.guest_bus.specs.lemmas.MemoryFacts.{memory_of_bytes, no_others};
ghost use Rattle.guest_bus.specs.Whole.{IsMemoryOf};
ghost use Rattle.vector_suite.specs.lemmas.Area.{Places, vector_areas};

use crate::contents::{Contents, DATA_AT, HEAD_BYTES};
use byteorder::{BigEndian, ByteOrder};
use sparc_step::{Bus, BusFault, Size};
use std::alloc::{AllocError, Global};
use std::marker::Model;

/// Where the area begins, with the instruction.
pub(crate) const AREA_START: u32 = 0x4000_1000;

/// How many bytes it has.
pub(crate) const AREA_BYTES: u32 = 0x7_f0c0;

/// A memory whose one area lies there.
#[derive(Drop)]
pub(crate) struct VectorMemory {
    bytes: Vec<u8>,
    /// Whether it may only be read.
    read_only: bool,
    /// Whether something was stored since the last vector was put in.
    is_stored: bool,
}

impl Model for VectorMemory {
    ghost use Rattle.std.specs.Prelude.{◌≡◌, length};
    ghost use Rattle.std.specs.Coded.{codes};
    ghost use Rattle.guest_bus.specs.Memory.{memory_code};
    ghost use Rattle.guest_bus.specs.lemmas.MemoryFacts.{memory_of_bytes};
    ghost use Rattle.vector_suite.specs.lemmas.Area.{VectorArea};
    ghost use Rattle.vector_suite.specs.declared.memory.TheConstants.{AREA_BYTES, AREA_START};

    ghost Value = { VectorArea };

    ghost coded = { Prim.hlevel (codes, memory_code) };

    ghost view = { λ a. record { read_only = a.read_only; memory = memory_of_bytes AREA_START a.bytes.items } };

    ghost invariant = { λ a. length a.bytes.items ≡ AREA_BYTES };
}

impl VectorMemory {
    /// Zeros.
    pub(crate) fn new(alloc: Global) -> Result<VectorMemory, AllocError> {
        let bytes = vec![in alloc; 0; AREA_BYTES as usize]?;
        Ok(VectorMemory {
            bytes,
            read_only: false,
            is_stored: false,
        })
    }

    /// Puts what a vector has before its call in.
    pub(crate) fn put(&mut self, contents: &Contents) {
        put_contents(&mut self.bytes, contents);
        self.read_only = contents.read_only;
        self.is_stored = false;
    }

    /// Whether it holds this, and all else is zero as before.
    pub(crate) fn has(&self, contents: &Contents) -> bool {
        has_contents(&self.bytes, contents) && (!self.is_stored || is_zero_elsewhere(&self.bytes))
    }

    /// Makes it all zeros.
    pub(crate) fn clear(&mut self) {
        self.bytes.fill(0);
    }
}

impl Bus for VectorMemory {
    ghost areas = { λ m. vector_areas m.read_only };

    ghost memory = { λ m. m.memory };

    ghost others = { λ _. no_others };

    fn fetch(&mut self, address: u32) -> Result<u32, BusFault> {
        fetch_word(&self.bytes, self.read_only, address)
    }

    fn load(&mut self, address: u32, size: Size) -> Result<u64, BusFault> {
        load_value(&self.bytes, self.read_only, address, size)
    }

    fn store(&mut self, address: u32, size: Size, value: u64) -> Result<(), BusFault> {
        self.is_stored = true;
        store_value(&mut self.bytes, self.read_only, address, size, value)
    }
}

// Puts contents in.
fn put_contents(bytes: &mut [u8], contents: &Contents)
    requires { length bytes.old ≡ AREA_BYTES }
    ensures { length bytes.new ≡ AREA_BYTES }
{
    put_part(bytes, 0, &contents.head);
    put_part(bytes, DATA_AT, &contents.data);
}

// Puts bytes at a place.
fn put_part(bytes: &mut [u8], at: usize, part: &[u8])
    requires { at + length part.now ≤ length bytes.old }
    ensures { length bytes.new ≡ length bytes.old }
{
    bytes[at..at + part.len()].copy_from_slice(part);
}

// Whether the contents are these.
fn has_contents(bytes: &[u8], contents: &Contents) -> bool
    requires { length bytes.now ≡ AREA_BYTES }
{
    has_part(bytes, 0, &contents.head) && has_part(bytes, DATA_AT, &contents.data)
}

// Whether these bytes stand at a place.
fn has_part(bytes: &[u8], at: usize, part: &[u8]) -> bool
    requires { at + length part.now ≤ length bytes.now }
{
    &bytes[at..at + part.len()] == part
}

// Whether all between the start and the data is zero.
fn is_zero_elsewhere(bytes: &[u8]) -> bool
    requires { length bytes.now ≡ AREA_BYTES }
{
    bytes[HEAD_BYTES..DATA_AT].iter().all(|byte| *byte == 0)
}

// Where this many bytes from an address on begin in the area, where all of them lie in it.
fn place(address: u32, count: u32, read_only: bool) -> Option<usize>
    requires { 0 < count }
    ensures allowed { IsSome result ↔ IsTrue (all_from (is_readable (vector_areas read_only)) address count) }
    ensures within { IfSome result (λ at. (address ≡ AREA_START + at) × (at + count ≤ AREA_BYTES)) }
{
    let at = address.wrapping_sub(AREA_START);
    if count <= AREA_BYTES && at <= AREA_BYTES - count {
        Some(at as usize)
    } else {
        None
    }
}

// Where an access begins in the area, or why it is refused.
fn accessed(address: u32, size: Size, read_only: bool) -> Result<usize, BusFault>
    ensures { Places result address (byte_len (width_of size)) read_only }
{
    let count = size.bytes();
    if address % count != 0 {
        return Err(BusFault::Unaligned);
    }
    match place(address, count, read_only) {
        Some(at) => Ok(at),
        None => Err(BusFault::Outside),
    }
}

// The word that a fetch answers.
fn fetch_word(bytes: &[u8], read_only: bool, address: u32) -> Result<u32, BusFault>
    requires { length bytes.now ≡ AREA_BYTES }
    ensures value { result ≡ fetched (vector_areas read_only) (memory_of_bytes AREA_START bytes.now) address }
    ensures whole { IsMemoryOf (vector_areas read_only) (memory_of_bytes AREA_START bytes.now) }
{
    match accessed(address, Size::Four, read_only) {
        Ok(at) => Ok(word(bytes, at)),
        Err(fault) => Err(fault),
    }
}

// The value that a load answers.
fn load_value(bytes: &[u8], read_only: bool, address: u32, size: Size) -> Result<u64, BusFault>
    requires { length bytes.now ≡ AREA_BYTES }
    ensures value { result ≡ loaded (vector_areas read_only) (memory_of_bytes AREA_START bytes.now) address size }
    ensures whole { IsMemoryOf (vector_areas read_only) (memory_of_bytes AREA_START bytes.now) }
{
    match accessed(address, size, read_only) {
        Ok(at) => Ok(value_at(bytes, at, size)),
        Err(fault) => Err(fault),
    }
}

// Stores a value where nothing refuses it.
fn store_value(
    bytes: &mut [u8],
    read_only: bool,
    address: u32,
    size: Size,
    value: u64,
) -> Result<(), BusFault>
    requires { length bytes.old ≡ AREA_BYTES }
    ensures fault { Stores result (store_fault (vector_areas read_only) address size) }
    ensures memory { memory_of_bytes AREA_START bytes.new ≡ after_store (vector_areas read_only) (memory_of_bytes AREA_START bytes.old) address size value }
    ensures whole { IsMemoryOf (vector_areas read_only) (memory_of_bytes AREA_START bytes.new) }
{
    match accessed(address, size, read_only) {
        Ok(at) => {
            if read_only {
                Err(BusFault::Outside)
            } else {
                put_value(bytes, at, size, value);
                Ok(())
            }
        },
        Err(fault) => Err(fault),
    }
}

// The big endian value of a size at a place.
#[tactic(auto, using(crate::proofs::ValueLemmas::read_of_size))]
fn value_at(bytes: &[u8], at: usize, size: Size) -> u64
    requires { at + byte_len (width_of size) ≤ length bytes.now }
    ensures { result ≡ from_be_bytes (width_of size) (take (byte_len (width_of size)) (drop at bytes.now)) }
{
    let count = size.bytes() as usize;
    BigEndian::read_uint(&bytes[at..at + count], count)
}

// The big endian number of four bytes at a place.
#[tactic(auto, using(crate::proofs::ValueLemmas::read_word))]
fn word(bytes: &[u8], at: usize) -> u32
    requires { at + 4 ≤ length bytes.now }
    ensures { result ≡ from_be_bytes w32 (take 4 (drop at bytes.now)) }
{
    BigEndian::read_u32(&bytes[at..at + 4])
}

// Puts the low bytes of a value at a place, the highest of them first.
#[tactic(auto, using(crate::proofs::ValueLemmas::low_bytes))]
fn put_value(bytes: &mut [u8], at: usize, size: Size, value: u64)
    requires { at + byte_len (width_of size) ≤ length bytes.old }
    ensures { bytes.new ≡ put_mid at (byte_len (width_of size)) bytes.old (to_be_bytes (width_of size) value) }
{
    let count = size.bytes() as usize;
    let value = value.to_be_bytes();
    bytes[at..at + count].copy_from_slice(&value[8 - count..]);
}
