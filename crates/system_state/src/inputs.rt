//! The input words of partitions.

ghost use Rattle.std.specs.Prelude.{◌≡◌, ◌≢◌, ◌↔◌, ◌+◌, ◌%◌, ◌^◌, ◌<◌, ◌≤◌, [], Err, IfErr, IfOk, IfSome, OnErr, OnOk, drop, length, replicate, slice_get, slice_index_or, slice_set, take};
ghost use Rattle.std.specs.Int.{from_be_bytes, w32};
ghost use Rattle.system_state.specs.Inputs.{HasInputCause, words_in};

use std::alloc::Global;
use std::marker::Model;
use xm_base::{Memory, PartId};

/// Why bytes are no input words of a partition.
#[derive(Clone, Copy, Debug, PartialEq, Eq)]
pub enum InputFault {
    /// Their number is no multiple of 4.
    Length { found: usize },
    /// Out of memory.
    Memory,
}

/// The input words of each partition, by the partitions' numbers.
#[derive(Debug, Drop)]
pub struct Inputs {
    alloc: Global,
    words: Vec<Vec<u32>>,
}

impl Model for Inputs {
    ghost use Rattle.std.specs.Prelude.{List, ℕ, map};

    ghost Value = { List (List ℕ) };

    ghost view = { λ inputs. map (λ words. words.items) inputs.words.items };
}

impl Inputs {
    /// No word for any of this many partitions.
    pub fn new(alloc: Global, parts: u8) -> Result<Inputs, Memory>
        // No input word for any partition.
        ensures value { IfOk result (λ inputs. inputs ≡ replicate parts []) }
    {
        let mut words = Vec::with_capacity(alloc, usize::from(parts))?;
        for _ in 0..parts {
            words.push_reserved(Vec::new(alloc));
        }
        Ok(Inputs { alloc, words })
    }

    /// Gives a partition these input words, the highest byte of each first, instead of those that it had.
    pub fn set(&mut self, p: PartId, bytes: &[u8]) -> Result<(), InputFault>
        // Called for a partition that exists and with fewer than 2^34 bytes.
        requires partition { p < length self.old }
        requires few { length bytes.now < 2 ^ 34 }
        // The input words of a partition are those that the bytes spell; `Length` with the number of bytes exactly
        // where that is no multiple of 4, and where it is one out of memory alone; then nothing changed.
        ensures set { OnOk result (self.new ≡ slice_set self.old p (words_in bytes.now)) }
        ensures length { (result ≡ Err (InputFault.Length (length bytes.now))) ↔ (length bytes.now % 4 ≢ 0) }
        ensures cause { IfErr result (HasInputCause (length bytes.now)) }
        ensures unchanged { OnErr result (self.new ≡ self.old) }
    {
        if bytes.len() % 4 != 0 {
            return Err(InputFault::Length { found: bytes.len() });
        }
        let words = words_in(self.alloc, bytes)?;
        self.words[usize::from(p)] = words;
        Ok(())
    }

    /// An input word of a partition, or `None` after the last.
    pub(crate) fn word(&self, p: PartId, place: usize) -> Option<u32>
        requires { p < length self.now }
        ensures value { result ≡ slice_get (slice_index_or self.now p []) place }
        ensures few { IfSome result (λ word. place + 1 < 2 ^ 64) }
    {
        self.words[usize::from(p)].get(place).copied()
    }

    /// How many input words of a partition are left after this many.
    pub(crate) fn left(&self, p: PartId, used: usize) -> usize
        requires { p < length self.now }
        ensures value { result ≡ length (drop used (slice_index_or self.now p [])) }
    {
        self.words[usize::from(p)].len().saturating_sub(used)
    }
}

/// The words that bytes spell, the highest byte of each first.
fn words_in(alloc: Global, bytes: &[u8]) -> Result<Vec<u32>, InputFault>
    requires { length bytes.now % 4 ≡ 0 }
    ensures value { IfOk result (λ words. words.items ≡ words_in bytes.now) }
    ensures memory { OnErr result (result ≡ Err InputFault.Memory) }
{
    let mut words = match Vec::with_capacity(alloc, bytes.len() / 4) {
        Ok(words) => words,
        Err(_) => return Err(InputFault::Memory),
    };
    for place in 0..bytes.len() / 4 {
        words.push_reserved(word_at(bytes, 4 * place));
    }
    Ok(words)
}

/// The word at a place in bytes, the highest byte first.
fn word_at(bytes: &[u8], at: usize) -> u32
    requires { at + 4 ≤ length bytes.now }
    ensures { result ≡ from_be_bytes w32 (take 4 (drop at bytes.now)) }
{
    let Ok(word) = <[u8; 4]>::try_from(&bytes[at..at + 4]) else {
        unreachable!();
    };
    u32::from_be_bytes(word)
}
