//! The input words that partitions have left are those that they are given.

ghost use Rattle.std.specs.Prelude.{◌≡◌, ◌<◌, ◌≤◌, ◌^◌, ℕ, IfOk, IfSome, OnOk, length, map, slice_get, slice_set, take};
ghost use Rattle.machine_restore.specs.lemmas.RestoreTerms.{word_bytes};

use std::alloc::Global;
use system_state::{InputFault, Inputs};
use xm_base::{Memory, PartId};

/// Input words for this many partitions.
pub(crate) fn inputs_of(alloc: Global, parts: u8, words: &[Vec<u32>]) -> Result<Inputs, Memory>
    requires counted { parts ≤ length words.now }
    requires few { (p : ℕ) → p < parts → IfSome (slice_get words.now p) (λ own. length own.items < 2 ^ 32) }
    ensures { IfOk result (λ inputs. inputs ≡ take parts (map (λ own. own.items) words.now)) }
{
    let mut inputs = Inputs::new(alloc, parts)?;
    for p in 0..parts {
        give(alloc, &mut inputs, p, &words[usize::from(p)])?;
    }
    Ok(inputs)
}

// A partition has these input words.
fn give(alloc: Global, inputs: &mut Inputs, p: PartId, words: &[u32]) -> Result<(), Memory>
    requires partition { p < length inputs.old }
    requires few { length words.now < 2 ^ 32 }
    ensures { OnOk result (inputs.new ≡ slice_set inputs.old p words.now) }
{
    let bytes = word_bytes(alloc, words)?;
    match inputs.set(p, &bytes) {
        Ok(()) => Ok(()),
        Err(InputFault::Memory) => Err(Memory),
        Err(InputFault::Length { .. }) => unreachable!(),
    }
}

// The bytes of words, the highest of each first.
fn word_bytes(alloc: Global, words: &[u32]) -> Result<Vec<u8>, Memory>
    ensures { IfOk result (λ bytes. bytes.items ≡ word_bytes words.now) }
{
    let mut bytes = Vec::new(alloc);
    for word in words {
        bytes.extend_from_slice(&word.to_be_bytes())?;
    }
    Ok(bytes)
}
