//! The numbered registers of a processor.

ghost use Rattle.std.specs.Prelude.{◌≡◌, ◌+◌, ◌*◌, ◌<◌, ◌≤◌, ◌++◌, length, take};
ghost use Rattle.std.specs.List.{flat_map};
ghost use Rattle.machine_model.specs.Structures.{word};
ghost use Rattle.system_state.specs.State.{part_at};

use crate::fields::put_word;
use system_state::Sys;
use xm_base::PartId;

/// Writes the numbered registers of a partition at a place, and returns the place after their 544 bytes.
pub(crate) fn put_registers(into: &mut [u8], at: usize, sys: &Sys, p: PartId) -> usize
    requires partition { p < length sys.now.machine.parts }
    requires room { at + 544 ≤ length into.old }
    ensures text { take result into.new ≡ take at into.old ++ flat_map word (part_at p sys.now.machine).core.globals ++ flat_map word (part_at p sys.now.machine).core.windows }
    ensures place { result ≡ at + 544 }
    ensures room { length into.new ≡ length into.old }
{
    let core = sys.part(p).core.core();
    let at = put_words(into, at, &core.globals);
    put_words(into, at, &core.windows)
}

/// Writes words one after another at a place, and returns the place after them.
fn put_words(into: &mut [u8], at: usize, words: &[u32]) -> usize
    requires { at + 4 * length words.now ≤ length into.old }
    ensures text { take result into.new ≡ take at into.old ++ flat_map word words.now }
    ensures place { result ≡ at + 4 * length words.now }
    ensures room { length into.new ≡ length into.old }
{
    let mut after = at;
    for word in words {
        after = put_word(into, after, *word);
    }
    after
}

/// For the proof: how many registers a partition has.
pub(crate) fn look_at_registers(sys: &Sys, p: PartId)
    requires { p < length sys.now.machine.parts }
    ensures globals { length (part_at p sys.now.machine).core.globals ≡ 8 }
    ensures windows { length (part_at p sys.now.machine).core.windows ≡ 128 }
{
    let core = sys.part(p).core.core();
    let _register = core.get(0);
}
