//! The input words that a partition has not read.

ghost use Rattle.std.specs.Prelude.{◌≡◌, ◌<◌, ◌++◌, OnOk, length};
ghost use Rattle.std.specs.List.{flat_map};
ghost use Rattle.machine_model.specs.Structures.{word};
ghost use Rattle.system_state.specs.State.{part_at};

use file_headers::put_word;
use system_state::{PartState, Sys};
use xm_base::{Memory, PartId};

/// Puts the input words that a partition has not read, the next one first.
pub(crate) fn put_inputs(out: &mut Vec<u8>, sys: &Sys, p: PartId) -> Result<(), Memory>
    requires { p < length sys.now.machine.parts }
    ensures { OnOk result (out.new.items ≡ out.old.items ++ flat_map word (part_at p sys.now.machine).inputs) }
{
    let mut place = used(sys.part(p));
    while let Some(word) = sys.input(p, place) {
        put_word(out, word)?;
        place += 1;
    }
    Ok(())
}

/// How many of its input words a partition has read.
fn used(own: &PartState) -> usize
    ensures { result ≡ own.now.used }
{
    own.used
}
