//! The row of a word.

ghost use Rattle.std.specs.Prelude.{◌≡◌, None};
ghost use Rattle.predecode.specs.Kept.{IsRowFor};
ghost use Rattle.predecode.specs.Kinds.{follows};

use crate::rows::{Row, row_of};
use sparc_code::decode;

/// The row of a word.
pub fn row_for(word: u32) -> Row
    // The row of a word says what its instruction does; an instruction that only goes on to the next word has the row of
    // one that does nothing.
    ensures row { IsRowFor word result }
    // It is the row of no pair.
    ensures alone { follows result.kind ≡ None }
{
    row_of(decode(word))
}
