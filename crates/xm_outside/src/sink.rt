//! A sink of bytes, by what is asked of it, and the loop that writes a whole text to one.

ghost use Rattle.std.specs.Prelude.{ℕ, ◌<◌, ◌≤◌, List, Option, IfOk, length};
ghost use Rattle.xm_outside.specs.Causes.{HasCause};
ghost use Rattle.xm_outside.specs.Growth.{TakesPiece, Writes};

use crate::store::Failed;

/// A device that takes bytes, perhaps fewer at a time than it is given.
pub trait Sink {
    /// What it has got, where that is known.
    ghost got: { Self → Option (List ℕ) };

    /// How many writes failed; it never falls, and stands still at its last value.
    ghost faults: { Self → ℕ };

    /// Takes a prefix of the piece, and answers how many bytes: at least one where there are any.
    /// A device that takes nothing of a piece with bytes has failed.
    fn write(&mut self, piece: &[u8]) -> Result<usize, Failed>
        // A sink takes a prefix of the piece, at least one byte where there are any; after a fault nothing of it.
        ensures bound { IfOk result (λ count. count ≤ length piece.now) }
        ensures progress { IfOk result (λ count. 0 < length piece.now → 0 < count) }
        ensures got { TakesPiece result (got self.old) piece.now (got self.new) }
        // A fault comes only where the count rose.
        ensures cause { HasCause result (faults self.old) (faults self.new) };
}

/// Writes all of the bytes, a piece at a time. After a fault the sink has got a prefix of them.
pub fn write_all<O: Sink>(out: &mut O, bytes: &[u8]) -> Result<(), Failed>
    // All of the bytes went out, or a prefix of them.
    ensures got { Writes result (O.got out.old) bytes.now (O.got out.new) }
    // A fault comes only where the count rose.
    ensures cause { HasCause result (O.faults out.old) (O.faults out.new) }
{
    let mut done = 0;
    while done < bytes.len() {
        done += out.write(&bytes[done..])?;
    }
    Ok(())
}
