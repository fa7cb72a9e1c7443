//! A UART, by what is asked of it.

ghost use Rattle.std.specs.Prelude.{◌≡◌, ℕ, List, Option};
ghost use Rattle.xm_outside.specs.Causes.{HasCause};
ghost use Rattle.xm_outside.specs.Growth.{Receives};

use crate::store::Failed;

/// A device that takes the bytes of a console, all at once. It is used in a box.
pub trait Uart: Drop {
    /// What it has got, where that is known.
    ghost got: { Self → Option (List ℕ) };

    /// How many writes failed; it never falls, and stands still at its last value.
    ghost faults: { Self → ℕ };

    /// Takes the bytes. After a fault it has got a prefix of them, which may be all.
    fn write(&mut self, bytes: &[u8]) -> Result<(), Failed>
        // A UART takes all of the bytes, and after a fault a prefix of them.
        ensures got { Receives result (got self.old) bytes.now (got self.new) }
        // A fault comes only where the UART's count rose.
        ensures cause { HasCause result (faults self.old) (faults self.new) };

    /// How many writes failed.
    fn faulted(&self) -> u64
        // The count of faults.
        ensures count { result ≡ faults self.now };
}
