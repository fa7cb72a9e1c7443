//! A sink that takes all bytes and keeps none.

ghost use Rattle.std.specs.Prelude.{◌≡◌, ◌<◌, ◌≤◌, None, IfOk, length};
ghost use Rattle.xm_outside.specs.Causes.{HasCause};
ghost use Rattle.xm_outside.specs.Growth.{TakesPiece};

use crate::sink::Sink;
use crate::store::Failed;

/// A sink that never fails: it takes all bytes at once, and keeps none.
#[derive(Clone, Copy, Debug, Default)]
pub struct SureSink;

impl SureSink {
    /// The sink.
    pub fn new() -> SureSink
        // Its count of faults is 0.
        ensures { ⟦<SureSink as Sink>⟧.faults result ≡ 0 }
    {
        SureSink
    }
}

impl Sink for SureSink {
    ghost got = { λ _. None };

    ghost faults = { λ _. 0 };

    fn write(&mut self, piece: &[u8]) -> Result<usize, Failed>
        // The clauses of the trait, over a sink that reports nothing and never fails.
        ensures bound { IfOk result (λ count. count ≤ length piece.now) }
        ensures progress { IfOk result (λ count. 0 < length piece.now → 0 < count) }
        ensures got { TakesPiece result None piece.now None }
        ensures cause { HasCause result 0 0 }
        // It takes all at once.
        ensures all { result ≡ Ok (length piece.now) }
    {
        Ok(piece.len())
    }
}
