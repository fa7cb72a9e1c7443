//! A sink for what is to print nothing.

ghost use Rattle.std.specs.Prelude.{◌<◌, ◌≤◌, [], Some, IfOk, length};
ghost use Rattle.xm_outside.specs.Causes.{HasCause};
ghost use Rattle.xm_outside.specs.Growth.{TakesPiece};

use xm_outside::{Failed, Sink};

/// A sink that takes no byte: it fails where it is given any.
#[derive(Debug, Drop)]
pub(crate) struct NoSink {
    faults: u64,
}

impl NoSink {
    /// The sink.
    pub(crate) fn new() -> NoSink {
        NoSink { faults: 0 }
    }
}

impl Sink for NoSink {
    ghost got = { λ _. Some [] };

    ghost faults = { λ s. s.faults };

    fn write(&mut self, piece: &[u8]) -> Result<usize, Failed>
        ensures bound { IfOk result (λ count. count ≤ length piece.now) }
        ensures progress { IfOk result (λ count. 0 < length piece.now → 0 < count) }
        ensures got { TakesPiece result (Some []) piece.now (Some []) }
        ensures cause { HasCause result self.old.faults self.new.faults }
    {
        if piece.is_empty() {
            return Ok(0);
        }
        self.faults = self.faults.saturating_add(1);
        Err(Failed)
    }
}
