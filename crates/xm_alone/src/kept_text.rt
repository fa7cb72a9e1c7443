//! A sink that keeps a text, as long as there is room for it.

ghost use Rattle.std.specs.Prelude.{◌≡◌, ◌<◌, ◌≤◌, [], Some, IfOk, length};
ghost use Rattle.xm_outside.specs.Causes.{HasCause};
ghost use Rattle.xm_outside.specs.Growth.{TakesPiece};

use std::alloc::Global;
use xm_outside::{Failed, Sink};

/// A sink that keeps what it gets. It fails at a piece with which it would have more than this many bytes, and where memory runs out.
#[derive(Debug, Drop)]
pub(crate) struct KeptText {
    pub(crate) bytes: Vec<u8>,
    most: usize,
    faults: u64,
}

impl KeptText {
    /// Nothing is kept, and at most this many bytes are to be.
    pub(crate) fn new(alloc: Global, most: usize) -> KeptText
        ensures { result.bytes.items ≡ [] }
    {
        KeptText {
            bytes: Vec::new(alloc),
            most,
            faults: 0,
        }
    }

    /// Whether there is no room for this many bytes more.
    fn is_full(&self, more: usize) -> bool {
        let len = self.bytes.len();
        len > self.most || more > self.most - len
    }
}

impl Sink for KeptText {
    ghost got = { λ s. Some s.bytes.items };

    ghost faults = { λ s. s.faults };

    fn write(&mut self, piece: &[u8]) -> Result<usize, Failed>
        ensures bound { IfOk result (λ count. count ≤ length piece.now) }
        ensures progress { IfOk result (λ count. 0 < length piece.now → 0 < count) }
        ensures got { TakesPiece result (Some self.old.bytes.items) piece.now (Some self.new.bytes.items) }
        ensures cause { HasCause result self.old.faults self.new.faults }
    {
        if self.is_full(piece.len()) || self.bytes.extend_from_slice(piece).is_err() {
            self.faults = self.faults.saturating_add(1);
            return Err(Failed);
        }
        Ok(piece.len())
    }
}
