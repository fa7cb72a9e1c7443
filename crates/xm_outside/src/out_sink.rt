//! A writer of std as a sink.

ghost use Rattle.std.specs.Prelude.{◌≡◌, ◌<◌, ◌≤◌, None, IfOk, length};

use crate::sink::Sink;
use crate::store::Failed;
use std::io;

/// A writer as a sink. Each write is flushed, so that bytes that it took have reached the stream,
/// and nothing is left to do when the program ends.
#[derive(Drop)]
pub struct OutSink<W> {
    writer: W,
    faults: u64,
}

impl<W: io::Write + Drop> OutSink<W> {
    /// The sink over the writer.
    pub fn new(writer: W) -> OutSink<W>
        // Its count of faults is 0.
        ensures { ⟦<OutSink<W> as Sink>⟧.faults result ≡ 0 }
    {
        OutSink { writer, faults: 0 }
    }

    /// Hands the piece on, and what it took of it to the stream.
    fn hand_on(&mut self, piece: &[u8]) -> io::Result<usize>
        ensures bound { IfOk result (λ count. count ≤ length piece.now) }
        ensures faults { self.new.faults ≡ self.old.faults }
    {
        let count = self.writer.write(piece)?;
        self.writer.flush()?;
        Ok(count)
    }
}

impl<W: io::Write + Drop> Sink for OutSink<W> {
    ghost got = { λ _. None };

    ghost faults = { λ s. s.faults };

    fn write(&mut self, piece: &[u8]) -> Result<usize, Failed> {
        match self.hand_on(piece) {
            Ok(count) if count > 0 || piece.is_empty() => Ok(count),
            _ => {
                self.faults = self.faults.saturating_add(1);
                Err(Failed)
            }
        }
    }
}
