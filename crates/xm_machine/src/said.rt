//! The console bytes of a partition's ticks in isolation, kept.

ghost use Rattle.std.specs.Prelude.{◌≡◌, ◌≤◌, ◌<◌, [], IfSome, length, take};
ghost use Rattle.system_state.specs.Serving.{CanBeEmitted};
ghost use Rattle.system_state.specs.State.{areas_in, memory_of};
ghost use Rattle.xm_machine.specs.lemmas.SaidTerms.{emitted_bytes};

use hypercalls::{Note, Sys};
use std::marker::Model;
use system_state::read_memory;
use xm_base::{CONSOLE_BYTES, PartId};

/// The bytes that a partition wrote to its console in one tick, in a buffer of fixed size.
#[derive(Debug, Drop)]
pub(crate) struct Said {
    bytes: [u8; CONSOLE_BYTES as usize],
    size: usize,
}

impl Model for Said {
    ghost use Rattle.std.specs.Prelude.{ℕ, ◌≤◌, List, take};
    ghost use Rattle.xm_base.specs.declared.limits.TheConstants.{CONSOLE_BYTES};

    ghost Value = { List ℕ };

    ghost view = { λ s. take s.size s.bytes };

    ghost invariant = { λ s. s.size ≤ CONSOLE_BYTES };
}

impl Said {
    /// No bytes.
    pub(crate) fn nothing() -> Said
        ensures { result ≡ [] }
    {
        Said {
            bytes: [0; CONSOLE_BYTES as usize],
            size: 0,
        }
    }

    /// The bytes.
    pub(crate) fn bytes(&self) -> &[u8]
        ensures { result.now ≡ self.now }
    {
        &self.bytes[..self.size]
    }

    /// Keeps the bytes for the console that partition `p` has in the note of a tick; none where there is no such note.
    pub(crate) fn keep(&mut self, sys: &Sys, p: PartId, done: Option<Note>)
        requires partition { p < length sys.now.machine.parts }
        requires readable { IfSome done (λ note. CanBeEmitted note (areas_in p sys.now.machine)) }
        ensures { self.new ≡ emitted_bytes done (memory_of p sys.now.machine) }
    {
        match done {
            Some(Note::Console { at, size }) => {
                self.size = size as usize;
                read_memory(sys, p, at, &mut self.bytes[..size as usize]);
            }
            _ => self.size = 0,
        }
    }
}
