//! A UART whose bytes outlive it.

ghost use Rattle.std.specs.Prelude.{◌≡◌, None};

use std::fs::OpenOptions;
use std::io;
use std::io::Write;
use std::rt::Files;
use xm_outside::{Failed, Uart};

/// A UART that writes what it gets to a file that was there before. It fails at the calls whose numbers it was given,
/// counted from 0, and keeps at most this many bytes of such a call.
#[derive(Drop)]
pub(crate) struct TapeUart<R> {
    rt: R,
    name: &'static str,
    fails: &'static [u64],
    keep: usize,
    calls: u64,
    faults: u64,
}

impl<R: Files + Drop> TapeUart<R> {
    /// A UART that got nothing.
    pub(crate) fn new(rt: R, name: &'static str, fails: &'static [u64], keep: usize) -> TapeUart<R>
        ensures { ⟦<TapeUart<R> as Uart>⟧.faults result ≡ 0 }
    {
        TapeUart {
            rt,
            name,
            fails,
            keep,
            calls: 0,
            faults: 0,
        }
    }

    /// Writes the bytes that are kept to the file, and answers whether the call is done.
    fn take(&mut self, bytes: &[u8]) -> io::Result<bool>
        ensures faults { self.new.faults ≡ self.old.faults }
    {
        let fails = self.fails.contains(&self.calls);
        self.calls = self.calls.saturating_add(1);
        let count = if fails {
            bytes.len().min(self.keep)
        } else {
            bytes.len()
        };
        append(&self.rt, self.name, &bytes[..count])?;
        Ok(!fails)
    }
}

impl<R: Files + Drop> Uart for TapeUart<R> {
    ghost got = { λ _. None };

    ghost faults = { λ u. u.faults };

    fn write(&mut self, bytes: &[u8]) -> Result<(), Failed> {
        if let Ok(true) = self.take(bytes) {
            return Ok(());
        }
        self.faults = self.faults.saturating_add(1);
        Err(Failed)
    }

    fn faulted(&self) -> u64 {
        self.faults
    }
}

// Appends the bytes to a file.
fn append(rt: &impl Files, name: &str, bytes: &[u8]) -> io::Result<()> {
    let mut file = OpenOptions::new().append(true).open(rt, name)?;
    file.write_all(bytes)
}
