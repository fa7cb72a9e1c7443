//! The files of the system as a store.

ghost use Rattle.std.specs.Prelude.{◌≡◌, ◌+◌, ◌^◌, ◌<◌, ◌≤◌, None, IfOk, vec_len};

use crate::store::{Failed, Store, StoreFault};
use crate::whole_file::store;
use std::alloc::{Alloc, Global};
use std::io::{ErrorKind, Read};
use std::rt::Files;
use std::{fs, io};

/// The files of the system, by their paths. A file that is missing can't be read: that is
/// `StoreFault::Failed`, as is every other refusal of the system but being out of memory. A regular file is replaced
/// whole: after a write that failed it is as before, with no new file beside it.
#[derive(Drop)]
pub struct FileStore<R> {
    rt: R,
    calls: u64,
    read_faults: u64,
    write_faults: u64,
}

impl<R: Files + Alloc> FileStore<R> {
    /// The store over a clone of the runtime.
    pub fn new(rt: R) -> FileStore<R>
        // All counts are 0.
        ensures calls { ⟦<FileStore<R> as Store>⟧.calls result ≡ 0 }
        ensures reads { ⟦<FileStore<R> as Store>⟧.read_faults result ≡ 0 }
        ensures writes { ⟦<FileStore<R> as Store>⟧.write_faults result ≡ 0 }
    {
        FileStore {
            rt,
            calls: 0,
            read_faults: 0,
            write_faults: 0,
        }
    }
}

impl<R: Files + Alloc> Store for FileStore<R> {
    ghost files = { λ _. None };

    ghost read_faults = { λ s. s.read_faults };

    ghost write_faults = { λ s. s.write_faults };

    ghost calls = { λ s. s.calls };

    fn read(&mut self, alloc: Global, name: &str, most: usize) -> Result<Vec<u8>, StoreFault> {
        self.calls = self.calls.saturating_add(1);
        match front(&self.rt, alloc, name, most) {
            Ok(bytes) => Ok(bytes),
            Err(error) if error.kind() == ErrorKind::OutOfMemory => Err(StoreFault::Memory),
            Err(_) => {
                self.read_faults = self.read_faults.saturating_add(1);
                Err(StoreFault::Failed)
            }
        }
    }

    fn write(&mut self, name: &str, bytes: &[u8]) -> Result<(), Failed> {
        self.calls = self.calls.saturating_add(1);
        if store(&self.rt, name, bytes).is_err() {
            self.write_faults = self.write_faults.saturating_add(1);
            return Err(Failed);
        }
        Ok(())
    }
}

/// The bytes of a file, and of a longer one the first `most + 1`, with no more read than that.
fn front<R: Files>(rt: &R, alloc: Global, name: &str, most: usize) -> io::Result<Vec<u8>>
    requires { most < 2 ^ 32 }
    ensures { IfOk result (λ v. vec_len v ≤ most + 1) }
{
    let limit = most + 1;
    let mut bytes = Vec::new(alloc);
    fs::open(rt, name)?
        .take(limit as u64)
        .read_to_end(&mut bytes)?;
    // `take` keeps the count, and no clause says so.
    bytes.truncate(limit);
    Ok(bytes)
}
