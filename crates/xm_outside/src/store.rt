//! A store of files, by what is asked of it.

ghost use Rattle.std.specs.Prelude.{◌≡◌, ℕ, ◌+◌, ◌^◌, ◌<◌, ◌≤◌, Option, IfOk, IsErrOf, vec_len};
ghost use Rattle.xm_outside.specs.Causes.{HasCause, HasReadCause, counted};
ghost use Rattle.xm_outside.specs.Files.{Files, IsAbsent, ReadsFile, StoresFile};

use std::alloc::Global;

/// A read or a write that the device did not do.
#[derive(Clone, Copy, Debug, PartialEq, Eq)]
pub struct Failed;

/// Why a file was not read.
#[derive(Clone, Copy, Debug, PartialEq, Eq)]
pub enum StoreFault {
    /// The device did not do it.
    Failed,
    /// No file has that name.
    Absent,
    /// Memory ran out for the bytes.
    Memory,
}

/// Files by their names.
pub trait Store {
    /// The files, where the store knows them.
    ghost files: { Self → Option Files };

    /// How many reads failed; it never falls, and stands still at its last value.
    ghost read_faults: { Self → ℕ };

    /// How many writes failed; it never falls, and stands still at its last value.
    ghost write_faults: { Self → ℕ };

    /// How many reads and writes were made; it stands still at its last value.
    ghost calls: { Self → ℕ };

    /// The bytes of a file: all of them where it has at most `most`, else its first `most + 1`.
    fn read(&mut self, alloc: Global, name: &str, most: usize) -> Result<Vec<u8>, StoreFault>
        // Called for fewer than 2^32 bytes.
        requires { most < 2 ^ 32 }
        // The whole file, or of a longer one the first `most + 1` bytes.
        ensures bytes { IfOk result (λ v. ReadsFile (files self.old) name.now most v.items) }
        // Absent comes only where the files of the store are known and none has the name.
        ensures absent { IsErrOf result StoreFault.Absent → IsAbsent (files self.old) name.now }
        // There are no more bytes than these.
        ensures bound { IfOk result (λ v. vec_len v ≤ most + 1) }
        // Failed comes only where the count rose, and no other answer moves it.
        ensures cause { HasReadCause result (read_faults self.old) (read_faults self.new) }
        // A read changes no file and no count of writes.
        ensures files { files self.new ≡ files self.old }
        ensures writes { write_faults self.new ≡ write_faults self.old }
        // It is one call.
        ensures calls { calls self.new ≡ counted (calls self.old) };

    /// Makes the file, or replaces the whole of it. After a fault nothing is said of this file.
    fn write(&mut self, name: &str, bytes: &[u8]) -> Result<(), Failed>
        // A write replaces the whole file; after a fault all others stand.
        ensures files { StoresFile result (files self.old) name.now bytes.now (files self.new) }
        // A fault of a write comes only where the count rose.
        ensures cause { HasCause result (write_faults self.old) (write_faults self.new) }
        // A write changes no count of reads.
        ensures reads { read_faults self.new ≡ read_faults self.old }
        // It is one call.
        ensures calls { calls self.new ≡ counted (calls self.old) };
}
