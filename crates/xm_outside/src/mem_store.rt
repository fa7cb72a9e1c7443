//! A store in memory that fails where its test asks for it.

ghost use Rattle.std.specs.Prelude.{◌≡◌, ◌+◌, ◌^◌, ◌<◌, ◌≤◌, ◌⊎◌, ◌↔◌, Option, Some, None, IfOk, OnOk, OnErr, IsErr, IsErrOf, IsTrue, take, vec_len, option_copied};
ghost use Rattle.std.specs.FinMap as map;
ghost use Rattle.std.specs.List.{Contains};
ghost use Rattle.xm_outside.specs.Causes.{HasCause, HasReadCause, Rose, counted};
ghost use Rattle.xm_outside.specs.Files.{IsAbsent, ReadsFile, StoresFile};
ghost use Rattle.xm_outside.specs.MemStore.{IsMissing};

use crate::store::{Failed, Store, StoreFault};
use std::alloc::Global;
use std::collections::BTreeMap;
use std::marker::Model;
use xm_base::Memory;

/// Files in memory. A read or a write fails where it was given the number of the call.
#[derive(Debug, Drop)]
pub struct MemStore {
    alloc: Global,
    files: BTreeMap<String, Vec<u8>>,
    fails: Vec<u64>,
    calls: u64,
    read_faults: u64,
    write_faults: u64,
    starved: u64,
}

impl Model for MemStore {
    ghost use Rattle.std.specs.Prelude.{Option};
    ghost use Rattle.std.specs.Coded.{codes};
    ghost use Rattle.xm_outside.specs.MemStore.{StoreState, files_code, files_of};

    ghost Value = { StoreState };

    ghost coded = { Prim.hlevel (codes, files_code) };

    ghost view = { λ s. record {
      files = files_of s.files.entries;
      fails = s.fails.items;
      calls = s.calls;
      read_faults = s.read_faults;
      write_faults = s.write_faults;
      starved = s.starved;
    } };
}

impl MemStore {
    /// A store with no file. The numbers of calls count reads and writes together, from 0.
    pub fn new(alloc: Global, fails: Vec<u64>) -> MemStore
        // All counts are 0 and nothing is held.
        ensures { result ≡ record {
          files = map.empty;
          fails = fails.items;
          calls = 0;
          read_faults = 0;
          write_faults = 0;
          starved = 0;
        } }
    {
        MemStore {
            alloc,
            files: BTreeMap::new(alloc),
            fails,
            calls: 0,
            read_faults: 0,
            write_faults: 0,
            starved: 0,
        }
    }

    /// Makes the file, or replaces the whole of it. This is no call that is counted.
    pub fn put(&mut self, name: &str, bytes: &[u8]) -> Result<(), Memory>
        // A file is put; after a refusal all is as before.
        ensures stored { OnOk result (self.new ≡ record self.old { files = map.insert self.old.files name.now bytes.now }) }
        ensures unchanged { OnErr result (self.new ≡ self.old) }
    {
        let name = String::from_str(self.alloc, name)?;
        let bytes = Vec::from_slice(self.alloc, bytes)?;
        self.files.insert(name, bytes)?;
        Ok(())
    }

    /// The bytes of the file.
    pub fn get(&self, name: &str) -> Option<&[u8]>
        // The bytes of a file, or that there is none.
        ensures { option_copied result ≡ map.get self.now.files name.now }
    {
        let file = self.files.get(name)?;
        Some(file)
    }

    /// Whether the next call is to fail.
    fn is_listed(&self) -> bool
        ensures { IsTrue result ↔ Contains self.now.fails self.now.calls }
    {
        self.fails.contains(&self.calls)
    }

    /// How many writes failed because memory was out, and for nothing else.
    pub fn starved(&self) -> u64
        ensures { result ≡ self.now.starved }
    {
        self.starved
    }
}

impl Store for MemStore {
    ghost files = { λ s. Some s.files };

    ghost read_faults = { λ s. s.read_faults };

    ghost write_faults = { λ s. s.write_faults };

    ghost calls = { λ s. s.calls };

    fn read(&mut self, alloc: Global, name: &str, most: usize) -> Result<Vec<u8>, StoreFault>
        // Called for fewer than 2^32 bytes.
        requires { most < 2 ^ 32 }
        // The clauses of the trait, over the files that the store has.
        ensures bytes { IfOk result (λ v. ReadsFile (Some self.old.files) name.now most v.items) }
        ensures absent { IsErrOf result StoreFault.Absent → IsAbsent (Some self.old.files) name.now }
        ensures bound { IfOk result (λ v. vec_len v ≤ most + 1) }
        ensures cause { HasReadCause result self.old.read_faults self.new.read_faults }
        ensures files { self.new.files ≡ self.old.files }
        ensures writes { self.new.write_faults ≡ self.old.write_faults }
        // It is one call.
        ensures calls { self.new.calls ≡ counted self.old.calls }
        // Failed comes exactly at the listed reads, and Absent exactly where the file is not there.
        ensures failed { IsErrOf result StoreFault.Failed ↔ Contains self.old.fails self.old.calls }
        ensures missing { IsErrOf result StoreFault.Absent ↔ IsMissing self.old name.now }
        // What it was set to stays, and so does `starved`.
        ensures fails { self.new.fails ≡ self.old.fails }
        ensures starved { self.new.starved ≡ self.old.starved }
    {
        let listed = self.is_listed();
        self.calls = self.calls.saturating_add(1);
        if listed {
            self.read_faults = self.read_faults.saturating_add(1);
            return Err(StoreFault::Failed);
        }
        match self.get(name) {
            None => Err(StoreFault::Absent),
            Some(file) => front(alloc, file, most),
        }
    }

    fn write(&mut self, name: &str, bytes: &[u8]) -> Result<(), Failed>
        // The clauses of the trait, over the files that the store has.
        ensures files { StoresFile result (Some self.old.files) name.now bytes.now (Some self.new.files) }
        ensures cause { HasCause result self.old.write_faults self.new.write_faults }
        ensures reads { self.new.read_faults ≡ self.old.read_faults }
        // It is one call.
        ensures calls { self.new.calls ≡ counted self.old.calls }
        // It fails at the listed writes, and otherwise only out of memory.
        ensures listed { Contains self.old.fails self.old.calls → IsErr result }
        ensures only { OnErr result (Contains self.old.fails self.old.calls ⊎ Rose self.old.starved self.new.starved) }
        // `starved` counts no listed call, and no call that succeeds.
        ensures starved { OnOk result (self.new.starved ≡ self.old.starved) }
        ensures refused { Contains self.old.fails self.old.calls → self.new.starved ≡ self.old.starved }
        // A failed write leaves the file, too.
        ensures unchanged { OnErr result (self.new.files ≡ self.old.files) }
        // What it was set to stays.
        ensures fails { self.new.fails ≡ self.old.fails }
    {
        let listed = self.is_listed();
        self.calls = self.calls.saturating_add(1);
        if listed {
            self.write_faults = self.write_faults.saturating_add(1);
            return Err(Failed);
        }
        if self.put(name, bytes).is_err() {
            self.write_faults = self.write_faults.saturating_add(1);
            self.starved = self.starved.saturating_add(1);
            return Err(Failed);
        }
        Ok(())
    }
}

/// All of the bytes where they are at most `most`, else the first `most + 1`.
fn front(alloc: Global, bytes: &[u8], most: usize) -> Result<Vec<u8>, StoreFault>
    requires { most < 2 ^ 32 }
    ensures bytes { IfOk result (λ v. v.items ≡ take (most + 1) bytes.now) }
    ensures memory { OnErr result (IsErrOf result StoreFault.Memory) }
{
    let count = bytes.len().min(most + 1);
    match Vec::from_slice(alloc, &bytes[..count]) {
        Ok(front) => Ok(front),
        Err(_) => Err(StoreFault::Memory),
    }
}
