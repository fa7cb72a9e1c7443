//! A UART in memory that keeps what it gets, and fails where its test asks for it.

ghost use Rattle.std.specs.Prelude.{◌≡◌, ◌⊎◌, ◌↔◌, Some, OnOk, OnErr, IsErr, IsTrue};
ghost use Rattle.xm_outside.specs.Causes.{HasCause, Rose, counted};
ghost use Rattle.xm_outside.specs.Growth.{Receives};
ghost use Rattle.xm_outside.specs.MemUart.{IsListed, Keeps, unused};

use crate::store::Failed;
use crate::uart::Uart;
use std::alloc::Global;
use std::marker::Model;

/// A UART that keeps what it gets. It fails at the calls whose numbers it was given, and keeps at most this many
/// bytes of such a call.
#[derive(Debug, Drop)]
pub struct MemUart {
    got: Vec<u8>,
    fails: Vec<u64>,
    keep: usize,
    calls: u64,
    faults: u64,
    starved: u64,
}

impl Model for MemUart {
    ghost use Rattle.xm_outside.specs.MemUart.{UartState};

    ghost Value = { UartState };

    ghost view = { λ u. record {
      got = u.got.items;
      fails = u.fails.items;
      keep = u.keep;
      calls = u.calls;
      faults = u.faults;
      starved = u.starved;
    } };
}

impl MemUart {
    /// A UART that got nothing. The numbers of calls count from 0.
    pub fn new(alloc: Global, fails: Vec<u64>, keep: usize) -> MemUart
        // All counts are 0 and nothing is held.
        ensures { result ≡ unused fails.items keep }
    {
        MemUart {
            got: Vec::new(alloc),
            fails,
            keep,
            calls: 0,
            faults: 0,
            starved: 0,
        }
    }

    /// The bytes that it got.
    pub fn got(&self) -> &[u8]
        ensures { result.now ≡ self.now.got }
    {
        &self.got
    }

    /// How many calls failed because they were out of memory, and for nothing else.
    pub fn starved(&self) -> u64
        ensures { result ≡ self.now.starved }
    {
        self.starved
    }

    /// Fails a call none of whose bytes are taken.
    pub(crate) fn refuse(&mut self)
        ensures state { self.new ≡ record self.old { calls = counted self.old.calls; faults = counted self.old.faults } }
        ensures cause { Rose self.old.faults self.new.faults }
    {
        self.calls = self.calls.saturating_add(1);
        self.faults = self.faults.saturating_add(1);
    }

    /// Whether the next call is to fail.
    fn is_listed(&self) -> bool
        ensures { IsTrue result ↔ IsListed self.now }
    {
        self.fails.contains(&self.calls)
    }
}

impl Uart for MemUart {
    ghost got = { λ u. Some u.got };

    ghost faults = { λ u. u.faults };

    fn write(&mut self, bytes: &[u8]) -> Result<(), Failed>
        // The clauses of the trait, over the bytes that the UART got.
        ensures got { Receives result (Some self.old.got) bytes.now (Some self.new.got) }
        ensures cause { HasCause result self.old.faults self.new.faults }
        // It fails at the listed calls, and otherwise only out of memory.
        ensures listed { IsListed self.old → IsErr result }
        ensures only { OnErr result (IsListed self.old ⊎ Rose self.old.starved self.new.starved) }
        // Of a listed call it keeps the first of the bytes, or nothing where there was no memory for them.
        ensures kept { OnErr result (Keeps self.old bytes.now self.new.got) }
        // `starved` counts no listed call, and no call that succeeds.
        ensures starved { OnOk result (self.new.starved ≡ self.old.starved) }
        ensures refused { IsListed self.old → self.new.starved ≡ self.old.starved }
        // What it was set to stays.
        ensures fails { self.new.fails ≡ self.old.fails }
        ensures keep { self.new.keep ≡ self.old.keep }
        // Each call is counted.
        ensures calls { self.new.calls ≡ counted self.old.calls }
    {
        let listed = self.is_listed();
        self.calls = self.calls.saturating_add(1);
        if listed {
            self.faults = self.faults.saturating_add(1);
            let count = bytes.len().min(self.keep);
            let _ = self.got.extend_from_slice(&bytes[..count]);
            return Err(Failed);
        }
        if self.got.extend_from_slice(bytes).is_err() {
            self.faults = self.faults.saturating_add(1);
            self.starved = self.starved.saturating_add(1);
            return Err(Failed);
        }
        Ok(())
    }

    fn faulted(&self) -> u64
        // Its count of faults.
        ensures count { result ≡ self.now.faults }
    {
        self.faults
    }
}
