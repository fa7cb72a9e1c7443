//! A sink in memory that keeps what it gets, and fails where its test asks for it.

ghost use Rattle.std.specs.Prelude.{◌≡◌, ◌<◌, ◌≤◌, ◌⊎◌, Some, IfOk, OnOk, OnErr, IsErr, length, min};
ghost use Rattle.xm_outside.specs.Causes.{HasCause, Rose, counted};
ghost use Rattle.xm_outside.specs.Growth.{TakesPiece};
ghost use Rattle.xm_outside.specs.MemSink.{IsRefused};
ghost use Rattle.xm_outside.specs.MemUart.{IsListed, unused};

use crate::mem_uart::MemUart;
use crate::sink::Sink;
use crate::store::Failed;
use crate::uart::Uart;
use std::alloc::Global;
use std::marker::Model;

/// A sink that hands what it takes to a UART in memory, which keeps nothing of a call that fails. It takes at most a
/// given number of bytes a call, and fails at the calls whose numbers it was given.
#[derive(Debug, Drop)]
pub struct MemSink {
    uart: MemUart,
    step: usize,
}

impl Model for MemSink {
    ghost use Rattle.std.specs.Prelude.{◌≡◌};
    ghost use Rattle.xm_outside.specs.MemSink.{SinkState};

    ghost Value = { SinkState };

    ghost view = { λ s. record { uart = s.uart; step = s.step } };

    ghost invariant = { λ s. s.uart.keep ≡ 0 };
}

impl MemSink {
    /// A sink that got nothing. The numbers of calls count from 0.
    pub fn new(alloc: Global, fails: Vec<u64>, step: usize) -> MemSink
        // All counts are 0 and nothing is held.
        ensures { result ≡ record { uart = unused fails.items 0; step = step } }
    {
        MemSink {
            uart: MemUart::new(alloc, fails, 0),
            step,
        }
    }

    /// The bytes that it got.
    pub fn got(&self) -> &[u8]
        ensures { result.now ≡ self.now.uart.got }
    {
        self.uart.got()
    }

    /// How many calls failed because memory was out, and for nothing else.
    pub fn starved(&self) -> u64
        ensures { result ≡ self.now.uart.starved }
    {
        self.uart.starved()
    }
}

impl Sink for MemSink {
    ghost got = { λ s. Some s.uart.got };

    ghost faults = { λ s. s.uart.faults };

    fn write(&mut self, piece: &[u8]) -> Result<usize, Failed>
        // The clauses of the trait, over the bytes that the sink got.
        ensures bound { IfOk result (λ count. count ≤ length piece.now) }
        ensures progress { IfOk result (λ count. 0 < length piece.now → 0 < count) }
        ensures got { TakesPiece result (Some self.old.uart.got) piece.now (Some self.new.uart.got) }
        ensures cause { HasCause result self.old.uart.faults self.new.uart.faults }
        // It takes its step, or the piece where that is shorter.
        ensures taken { IfOk result (λ count. count ≡ min self.old.step (length piece.now)) }
        // It fails exactly where it is set to, or out of memory.
        ensures listed { IsListed self.old.uart → IsErr result }
        ensures full { self.old.step ≡ 0 → 0 < length piece.now → IsErr result }
        ensures only { OnErr result (IsRefused self.old piece.now ⊎ Rose self.old.uart.starved self.new.uart.starved) }
        // `starved` counts no listed call, and no call that succeeds.
        ensures starved { OnOk result (self.new.uart.starved ≡ self.old.uart.starved) }
        ensures refused { IsRefused self.old piece.now → self.new.uart.starved ≡ self.old.uart.starved }
        // What it was set to stays.
        ensures fails { self.new.uart.fails ≡ self.old.uart.fails }
        ensures step { self.new.step ≡ self.old.step }
        // Each call is counted.
        ensures calls { self.new.uart.calls ≡ counted self.old.uart.calls }
    {
        let count = piece.len().min(self.step);
        if count == 0 && !piece.is_empty() {
            self.uart.refuse();
            return Err(Failed);
        }
        match self.uart.write(&piece[..count]) {
            Ok(()) => Ok(count),
            Err(Failed) => Err(Failed),
        }
    }
}
