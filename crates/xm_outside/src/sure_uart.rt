//! A UART that takes all bytes and keeps none.

ghost use Rattle.std.specs.Prelude.{◌≡◌, None};
ghost use Rattle.xm_outside.specs.Causes.{HasCause};
ghost use Rattle.xm_outside.specs.Growth.{Receives};

use crate::store::Failed;
use crate::uart::Uart;

/// A UART that never fails: it takes all bytes, and keeps none.
#[derive(Clone, Copy, Debug, Default)]
pub struct SureUart;

impl SureUart {
    /// The UART.
    pub fn new() -> SureUart
        // Its count of faults is 0.
        ensures { ⟦<SureUart as Uart>⟧.faults result ≡ 0 }
    {
        SureUart
    }
}

impl Uart for SureUart {
    ghost got = { λ _. None };

    ghost faults = { λ _. 0 };

    fn write(&mut self, bytes: &[u8]) -> Result<(), Failed>
        // The clauses of the trait, over a UART that reports nothing and never fails.
        ensures got { Receives result None bytes.now None }
        ensures cause { HasCause result 0 0 }
        // It takes all.
        ensures all { result ≡ Ok _ }
    {
        Ok(())
    }

    fn faulted(&self) -> u64
        // It counts no fault.
        ensures count { result ≡ 0 }
    {
        0
    }
}
