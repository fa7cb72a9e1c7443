//! How ticks of one partition in isolation end.

ghost use Rattle.std.specs.Prelude.{◌≡◌};
ghost use Rattle.xm_machine.specs.lemmas.AloneStepTerms.{printed_alone};

use xm_report::WriteFault;

/// Ticks of one partition in isolation that were done, one after the other.
#[derive(Clone, Copy, Debug, PartialEq, Eq)]
pub struct AloneSpan {
    /// How many there were, with the last: at least one. All but the last print and say nothing.
    pub ticks: u64,
    /// How the last ended.
    pub ended: Result<(), AloneFault>,
}

/// Why a tick of one partition in isolation was not done, or not printed.
#[derive(Clone, Copy, Debug, PartialEq, Eq)]
pub enum AloneFault {
    /// The partition cannot take its cue.
    Cue,
    /// The tick was done, and its lines could not be written.
    Write,
}

/// The outcome of a tick in isolation, whose lines were to go out.
pub(crate) fn printed_alone(printed: Result<u64, WriteFault>) -> Result<(), AloneFault>
    ensures { result ≡ printed_alone printed }
{
    match printed {
        Ok(_) => Ok(()),
        Err(WriteFault) => Err(AloneFault::Write),
    }
}
