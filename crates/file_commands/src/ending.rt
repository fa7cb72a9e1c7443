//! How a call ends, with what its line on the error output names.

ghost use Rattle.std.specs.Prelude.{◌≡◌};
ghost use Rattle.file_commands.specs.Ending.{status_of};
ghost use Rattle.file_commands.specs.EndingValues.{ending_of};

use crate::status::Status;
use xm_base::PartId;

/// Why a file that was read is refused.
#[derive(Debug, Drop)]
pub enum Refusal {
    /// It has more bytes than a file may have.
    TooLong,
    /// An image has no bytes, or too many.
    Length { found: usize },
    /// A run would have this many ticks, too many.
    Ticks { asked: u64 },
    /// A saved machine would have this many bytes, more than a file may have.
    Saved { found: u64 },
    /// An input is for a partition that the system does not have.
    Partition { id: PartId },
    /// An input's length is no multiple of 4.
    Input { found: usize },
    /// What it should be it is not, as this text says.
    Fault { text: String },
}

/// How a call ends.
#[derive(Debug, Drop)]
pub enum Ending<'a> {
    /// The command was carried out.
    Done,
    /// The words spell no command.
    Usage,
    /// The file was not read.
    ReadFault { file: &'a str },
    /// The file is refused.
    Refused { file: &'a str, why: Refusal },
    /// The report was not written whole.
    WriteFaultReport,
    /// The file was not written.
    WriteFaultFile { file: &'a str },
    /// The command was carried out, but the UART at this place did not take what was said to it. It is the lowest such place.
    UartFault { place: u8 },
    /// Memory ran out.
    NoMemory,
}

/// The status of a call that ends so.
pub fn status_of(ending: &Ending<'_>) -> Status
    // The status of an ending.
    ensures { result ≡ status_of (ending_of ending.now) }
{
    match ending {
        Ending::Done => Status::Done,
        Ending::Usage => Status::Usage,
        Ending::ReadFault { .. } => Status::ReadFault,
        Ending::Refused { .. } => Status::Refused,
        Ending::WriteFaultReport | Ending::WriteFaultFile { .. } => Status::WriteFault,
        Ending::UartFault { .. } => Status::UartFault,
        Ending::NoMemory => Status::NoMemory,
    }
}
