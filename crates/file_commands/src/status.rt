//! How a call ends, as the exit status.

ghost use Rattle.file_commands.specs.Status.{IsCodeOf};

/// How a call ended.
#[derive(Clone, Copy, Debug, PartialEq, Eq)]
pub enum Status {
    /// The command was carried out.
    Done,
    /// A file that was read is refused.
    Refused,
    /// The words spell no command.
    Usage,
    /// A file was not read.
    ReadFault,
    /// The report or a file was not written.
    WriteFault,
    /// A UART of the board did not take what a partition wrote to it.
    UartFault,
    /// Memory ran out.
    NoMemory,
}

impl Status {
    /// The program's exit status.
    pub fn code(self) -> u8
        // The exit statuses are 0 to 6.
        ensures { IsCodeOf self result }
    {
        self as u8
    }
}
