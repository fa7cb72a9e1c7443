//! Why bytes are no saved machine.

use crate::digits::{digest_digits, text};
use fault_messages::HeadFault;
use std::fmt;
use xm_base::Short;

/// Why bytes are no saved machine.
#[derive(Clone, Copy, Debug, PartialEq, Eq)]
pub enum SavedFault {
    /// The file does not begin with the name of the format.
    Magic,
    /// It is of another version.
    Version { found: u16 },
    /// It ends before the field that begins here.
    Short { at: usize },
    /// Bytes stand here that belong to nothing.
    Trailing { at: usize },
    /// The digest that is stored is not that of the bytes before it.
    Digest { stored: [u8; 16], found: [u8; 16] },
    /// The machine that it was saved from is of another container.
    Container { stored: [u8; 16], found: [u8; 16] },
    /// The field that begins here has a value that it may not have.
    Field { at: usize },
    /// Memory ran out for the machine.
    Memory,
}

impl fmt::Display for SavedFault {
    ghost use Rattle.std.specs.Prelude.{Some};
    ghost use Rattle.saved_machines.specs.Texts.{saved_fault_text};

    ghost output = { λ fault. Some (saved_fault_text fault) };

    fn fmt<W: fmt::Write>(&self, f: &mut fmt::Formatter<W>) -> fmt::Result {
        match self {
            SavedFault::Magic => f.write_str("magic"),
            SavedFault::Version { found } => write!(f, "version found={found}"),
            SavedFault::Short { at } => write!(f, "short at={at}"),
            SavedFault::Trailing { at } => write!(f, "trailing at={at}"),
            SavedFault::Digest { stored, found } => {
                let stored = digest_digits(*stored);
                let found = digest_digits(*found);
                let stored = text(&stored);
                let found = text(&found);
                write!(f, "digest stored={stored} found={found}")
            }
            SavedFault::Container { stored, found } => {
                let stored = digest_digits(*stored);
                let found = digest_digits(*found);
                let stored = text(&stored);
                let found = text(&found);
                write!(f, "container stored={stored} found={found}")
            }
            SavedFault::Field { at } => write!(f, "field at={at}"),
            SavedFault::Memory => f.write_str("memory"),
        }
    }
}

impl From<Short> for SavedFault {
    ghost use Rattle.std.specs.Prelude.{◌≡◌};
    ghost use Rattle.saved_machines.specs.declared.fault.SavedFault.TheVariants as fault;

    ghost from_gives = { λ short made. made ≡ fault.Short short.at };

    fn from(short: Short) -> SavedFault {
        SavedFault::Short { at: short.at }
    }
}

impl From<HeadFault> for SavedFault {
    ghost use Rattle.std.specs.Prelude.{◌≡◌};
    ghost use Rattle.saved_machines.specs.SavedFields.{saved_fault};

    ghost from_gives = { λ head made. made ≡ saved_fault head };

    fn from(head: HeadFault) -> SavedFault {
        match head {
            HeadFault::Magic => SavedFault::Magic,
            HeadFault::Version { found } => SavedFault::Version { found },
            HeadFault::Short { at } => SavedFault::Short { at },
            HeadFault::Trailing { at } => SavedFault::Trailing { at },
            HeadFault::Digest { stored, found } => SavedFault::Digest { stored, found },
        }
    }
}
