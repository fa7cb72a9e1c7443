//! Why a text is no system description.

ghost use Rattle.std.specs.Prelude.{◌≡◌, Some};
ghost use Rattle.xmcf_reader.specs.Texts.{read_fault_text};
ghost use Rattle.xmcf_reader.specs.declared.fault.ReadFault.TheVariants as fault;

use crate::word::Word;
use std::alloc::AllocFailed;
use std::fmt;

/// Why a text is no system description, and where.
#[derive(Clone, Copy, Debug)]
pub enum ReadFault {
    /// The bytes are no text from here on.
    NotText { at: usize },
    /// The spelling of an item breaks here, or the item does not belong here.
    BadItem { at: usize },
    /// A reference stands here.
    Reference { at: usize },
    /// An element that is not known begins here.
    UnknownElement { at: usize },
    /// An attribute that the element does not have begins here.
    UnknownAttribute { at: usize },
    /// The start tag ends here without an attribute that it needs.
    MissingAttribute { at: usize, which: Word },
    /// An attribute that the element has already begins here.
    RepeatedAttribute { at: usize },
    /// A value that does not have its form begins here.
    BadValue { at: usize },
    /// The text ends here, inside an item or before the end of the root.
    Unclosed { at: usize },
    /// An element that has no place here begins here.
    WrongChild { at: usize },
    /// The element ends here without a child that it needs.
    MissingChild { at: usize, which: Word },
    /// Memory ran out.
    Memory,
}

impl fmt::Display for ReadFault {
    ghost output = { λ met. Some (read_fault_text met) };

    fn fmt<W: fmt::Write>(&self, f: &mut fmt::Formatter<W>) -> fmt::Result {
        match self {
            ReadFault::NotText { at } => write!(f, "not-text at={at}"),
            ReadFault::BadItem { at } => write!(f, "bad-item at={at}"),
            ReadFault::Reference { at } => write!(f, "reference at={at}"),
            ReadFault::UnknownElement { at } => write!(f, "unknown-element at={at}"),
            ReadFault::UnknownAttribute { at } => write!(f, "unknown-attribute at={at}"),
            ReadFault::MissingAttribute { at, which } => {
                let which = which.text();
                write!(f, "missing-attribute at={at} which={which}")
            }
            ReadFault::RepeatedAttribute { at } => write!(f, "repeated-attribute at={at}"),
            ReadFault::BadValue { at } => write!(f, "bad-value at={at}"),
            ReadFault::Unclosed { at } => write!(f, "unclosed at={at}"),
            ReadFault::WrongChild { at } => write!(f, "wrong-child at={at}"),
            ReadFault::MissingChild { at, which } => {
                let which = which.text();
                write!(f, "missing-child at={at} which={which}")
            }
            ReadFault::Memory => f.write_str("memory"),
        }
    }
}

impl<T: Drop> From<AllocFailed<T>> for ReadFault {
    ghost from_gives = { λ _ e. e ≡ fault.Memory };

    fn from(_error: AllocFailed<T>) -> ReadFault {
        ReadFault::Memory
    }
}
