//! Why a file, a description or a plan is refused, and how each reason is said.

use crate::digits::{address_digits, digest_digits, text};
use crate::memory::OutOfMemory;
use std::fmt;
use xm_base::Short;

/// Why bytes are no file of a format.
#[derive(Clone, Copy, Debug, PartialEq, Eq)]
pub enum HeadFault {
    /// The file does not begin with the name of the format.
    Magic,
    /// It is of another version.
    Version { found: u16 },
    /// It ends before the field that begins here.
    Short { at: usize },
    /// Bytes stand here that belong to nothing.
    Trailing { at: usize },
    /// The digest that is stored is not that of the bytes before it.
    Digest { stored: [u8; 16], found: [u8; 16] },
}

impl From<Short> for HeadFault {
    ghost use Rattle.std.specs.Prelude.{◌≡◌};
    ghost use Rattle.fault_messages.specs.declared.fault.HeadFault.TheVariants as fault;

    ghost from_gives = { λ short e. e ≡ fault.Short short.at };

    fn from(short: Short) -> HeadFault {
        HeadFault::Short { at: short.at }
    }
}

/// Why bytes are no configuration in binary form.
#[derive(Clone, Copy, Debug, PartialEq, Eq)]
pub enum XmcFault {
    /// They do not begin as one.
    Magic,
    /// They have another version.
    Version { found: u16 },
    /// They end inside a field, or before the length that they state.
    Short { at: usize },
    /// There are more of them.
    Trailing { at: usize },
    /// A field has a value that it cannot have.
    Field { at: usize },
    /// The configuration breaks a rule.
    NotFit { rule: u8 },
    /// Memory ran out for it.
    Memory,
}

impl fmt::Display for XmcFault {
    ghost use Rattle.std.specs.Prelude.{Some};
    ghost use Rattle.fault_messages.specs.Texts.{xmc_fault_text};

    ghost output = { λ fault. Some (xmc_fault_text fault) };

    fn fmt<W: fmt::Write>(&self, f: &mut fmt::Formatter<W>) -> fmt::Result {
        match self {
            XmcFault::Magic => f.write_str("magic"),
            XmcFault::Version { found } => write!(f, "version found={found}"),
            XmcFault::Short { at } => write!(f, "short at={at}"),
            XmcFault::Trailing { at } => write!(f, "trailing at={at}"),
            XmcFault::Field { at } => write!(f, "field at={at}"),
            XmcFault::NotFit { rule } => write!(f, "not-fit rule={rule}"),
            XmcFault::Memory => f.write_str("memory"),
        }
    }
}

impl From<Short> for XmcFault {
    ghost use Rattle.std.specs.Prelude.{◌≡◌};
    ghost use Rattle.fault_messages.specs.declared.fault.XmcFault.TheVariants as fault;

    ghost from_gives = { λ short made. made ≡ fault.Short short.at };

    fn from(short: Short) -> XmcFault {
        XmcFault::Short { at: short.at }
    }
}

impl<M: OutOfMemory> From<M> for XmcFault {
    ghost use Rattle.std.specs.Prelude.{◌≡◌};
    ghost use Rattle.fault_messages.specs.declared.fault.XmcFault.TheVariants as fault;

    ghost from_gives = { λ _ made. made ≡ fault.Memory };

    fn from(_: M) -> XmcFault {
        XmcFault::Memory
    }
}

/// Why bytes are no file of an image.
#[derive(Clone, Copy, Debug, PartialEq, Eq)]
pub enum XefFault {
    /// The file does not begin with the name of the format.
    Magic,
    /// It is of another version.
    Version { found: u16 },
    /// It ends before the field that begins here.
    Short { at: usize },
    /// Bytes stand here that belong to nothing.
    Trailing { at: usize },
    /// The digest that is stored is not that of the bytes before it.
    Digest { stored: [u8; 16], found: [u8; 16] },
    /// The field that begins here has a value that it may not have.
    Field { at: usize },
    /// Memory ran out for the image.
    Memory,
}

impl fmt::Display for XefFault {
    ghost use Rattle.std.specs.Prelude.{Some};
    ghost use Rattle.fault_messages.specs.Texts.{xef_fault_text};

    ghost output = { λ fault. Some (xef_fault_text fault) };

    fn fmt<W: fmt::Write>(&self, f: &mut fmt::Formatter<W>) -> fmt::Result {
        match self {
            XefFault::Magic => f.write_str("magic"),
            XefFault::Version { found } => write!(f, "version found={found}"),
            XefFault::Short { at } => write!(f, "short at={at}"),
            XefFault::Trailing { at } => write!(f, "trailing at={at}"),
            XefFault::Digest { stored, found } => {
                let stored = digest_digits(stored);
                let found = digest_digits(found);
                let stored = text(&stored);
                let found = text(&found);
                write!(f, "digest stored={stored} found={found}")
            }
            XefFault::Field { at } => write!(f, "field at={at}"),
            XefFault::Memory => f.write_str("memory"),
        }
    }
}

impl From<Short> for XefFault {
    ghost use Rattle.std.specs.Prelude.{◌≡◌};
    ghost use Rattle.fault_messages.specs.declared.fault.XefFault.TheVariants as fault;

    ghost from_gives = { λ short e. e ≡ fault.Short short.at };

    fn from(short: Short) -> XefFault {
        XefFault::Short { at: short.at }
    }
}

impl From<HeadFault> for XefFault {
    ghost use Rattle.std.specs.Prelude.{◌≡◌};
    ghost use Rattle.fault_messages.specs.OfHeads.{xef_fault};

    ghost from_gives = { λ head e. e ≡ xef_fault head };

    fn from(head: HeadFault) -> XefFault {
        match head {
            HeadFault::Magic => XefFault::Magic,
            HeadFault::Version { found } => XefFault::Version { found },
            HeadFault::Short { at } => XefFault::Short { at },
            HeadFault::Trailing { at } => XefFault::Trailing { at },
            HeadFault::Digest { stored, found } => XefFault::Digest { stored, found },
        }
    }
}

impl<M: OutOfMemory> From<M> for XefFault {
    ghost use Rattle.std.specs.Prelude.{◌≡◌};
    ghost use Rattle.fault_messages.specs.declared.fault.XefFault.TheVariants as fault;

    ghost from_gives = { λ _ made. made ≡ fault.Memory };

    fn from(_: M) -> XefFault {
        XefFault::Memory
    }
}

/// Why a program file is no image.
#[derive(Clone, Copy, Debug, PartialEq, Eq)]
pub enum ElfFault {
    /// It is no ELF file.
    Magic,
    /// It is not of 32 bits, not big endian or not of version 1.
    Class,
    /// It is no executable, not for SPARC or not of version 1.
    Machine,
    /// Its program headers are not of 32 bytes.
    Headers { found: u16 },
    /// It ends before what begins here.
    Short { at: usize },
    /// The header here has more bytes than memory.
    Size { at: usize },
    /// No header is loaded.
    NoLoad,
    /// It starts at no word of a segment.
    Entry { found: u32 },
    /// The segment here begins before the one before it ends.
    Overlap { address: u32 },
    /// The header here passes the end of the addresses or is one too many; at 0, the image is too long.
    Limit { at: usize },
    /// Memory ran out for the image.
    Memory,
}

impl fmt::Display for ElfFault {
    ghost use Rattle.std.specs.Prelude.{Some};
    ghost use Rattle.fault_messages.specs.Texts.{elf_fault_text};

    ghost output = { λ fault. Some (elf_fault_text fault) };

    fn fmt<W: fmt::Write>(&self, f: &mut fmt::Formatter<W>) -> fmt::Result {
        match self {
            ElfFault::Magic => f.write_str("magic"),
            ElfFault::Class => f.write_str("class"),
            ElfFault::Machine => f.write_str("machine"),
            ElfFault::Headers { found } => write!(f, "headers found={found}"),
            ElfFault::Short { at } => write!(f, "short at={at}"),
            ElfFault::Size { at } => write!(f, "size at={at}"),
            ElfFault::NoLoad => f.write_str("no-load"),
            ElfFault::Entry { found } => {
                let digits = address_digits(*found);
                let found = text(&digits);
                write!(f, "entry found={found}")
            }
            ElfFault::Overlap { address } => {
                let digits = address_digits(*address);
                let address = text(&digits);
                write!(f, "overlap address={address}")
            }
            ElfFault::Limit { at } => write!(f, "limit at={at}"),
            ElfFault::Memory => f.write_str("memory"),
        }
    }
}

impl<M: OutOfMemory> From<M> for ElfFault {
    ghost use Rattle.std.specs.Prelude.{◌≡◌};
    ghost use Rattle.fault_messages.specs.declared.fault.ElfFault.TheVariants as fault;

    ghost from_gives = { λ _ made. made ≡ fault.Memory };

    fn from(_: M) -> ElfFault {
        ElfFault::Memory
    }
}

/// Why a configuration and images make no container.
#[derive(Clone, Copy, Debug, PartialEq, Eq)]
pub enum PackFault {
    /// This partition has no image.
    Missing { id: u8 },
    /// This image has no partition.
    Extra { id: u8 },
    /// The segment here lies inside no area of its partition.
    Outside { id: u8, address: u32 },
    /// The container would have this many bytes.
    Long { length: u64 },
    /// Memory ran out for it.
    Memory,
}

impl fmt::Display for PackFault {
    ghost use Rattle.std.specs.Prelude.{Some};
    ghost use Rattle.fault_messages.specs.Texts.{pack_fault_text};

    ghost output = { λ fault. Some (pack_fault_text fault) };

    fn fmt<W: fmt::Write>(&self, f: &mut fmt::Formatter<W>) -> fmt::Result {
        match self {
            PackFault::Missing { id } => write!(f, "missing id={id}"),
            PackFault::Extra { id } => write!(f, "extra id={id}"),
            PackFault::Outside { id, address } => {
                let digits = address_digits(*address);
                let address = text(&digits);
                write!(f, "outside id={id} address={address}")
            }
            PackFault::Long { length } => write!(f, "long length={length}"),
            PackFault::Memory => f.write_str("memory"),
        }
    }
}

impl<M: OutOfMemory> From<M> for PackFault {
    ghost use Rattle.std.specs.Prelude.{◌≡◌};
    ghost use Rattle.fault_messages.specs.declared.fault.PackFault.TheVariants as fault;

    ghost from_gives = { λ _ made. made ≡ fault.Memory };

    fn from(_: M) -> PackFault {
        PackFault::Memory
    }
}

/// Why bytes are no container.
#[derive(Clone, Copy, Debug, PartialEq, Eq)]
pub enum BoxFault {
    /// They do not begin with the name of the format.
    Magic,
    /// They are of another version.
    Version { found: u16 },
    /// They end before the field that begins here.
    Short { at: usize },
    /// Bytes stand here that belong to nothing.
    Trailing { at: usize },
    /// The digest that is stored is not that of the bytes before it.
    Digest { stored: [u8; 16], found: [u8; 16] },
    /// The field that begins here has a value that it may not have.
    Field { at: usize },
    /// The bytes of the configuration are none. A place counts from their beginning.
    Config(XmcFault),
    /// The bytes of this image are none. A place counts from their beginning.
    Image { id: u8, fault: XefFault },
    /// This partition has no image.
    Missing { id: u8 },
    /// This image has no partition.
    Extra { id: u8 },
    /// The segment here lies inside no area of its partition.
    Outside { id: u8, address: u32 },
    /// Memory ran out for it.
    Memory,
}

impl fmt::Display for BoxFault {
    ghost use Rattle.std.specs.Prelude.{Some};
    ghost use Rattle.fault_messages.specs.Texts.{box_fault_text};

    ghost output = { λ fault. Some (box_fault_text fault) };

    fn fmt<W: fmt::Write>(&self, f: &mut fmt::Formatter<W>) -> fmt::Result {
        match self {
            BoxFault::Magic => f.write_str("magic"),
            BoxFault::Version { found } => write!(f, "version found={found}"),
            BoxFault::Short { at } => write!(f, "short at={at}"),
            BoxFault::Trailing { at } => write!(f, "trailing at={at}"),
            BoxFault::Digest { stored, found } => {
                let stored = digest_digits(stored);
                let found = digest_digits(found);
                let stored = text(&stored);
                let found = text(&found);
                write!(f, "digest stored={stored} found={found}")
            }
            BoxFault::Field { at } => write!(f, "field at={at}"),
            BoxFault::Config(fault) => write!(f, "config {fault}"),
            BoxFault::Image { id, fault } => write!(f, "image id={id} {fault}"),
            BoxFault::Missing { id } => write!(f, "missing id={id}"),
            BoxFault::Extra { id } => write!(f, "extra id={id}"),
            BoxFault::Outside { id, address } => {
                let digits = address_digits(*address);
                let address = text(&digits);
                write!(f, "outside id={id} address={address}")
            }
            BoxFault::Memory => f.write_str("memory"),
        }
    }
}

impl From<HeadFault> for BoxFault {
    ghost use Rattle.std.specs.Prelude.{◌≡◌};
    ghost use Rattle.fault_messages.specs.OfHeads.{box_fault};

    ghost from_gives = { λ head made. made ≡ box_fault head };

    fn from(head: HeadFault) -> BoxFault {
        match head {
            HeadFault::Magic => BoxFault::Magic,
            HeadFault::Version { found } => BoxFault::Version { found },
            HeadFault::Short { at } => BoxFault::Short { at },
            HeadFault::Trailing { at } => BoxFault::Trailing { at },
            HeadFault::Digest { stored, found } => BoxFault::Digest { stored, found },
        }
    }
}

impl From<Short> for BoxFault {
    ghost use Rattle.std.specs.Prelude.{◌≡◌};
    ghost use Rattle.fault_messages.specs.declared.fault.BoxFault.TheVariants as fault;

    ghost from_gives = { λ short made. made ≡ fault.Short short.at };

    fn from(short: Short) -> BoxFault {
        BoxFault::Short { at: short.at }
    }
}

impl<M: OutOfMemory> From<M> for BoxFault {
    ghost use Rattle.std.specs.Prelude.{◌≡◌};
    ghost use Rattle.fault_messages.specs.declared.fault.BoxFault.TheVariants as fault;

    ghost from_gives = { λ _ made. made ≡ fault.Memory };

    fn from(_: M) -> BoxFault {
        BoxFault::Memory
    }
}

/// Why bytes are no script for a partition, or a script is not written or not played.
#[derive(Clone, Copy, Debug, PartialEq, Eq)]
pub enum ScriptFault {
    /// The file does not begin with the name of the format.
    Magic,
    /// It is of another version.
    Version { found: u16 },
    /// It ends before the field that begins here.
    Short { at: usize },
    /// Bytes stand here that belong to nothing.
    Trailing { at: usize },
    /// The field that begins here has a value that it may not have.
    Field { at: usize },
    /// The script of a run has this many bytes, more than a file may have.
    Length { found: u64 },
    /// This cue, counted from 0, cannot be taken.
    Cue { tick: u64 },
    /// Memory ran out.
    Memory,
}

impl fmt::Display for ScriptFault {
    ghost use Rattle.std.specs.Prelude.{Some};
    ghost use Rattle.fault_messages.specs.Texts.{script_fault_text};

    ghost output = { λ fault. Some (script_fault_text fault) };

    fn fmt<W: fmt::Write>(&self, f: &mut fmt::Formatter<W>) -> fmt::Result {
        match self {
            ScriptFault::Magic => f.write_str("magic"),
            ScriptFault::Version { found } => write!(f, "version found={found}"),
            ScriptFault::Short { at } => write!(f, "short at={at}"),
            ScriptFault::Trailing { at } => write!(f, "trailing at={at}"),
            ScriptFault::Field { at } => write!(f, "field at={at}"),
            ScriptFault::Length { found } => write!(f, "length found={found}"),
            ScriptFault::Cue { tick } => write!(f, "cue tick={tick}"),
            ScriptFault::Memory => f.write_str("memory"),
        }
    }
}

impl From<Short> for ScriptFault {
    ghost use Rattle.std.specs.Prelude.{◌≡◌};
    ghost use Rattle.fault_messages.specs.declared.fault.ScriptFault.TheVariants as fault;

    ghost from_gives = { λ short e. e ≡ fault.Short short.at };

    fn from(short: Short) -> ScriptFault {
        ScriptFault::Short { at: short.at }
    }
}

impl<M: OutOfMemory> From<M> for ScriptFault {
    ghost use Rattle.std.specs.Prelude.{◌≡◌};
    ghost use Rattle.fault_messages.specs.declared.fault.ScriptFault.TheVariants as fault;

    ghost from_gives = { λ _ made. made ≡ fault.Memory };

    fn from(_: M) -> ScriptFault {
        ScriptFault::Memory
    }
}

/// Why no plan is made from the requirements.
#[derive(Clone, Copy, Debug, PartialEq, Eq)]
pub enum PlanFault {
    /// No partition has a requirement.
    NoNeed,
    /// The common period of the partitions up to this one is longer than a frame may be.
    Period { part: u8 },
    /// The partitions need more ticks of the common period than it has.
    Overload { demand: u32, period: u32 },
    /// The plan has more slots than a plan may have.
    Slots { found: u32 },
    /// Out of memory.
    Memory,
}

impl fmt::Display for PlanFault {
    ghost use Rattle.std.specs.Prelude.{Some};
    ghost use Rattle.fault_messages.specs.Texts.{plan_fault_text};

    ghost output = { λ fault. Some (plan_fault_text fault) };

    fn fmt<W: fmt::Write>(&self, f: &mut fmt::Formatter<W>) -> fmt::Result {
        match self {
            PlanFault::NoNeed => f.write_str("no-need"),
            PlanFault::Period { part } => write!(f, "period part={part}"),
            PlanFault::Overload { demand, period } => {
                write!(f, "overload demand={demand} period={period}")
            }
            PlanFault::Slots { found } => write!(f, "slots found={found}"),
            PlanFault::Memory => f.write_str("memory"),
        }
    }
}

impl<M: OutOfMemory> From<M> for PlanFault {
    ghost use Rattle.std.specs.Prelude.{◌≡◌};
    ghost use Rattle.fault_messages.specs.declared.fault.PlanFault.TheVariants as fault;

    ghost from_gives = { λ _ made. made ≡ fault.Memory };

    fn from(_: M) -> PlanFault {
        PlanFault::Memory
    }
}

/// Why a draft of a system description is no configuration.
#[derive(Clone, Copy, Debug, PartialEq, Eq)]
pub enum CheckFault {
    /// A rule is broken: the place of the item that breaks it, and the place of the item that it clashes with.
    Rule { rule: u8, at: usize, and: usize },
    /// Memory ran out for the configuration.
    Memory,
}

impl fmt::Display for CheckFault {
    ghost use Rattle.std.specs.Prelude.{Some};
    ghost use Rattle.fault_messages.specs.Texts.{check_fault_text};

    ghost output = { λ fault. Some (check_fault_text fault) };

    fn fmt<W: fmt::Write>(&self, f: &mut fmt::Formatter<W>) -> fmt::Result {
        match self {
            CheckFault::Rule { rule, at, and } => {
                write!(f, "rule number={rule} at={at} and={and}")
            }
            CheckFault::Memory => f.write_str("memory"),
        }
    }
}

impl<M: OutOfMemory> From<M> for CheckFault {
    ghost use Rattle.std.specs.Prelude.{◌≡◌};
    ghost use Rattle.fault_messages.specs.declared.fault.CheckFault.TheVariants as fault;

    ghost from_gives = { λ _ made. made ≡ fault.Memory };

    fn from(_: M) -> CheckFault {
        CheckFault::Memory
    }
}
