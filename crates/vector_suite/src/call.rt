//! What is called in a vector, and its outcome.

use crate::vector::hexadecimal;
use sparc_step::Turn;
use std::fmt;

/// What is called in a vector.
#[derive(Clone, Copy, Debug, PartialEq, Eq)]
pub(crate) enum Call {
    /// The instruction at `pc`.
    Turn,
    /// The same, with the spill or the fill that it needs.
    Settle,
    Spill,
    Fill,
    /// The delivery of a virtual trap of this type.
    Deliver(u8),
    /// The return from a virtual trap.
    Return,
    /// The virtual traps of a new guest.
    New,
    /// This interrupt becomes pending.
    Raise(u8),
    /// This interrupt is no longer pending.
    Clear(u8),
    /// Which interrupt is due.
    Due,
}

/// The outcome of a call.
#[derive(Clone, Copy, Debug, PartialEq, Eq)]
pub(crate) enum Came {
    /// It was done.
    Went,
    /// The instruction trapped with this type.
    Trap(u8),
    /// The instruction called the hypervisor.
    Hypercall,
    /// The window's stack may not be used.
    StackFault,
    /// A program counter to return to is no multiple of 4.
    Unaligned,
    /// This interrupt is due.
    Due(u8),
    /// No interrupt is due.
    NoneDue,
    /// The call may not be made of such registers.
    NotCalled,
}

/// Reads a call, with the instruction word that stands at the start of the memory.
pub(crate) fn read_call(text: &str) -> Option<(Call, u32)> {
    match text {
        "spill" => Some((Call::Spill, 0)),
        "fill" => Some((Call::Fill, 0)),
        "iret" => Some((Call::Return, 0)),
        "new" => Some((Call::New, 0)),
        "due" => Some((Call::Due, 0)),
        _ => match text.split_once(':') {
            Some((name, number)) => call_with(name, hexadecimal(number)?),
            None => Some((Call::Turn, hexadecimal(text)?)),
        },
    }
}

// The call of a name with a number.
fn call_with(name: &str, number: u32) -> Option<(Call, u32)> {
    match name {
        "settle" => Some((Call::Settle, number)),
        "deliver" => Some((Call::Deliver(u8::try_from(number).ok()?), 0)),
        "raise" => Some((Call::Raise(u8::try_from(number).ok()?), 0)),
        "clear" => Some((Call::Clear(u8::try_from(number).ok()?), 0)),
        _ => None,
    }
}

/// Reads the outcome of a call.
pub(crate) fn read_came(text: &str) -> Option<Came> {
    match text {
        "went" => Some(Came::Went),
        "call" => Some(Came::Hypercall),
        "stack-fault" => Some(Came::StackFault),
        "unaligned" => Some(Came::Unaligned),
        "none" => Some(Came::NoneDue),
        _ => {
            let (name, number) = text.split_once('=')?;
            came_with(name, u8::try_from(hexadecimal(number)?).ok()?)
        },
    }
}

// What comes of a name with a number.
fn came_with(name: &str, number: u8) -> Option<Came> {
    match name {
        "trap" => Some(Came::Trap(number)),
        "due" => Some(Came::Due(number)),
        _ => None,
    }
}

/// The outcome of an instruction.
pub(crate) fn came_of(turn: Turn) -> Came {
    match turn {
        Turn::Went => Came::Went,
        Turn::Trap(trap_type) => Came::Trap(trap_type),
        Turn::Call => Came::Hypercall,
    }
}

// As the vectors have it.
impl fmt::Display for Came {
    fn fmt<W: fmt::Write>(&self, f: &mut fmt::Formatter<W>) -> fmt::Result {
        match *self {
            Came::Went => write!(f, "went"),
            Came::Trap(trap_type) => write!(f, "trap={trap_type:02x}"),
            Came::Hypercall => write!(f, "call"),
            Came::StackFault => write!(f, "stack-fault"),
            Came::Unaligned => write!(f, "unaligned"),
            Came::Due(number) => write!(f, "due={number:x}"),
            Came::NoneDue => write!(f, "none"),
            Came::NotCalled => write!(f, "not called"),
        }
    }
}
