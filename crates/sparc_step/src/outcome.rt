//! The outcome of an instruction.

/// The outcome of one instruction.
#[derive(Clone, Copy, Debug, PartialEq, Eq)]
pub enum Turn {
    /// It was executed.
    Went,
    /// It trapped with this type, and changed nothing.
    Trap(u8),
    /// It called the hypervisor. The program goes on after it.
    Call,
}
