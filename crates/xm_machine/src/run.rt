//! What a run answers.

/// What a run that reached its end did.
#[derive(Clone, Copy, Debug, PartialEq, Eq)]
pub struct Ran {
    /// The ticks done, fewer than asked where the hypervisor halted.
    pub ticks: u64,
    /// Whether the hypervisor halted.
    pub halted: bool,
    /// The lines of the report.
    pub lines: u64,
}
