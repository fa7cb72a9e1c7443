//! Links, over which one partition interrupts another.

/// A link.
#[derive(Clone, Copy, Debug, PartialEq, Eq)]
pub struct Link {
    /// Its number among those of its source.
    pub number: u8,
    /// The partition that interrupts.
    pub source: u8,
    /// The partition that is interrupted.
    pub dest: u8,
}
