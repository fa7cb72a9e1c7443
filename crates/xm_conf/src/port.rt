//! What a port is.

use crate::name::Name;

/// What a port keeps of the messages that it gets.
#[derive(Clone, Copy, Debug, PartialEq, Eq)]
pub enum Kind {
    /// The last one.
    Sampling,
    /// All, in order, until each is taken.
    Queuing,
}

/// Which end of a channel a port is.
#[derive(Clone, Copy, Debug, PartialEq, Eq)]
pub enum Way {
    /// Messages go out here.
    Source,
    /// Messages come in here.
    Destination,
}

/// A port of a partition.
#[derive(Clone, Copy, Debug)]
pub struct Port {
    pub name: Name,
    pub kind: Kind,
    pub way: Way,
}
