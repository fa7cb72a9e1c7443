//! Which item breaks a rule.

/// An item of a configuration. Numbers count from 0; of two, the first is that of the plan,
/// partition or channel that has the item.
#[derive(Clone, Copy, Debug, PartialEq, Eq)]
pub enum Item {
    /// The whole configuration, and the hypervisor.
    Whole,
    Region(u8),
    Uart(u8),
    Plan(u8),
    Slot(u8, u8),
    Part(u8),
    Area(u8, u8),
    Port(u8, u8),
    /// The answer to a health event.
    Event(u8, u8),
    Chan(u8),
    /// An end of a channel: 0 is the source, and the destinations count from 1.
    End(u8, u8),
    Link(u8),
}

/// A rule that is broken.
#[derive(Clone, Copy, Debug, PartialEq, Eq)]
pub struct Broken {
    /// The rule's number.
    pub rule: u8,
    /// The item that breaks it.
    pub first: Item,
    /// The item that it clashes with, or itself.
    pub second: Item,
}
