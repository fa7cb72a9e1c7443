//! How a plan stands to a requirement.

/// How a plan stands to a partition's requirement.
#[derive(Clone, Copy, Debug, PartialEq, Eq)]
pub enum Met {
    /// The partition has its duration in each window.
    Met,
    /// There is no requirement.
    NoNeed,
    /// The frame is not whole windows.
    Uneven,
    /// In this window, the first such one, the partition has less than its duration.
    Missed { window: u32 },
}
