//! How a partition's work in a tick reaches beyond it.

use health_monitor::Whole;
use xm_base::{Order, PartId};

/// How a partition's work in a tick reaches beyond it, but for messages, which are put and taken as the partition is served.
#[derive(Clone, Copy, Debug, PartialEq, Eq)]
pub enum Beyond {
    /// Not at all.
    Nothing,
    /// An order on another partition.
    Order { id: PartId, order: Order },
    /// A plan is asked for.
    Plan { plan: u8 },
    /// An event of the whole system.
    Whole(Whole),
}
