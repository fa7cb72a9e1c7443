//! Who a partition is, and what time it requires.

use xm_conf::{Name, Need};

/// The first fields of a partition.
#[derive(Debug, Drop)]
pub(crate) struct Identity {
    pub(crate) name: Name,
    pub(crate) system: bool,
    pub(crate) console: Option<u8>,
    pub(crate) need: Option<Need>,
    pub(crate) trace_mask: u32,
}
