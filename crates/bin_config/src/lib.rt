//! The binary form of a configuration.
#![tactic(auto)]

mod identity;
mod law;
mod put;
mod reading;
mod version;
mod writing;

pub use fault_messages::XmcFault;
pub use law::{
    cut_is_short, more_is_trailing, other_is_refused, prefix_free, read_is_spelled,
    spelled_is_read, spelling_is_short, upgraded_is_same,
};
pub use reading::{read_version, read_xmc};
pub use version::Version;
pub use writing::write_xmc;
