//! Systems: a configuration, and an image for each of its partitions; the system that runs one raw image.
#![tactic(auto)]

mod inside;
mod raw_image;
mod system;

pub use inside::outside_of;
pub use raw_image::{BareFault, bare, default_table};
pub use system::{Outside, System, parts};
