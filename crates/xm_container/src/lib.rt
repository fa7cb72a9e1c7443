//! Containers: a configuration and its images in one file, and the system that runs one raw image.
#![tactic(auto)]

mod entries;
mod files;
mod image;
mod law;
mod lines;
mod numbers;
mod put;
mod reading;
mod writing;

pub use fault_messages::{BoxFault, PackFault};
pub use image::Image;
pub use law::{none_goes_on, packed_is_unpacked, unpacked_is_packed, versions_are_alike};
pub use lines::list_lines;
pub use loaded_system::{BareFault, System, bare};
pub use reading::unpack;
pub use writing::{pack, pack_with_files};
