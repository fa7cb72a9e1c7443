//! Images of partitions: the XEF format both ways, and the program files of a linker as images.
#![tactic(auto)]

mod elf;
mod header;
mod law;
mod lines;
mod reading;
mod row;
mod segment;
mod writing;
mod xef;

pub use elf::read_elf;
pub use fault_messages::{ElfFault, XefFault};
pub use law::{length_is_stated, none_goes_on, written_is_read};
pub use lines::describe;
pub use reading::read_xef;
pub use segment::Segment;
pub use writing::build_xef;
pub use xef::Xef;
