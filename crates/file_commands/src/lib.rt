//! The commands that make or print files, and what all commands share: how files are read, how a call ends, and its line and status.
//! The clauses are about a store, a report's sink and an error sink that may be any that keep their traits. An outcome
//! is a case for each ending: it was carried out whole, or what was done up to the fault that is named.
#![tactic(auto)]

mod complaint;
mod converting;
mod delivery;
mod ending;
mod packing;
mod reading;
mod status;

pub use complaint::complain;
pub use converting::{Conversion, convert};
pub use delivery::{report, unmade};
pub use ending::{Ending, Refusal, status_of};
pub use packing::pack_files;
pub use reading::{
    content_after, content_after_upsets, first_long, first_long_of_four, read_file, read_files,
    read_four, split_contents,
};
pub use status::Status;
