//! Saved machines: the state of a whole machine as a file of one spelling, and the laws of these files.
#![tactic(auto)]

mod content;
mod digits;
mod fault;
mod fields;
mod head;
mod law;
mod logs;
mod machine;
mod pages;
mod part;
mod processor;
mod rows;
mod store;
mod values;

pub use fault::SavedFault;
pub use head::{Head, SavedClock, read_head};
pub use law::{
    restorable_machines_keep_facts, restores_what_was_saved, savable_machines_have_files,
    saved_files_are_lawful, saved_pages_restore,
};
pub use machine::{Saved, read_machine};
pub use rows::{channels_by_kind, heads_at_edges, pages_that_differ, partitions_in_order};
pub use values::{MachineValues, Page, PartValues};
