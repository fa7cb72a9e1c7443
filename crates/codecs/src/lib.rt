//! Formats as values: how a file's values are spelled and read, the ways to make formats of formats, and what each of them keeps.
#![tactic(auto)]

mod items;
mod law;
mod rows;

pub use items::read_items;
pub use law::{
    ends_are_known, fields_are_lawful, fields_are_steady, headed_files_are_lawful,
    lists_are_lawful, lists_are_steady, parts_are_lawful, parts_are_steady,
    sealed_files_are_lawful, whole_files_are_lawful,
};
pub use rows::{fields_at_edges, heads_of_files, parts_in_order};
