//! The laws of a partition's work: what it does not read, how many bytes of memory a tick changes, and what the order of
//! the report's lines depends on.
//! Mathematics over `machine_model`.
#![tactic(auto)]

mod law;
mod rows;

pub use law::{changes_few, ignores_labels, order_shows_nothing};
pub use rows::worked_rows;
