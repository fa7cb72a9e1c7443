//! The laws of continuation: a machine goes on alike whatever input words its partitions were given, so a run can be continued from a
//! machine that has only the words that are left.
//! Mathematics over `machine_model` and `upset_model`, of any machine, any input words and any upsets.
#![tactic(auto)]

mod law;
mod rows;

pub use law::{
    boots_are_beginnings, continues_runs, ignores_given, joins_files, left_keep_facts, runs_go_on,
};
pub use rows::worked_rows;
