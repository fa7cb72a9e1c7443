//! The laws of time, integrity and work of the stated machine, and of two runs from equal states.
//! Mathematics over `machine_model`: what a reader who judges a partition asks of the machine besides its isolation. In
//! which tick does it have its slot? What may a tick of another one change of it? How much may a tick print?
#![tactic(auto)]

mod law;
mod rows;

pub use law::{acts_alone, emits_few, goes_as_planned, serves_needs, spares_others, two_runs_from};
pub use rows::worked_rows;
