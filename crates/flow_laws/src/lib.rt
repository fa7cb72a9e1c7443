//! The laws of time and of steering over the whole system: who gets its slots, and where steering is the same in two runs.
//! Mathematics over `xm_flows`, whose words on rights and steering they use, and over `machine_laws`.
#![tactic(auto)]

mod law;
mod rows;

pub use law::{slots_as_planned, steerers_alike};
pub use rows::worked_rows;
