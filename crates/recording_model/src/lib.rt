//! What a partition receives in a run is a script that can be read back.
//! Mathematics over `machine_model`, of any machine after a run, under a configuration that meets the rules and with
//! its numbers in their ranges (`range_model`).
#![tactic(auto)]

mod law;
mod numbers;

pub use law::received_is_a_script;
pub use numbers::has_numbers;
