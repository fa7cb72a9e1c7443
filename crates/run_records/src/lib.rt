//! What ran: what is recorded of the ticks of a run, from each partition alone.
//! Mathematics over `machine_model` and `upset_model`, of any machine and any number of upsets.
#![tactic(auto)]

mod law;
mod rows;

pub use law::{counts_use, counts_words, finds_ticks, lists_calls, stops_first};
pub use rows::records_small_cases;
