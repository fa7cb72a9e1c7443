//! The laws of upsets: a bit that flips in one partition reaches no other but by what that one receives.
//! Mathematics over `upset_model`, of any machine, any number of upsets and any state; on closed sets of partitions over
//! `xm_flows`; on replays over `recording_model`.
#![tactic(auto)]

mod law;

pub use law::{
    closed_upset_runs, contains_upsets, flips_bits, replays_with_upsets, reports_upsets,
    two_upset_runs,
};
