//! Upsets: single bits that flip in one partition before a tick, and runs in which that happens.
//! Definitions over `machine_model`, of any machine, any number of upsets and any state.
#![tactic(auto)]

mod coming;
mod rows;
mod upset_line;

pub use coming::Coming;
pub use rows::{flips_at_edges, reports_what_strikes, strikes_before_its_tick};
pub use upset_line::UpsetLine;
