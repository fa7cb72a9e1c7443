//! One tick of one partition in isolation, in passes over the whole machine: what they leave of the partition's part, and which cues
//! it can take.
//! Mathematics over `machine_model`, of any machine: what becomes of the other partitions and of the plan is left open.
//! A partition's part of the machine is its state, its copies of the channels under its own names, the ticks done and
//! the hardware clock; in each law it becomes that of the partition alone under its stimulus, with its lines and its
//! console bytes.
#![tactic(auto)]

mod law;

pub use law::{
    away_ticks, passes_keep, received_can_be_taken, resting_ticks_alone, takes_by_row, takes_cues,
    working_ticks,
};
