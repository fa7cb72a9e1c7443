//! The machine: it boots a system or goes on from a saved machine, does its ticks, and writes the report of a run.
//! Its meaning is the state of the whole machine of `machine_model`, and what is kept of its last tick. `report_of` of
//! the booted machine is `report` of `machine_model`, so its laws hold of what is printed.
#![tactic(auto)]

mod alone_span;
mod law;
mod machine;
mod report;
mod run;
mod said;
mod stretch;
mod upset;

pub use alone_span::{AloneFault, AloneSpan};
pub use cue_scripts::{CueSlot, WholeEvent};
pub use hypercalls::{InputFault, Inputs};
pub use law::keeps_cues;
pub use machine::Machine;
pub use machine_model::two_runs;
pub use run::Ran;
pub use tick_steps::{Cue, Sight, Traffic};
pub use xm_report::{Line, Move, WriteFault, put_line};
