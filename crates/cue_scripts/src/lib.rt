//! The script of a partition: all that it receives from the others in a run, in a file of one spelling, both ways.
#![tactic(auto)]

mod channels;
mod cue;
mod law;
mod reading;
mod script;
mod sizes;
#[cfg(test)]
mod tests;
mod writer;
mod writing;

pub use channels::name_of;
pub use cue::{CueSlot, ScriptCue, ScriptEntry, ScriptSight, ScriptTraffic, WholeEvent};
pub use fault_messages::ScriptFault;
pub use law::{none_is_prefix, read_is_written, written_is_read};
pub use reading::read_script;
pub use script::Script;
pub use writer::ScriptWriter;
pub use writing::build_script;
