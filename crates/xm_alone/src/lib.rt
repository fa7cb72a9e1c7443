//! One partition of a run by itself: its replay in isolation.
//! An `Alone` means a partition in isolation: what runs, its number, its own part of the machine's state, and whether
//! the hypervisor has halted. Nothing is said of the other partitions. `Alone::play`, `show`, `core_length`
//! and `core_into` take no memory.
#![tactic(auto)]

mod alone;
mod cues;
mod fitting;
mod following;
mod keeping;
mod kept_text;
mod shown;
mod striking;
mod unprinted;

pub use alone::{Alone, Replayed};
pub use cue_scripts::{Script, ScriptFault, read_script};
pub use fitting::fits;
pub use shown::Shown;
