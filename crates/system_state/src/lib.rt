//! The whole system as it runs: the state of each partition, and how a hypercall answers.
//! A `Sys` means a `Machine` of `machine_model` and the shapes of its channels. Nothing says that it is known that no
//! timer is armed or due: `engine::is_known_untimed` and `engine::is_known_undue` may answer no for any system; then the
//! partitions are looked at, which is only slower.
#![tactic(auto)]

pub mod answering;
mod call_site;
mod deadlines;
mod flipping;
mod gone;
mod inputs;
pub mod interrupts;
mod own_state;
mod reading;
mod served;
mod starting;
mod stepping;
pub mod structures;
mod sys;

pub use call_site::CallSite;
pub use gone::Gone;
pub use inputs::{InputFault, Inputs};
pub use own_state::PartState;
pub use reading::read_memory;
pub use served::{Act, Note, Served};
pub use sys::{Sys, engine, messages, restoring, upsets};
