//! The commands: files are read, made and written, systems are run, and each call ends with a status. And the program over them, below its
//! `main`: what the arguments of a process say is done, over the system's files and streams.
//! The clauses are about a store, a report's sink, an error sink and a board of UARTs that may be any that keep their
//! traits.
#![tactic(auto)]

mod arguments;
mod edge;
mod generating;
mod law;
mod lone_core;
mod replaying;
mod top;
mod work;
mod world;

pub use arguments::{carry_out, words_after_name};
pub use edge::{arguments_of, program};
pub use file_commands::Status;
pub use law::{runs_then_alone, runs_then_go_on};
pub use top::{misused, xm_main};
pub use world::Surroundings;
