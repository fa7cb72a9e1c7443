//! The words of a command line, and the commands that they spell.
#![tactic(auto)]

mod commands;
mod law;
mod numbers;
mod part_files;
mod reading;
mod replay_options;
mod run_options;
mod words;

pub use commands::{Command, Span};
pub use law::grammar;
pub use part_files::{PartFile, PartFiles};
pub use reading::command;
pub use replay_options::{ReplayFile, ReplayKind, ReplayOptions};
pub use run_options::{FileKind, RunKind, RunOption, RunOptions};
pub use words::Words;
