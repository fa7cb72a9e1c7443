//! The commands that run a system: its report goes out, and core files and scripts of its partitions and its saved machine are written after it.
//! The clauses are about a store, a report's sink and a board of UARTs that may be any that keep their traits.
#![tactic(auto)]

mod beginning;
mod cores;
mod inputs;
mod later;
mod making;
mod readiness;
mod received;
mod recording;
mod running;
mod scripts;
mod striking;
mod unpacking;

pub use later::ended;
pub use recording::script_of;
pub use running::run_file;
pub use unpacking::run_container;
