//! What a partition is replayed by: a container, a script of the partition, its input words and upsets, made out of the bytes of their files.
//! The clauses are about the bytes of a container, of a script, of input words and of upsets. Unless out of memory, each
//! answer is that of a definition over them.
#![tactic(auto)]

mod inputs;
mod law;
mod ready;
mod unready;

pub use law::run_is_replayed;
pub use ready::{Replay, make_ready};
pub use unready::Unready;
