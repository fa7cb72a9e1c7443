//! What is said of files, descriptions and plans: why one is refused, and named values in a line.
//! The crates whose calls answer these faults export them, too.
#![tactic(auto)]

mod digits;
mod fault;
mod memory;
mod pieces;

pub use fault::{
    BoxFault, CheckFault, ElfFault, HeadFault, PackFault, PlanFault, ScriptFault, XefFault,
    XmcFault,
};
pub use memory::OutOfMemory;
pub use pieces::{put_address, put_digest, put_number};
