//! The instruction words of SPARC V8: from words to instructions and back.
#![tactic(auto)]

mod decoding;
mod encoding;
pub mod fields;
mod instruction;
mod law;

pub use decoding::decode;
pub use encoding::encode;
pub use instruction::{Arith, Instr, MemOp, Src};
pub use law::spelling;
