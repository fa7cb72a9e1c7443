//! All hypercalls, by their numbers, and what a call of a partition is in its tick.
#![tactic(auto)]

mod calling;
mod serving;

pub use calling::call_reported;
pub use serving::serve;
pub use system_state::{Act, Gone, InputFault, Inputs, Note, PartState, Served, Sys};
pub use xm_base::Order;
