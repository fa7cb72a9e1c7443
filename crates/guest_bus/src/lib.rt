//! A guest's memory as its processor sees it: areas, bytes by address, and big endian values.
#![tactic(auto)]

mod bus;
mod words;

pub use bus::{Bus, BusFault, Size};
pub use words::{HasWords, Words};
