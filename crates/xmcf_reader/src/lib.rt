//! Reads an XM_CF text: a draft of its elements with their places, or the first fault.
#![tactic(auto)]

mod draft;
mod elements;
mod fault;
mod law;
mod lexer;
mod open;
mod reading;
mod stage;
mod table;
mod token;
mod tokens;
mod tree;
mod values;
mod word;

pub use draft::{Draft, Element, Entry};
pub use fault::ReadFault;
pub use law::{drafted, nested, spelled, taken};
pub use reading::read_xmcf;
pub use word::Word;
