//! The memories of all partitions, with rows of their words that every write keeps true.
#![tactic(auto)]

mod emptied;
mod making;
mod predecoded;
mod share;

pub use predecoded::PredecodedRam;
