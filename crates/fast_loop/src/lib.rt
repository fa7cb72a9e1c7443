//! Straight runs of instructions, by the rows of their words.
//! How many steps a run does is not said: none may be the answer. Nor is it said that a call is found: one may be left
//! as any other instruction is. A run goes over any memory beside rows of its words, and takes from them that a row is
//! empty or that of the word there. No row changes within a run: a store to a word that has one is left to others.
#![tactic(auto)]

mod blocks;
mod careful;
mod moving;
mod one;
mod parts;
mod places;
mod rare;
mod running;
mod runs;
mod shifting;
mod simple;
mod sites;
mod ways;
mod working;

pub use running::{RunEnd, SINGLE, UNKNOWN, run_rows};
pub use runs::Runs;
