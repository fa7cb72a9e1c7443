//! The text of a report determines its lines.
//! The laws are of lines whose numbers are in the ranges of the values that the program prints: 64 bits for what is
//! written in decimal, words, and bytes. That the lines of each report are in these ranges is not stated.
#![tactic(auto)]

mod law;

pub use law::texts_determine_lines;
