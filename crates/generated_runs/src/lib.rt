//! A system is generated from a number and run, and its run is reported in two lines.
//! The run is `Machine::run` over a sink that takes all and a board without UARTs, so it reaches its end. That the
//! defined lines are the intended ones for the number 7 is a row of `case_suite`.
#![tactic(auto)]

mod counting;
mod running;
mod text;

pub use running::run_lines;
