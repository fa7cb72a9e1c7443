//! The program on a stored command line, whose report the gate compares.
#![tactic(auto)]

use std::process::ExitCode;
use xm_commands::{arguments_of, program};

fn main(rt: HostRuntime) -> ExitCode {
    program(&rt, arguments_of(&rt), rt.stdout(), rt.stderr())
}
