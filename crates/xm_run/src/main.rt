//! The program: it does what the words of its command line say.
#![tactic(auto)]

use std::process::ExitCode;
use xm_commands::{arguments_of, program};

fn main(rt: HostRuntime) -> ExitCode {
    program(&rt, arguments_of(&rt), rt.stdout(), rt.stderr())
}
