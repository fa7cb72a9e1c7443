//! The program on a stored run, and what it wrote beside its report: the files of two UARTs, the line on its error output, a core file
//! and a script. `examples/model/files.py` makes the container and what has to be printed.
#![tactic(auto)]

use std::process::ExitCode;
use std::{fs, io};
use xm_commands::{arguments_of, program};

fn main(rt: HostRuntime) -> io::Result<ExitCode> {
    let errors = fs::create(&rt, "errors")?;
    let code = program(&rt, arguments_of(&rt), rt.stdout(), errors);
    put_console(&rt, "uart0.out")?;
    put_console(&rt, "uart1.out")?;
    print!(rt; "{}", fs::read_to_string(&rt, "errors")?)?;
    println!(rt; "c has {} bytes", fs::read(&rt, "c")?.len())?;
    put_script(&rt, "s")?;
    Ok(code)
}

// Prints what the file of a UART has.
fn put_console(rt: &HostRuntime, name: &str) -> io::Result<()> {
    println!(rt; "{name} has `{}`", fs::read_to_string(rt, name)?)?;
    Ok(())
}

// Prints the bytes of a script.
fn put_script(rt: &HostRuntime, name: &str) -> io::Result<()> {
    print!(rt; "{name} has ")?;
    for byte in fs::read(rt, name)? {
        print!(rt; "{byte:02x}")?;
    }
    println!(rt)?;
    Ok(())
}
