//! What a case's last command line is to answer.

use crate::case::Case;
use anyhow::{Context, Result, bail};
use std::alloc::Global;
use xm_commands::Status;

/// The status that is wanted.
pub(crate) fn status(case: Case<'_>) -> Result<Status> {
    let own = case.own;
    if own.has("usage") {
        return Ok(Status::Usage);
    }
    if own.has("refused") {
        return named(own.text("status")?.unwrap_or("Refused"));
    }
    named(case.text("status")?.unwrap_or("Done"))
}

// The status of a name.
fn named(name: &str) -> Result<Status> {
    match name {
        "Done" => Ok(Status::Done),
        "Refused" => Ok(Status::Refused),
        "Usage" => Ok(Status::Usage),
        "ReadFault" => Ok(Status::ReadFault),
        "WriteFault" => Ok(Status::WriteFault),
        "UartFault" => Ok(Status::UartFault),
        "NoMemory" => Ok(Status::NoMemory),
        _ => bail!("{name} is no status"),
    }
}

/// The text that is wanted on the error output.
pub(crate) fn line(alloc: Global, case: Case<'_>) -> Result<String> {
    if let Some(line) = case.own.text("err")? {
        return Ok(String::from_str(alloc, line)?);
    }
    if let Some(why) = case.own.text("refused")? {
        let file = case
            .text("of_file")?
            .context("no file is named that is refused")?;
        return Ok(format!(in alloc; "xm_run: {file}: {why}\n")?);
    }
    let line = match status(case)? {
        Status::Usage => "xm_run: usage\n",
        _ => "",
    };
    Ok(String::from_str(alloc, line)?)
}
