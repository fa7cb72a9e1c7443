//! A reset between the ticks of a run, as a table says it.

use anyhow::{Context, Result, bail};
use case_reader::Entry;
use xm_base::Mode;

/// A reset of a partition with a status, or of all, before a tick.
#[derive(Clone, Copy)]
pub(crate) struct Reset {
    pub(crate) tick: u64,
    pub(crate) part: Option<u8>,
    pub(crate) status: u32,
    pub(crate) mode: Mode,
}

/// The reset that a table says; without a status it is 0.
pub(crate) fn reset_of(entry: Entry<'_>) -> Result<Reset> {
    entry.has_only(&["tick", "part", "status", "mode"])?;
    let part = match entry.number("part")? {
        Some(part) => Some(u8::try_from(part)?),
        None => None,
    };
    Ok(Reset {
        tick: entry.number("tick")?.context("a reset has no tick")?,
        part,
        status: u32::try_from(entry.number("status")?.unwrap_or(0))?,
        mode: mode_of(entry.text("mode")?.context("a reset has no mode")?)?,
    })
}

// The mode of a name.
fn mode_of(name: &str) -> Result<Mode> {
    match name {
        "cold" => Ok(Mode::Cold),
        "warm" => Ok(Mode::Warm),
        _ => bail!("{name} is no mode"),
    }
}
