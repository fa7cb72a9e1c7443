//! How a case differs from what it says.

use anyhow::Result;
use case_reader::Entry;
use md5::{Digest, Md5};
use std::alloc::Global;
use xm_commands::Status;

/// A line for each thing that differs, and whether a run was done tick by tick, too.
#[derive(Drop)]
pub(crate) struct Verdict {
    alloc: Global,
    lines: Vec<String>,
    ticked: bool,
}

impl Verdict {
    pub(crate) fn new(alloc: Global) -> Verdict {
        Verdict {
            alloc,
            lines: Vec::new(alloc),
            ticked: false,
        }
    }

    /// The lines; there is none where the case holds.
    pub(crate) fn lines(&self) -> &[String] {
        &self.lines
    }

    /// Whether a run was done tick by tick.
    pub(crate) fn is_ticked(&self) -> bool {
        self.ticked
    }

    /// Compares the report of a run that was done tick by tick.
    pub(crate) fn report_of_ticks(&mut self, case: Entry<'_>, got: &[u8]) -> Result<()> {
        self.ticked = true;
        self.report("report tick by tick", case, got)
    }

    /// Compares the status.
    pub(crate) fn status(&mut self, wanted: Status, got: Status) -> Result<()> {
        if wanted != got {
            let line = format!(in self.alloc; "status: wanted {wanted:?}, got {got:?}")?;
            self.lines.push(line)?;
        }
        Ok(())
    }

    /// Compares a report, or its digest, or how it begins.
    pub(crate) fn report(&mut self, what: &str, case: Entry<'_>, got: &[u8]) -> Result<()> {
        if let Some(digest) = case.text("out_md5")? {
            let found = hex::encode(self.alloc, Md5::digest(got))?;
            return self.text(what, digest.as_bytes(), found.as_bytes());
        }
        match case.text("out_begins")? {
            Some(prefix) if got.starts_with(prefix.as_bytes()) => Ok(()),
            Some(prefix) => self.text(what, prefix.as_bytes(), got),
            None => self.text(what, case.text("out")?.unwrap_or("").as_bytes(), got),
        }
    }

    /// Compares a text.
    pub(crate) fn text(&mut self, what: &str, wanted: &[u8], got: &[u8]) -> Result<()> {
        if wanted != got {
            let wanted = shown(self.alloc, wanted)?;
            let got = shown(self.alloc, got)?;
            let line = format!(in self.alloc; "{what}: wanted {wanted}, got {got}")?;
            self.lines.push(line)?;
        }
        Ok(())
    }

    /// Compares the bytes of a file, which is to be there.
    pub(crate) fn file(&mut self, name: &str, wanted: &[u8], got: Option<&[u8]>) -> Result<()> {
        let Some(got) = got else {
            return self.presence(name, true, false);
        };
        if wanted != got {
            let place = first_other(wanted, got);
            let line = format!(in self.alloc;
                "file {name}: wanted {} bytes, got {}, other from {place}",
                wanted.len(),
                got.len()
            )?;
            self.lines.push(line)?;
        }
        Ok(())
    }

    /// Compares whether a file is there.
    pub(crate) fn presence(&mut self, name: &str, wanted: bool, got: bool) -> Result<()> {
        if wanted != got {
            let line = format!(in self.alloc; "file {name} is there: wanted {wanted}, got {got}")?;
            self.lines.push(line)?;
        }
        Ok(())
    }
}

// The place of the first byte that differs.
fn first_other(wanted: &[u8], got: &[u8]) -> usize {
    for (place, (one, other)) in wanted.iter().zip(got).enumerate() {
        if one != other {
            return place;
        }
    }
    wanted.len().min(got.len())
}

// Bytes as a text, or in hexadecimal digits where they are none.
fn shown(alloc: Global, bytes: &[u8]) -> Result<String> {
    match str::from_utf8(bytes) {
        Ok(text) => Ok(format!(in alloc; "{text:?}")?),
        Err(_) => Ok(hex::encode(alloc, bytes)?),
    }
}
