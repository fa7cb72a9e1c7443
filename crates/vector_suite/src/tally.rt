//! How many lines of each kind are as they should be.

use std::alloc::{AllocError, Global};

/// How many lines of a kind hold, of how many that were tried.
#[derive(Debug, Drop)]
struct Tally<'a> {
    kind: &'a str,
    held: u32,
    tried: u32,
}

/// A tally for each kind, in the order in which they came.
#[derive(Debug, Drop)]
pub(crate) struct Tallies<'a> {
    kinds: Vec<Tally<'a>>,
}

impl<'a> Tallies<'a> {
    pub(crate) fn new(alloc: Global) -> Tallies<'a> {
        Tallies {
            kinds: Vec::new(alloc),
        }
    }

    /// Counts a line of a kind.
    pub(crate) fn count(&mut self, kind: &'a str, held: bool) -> Result<(), AllocError> {
        let held = u32::from(held);
        for tally in self.kinds.iter_mut() {
            if tally.kind == kind {
                tally.held = tally.held.saturating_add(held);
                tally.tried = tally.tried.saturating_add(1);
                return Ok(());
            }
        }
        self.kinds.push(Tally {
            kind,
            held,
            tried: 1,
        })?;
        Ok(())
    }

    /// Prints a line for each kind, and one for all, with the word for what holds.
    pub(crate) fn print(&self, rt: &impl Print, verb: &str) -> anyhow::Result<()> {
        let mut held = 0u32;
        let mut tried = 0u32;
        for tally in &self.kinds {
            let kind = tally.kind;
            println!(rt; "{kind}: {} of {} {verb}", tally.held, tally.tried)?;
            held = held.saturating_add(tally.held);
            tried = tried.saturating_add(tally.tried);
        }
        println!(rt; "all: {held} of {tried} {verb}")?;
        Ok(())
    }
}
