//! How many cases come out as wanted, and how many were done tick by tick, too.

ghost use Rattle.std.specs.Prelude.{◌≡◌, false};

use std::fmt;

/// How many cases come out as wanted, of how many that were tried.
#[derive(Clone, Copy, Debug)]
pub(crate) struct Tally {
    held: u32,
    tried: u32,
    ticked: u32,
}

impl Tally {
    pub(crate) fn new() -> Tally {
        Tally {
            held: 0,
            tried: 0,
            ticked: 0,
        }
    }

    /// Counts a case.
    pub(crate) fn count(&mut self, held: bool)
        ensures differs { held ≡ false → self.new.held ≡ self.old.held }
    {
        if held {
            self.held = self.held.saturating_add(1);
        }
        self.tried = self.tried.saturating_add(1);
    }

    /// Counts a run that was done tick by tick.
    pub(crate) fn count_ticked(&mut self) {
        self.ticked = self.ticked.saturating_add(1);
    }

    /// How many runs were done tick by tick.
    pub(crate) fn ticked(self) -> u32 {
        self.ticked
    }

    /// Counts the cases of another tally.
    pub(crate) fn add(&mut self, other: Tally) {
        self.held = self.held.saturating_add(other.held);
        self.tried = self.tried.saturating_add(other.tried);
        self.ticked = self.ticked.saturating_add(other.ticked);
    }
}

impl fmt::Display for Tally {
    fn fmt<W: fmt::Write>(&self, f: &mut fmt::Formatter<W>) -> fmt::Result {
        write!(f, "{} of {}", self.held, self.tried)
    }
}
