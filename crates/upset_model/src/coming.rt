//! The lines of a file of upsets that are to come, in the order of their ticks.

ghost use Rattle.std.specs.Prelude.{◌≡◌, ℕ, ◌+◌, ◌<◌, ◌≤◌, [], ◌++◌, length};
ghost use Rattle.upset_model.specs.Coming.{AreOrdered};
ghost use Rattle.upset_model.specs.lemmas.ComingTerms.{count_due};
ghost use Rattle.upset_model.specs.Places.{due};

use crate::upset_line::UpsetLine;
use std::marker::Model;

/// The lines that are to come.
#[derive(Debug, Drop)]
pub struct Coming<'a> {
    lines: &'a [UpsetLine],
}

impl<'a> Model for Coming<'a> {
    ghost use Rattle.std.specs.Prelude.{List};
    ghost use Rattle.upset_model.specs.declared.upset_line.UpsetLine.{UpsetLine};

    ghost Value = { List UpsetLine };

    ghost view = { λ c. c.lines.now };
}

impl<'a> Coming<'a> {
    /// All these lines are to come.
    pub fn new(lines: &'a [UpsetLine]) -> Coming<'a>
        // What is to come are the lines.
        ensures { result ≡ lines.now }
    {
        Coming { lines }
    }

    /// Takes the lines of this tick, which come first.
    pub fn due(&mut self, tick: u64) -> &'a [UpsetLine]
        // Called where no line of an earlier tick is to come, and each has at least the tick of the one above.
        requires { AreOrdered tick self.old }
        // These are the lines of the tick.
        ensures these { result.now ≡ due self.old tick }
        // They and those that are still to come are all that were to come.
        ensures all { self.old ≡ result.now ++ self.new }
        // The lines of each later tick are still to come,
        ensures later { (k : ℕ) → tick < k → due self.new k ≡ due self.old k }
        // and none of this tick or an earlier one is.
        ensures ordered { AreOrdered (tick + 1) self.new }
    {
        let (now, later) = self.lines.split_at(count_due(self.lines, tick));
        self.lines = later;
        now
    }

    /// The tick of the first line that is to come, but at most this one.
    pub fn next(&self, end: u64) -> u64
        // It is at most the end.
        ensures within { result ≤ end }
        // Where each line has at least the tick of the one above, no line has a tick before it;
        ensures none { (first : ℕ) → AreOrdered first self.now → (k : ℕ) → k < result → due self.now k ≡ [] }
        // so it is the least tick of all that are to come.
        ensures ordered { (first : ℕ) → AreOrdered first self.now → AreOrdered result self.now }
        // Where all have at least some tick, which is at most the end, it is at least that one.
        ensures later { (first : ℕ) → AreOrdered first self.now → first ≤ end → first ≤ result }
    {
        match self.lines.first() {
            Some(line) => line.tick.min(end),
            None => end,
        }
    }
}

// How many lines stand before the first of another tick.
fn count_due(lines: &[UpsetLine], tick: u64) -> usize
    ensures value { result ≡ count_due tick lines.now }
    ensures within { result ≤ length lines.now }
{
    let mut count = 0;
    while count < lines.len() && lines[count].tick == tick {
        count += 1;
    }
    count
}
