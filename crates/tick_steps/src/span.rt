//! Ticks that were done.

ghost use Rattle.std.specs.Prelude.{◌≡◌};

use crate::beyond::Beyond;
use system_state::Note;
use xm_base::PartId;

/// Ticks that were done, of which only the last may have lines.
#[derive(Clone, Copy, Debug)]
pub struct Span {
    /// How many there were, with the last: at least one, once they were done.
    pub ticks: u64,
    /// The partition that worked in the last; in a gap, any.
    pub part: PartId,
    /// Whether it worked, and not merely rested.
    pub worked: bool,
    /// What its call noted.
    pub note: Note,
    /// How its work reached beyond it.
    pub reach: Beyond,
}

impl Span {
    /// This many ticks in which no call reported anything, with how the last reached beyond its partition.
    pub fn quiet(ticks: u64, part: PartId, worked: bool, reach: Beyond) -> Span
        ensures { result ≡ record { ticks = ticks; part = part; worked = worked; note = Note.Nothing; reach = reach } }
    {
        Span {
            ticks,
            part,
            worked,
            note: Note::Nothing,
            reach,
        }
    }
}
