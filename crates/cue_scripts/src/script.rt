//! A script: what a partition receives, tick by tick.

ghost use Rattle.std.specs.Prelude.{◌≡◌, ◌≤◌, length, sum_by};
ghost use Rattle.cue_scripts.specs.Entries.{cue_count, expanded};
ghost use Rattle.cue_scripts.specs.Kept.{AreKeptEntries};
ghost use Rattle.cue_scripts.specs.Values.{entry_value, entry_values};

use crate::cue::ScriptEntry;
use std::marker::Model;

/// What a partition receives, tick by tick. Equal cues are kept as one.
#[derive(Debug, Drop)]
pub struct Script {
    pub(crate) entries: Vec<ScriptEntry>,
}

impl Model for Script {
    ghost use Rattle.std.specs.Prelude.{List};
    ghost use Rattle.machine_model.specs.Cue.{Cue};
    ghost use Rattle.cue_scripts.specs.Entries.{expanded};
    ghost use Rattle.cue_scripts.specs.Kept.{AreKeptEntries};
    ghost use Rattle.cue_scripts.specs.Values.{entry_values};

    ghost Value = { List Cue };

    ghost view = { λ script. expanded (entry_values script.entries.items) };

    ghost invariant = { λ script. AreKeptEntries (entry_values script.entries.items) };
}

impl Script {
    /// Its entries: each has as many cues as it can.
    pub fn entries(&self) -> &[ScriptEntry]
        // The stimuli of the script, in entries.
        ensures value { expanded (entry_values result.now) ≡ self.now }
        // Each entry is as long as it can be.
        ensures kept { AreKeptEntries (entry_values result.now) }
    {
        &self.entries
    }

    /// How many cues it has.
    pub fn count(&self) -> u32
        // How many ticks the script has.
        ensures { result ≡ length self.now }
    {
        count_all(&self.entries)
    }
}

/// How many cues entries have.
fn count_all(entries: &[ScriptEntry]) -> u32
    requires { sum_by (λ entry. cue_count (entry_value entry)) entries.now ≤ 4000000000 }
    ensures { result ≡ sum_by (λ entry. cue_count (entry_value entry)) entries.now }
{
    let mut count = 0;
    for entry in entries {
        count += entry.count();
    }
    count
}
