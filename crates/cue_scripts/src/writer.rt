//! The writing of a script cue by cue.

ghost use Rattle.std.specs.Prelude.{◌≡◌, ℕ, ◌+◌, ◌<◌, ◌≤◌, ◌++◌, [], ◌∷◌, List, OnOk, replicate};
ghost use Rattle.machine_model.specs.Cue.{Cue};
ghost use Rattle.cue_scripts.specs.Entries.{Other, bare_cue};
ghost use Rattle.cue_scripts.specs.Kept.{HasCueRanges};
ghost use Rattle.cue_scripts.specs.Spelling.{script_text};
ghost use Rattle.cue_scripts.specs.Values.{script_cue_value};
ghost use Rattle.cue_scripts.specs.Written.{IsScriptFile, IsWithin, IsWritten, entry_closed, is_open, nothing_written, plain_repeated, with_alike, with_cue, with_script_entry};

use crate::cue::{ScriptCue, plain_kind};
use crate::sizes::other_length;
use crate::writing::{put_alike, put_head, put_other};
use fault_messages::ScriptFault;
use std::alloc::Global;
use std::marker::Model;
use xm_base::{FILE_BYTES, Memory, PartId, TICKS};

/// The bytes of the head of a script.
const HEAD_BYTES: u64 = 15;

/// The bytes of an entry that repeats a plain cue.
const ALIKE_BYTES: u64 = 5;

/// A script that is written cue by cue. Its text is kept as far as a file may have it, and its size is counted to the end.
#[derive(Debug, Drop)]
pub struct ScriptWriter {
    // The text of the entries that are whole.
    text: Vec<u8>,
    size: u64,
    // Which plain cue is repeated last, and how often.
    own: Option<bool>,
    count: u32,
    cues: u32,
}

impl Model for ScriptWriter {
    ghost use Rattle.cue_scripts.specs.Written.{IsWithin, Written};

    ghost Value = { Written };

    ghost view = { λ w. record { text = w.text.items; size = w.size; own = w.own; count = w.count; cues = w.cues } };

    ghost invariant = { λ w. IsWithin 0 (record { text = w.text.items; size = w.size; own = w.own; count = w.count; cues = w.cues }) };
}

impl ScriptWriter {
    /// A script without a cue.
    pub fn new(alloc: Global) -> ScriptWriter
        // A script without a tick, whose file is the one spelling of it.
        ensures value { result ≡ nothing_written }
        ensures written { IsWritten [] result }
    {
        ScriptWriter {
            text: Vec::new(alloc),
            size: 0,
            own: None,
            count: 0,
            cues: 0,
        }
    }

    /// How many cues are written.
    pub fn cues(&self) -> u32
        // How many stimuli were written.
        ensures { result ≡ self.now.cues }
    {
        self.cues
    }

    /// Writes one cue more.
    #[tactic(auto, unfolding(crate::specs::Written::with_cue))]
    pub fn add(&mut self, cue: &ScriptCue) -> Result<(), Memory>
        // Called with numbers that have room in their fields and below the limit of ticks.
        requires ranges { HasCueRanges (script_cue_value cue.now) }
        requires few { self.old.cues < TICKS }
        // One stimulus more is written: the file is the one spelling of those that were added, or it is longer than a
        // file may be, and then its length is kept.
        ensures value { OnOk result (self.new ≡ with_cue (script_cue_value cue.now) self.old) }
        ensures written { (cues : List Cue) → IsWritten cues self.old → OnOk result (IsWritten (cues ++ script_cue_value cue.now ∷ []) self.new) }
    {
        self.cues += 1;
        match plain_kind(cue) {
            Some(own) => self.repeat(own, 1),
            None => self.append_cue(cue),
        }
    }

    /// Writes this many cues more with nothing but whose running slot it is: the partition's own, or not.
    #[tactic(auto, unfolding(crate::specs::Written::with_alike))]
    pub fn add_alike(&mut self, own: bool, count: u32) -> Result<(), Memory>
        // Called within the limit of ticks.
        requires few { self.old.cues + count ≤ TICKS }
        // This many stimuli more are written that have nothing but whose running slot it is: what is kept, and so the
        // file, is that of as many stimuli added one by one.
        ensures value { OnOk result (self.new ≡ with_alike own count self.old) }
        ensures written { (cues : List Cue) → IsWritten cues self.old → OnOk result (IsWritten (cues ++ replicate count (bare_cue own)) self.new) }
    {
        if count == 0 {
            return Ok(());
        }
        self.cues += count;
        self.repeat(own, count)
    }

    /// The file of the script of partition `p` with the cues that are written, where it is not too long for a file.
    pub fn finish(mut self, alloc: Global, p: PartId) -> Result<Vec<u8>, ScriptFault>
        // The file of the script that was written; refused with its length where it is longer than a file may be.
        ensures { (cues : List Cue) → IsWritten cues self → IsScriptFile (λ file. file.items) (script_text p cues) result }
    {
        self.close()?;
        let found = HEAD_BYTES + self.size;
        if found > FILE_BYTES as u64 {
            return Err(ScriptFault::Length { found });
        }
        let mut file = Vec::new(alloc);
        put_head(&mut file, p, self.cues)?;
        file.extend_from_slice(&self.text)?;
        Ok(file)
    }

    // Repeats a plain cue this many times.
    #[tactic(auto, unfolding(crate::specs::Written::plain_repeated))]
    fn repeat(&mut self, own: bool, count: u32) -> Result<(), Memory>
        requires within { IsWithin count self.old }
        requires some { 0 < count }
        ensures { OnOk result (self.new ≡ plain_repeated own count self.old) }
    {
        if is_open(self.own, own) {
            self.count += count;
        } else {
            self.close()?;
            self.own = Some(own);
            self.count = count;
        }
        Ok(())
    }

    // Puts another cue.
    #[tactic(auto, unfolding(crate::specs::Written::with_script_entry))]
    fn append_cue(&mut self, cue: &ScriptCue) -> Result<(), Memory>
        requires ranges { HasCueRanges (script_cue_value cue.now) }
        requires within { IsWithin 1 self.old }
        ensures { OnOk result (self.new ≡ with_script_entry (Other (script_cue_value cue.now)) (entry_closed self.old)) }
    {
        self.close()?;
        self.size += other_length(cue);
        if self.size <= FILE_BYTES as u64 {
            put_other(&mut self.text, cue)?;
        }
        Ok(())
    }

    // Puts the entry of the plain cue that is repeated, where there is one.
    #[tactic(auto, unfolding(crate::specs::Written::entry_closed, crate::specs::Written::with_script_entry))]
    fn close(&mut self) -> Result<(), Memory>
        ensures value { OnOk result (self.new ≡ entry_closed self.old) }
        ensures within { (more : ℕ) → IsWithin more self.old → OnOk result (IsWithin more self.new) }
    {
        let Some(own) = self.own else {
            return Ok(());
        };
        let count = self.count;
        self.own = None;
        self.count = 0;
        self.size += ALIKE_BYTES;
        if self.size <= FILE_BYTES as u64 {
            put_alike(&mut self.text, own, count)?;
        }
        Ok(())
    }
}

// Whether a plain cue is the one that is repeated.
fn is_open(last: Option<bool>, own: bool) -> bool
    ensures { result ≡ is_open last own }
{
    match last {
        Some(last) => last == own,
        None => false,
    }
}
