//! What ticks of a partition in isolation print and write to its console, kept tick by tick.

ghost use Rattle.std.specs.Prelude.{◌≡◌, ℕ, ◌+◌, ◌<◌, ◌≤◌, ◌∷◌, ◌++◌, [], All, false, true, IfSome, length, take};
ghost use Rattle.replay_model.specs.Step.{IsOfSystem};
ghost use Rattle.xm_alone.specs.lemmas.Cues.{HasNext, IsNextCue, next_cues};
ghost use Rattle.xm_alone.specs.Kept.{AreSized, IsKept, kept_ticks};
ghost use Rattle.xm_alone.specs.lemmas.Kept.{FollowsKept, KeepsTick, KeepsTicks};
ghost use Rattle.upset_model.specs.Places.{Timetable, lines_for};
ghost use Rattle.upset_model.specs.lemmas.Segments.{AreNoneLater};
ghost use Rattle.xm_machine.specs.Striking.{MayStrike};

use crate::cues::Next;
use crate::following::follow;
use crate::kept_text::KeptText;
use crate::striking::Due;
use crate::unprinted::NoSink;
use std::alloc::Global;
use uart_board::Board;
use xm_base::{PartId, TICKS};
use xm_machine::{AloneFault, AloneSpan, Machine};

/// How many bytes of text a tick has, and how many for its console.
#[derive(Clone, Copy, Debug)]
pub(crate) struct Extent {
    pub(crate) text: usize,
    pub(crate) said: usize,
}

/// The texts and the console bytes of ticks, one after the other, and how many each of these ticks has.
#[derive(Debug, Drop)]
pub(crate) struct Kept {
    pub(crate) text: KeptText,
    pub(crate) said: Vec<u8>,
    pub(crate) ticks: Vec<Extent>,
}

impl Kept {
    /// Nothing is kept. At most this many bytes of text are to be.
    pub(crate) fn new(alloc: Global, most: usize) -> Kept
        ensures kept { IsKept result }
        ensures nothing { kept_ticks result ≡ [] }
    {
        Kept {
            text: KeptText::new(alloc, most),
            said: Vec::new(alloc),
            ticks: Vec::new(alloc),
        }
    }

    /// The text from byte `begun` on and these console bytes are those of ticks that ended so. They are kept as those of one tick more;
    /// nothing is kept any more where their lines had no room, or memory runs out.
    fn with_ticks(self, ended: Result<(), AloneFault>, begun: usize, said: &[u8]) -> Option<Kept>
        requires begun { begun ≤ length self.text.bytes.items }
        requires sized { AreSized self.ticks.items (take begun self.text.bytes.items) self.said.items }
        ensures { KeepsTicks ended begun said.now self result }
    {
        match ended {
            Ok(()) => self.with_tick(begun, said),
            Err(_) => None,
        }
    }

    /// The same of ticks whose lines had room.
    fn with_tick(mut self, begun: usize, said: &[u8]) -> Option<Kept>
        requires begun { begun ≤ length self.text.bytes.items }
        requires sized { AreSized self.ticks.items (take begun self.text.bytes.items) self.said.items }
        ensures { IfSome result (KeepsTick begun said.now self) }
    {
        let text = self.text.bytes.len() - begun;
        if text == 0 {
            return Some(self);
        }
        let extent = Extent {
            text,
            said: said.len(),
        };
        if self.add(extent, said) {
            Some(self)
        } else {
            None
        }
    }

    /// Adds the console bytes of a tick, and its sizes. False where memory runs out.
    fn add(&mut self, extent: Extent, said: &[u8]) -> bool
        ensures text { self.new.text.bytes.items ≡ self.old.text.bytes.items }
        ensures said { result ≡ true → self.new.said.items ≡ self.old.said.items ++ said.now }
        ensures ticks { result ≡ true → self.new.ticks.items ≡ self.old.ticks.items ++ extent ∷ [] }
    {
        if self.said.extend_from_slice(said).is_err() {
            return false;
        }
        self.ticks.push(extent).is_ok()
    }
}

/// The ticks that `follow` does, whose lines and console bytes are kept where those before are; nothing of them is kept any more where
/// they have no room.
pub(crate) fn follow_kept(
    machine: &mut Machine,
    p: PartId,
    next: Next<'_>,
    due: Due<'_>,
    kept: Option<Kept>,
    board: &mut Board,
) -> (AloneSpan, Option<Kept>)
    requires partition { p < length machine.old.state.parts }
    requires running { machine.old.state.halted ≡ false }
    requires more { machine.old.state.ticks + length (next_cues next) ≤ TICKS }
    requires next { IsNextCue machine.old.state.system.conf p next }
    requires some { 0 < due.most }
    requires strike { All (MayStrike machine.old.state) due.lines.now }
    requires kept { IfSome kept IsKept }
    ensures follows { (own : Timetable) → own 0 ≡ lines_for p due.entry.lines.now → AreNoneLater due.entry.most own
        → FollowsKept result.0 p own next.entry machine.old.state machine.new.state kept result.1 }
    ensures within { HasNext next.entry result.0.ticks }
    ensures some { 0 < result.0.ticks }
    ensures most { result.0.ticks ≤ due.entry.most }
    ensures system { IsOfSystem machine.old.state machine.new.state }
{
    let Some(mut kept) = kept else {
        return (
            follow(machine, p, next, due, &mut NoSink::new(), board),
            None,
        );
    };
    let begun = kept.text.bytes.len();
    let done = follow(machine, p, next, due, &mut kept.text, board);
    let kept = kept.with_ticks(done.ended, begun, machine.said());
    (done, kept)
}
