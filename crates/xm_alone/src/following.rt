//! A partition of a machine that follows the cues of a script.

ghost use Rattle.std.specs.Prelude.{◌≡◌, ℕ, ◌+◌, ◌<◌, ◌≤◌, All, false, length, map};
ghost use Rattle.replay_model.specs.Step.{IsOfSystem};
ghost use Rattle.upset_model.specs.Places.{Timetable, lines_for, upset_of};
ghost use Rattle.upset_model.specs.Upsets.{ready};
ghost use Rattle.upset_model.specs.lemmas.Segments.{AreNoneLater};
ghost use Rattle.xm_alone.specs.lemmas.Cues.{FollowsSaid, HasNext, IsNextCue, next_cues};
ghost use Rattle.xm_alone.specs.lemmas.Struck.{FollowsStruck, HasStruckCause, IsUnprinted};
ghost use Rattle.xm_machine.specs.AloneStep.{HasStepCause};
ghost use Rattle.xm_machine.specs.Striking.{MayStrike};

use crate::cues::Next;
use crate::striking::{Due, put_own};
use crate::unprinted::NoSink;
use uart_board::{Board, ViewBoard};
use upset_model::UpsetLine;
use xm_base::{PartId, TICKS};
use xm_machine::{AloneFault, AloneSpan, Machine};
use xm_outside::Sink;
use xm_report::WriteFault;

/// Ticks of partition `p` in isolation under the cues that come next, before the first of which these upsets strike: one at least, and no
/// more than one that prints or says something. The lines of the partition's own upsets are the first of the lines of their tick.
pub(crate) fn follow<O: Sink>(
    machine: &mut Machine,
    p: PartId,
    next: Next<'_>,
    due: Due<'_>,
    out: &mut O,
    board: &mut Board,
) -> AloneSpan
    requires partition { p < length machine.old.state.parts }
    requires running { machine.old.state.halted ≡ false }
    requires more { machine.old.state.ticks + length (next_cues next) ≤ TICKS }
    requires next { IsNextCue machine.old.state.system.conf p next }
    requires some { 0 < due.most }
    requires strike { All (MayStrike machine.old.state) due.lines.now }
    ensures follows { (own : Timetable) → own 0 ≡ lines_for p due.entry.lines.now → AreNoneLater due.entry.most own
        → FollowsStruck result.ended result.ticks p own next.entry machine.old.state machine.new.state (O.got out.old) (O.got out.new) (⟦<Board as ViewBoard>⟧.board_view board.old) (⟦<Board as ViewBoard>⟧.board_view board.new) machine.new.said }
    ensures within { HasNext next.entry result.ticks }
    ensures some { 0 < result.ticks }
    ensures most { result.ticks ≤ due.entry.most }
    ensures cause { HasStruckCause result.ended (O.faults out.old) (O.faults out.new) }
    ensures system { IsOfSystem machine.old.state machine.new.state }
{
    if due.lines.is_empty() {
        follow_ticks(machine, p, next, due.most, out, board)
    } else {
        follow_struck(machine, p, next, due.lines, out, board)
    }
}

/// These upsets strike, with the lines of the partition's own, and then one tick is done, whether its lines went out or not.
fn follow_struck<O: Sink>(
    machine: &mut Machine,
    p: PartId,
    next: Next<'_>,
    upsets: &[UpsetLine],
    out: &mut O,
    board: &mut Board,
) -> AloneSpan
    requires partition { p < length machine.old.state.parts }
    requires running { machine.old.state.halted ≡ false }
    requires more { machine.old.state.ticks + length (next_cues next) ≤ TICKS }
    requires next { IsNextCue machine.old.state.system.conf p next }
    requires strike { All (MayStrike machine.old.state) upsets.now }
    ensures follows { (own : Timetable) → own 0 ≡ lines_for p upsets.now
        → FollowsStruck result.ended result.ticks p own next.entry machine.old.state machine.new.state (O.got out.old) (O.got out.new) (⟦<Board as ViewBoard>⟧.board_view board.old) (⟦<Board as ViewBoard>⟧.board_view board.new) machine.new.said }
    ensures within { HasNext next.entry result.ticks }
    ensures some { 0 < result.ticks }
    ensures one { result.ticks ≤ 1 }
    ensures cause { HasStruckCause result.ended (O.faults out.old) (O.faults out.new) }
    ensures system { IsOfSystem machine.old.state machine.new.state }
{
    machine.strike(upsets);
    match put_own(out, p, upsets) {
        Ok(()) => follow_ticks(machine, p, next, 1, out, board),
        Err(WriteFault) => {
            let done = follow_ticks(machine, p, next, 1, &mut NoSink::new(), board);
            AloneSpan {
                ticks: done.ticks,
                ended: unprinted(done.ended),
            }
        }
    }
}

/// What a tick answers of which a line could not be written.
fn unprinted(ended: Result<(), AloneFault>) -> Result<(), AloneFault>
    ensures { IsUnprinted ended result }
{
    match ended {
        Ok(()) | Err(AloneFault::Write) => Err(AloneFault::Write),
        Err(AloneFault::Cue) => Err(AloneFault::Cue),
    }
}

/// Ticks of partition `p` in isolation under the cues that come next: one at least, at most this many, and no more than one that prints or
/// says something.
fn follow_ticks<O: Sink>(
    machine: &mut Machine,
    p: PartId,
    next: Next<'_>,
    most: u64,
    out: &mut O,
    board: &mut Board,
) -> AloneSpan
    requires partition { p < length machine.old.state.parts }
    requires running { machine.old.state.halted ≡ false }
    requires more { machine.old.state.ticks + length (next_cues next) ≤ TICKS }
    requires next { IsNextCue machine.old.state.system.conf p next }
    requires some { 0 < most }
    ensures follows { FollowsSaid result.ended result.ticks p next.entry machine.old.state machine.new.state (O.got out.old) (O.got out.new) (⟦<Board as ViewBoard>⟧.board_view board.old) (⟦<Board as ViewBoard>⟧.board_view board.new) machine.new.said }
    ensures within { HasNext next.entry result.ticks }
    ensures some { 0 < result.ticks }
    ensures most { result.ticks ≤ most }
    ensures cause { HasStepCause result.ended (O.faults out.old) (O.faults out.new) }
    ensures system { IsOfSystem machine.old.state machine.new.state }
{
    match next {
        Next::Alike { own, count } => {
            machine.span_alone(p, own, most.min(u64::from(count)), out, board)
        }
        Next::Other(cue) => {
            let ended = machine.step_alone(p, &cue, out, board);
            AloneSpan { ticks: 1, ended }
        }
    }
}
