//! What a replay shows, kept until it may go out.

ghost use Rattle.std.specs.Prelude.{◌≡◌, ◌<◌, IfSome};
ghost use Rattle.uart_board.specs.Heard.{IsHeard};
ghost use Rattle.xm_alone.specs.Kept.{AreSized, IsKept, kept_ticks, ticks_in};
ghost use Rattle.xm_alone.specs.lemmas.ShownTerms.{PlaysTicks, console_said};
ghost use Rattle.xm_machine.specs.Outcome.{HasWriteCause};
ghost use Rattle.xm_outside.specs.Growth.{Writes};

use crate::keeping::{Extent, Kept};
use std::marker::Model;
use uart_board::{Board, ViewBoard};
use xm_outside::{Failed, Sink, write_all};
use xm_report::WriteFault;

/// What a replay shows of its cues: of each cue that prints something its lines and its console bytes.
#[derive(Debug, Drop)]
pub struct Shown {
    kept: Kept,
}

/// What of it is still to go out.
#[derive(Clone, Copy)]
struct Rest<'a> {
    ticks: &'a [Extent],
    text: &'a [u8],
    said: &'a [u8],
}

impl Model for Shown {
    ghost use Rattle.std.specs.Prelude.{List};
    ghost use Rattle.xm_alone.specs.Shown.{ShownTick};
    ghost use Rattle.xm_alone.specs.Kept.{IsKept, kept_ticks};

    ghost Value = { List ShownTick };

    ghost view = { λ s. kept_ticks s.kept };

    ghost invariant = { λ s. IsKept s.kept };
}

impl Shown {
    /// What was kept.
    pub(crate) fn of(kept: Kept) -> Shown
        requires { IsKept kept }
        ensures { result ≡ kept_ticks kept }
    {
        Shown { kept }
    }

    /// All of it.
    fn rest(&self) -> Rest<'_>
        ensures sized { AreSized result.ticks.now result.text.now result.said.now }
        ensures all { ticks_in result.ticks.now result.text.now result.said.now ≡ self.now }
    {
        Rest {
            ticks: &self.kept.ticks,
            text: &self.kept.text.bytes,
            said: &self.kept.said,
        }
    }

    /// Writes, tick by tick, the console bytes to the UART of this place and then the lines.
    pub(crate) fn play<O: Sink>(
        &self,
        console: Option<u8>,
        out: &mut O,
        board: &mut Board,
    ) -> Result<(), WriteFault>
        requires { IfSome console (λ place. place < 8) }
        ensures played { PlaysTicks result console self.now (O.got out.old) (O.got out.new) (⟦<Board as ViewBoard>⟧.board_view board.old) (⟦<Board as ViewBoard>⟧.board_view board.new) }
        ensures cause { HasWriteCause result (O.faults out.old) (O.faults out.new) }
    {
        let mut rest = self.rest();
        while let Some((tick, ticks)) = rest.ticks.split_first() {
            let (said, later_said) = rest.said.split_at(tick.said);
            let (text, later_text) = rest.text.split_at(tick.text);
            put_tick(console, said, text, out, board)?;
            rest = Rest {
                ticks,
                text: later_text,
                said: later_said,
            };
        }
        Ok(())
    }
}

/// Writes the console bytes and then the lines of a tick.
fn put_tick<O: Sink>(
    console: Option<u8>,
    said: &[u8],
    text: &[u8],
    out: &mut O,
    board: &mut Board,
) -> Result<(), WriteFault>
    requires { IfSome console (λ place. place < 8) }
    ensures got { Writes result (O.got out.old) text.now (O.got out.new) }
    ensures heard { IsHeard (console_said console said.now) (⟦<Board as ViewBoard>⟧.board_view board.old) (⟦<Board as ViewBoard>⟧.board_view board.new) }
    ensures cause { HasWriteCause result (O.faults out.old) (O.faults out.new) }
{
    say(console, said, board);
    match write_all(out, text) {
        Ok(()) => Ok(()),
        Err(Failed) => Err(WriteFault),
    }
}

/// Writes bytes to the UART of this place, where there are any.
fn say(console: Option<u8>, bytes: &[u8], board: &mut Board)
    requires { IfSome console (λ place. place < 8) }
    ensures { IsHeard (console_said console bytes.now) (⟦<Board as ViewBoard>⟧.board_view board.old) (⟦<Board as ViewBoard>⟧.board_view board.new) }
{
    if bytes.is_empty() {
        return;
    }
    if let Some(place) = console {
        board.say(place, bytes);
    }
}
