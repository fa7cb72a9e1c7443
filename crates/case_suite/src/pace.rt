//! How a run is done: tick by tick, or stretch by stretch.

ghost use Rattle.std.specs.Prelude.{◌≡◌, ◌+◌, ◌<◌, ◌≤◌, false};
ghost use Rattle.xm_base.specs.declared.limits.TheConstants.{TICKS};

use uart_board::Board;
use xm_machine::{Machine, WriteFault};
use xm_outside::Sink;

/// How a run is done.
#[derive(Clone, Copy, Debug, PartialEq, Eq)]
pub(crate) enum Pace {
    /// Tick by tick.
    Ticks,
    /// By stretches of this many ticks at most.
    Stretches(u64),
}

/// Does a tick, or a stretch, of a run that has this many ticks left.
pub(crate) fn advance<O: Sink>(
    machine: &mut Machine,
    left: u64,
    pace: Pace,
    out: &mut O,
) -> Result<(), WriteFault>
    requires running { machine.old.state.halted ≡ false }
    requires some { 0 < left }
    requires most { machine.old.state.ticks + left ≤ TICKS }
{
    let mut board = Board::new();
    match pace {
        Pace::Ticks => machine.tick(out, &mut board),
        Pace::Stretches(most) => {
            machine.stretch(left.min(most.max(1)), out, &mut board)?;
            Ok(())
        }
    }
}
