//! Upsets of a partition that is replayed: which are due before a tick, and the lines of those that are its own.

ghost use Rattle.std.specs.Prelude.{◌≡◌, ℕ, ◌+◌, ◌<◌, ◌∷◌, [], map};
ghost use Rattle.upset_model.specs.Coming.{AreOrdered};
ghost use Rattle.upset_model.specs.Places.{due, lines_for};
ghost use Rattle.upset_model.specs.Reports.{struck_line};
ghost use Rattle.xm_machine.specs.Outcome.{HasWriteCause};
ghost use Rattle.xm_outside.specs.Growth.{Writes};
ghost use Rattle.xm_report.specs.Report.{line_value, texts};

use upset_model::{Coming, UpsetLine};
use xm_base::{PartId, TICKS};
use xm_outside::Sink;
use xm_report::{Line, WriteFault, put_line};

/// The upsets that strike before a tick, and how many ticks there are from it on before others are due.
#[derive(Clone, Copy, Debug)]
pub(crate) struct Due<'a> {
    pub(crate) lines: &'a [UpsetLine],
    pub(crate) most: u64,
}

/// Takes the upsets that strike before this tick.
pub(crate) fn due_at<'a>(coming: &mut Coming<'a>, tick: u64) -> Due<'a>
    requires ordered { AreOrdered tick coming.old }
    requires below { tick < TICKS }
    ensures these { result.lines.now ≡ due coming.old tick }
    ensures some { 0 < result.most }
    ensures none { (k : ℕ) → tick < k → k < tick + result.most → due coming.old k ≡ [] }
    ensures later { (k : ℕ) → tick < k → due coming.new k ≡ due coming.old k }
    ensures ordered { AreOrdered (tick + result.most) coming.new }
{
    let lines = coming.due(tick);
    Due {
        lines,
        most: coming.next(TICKS) - tick,
    }
}

/// Puts out the lines of those upsets that are of partition `p`.
pub(crate) fn put_own<O: Sink>(
    out: &mut O,
    p: PartId,
    upsets: &[UpsetLine],
) -> Result<(), WriteFault>
    ensures got { Writes result (O.got out.old) (texts (map struck_line (lines_for p upsets.now))) (O.got out.new) }
    ensures cause { HasWriteCause result (O.faults out.old) (O.faults out.new) }
{
    for line in upsets {
        put_one(out, p, *line)?;
    }
    Ok(())
}

/// Puts out the line of an upset, where it is one of partition `p`.
fn put_one<O: Sink>(out: &mut O, p: PartId, line: UpsetLine) -> Result<(), WriteFault>
    ensures got { Writes result (O.got out.old) (texts (map struck_line (lines_for p (line ∷ [])))) (O.got out.new) }
    ensures cause { HasWriteCause result (O.faults out.old) (O.faults out.new) }
{
    if line.part == p {
        put_line(out, &struck_line(line))
    } else {
        Ok(())
    }
}

/// The line of the report for an upset.
fn struck_line(line: UpsetLine) -> Line<'static>
    ensures { line_value result ≡ struck_line line }
{
    Line::Struck {
        n: line.tick,
        p: line.part,
        place: line.place,
        bit: line.bit,
    }
}
