//! Upsets of a running machine.

ghost use Rattle.std.specs.Prelude.{◌≡◌, ◌∷◌, [], All, map};
ghost use Rattle.upset_model.specs.Places.{upset_of};
ghost use Rattle.upset_model.specs.Reports.{struck_line};
ghost use Rattle.upset_model.specs.Upsets.{ready};
ghost use Rattle.system_state.specs.State.{with_machine};
ghost use Rattle.xm_machine.specs.Outcome.{HasWriteCause};
ghost use Rattle.xm_machine.specs.Striking.{MayStrike};
ghost use Rattle.xm_machine.specs.lemmas.StepsTerms.{Prints};
ghost use Rattle.xm_report.specs.Report.{line_value};

use system_state::{Sys, upsets};
use upset_model::UpsetLine;
use xm_outside::Sink;
use xm_report::{Line, WriteFault, put_line};

/// The upsets of lines strike one after the other, unless the hypervisor has halted.
pub(crate) fn strike_all(sys: &mut Sys, lines: &[UpsetLine])
    requires { All (MayStrike sys.old.machine) lines.now }
    ensures { sys.new ≡ with_machine (ready (map upset_of lines.now) sys.old.machine) sys.old }
{
    for line in lines {
        strike(sys, *line);
    }
}

// A bit of a partition flips, unless the hypervisor has halted.
fn strike(sys: &mut Sys, line: UpsetLine)
    requires { MayStrike sys.old.machine line }
    ensures { sys.new ≡ with_machine (ready (upset_of line ∷ []) sys.old.machine) sys.old }
{
    if !sys.halted() {
        upsets::flip(sys, line.part, line.place, line.bit);
    }
}

/// Puts out a line for each upset, and answers how many that were.
pub(crate) fn put_struck<O: Sink>(out: &mut O, lines: &[UpsetLine]) -> Result<u64, WriteFault>
    ensures printed { Prints result (map struck_line lines.now) (O.got out.old) (O.got out.new) }
    ensures cause { HasWriteCause result (O.faults out.old) (O.faults out.new) }
{
    let mut count = 0;
    for line in lines {
        put_line(out, &struck_line(*line))?;
        count += 1;
    }
    Ok(count)
}

// The line of the report for an upset.
fn struck_line(line: UpsetLine) -> Line<'static>
    ensures { line_value result ≡ struck_line line }
{
    Line::Struck {
        n: line.tick,
        p: line.part,
        place: line.place,
        bit: line.bit,
    }
}
