//! The writing of a line to a sink.

ghost use Rattle.xm_outside.specs.Causes.{HasCause};
ghost use Rattle.xm_outside.specs.Growth.{Writes};
ghost use Rattle.xm_report.specs.Report.{IsShort, line_value, text_of};

use crate::line::Line;
use crate::pen::Pen;
use crate::wording::write_text;
use xm_outside::{Failed, Sink, write_all};

/// A line that the sink did not take whole.
#[derive(Clone, Copy, Debug, PartialEq, Eq)]
pub struct WriteFault;

/// Writes a line whole. After a fault the sink has got a prefix of it.
pub fn put_line<O: Sink>(out: &mut O, line: &Line<'_>) -> Result<(), WriteFault>
    // Called with at most 1024 console bytes.
    requires { IsShort (line_value line.now) }
    // The line went out, or a prefix of it. Each kind of line has one text: the first line, console text, health
    // events, traces, changes of a partition and of the whole system, plans, and the lines of the end.
    ensures got { Writes result (O.got out.old) (text_of (line_value line.now)) (O.got out.new) }
    // A fault comes only where the sink's count rose, and nothing else moves it.
    ensures cause { HasCause result (O.faults out.old) (O.faults out.new) }
{
    let mut pen = Pen::new();
    write_text(&mut pen, line);
    match write_all(out, pen.bytes()) {
        Ok(()) => Ok(()),
        Err(Failed) => Err(WriteFault),
    }
}
