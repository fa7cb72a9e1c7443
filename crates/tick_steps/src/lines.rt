//! The lines of one tick.

ghost use Rattle.std.specs.Prelude.{◌≡◌, ◌+◌, ◌<◌, ◌++◌, ◌∷◌, [], All, IfOk, length, map};
ghost use Rattle.tick_steps.specs.TickLines.{IsOtherLine};
ghost use Rattle.xm_report.specs.Report.{IsShort, line_value};

use std::alloc::Global;
use std::marker::Model;
use xm_base::Memory;
use xm_report::Line;

/// How many lines a tick has at most, but for that of bytes that go to a console: four of a partition's work, one of an order, one of a
/// hypervisor event and one of each partition that it resets, and that of a plan.
const TICK_LINES: usize = 40;

/// The lines of one tick in their order, but for that of bytes that go to a console. All room for them is taken when they are made.
#[derive(Debug, Drop)]
pub struct Lines {
    lines: Vec<Line<'static>>,
}

impl Model for Lines {
    ghost use Rattle.std.specs.Prelude.{All, List, ◌≤◌, map, vec_capacity};
    ghost use Rattle.tick_steps.specs.TickLines.{IsOtherLine};
    ghost use Rattle.xm_report.specs.Report.{IsShort, ReportLine, line_value};

    ghost Value = { List ReportLine };

    ghost view = { λ lines. map line_value lines.lines.items };

    ghost invariant = { λ lines. All IsShort (map line_value lines.lines.items) × All IsOtherLine (map line_value lines.lines.items) × (40 ≤ vec_capacity lines.lines) };
}

impl Lines {
    /// No line, and room for all of a tick.
    pub fn new(alloc: Global) -> Result<Lines, Memory>
        // No lines, and room for all of a tick.
        ensures { IfOk result (λ lines. lines ≡ []) }
    {
        Ok(Lines {
            lines: Vec::with_capacity(alloc, TICK_LINES)?,
        })
    }

    /// Forgets all lines.
    pub fn clear(&mut self)
        // There are no lines again.
        ensures { self.new ≡ [] }
    {
        self.lines.clear();
    }

    /// One line more.
    pub fn push(&mut self, line: Line<'static>)
        // Called with fewer than 40 lines and with a line that is no longer than a line may be and that is not one of
        // console bytes.
        requires room { length self.old < 40 }
        requires short { IsShort (line_value line) }
        requires other { IsOtherLine (line_value line) }
        // A line is added after the others.
        ensures value { self.new ≡ self.old ++ line_value line.entry ∷ [] }
        // There is one line more.
        ensures count { length self.new ≡ length self.old + 1 }
    {
        self.lines.push_reserved(line);
    }

    /// The lines.
    pub fn as_slice(&self) -> &[Line<'static>]
        // The lines as they stand.
        ensures value { map line_value result.now ≡ self.now }
        // None is longer than a line may be.
        ensures short { All IsShort (map line_value result.now) }
        // None is of console bytes.
        ensures other { All IsOtherLine self.now }
    {
        self.lines.as_slice()
    }
}
