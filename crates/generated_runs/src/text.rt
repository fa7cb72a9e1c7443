//! The two lines that report a run.

ghost use Rattle.std.specs.Prelude.{◌≡◌, ◌++◌, IfOk};
ghost use Rattle.generated_system.specs.Reported.{came_line, made_line};

use std::alloc::Global;
use xm_base::Memory;
use xm_report::Pen;

/// The line of what was made and run, and the line of what came of it.
pub(crate) fn two_lines(
    alloc: Global,
    number: u32,
    container: usize,
    ticks: u64,
    exec: u64,
    lines: u64,
    waiting: u64,
) -> Result<Vec<u8>, Memory>
    ensures { IfOk result (λ text. text.items ≡ made_line number container ticks ++ came_line exec lines waiting) }
{
    let mut text = Vec::new(alloc);
    let made = made_line(number, container, ticks);
    text.extend_from_slice(made.bytes())?;
    let came = came_line(exec, lines, waiting);
    text.extend_from_slice(came.bytes())?;
    Ok(text)
}

// The line of what was made and run.
#[tactic(auto, unfolding(generated_system::specs::Reported::made_line))]
fn made_line(number: u32, container: usize, ticks: u64) -> Pen
    ensures { result ≡ made_line number container ticks }
{
    let mut pen = Pen::new();
    pen.field(b"gen number=", u64::from(number));
    pen.field(b" container=", container as u64);
    pen.field(b" ticks=", ticks);
    pen.text(b"\n");
    pen
}

// The line of what came of it.
#[tactic(auto, unfolding(generated_system::specs::Reported::came_line))]
fn came_line(exec: u64, lines: u64, waiting: u64) -> Pen
    ensures { result ≡ came_line exec lines waiting }
{
    let mut pen = Pen::new();
    pen.field(b"exec=", exec);
    pen.field(b" lines=", lines);
    pen.field(b" queued=", waiting);
    pen.text(b"\n");
    pen
}
