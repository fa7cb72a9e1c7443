//! The lines of a report go out, and bytes for consoles to their UARTs.

ghost use Rattle.std.specs.Prelude.{◌≡◌, ◌+◌, ◌<◌, ◌≤◌, ◌∷◌, ◌++◌, [], All, IfOk, IfSome, length, map, true};
ghost use Rattle.guest_bus.specs.Memory.{all_from, bytes_at, is_readable};
ghost use Rattle.system_state.specs.Serving.{CanBeEmitted};
ghost use Rattle.system_state.specs.State.{areas_in, memory_of};
ghost use Rattle.machine_model.specs.Lines.{end_line};
ghost use Rattle.machine_model.specs.Lists.{all_of};
ghost use Rattle.machine_model.specs.Emission as emission;
ghost use Rattle.machine_model.specs.View.{part_of};
ghost use Rattle.span_model.specs.Passes.{part_at};
ghost use Rattle.uart_board.specs.Heard.{IsHeard};
ghost use Rattle.xm_machine.specs.lemmas.AloneStepTerms.{IsPrintedAlone};
ghost use Rattle.xm_machine.specs.lemmas.HeardTerms.{console_to, lines_to};
ghost use Rattle.xm_machine.specs.Outcome.{HasWriteCause};
ghost use Rattle.xm_machine.specs.lemmas.StepsTerms.{Prints};
ghost use Rattle.tick_steps.specs.Work.{console_emissions};
ghost use Rattle.xm_report.specs.Report.{IsShort, line_value};

use crate::alone_span::{AloneFault, printed_alone};
use hypercalls::{Note, Sys};
use system_state::read_memory;
use tick_steps::Lines;
use uart_board::{Board, ViewBoard};
use xm_base::{CONSOLE_BYTES, PartId};
use xm_outside::Sink;
use xm_report::{Line, WriteFault, put_line};

/// Puts out what tick n emits: the bytes that partition `p` wrote to its console, where its note has any, and then these
/// lines. Answers how many lines that was. Those bytes are written to the UART of the console first.
#[inline(always)]
pub(crate) fn print_tick<O: Sink>(
    sys: &Sys,
    n: u64,
    p: PartId,
    note: Note,
    lines: &Lines,
    out: &mut O,
    board: &mut Board,
) -> Result<u64, WriteFault>
    requires partition { p < length sys.now.machine.parts }
    requires readable { CanBeEmitted note (areas_in p sys.now.machine) }
    requires few { length lines.now ≤ 40 }
    ensures printed { Prints result (map (emission.line_of n p) (console_emissions note (memory_of p sys.now.machine)) ++ lines.now) (O.got out.old) (O.got out.new) }
    ensures few { IfOk result (λ count. count ≤ 41) }
    ensures cause { HasWriteCause result (O.faults out.old) (O.faults out.new) }
    ensures heard { IsHeard (lines_to sys.now.machine (map (emission.line_of n p) (console_emissions note (memory_of p sys.now.machine)) ++ lines.now)) (⟦<Board as ViewBoard>⟧.board_view board.old) (⟦<Board as ViewBoard>⟧.board_view board.new) }
{
    let rest = lines.as_slice();
    let console = print_console(sys, n, p, note, out, board)?;
    let others = put_all(out, rest)?;
    Ok(console + others)
}

/// The same of tick n of partition `p` in isolation, where it was done and its note is there; else nothing.
pub(crate) fn print_alone<O: Sink>(
    sys: &Sys,
    n: u64,
    p: PartId,
    done: Option<Note>,
    lines: &Lines,
    out: &mut O,
    board: &mut Board,
) -> Result<(), AloneFault>
    requires partition { p < length sys.now.machine.parts }
    requires readable { IfSome done (λ note. CanBeEmitted note (areas_in p sys.now.machine)) }
    requires few { IfSome done (λ note. length lines.now ≤ 40) }
    ensures printed { IsPrintedAlone done n p sys.now.machine lines.now result (O.got out.old) (O.got out.new) (O.faults out.old) (O.faults out.new) (⟦<Board as ViewBoard>⟧.board_view board.old) (⟦<Board as ViewBoard>⟧.board_view board.new) }
{
    match done {
        Some(note) => printed_alone(print_tick(sys, n, p, note, lines, out, board)),
        None => Err(AloneFault::Cue),
    }
}

// Writes the bytes for the console to its UART and puts out their line, where the note has any.
#[inline(always)]
fn print_console<O: Sink>(
    sys: &Sys,
    n: u64,
    p: PartId,
    note: Note,
    out: &mut O,
    board: &mut Board,
) -> Result<u64, WriteFault>
    requires partition { p < length sys.now.machine.parts }
    requires readable { CanBeEmitted note (areas_in p sys.now.machine) }
    ensures printed { Prints result (map (emission.line_of n p) (console_emissions note (memory_of p sys.now.machine))) (O.got out.old) (O.got out.new) }
    ensures few { IfOk result (λ count. count ≤ 1) }
    ensures cause { HasWriteCause result (O.faults out.old) (O.faults out.new) }
    ensures heard { IsHeard (lines_to sys.now.machine (map (emission.line_of n p) (console_emissions note (memory_of p sys.now.machine)))) (⟦<Board as ViewBoard>⟧.board_view board.old) (⟦<Board as ViewBoard>⟧.board_view board.new) }
{
    match note {
        Note::Console { at, size } => put_console(sys, n, p, at, size, out, board),
        _ => Ok(0),
    }
}

// Says the bytes for the console to its UART, and puts out their line.
#[inline(never)]
fn put_console<O: Sink>(
    sys: &Sys,
    n: u64,
    p: PartId,
    at: u32,
    size: u32,
    out: &mut O,
    board: &mut Board,
) -> Result<u64, WriteFault>
    requires partition { p < length sys.now.machine.parts }
    requires some { 0 < size }
    requires few { size ≤ CONSOLE_BYTES }
    requires readable { all_from (is_readable (areas_in p sys.now.machine)) at size ≡ true }
    ensures printed { Prints result (emission.line_of n p (emission.Console (bytes_at (memory_of p sys.now.machine) at size)) ∷ []) (O.got out.old) (O.got out.new) }
    ensures few { IfOk result (λ count. count ≤ 1) }
    ensures cause { HasWriteCause result (O.faults out.old) (O.faults out.new) }
    ensures heard { IsHeard (console_to sys.now.machine p (bytes_at (memory_of p sys.now.machine) at size)) (⟦<Board as ViewBoard>⟧.board_view board.old) (⟦<Board as ViewBoard>⟧.board_view board.new) }
{
    let mut buffer = [0; CONSOLE_BYTES as usize];
    let bytes = &mut buffer[..size as usize];
    read_memory(sys, p, at, bytes);
    say(sys, p, bytes, board);
    put_line(out, &Line::Console { n, p, bytes })?;
    Ok(1)
}

// Writes bytes, at least one, to the UART of the partition's console, where it has one.
fn say(sys: &Sys, p: PartId, bytes: &[u8], board: &mut Board)
    requires partition { p < length sys.now.machine.parts }
    requires some { 0 < length bytes.now }
    ensures heard { IsHeard (console_to sys.now.machine p bytes.now) (⟦<Board as ViewBoard>⟧.board_view board.old) (⟦<Board as ViewBoard>⟧.board_view board.new) }
{
    if let Some(place) = console_of(sys, p) {
        board.say(place, bytes);
    }
}

// The place of the UART that is the partition's console, where it has one.
#[tactic(auto, unfolding(machine_model::specs::View::part_of))]
fn console_of(sys: &Sys, p: PartId) -> Option<u8>
    requires partition { p < length sys.now.machine.parts }
    ensures value { result ≡ (part_of sys.now.machine.system.conf p).console }
    ensures below { IfSome result (λ place. place < 8) }
{
    let conf = sys.conf().raw();
    let count = sys.count();
    prove!(p < count);
    conf.parts[usize::from(p)].console
}

// Puts out lines, and answers how many.
fn put_all<O: Sink>(out: &mut O, lines: &[Line<'_>]) -> Result<u64, WriteFault>
    requires short { All IsShort (map line_value lines.now) }
    ensures printed { Prints result (map line_value lines.now) (O.got out.old) (O.got out.new) }
    ensures count { IfOk result (λ count. count ≡ length lines.now) }
    ensures cause { HasWriteCause result (O.faults out.old) (O.faults out.new) }
{
    let mut count = 0;
    for line in lines {
        put_line(out, line)?;
        count += 1;
    }
    Ok(count)
}

/// Puts out how each partition stands at the end, and answers how many lines that was.
pub(crate) fn end_parts<O: Sink>(sys: &Sys, out: &mut O) -> Result<u64, WriteFault>
    ensures printed { Prints result (all_of (λ p ps. end_line p ps ∷ []) sys.now.machine.parts) (O.got out.old) (O.got out.new) }
    ensures few { IfOk result (λ printed. printed ≤ 32) }
    ensures cause { HasWriteCause result (O.faults out.old) (O.faults out.new) }
{
    let mut p = 0;
    while p < sys.count() {
        put_line(out, &end_line(sys, p))?;
        p += 1;
    }
    Ok(u64::from(p))
}

// The line of the state in which a partition is at the end.
fn end_line(sys: &Sys, p: PartId) -> Line<'static>
    requires { p < length sys.now.machine.parts }
    ensures { line_value result ≡ end_line p (part_at p sys.now.machine) }
{
    let part = sys.part(p);
    Line::EndPart {
        p,
        state: part.state,
        resets: part.resets,
        exec: part.clocks.exec(),
        pc: part.core.pc(),
    }
}
