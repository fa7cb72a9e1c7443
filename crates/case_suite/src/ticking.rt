//! A run that is done tick by tick, or stretch by stretch, with resets between its ticks.

ghost use Rattle.std.specs.Prelude.{◌≡◌, ◌<◌, ◌≤◌, All, IfOk, length};
ghost use Rattle.std.specs.Bool.{OnTrue};
ghost use Rattle.span_model.specs.Passes.{part_at};

use crate::pace::{Pace, advance};
use crate::reset::{Reset, reset_of};
use anyhow::{Context, Result, bail};
use case_reader::entry_of;
use command_line::{Command, PartFile, PartFiles, RunOptions, Span, Words, command};
use std::alloc::Global;
use toml::Value;
use xm_base::{FILE_BYTES, Mode, TICKS};
use xm_container::{System, unpack};
use xm_machine::{Inputs, Line, Machine, WriteFault, put_line};
use xm_outside::{MemStore, Sink};

const NO_MEMORY: &str = "there is no memory";

const NOT_TAKEN: &str = "the report is not taken";

// A longer run is not done tick by tick.
const MOST_TICKS: u64 = 100_000;

/// Does a run at a pace over these files, with these resets, and writes its report. Answers whether it did: the words may
/// be those of another command, of a run with upsets or from a saved machine, or of too long a run.
pub(crate) fn is_ticked<O: Sink>(
    alloc: Global,
    words: &Words,
    files: &MemStore,
    resets: &[Value],
    pace: Pace,
    out: &mut O,
) -> Result<bool> {
    match command(words) {
        Some(command) => is_command_ticked(alloc, command, files, resets, pace, out),
        None => Ok(false),
    }
}

// Does a command at a pace, where it is a run from the boot on without upsets that is short enough, and answers whether it is.
fn is_command_ticked<O: Sink>(
    alloc: Global,
    command: Command<'_>,
    files: &MemStore,
    resets: &[Value],
    pace: Pace,
    out: &mut O,
) -> Result<bool> {
    match command {
        Command::Run { container, options } if begins_plainly(options) => {
            boot_and_tick(alloc, container, options, files, resets, pace, out)
        }
        _ => Ok(false),
    }
}

// Whether a run boots, and no upset strikes in it.
fn begins_plainly(options: RunOptions<'_>) -> bool {
    options.upsets().is_none() && options.from().is_none()
}

// Boots the machine of a container, and does its run at a pace, where it is short enough; answers whether it is.
fn boot_and_tick<O: Sink>(
    alloc: Global,
    container: &str,
    options: RunOptions<'_>,
    files: &MemStore,
    resets: &[Value],
    pace: Pace,
    out: &mut O,
) -> Result<bool> {
    let mut machine = booted(alloc, container, options.inputs(), files)?;
    tick_run(&mut machine, options.span(), resets, pace, out)
}

// Does a run of a booted machine at a pace, where it is short enough, and answers whether it is.
fn tick_run<O: Sink>(
    machine: &mut Machine,
    span: Span,
    resets: &[Value],
    pace: Pace,
    out: &mut O,
) -> Result<bool> {
    let ticks = ticks_in(machine, span)?;
    if ticks > MOST_TICKS {
        return Ok(false);
    }
    put_run(machine, ticks, resets, pace, out)?;
    Ok(true)
}

// Does this many ticks, with the resets between them, and writes the report.
fn put_run<O: Sink>(
    machine: &mut Machine,
    ticks: u64,
    resets: &[Value],
    pace: Pace,
    out: &mut O,
) -> Result<()> {
    put_front(machine, ticks, out)?;
    for reset in resets {
        do_reset(machine, ticks, reset_of(entry_of(reset)?)?, pace, out)?;
    }
    do_ticks(machine, ticks, pace, out)?;
    put_end(machine, out).ok().context(NOT_TAKEN)
}

// The machine of a container and its input words.
fn booted(
    alloc: Global,
    container: &str,
    inputs: PartFiles<'_>,
    files: &MemStore,
) -> Result<Machine> {
    let bytes = files.get(container).context("there is no container")?;
    let system = unpack(alloc, bytes).ok().context("it is no container")?;
    let inputs = inputs_in(alloc, system.conf().part_count(), inputs, files)?;
    let machine = Machine::boot(alloc, system, inputs);
    machine.ok().context(NO_MEMORY)
}

// The input words of this many partitions.
fn inputs_in(alloc: Global, parts: u8, named: PartFiles<'_>, files: &MemStore) -> Result<Inputs>
    ensures { IfOk result (λ inputs. length inputs ≡ parts) }
{
    let mut inputs = Inputs::new(alloc, parts).ok().context(NO_MEMORY)?;
    let mut rest = named;
    while let Some((first, others)) = rest.split_first() {
        give(&mut inputs, parts, first, files)?;
        rest = others;
    }
    Ok(inputs)
}

// Gives a partition the words of its file.
fn give(inputs: &mut Inputs, parts: u8, named: PartFile<'_>, files: &MemStore) -> Result<()>
    requires { length inputs.old ≡ parts }
    ensures { length inputs.new ≡ parts }
{
    let bytes = files.get(named.file).context(named.file)?;
    if named.part >= parts || bytes.len() > FILE_BYTES {
        bail!("{} is no input", named.file);
    }
    inputs.set(named.part, bytes).ok().context("no input words")
}

// How many ticks a run has.
fn ticks_in(machine: &Machine, span: Span) -> Result<u64> {
    match span {
        Span::Ticks(ticks) => Ok(ticks),
        Span::Frames(frames) => {
            let plans = &machine.sys().conf().raw().plans;
            let plan = plans.first().context("there is no plan")?;
            let ticks = frames.checked_mul(u64::from(plan.frame));
            ticks.context("too many frames")
        }
    }
}

// Writes the first line of the report.
fn put_front<O: Sink>(machine: &Machine, ticks: u64, out: &mut O) -> Result<()> {
    let conf = machine.sys().conf().raw();
    let line = Line::System {
        parts: u8::try_from(conf.parts.len())?,
        plans: u8::try_from(conf.plans.len())?,
        ticks,
    };
    put_line(out, &line).ok().context(NOT_TAKEN)
}

// Does ticks up to this many in all.
fn do_ticks<O: Sink>(machine: &mut Machine, ticks: u64, pace: Pace, out: &mut O) -> Result<()> {
    for _ in machine.done()..ticks {
        if machine.halted() || machine.done() >= ticks.min(TICKS) {
            break;
        }
        let left = ticks.min(TICKS) - machine.done();
        advance(machine, left, pace, out).ok().context(NOT_TAKEN)?;
    }
    Ok(())
}

// Does the ticks before a reset, and then it, where the run gets to it.
fn do_reset<O: Sink>(
    machine: &mut Machine,
    ticks: u64,
    reset: Reset,
    pace: Pace,
    out: &mut O,
) -> Result<()> {
    do_ticks(machine, ticks.min(reset.tick), pace, out)?;
    if machine.halted() || reset.tick >= ticks {
        return Ok(());
    }
    match reset.part {
        Some(part) => reset_part(machine, part, reset.mode, reset.status),
        None => reset_all(machine, reset.mode),
    }
}

// Resets a partition.
fn reset_part(machine: &mut Machine, part: u8, mode: Mode, status: u32) -> Result<()> {
    if part >= machine.sys().count() || !is_log_short(machine, part) {
        bail!("partition {part} cannot be reset");
    }
    machine.reset_part(part, mode, status);
    Ok(())
}

// Resets all.
fn reset_all(machine: &mut Machine, mode: Mode) -> Result<()> {
    if !are_logs_short(machine) {
        bail!("all cannot be reset");
    }
    machine.reset_all(mode);
    Ok(())
}

// Whether the health log of a partition is no longer than the ticks.
fn is_log_short(machine: &Machine, part: u8) -> bool
    requires { part < length machine.now.state.parts }
    ensures { OnTrue result ((part_at part machine.now.state).health.next ≤ machine.now.state.ticks) }
{
    u64::from(machine.sys().part(part).health.counts().next) <= machine.done()
}

// Whether that is so of all partitions.
fn are_logs_short(machine: &Machine) -> bool
    ensures { OnTrue result (All (λ part. part.health.next ≤ machine.now.state.ticks) machine.now.state.parts) }
{
    for part in 0..machine.sys().count() {
        if !is_log_short(machine, part) {
            return false;
        }
    }
    true
}

// Writes the last lines of the report.
fn put_end<O: Sink>(machine: &Machine, out: &mut O) -> Result<(), WriteFault> {
    let sys = machine.sys();
    for p in 0..sys.count() {
        let part = sys.part(p);
        let line = Line::EndPart {
            p,
            state: part.state,
            resets: part.resets,
            exec: part.clocks.exec(),
            pc: part.core.pc(),
        };
        put_line(out, &line)?;
    }
    let line = Line::EndWhole {
        halted: machine.halted(),
        plan: sys.plan_clock().plan(),
        clock: sys.now(),
        ticks: machine.done(),
    };
    put_line(out, &line)
}
