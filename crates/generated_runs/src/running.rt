//! The run of a generated system.

ghost use Rattle.std.specs.Prelude.{◌≡◌, false, IfOk, Ok, length};
ghost use Rattle.bin_config.specs.declared.version.Version.TheVariants.{Two};
ghost use Rattle.generated_system.specs.Reported.{generated_text, run_length, reported_of};
ghost use Rattle.generated_system.specs.Generated.{generated_conf, generated};
ghost use Rattle.xm_container.specs.Box.{box_text};
ghost use Rattle.xm_container.specs.Reading.{unpacked};
ghost use Rattle.machine_model.specs.Machine.{run};
ghost use Rattle.xm_machine.specs.Outcome.{report_of};

use crate::counting::{exec_in, waiting_in};
use crate::text::two_lines;
use generated_system::{container_of, system_in};
use machine_model::keeps_numbers;
use std::alloc::Global;
use uart_board::Board;
use xm_base::{Memory, proof};
use xm_machine::{Inputs, Machine, Ran};
use xm_outside::SureSink;

/// How many partitions a generated system has.
const PARTS: u8 = 16;

/// How many ticks its run has: 1000 frames.
const RUN_TICKS: u64 = 16_000_000;

/// Generates a system from a number, packs it, unpacks the container, runs it, and reports the run in two lines.
pub fn run_lines(alloc: Global, number: u32) -> Result<Vec<u8>, Memory>
    // The two lines of the system that is generated from a seed: the length of its container, and, of the machine after
    // 1000 frames of its run without input words, the ticks done, the ticks in which partitions ran, the lines of the
    // whole report, and the messages that wait; or there was no memory.
    ensures text { IfOk result (λ text. text.items ≡ generated_text number) }
{
    let container = container_of(alloc, number)?;
    run_container(alloc, number, &container)
}

// The two lines of the run of a number's container.
fn run_container(alloc: Global, number: u32, container: &[u8]) -> Result<Vec<u8>, Memory>
    requires text { container.now ≡ box_text Two (generated number) }
    requires read { unpacked container.now ≡ Ok (generated number) }
    ensures { IfOk result (λ text. text.items ≡ generated_text number) }
{
    proof! { keeps_numbers(); }
    let system = system_in(alloc, container)?;
    let inputs = Inputs::new(alloc, PARTS)?;
    let mut machine = Machine::boot(alloc, system, inputs)?;
    let ran = run_frames(&mut machine, RUN_TICKS);
    lines_of(alloc, number, container, ran.lines, &machine)
}

// The run of this many ticks, over an output that takes all and a board without UARTs.
fn run_frames(machine: &mut Machine, ticks: u64) -> Ran
    requires length { ticks ≡ run_length }
    requires fresh { machine.old.state.ticks ≡ 0 }
    requires running { machine.old.state.halted ≡ false }
    ensures state { machine.new.state ≡ run machine.old.state run_length }
    ensures lines { result.lines ≡ length (report_of machine.old.state run_length) }
{
    let Ok(ran) = machine.run(ticks, &mut SureSink::new(), &mut Board::new()) else {
        unreachable!();
    };
    ran
}

// The two lines of a machine that has run and whose report has this many lines.
#[tactic(auto, unfolding(generated_system::specs::Reported::reported_of))]
fn lines_of(
    alloc: Global,
    number: u32,
    container: &[u8],
    lines: u64,
    machine: &Machine,
) -> Result<Vec<u8>, Memory>
    requires conf { machine.now.state.system.conf ≡ generated_conf number }
    requires channels { length machine.now.state.channels ≡ 8 }
    ensures { IfOk result (λ text. text.items ≡ reported_of number (length container.now) lines machine.now.state) }
{
    let ticks = machine.done();
    let exec = exec_in(machine);
    let waiting = waiting_in(machine.channels());
    two_lines(alloc, number, container.len(), ticks, exec, lines, waiting)
}
