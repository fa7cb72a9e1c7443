//! Prints what the partitions of the systems of its data folder receive, tick by tick.
#![tactic(auto)]

mod received;

ghost use Rattle.std.specs.Prelude.{◌≡◌, IfOk, length};

use anyhow::{Context, Result, bail};
use received::put_cue;
use std::alloc::Global;
use std::fs::{File, Files};
use std::io::Read;
use uart_board::Board;
use xm_base::TICKS;
use xm_container::{System, unpack};
use xm_machine::{Inputs, Machine};
use xm_outside::SureSink;

const NO_MEMORY: &str = "there is no memory";

fn main(rt: HostRuntime) -> Result<()> {
    show(&rt, rt.alloc(), "reset.box", 4)?;
    show(&rt, rt.alloc(), "queue.box", 50)?;
    show(&rt, rt.alloc(), "signal.box", 4)
}

// Does this number of ticks of a container's system, and prints what each partition received in each.
fn show(rt: &(impl Files + Print), alloc: Global, name: &str, ticks: u64) -> Result<()> {
    println!(rt; "{name}")?;
    let mut machine = booted(rt, alloc, name)?;
    show_ticks(rt, ticks, &mut machine)
}

// Does this number of ticks of a machine, and prints what each partition received in each.
fn show_ticks(rt: &impl Print, ticks: u64, machine: &mut Machine) -> Result<()> {
    for tick in 0..ticks {
        show_tick(rt, tick, machine)?;
    }
    Ok(())
}

// Does a tick, and prints what each partition received in it.
fn show_tick(rt: &impl Print, tick: u64, machine: &mut Machine) -> Result<()> {
    if machine.done() >= TICKS {
        bail!("there are too many ticks");
    }
    let written = machine.tick(&mut SureSink::new(), &mut Board::new());
    written.ok().context("a tick was not done")?;
    put_cues(rt, tick, machine)
}

// Prints what each partition received in this tick, the machine's last one.
fn put_cues(rt: &impl Print, tick: u64, machine: &Machine) -> Result<()> {
    for p in 0..machine.sys().count() {
        print!(rt; "tick {tick} P{p} ")?;
        put_cue(rt, &machine.cue(p))?;
    }
    Ok(())
}

// The machine of a container, without input words.
fn booted(rt: &impl Files, alloc: Global, name: &str) -> Result<Machine> {
    let bytes = read_data(rt, alloc, name).context("there is no container")?;
    let Ok(system) = unpack(alloc, &bytes) else {
        bail!("{name} is no container");
    };
    let inputs = no_inputs(alloc, &system)?;
    let machine = Machine::boot(alloc, system, inputs);
    machine.ok().context(NO_MEMORY)
}

// No input words for any partition of a system.
fn no_inputs(alloc: Global, system: &System) -> Result<Inputs>
    ensures { IfOk result (λ inputs. length inputs ≡ length system.now.conf.parts) }
{
    let inputs = Inputs::new(alloc, system.conf().part_count());
    inputs.ok().context(NO_MEMORY)
}

// The bytes of a file of the data folder.
fn read_data(rt: &impl Files, alloc: Global, name: &str) -> Result<Vec<u8>> {
    let mut bytes = Vec::new(alloc);
    File::open(rt, name)?.read_to_end(&mut bytes)?;
    Ok(bytes)
}
