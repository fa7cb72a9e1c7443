//! Runs the compiled guests of its data folder by the program's commands, and prints each call with its report.
#![tactic(auto)]

ghost use Rattle.std.specs.Prelude.{◌≡◌, OnOk};

use anyhow::{Context, Result, bail};
use command_line::Words;
use loaded_system::bare;
use std::alloc::Global;
use std::fs;
use uart_board::Board;
use xm_base::TICKS;
use xm_commands::{Status, xm_main};
use xm_machine::{Inputs, Machine};
use xm_outside::{MemStore, OutSink, Sink};

// The files of the data folder that the calls read.
const FILES: [&str; 9] = [
    "hello.bin",
    "recursion.bin",
    "sorting.bin",
    "wide.bin",
    "checksum.bin",
    "three.xml",
    "primes.elf",
    "chains.elf",
    "hashes.elf",
];

// The calls, in their order: each raw image alone, then the system of three from its description to its reports.
const CALLS: [&str; 14] = [
    "bare hello.bin 1000",
    "bare recursion.bin 30000",
    "bare sorting.bin 1000000",
    "bare wide.bin 2000000",
    "bare checksum.bin 4000000",
    "xmcparser three.xml three.xmc",
    "xmeformat build primes.elf primes.xef",
    "xmeformat build chains.elf chains.xef",
    "xmeformat build hashes.elf hashes.xef",
    "xmpack build three.xmc three.xmp 0=primes.xef 1=chains.xef 2=hashes.xef",
    "xmpack check three.xmp",
    "xmpack list three.xmp",
    "run three.xmp --ticks 2500",
    "run three.xmp --frames 12",
];

const NO_MEMORY: &str = "there is no memory";

fn main(rt: HostRuntime) -> Result<()> {
    let mut files = MemStore::new(rt.alloc(), Vec::new(rt.alloc()));
    put_data(&rt, &mut files)?;
    let mut out = OutSink::new(rt.stdout());
    let mut err = OutSink::new(rt.stderr());
    for call in CALLS {
        println!(rt; "$ xm_run {call}")?;
        carry_out(rt.alloc(), call, &mut files, &mut out, &mut err)?;
    }
    println!(rt; "hello.bin, tick by tick")?;
    let image = fs::read(&rt, "hello.bin")?;
    show_ticks(&rt, rt.alloc(), &image, 100, &mut out)
}

// Puts the files of the data folder into the store.
fn put_data(rt: &HostRuntime, files: &mut MemStore) -> Result<()> {
    for name in FILES {
        let bytes = fs::read(rt, name)?;
        files.put(name, &bytes).ok().context(NO_MEMORY)?;
    }
    Ok(())
}

// Does this many ticks of the machine of a raw image, whose lines go out, and prints how far it came.
fn show_ticks<O: Sink>(
    rt: &impl Print,
    alloc: Global,
    image: &[u8],
    ticks: u64,
    out: &mut O,
) -> Result<()> {
    let mut machine = booted(alloc, image)?;
    do_ticks(&mut machine, ticks, out)?;
    println!(rt;
        "parts={} ticks={} halted={}",
        machine.sys().count(),
        machine.done(),
        machine.halted()
    )?;
    Ok(())
}

// The machine of a raw image.
#[tactic(auto, unfolding(loaded_system::specs::Bare::bare_conf))]
fn booted(alloc: Global, image: &[u8]) -> Result<Machine> {
    let Ok(system) = bare(alloc, image) else {
        bail!("no system");
    };
    let Ok(inputs) = Inputs::new(alloc, 1) else {
        bail!("{NO_MEMORY}");
    };
    let machine = Machine::boot(alloc, system, inputs);
    machine.ok().context(NO_MEMORY)
}

// Does this many ticks.
fn do_ticks<O: Sink>(machine: &mut Machine, ticks: u64, out: &mut O) -> Result<()> {
    for _ in 0..ticks {
        if machine.done() == TICKS {
            break;
        }
        let written = machine.tick(out, &mut Board::new());
        written.ok().context("a tick was not done")?;
    }
    Ok(())
}

// Does what a call says, or reports that it was not done.
fn carry_out<O: Sink, E: Sink>(
    alloc: Global,
    call: &str,
    files: &mut MemStore,
    out: &mut O,
    err: &mut E,
) -> Result<()>
    ensures done { OnOk result (err.new ≡ err.old) }
{
    let words = words_of(alloc, call)?;
    match xm_main(alloc, &words, files, out, err, &mut Board::new()) {
        Status::Done => Ok(()),
        status => bail!("{call}: ended with {status:?}"),
    }
}

// The words of a call, which stand apart by one blank each.
fn words_of(alloc: Global, call: &str) -> Result<Words> {
    let mut words = Words::new(alloc);
    for word in call.split(' ') {
        words.push(word).ok().context(NO_MEMORY)?;
    }
    Ok(words)
}
