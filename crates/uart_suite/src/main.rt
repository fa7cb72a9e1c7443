//! Runs systems over boards of UARTs whose bytes outlive them, and prints how each call ends and what each UART got.
#![tactic(auto)]

mod tape_uart;

ghost use Rattle.std.specs.Prelude.{◌<◌, length};

use anyhow::{Context, Result, bail};
use command_line::Words;
use std::alloc::Global;
use std::{fs, str};
use tape_uart::TapeUart;
use uart_board::Board;
use xm_commands::{Status, xm_main};
use xm_outside::{FileUart, MemSink, MemStore, SureSink};

// The files of the data folder that the calls read.
const FILES: [&str; 10] = [
    "hi.bin",
    "pair.xml",
    "shared.xml",
    "mute.xml",
    "trace.xml",
    "x0.elf",
    "x1.elf",
    "a0.elf",
    "b1.elf",
    "t0.elf",
];

// The calls that make the containers: both partitions of `pair` write `x` twice, each to a UART of its own; those of
// `shared` and of `mute` write `a` and `b` twice, to one UART, and to the UART 0 and to none; the one of `trace` traces
// eight bytes and writes the first of them.
const MAKING: [&str; 13] = [
    "xmcparser pair.xml pair.xmc",
    "xmcparser shared.xml shared.xmc",
    "xmcparser mute.xml mute.xmc",
    "xmcparser trace.xml trace.xmc",
    "xmeformat build x0.elf x0.xef",
    "xmeformat build x1.elf x1.xef",
    "xmeformat build a0.elf a0.xef",
    "xmeformat build b1.elf b1.xef",
    "xmeformat build t0.elf t0.xef",
    "xmpack build pair.xmc pair.xmp 0=x0.xef 1=x1.xef",
    "xmpack build shared.xmc shared.xmp 0=a0.xef 1=b1.xef",
    "xmpack build mute.xmc mute.xmp 0=a0.xef 1=b1.xef",
    "xmpack build trace.xmc trace.xmp 0=t0.xef",
];

// The calls over a file that was there before: one that writes nothing, and two that do.
const FILE_CALLS: [&str; 3] = ["bare hi.bin 0", "bare hi.bin 100", "bare hi.bin 100"];

const NO_MEMORY: &str = "there is no memory";

// What is done on one board.
#[derive(Clone, Copy)]
struct Row {
    shows: &'static str,
    calls: &'static [&'static str],
    // The calls that the UART of a place fails, or none for an empty place.
    fails: [Option<&'static [u64]>; 2],
    // How many bytes of such a call it keeps.
    keep: usize,
    // The writes of the report that fail.
    cuts: &'static [u64],
}

// The rows whose UARTs may fail.
const ROWS: [Row; 13] = [
    Row {
        shows: "a raw image on UART 0",
        calls: &["bare hi.bin 100"],
        fails: [Some(&[]), Some(&[])],
        keep: 0,
        cuts: &[],
    },
    Row {
        shows: "UART 1 fails its second write",
        calls: &["run pair.xmp --ticks 20"],
        fails: [Some(&[]), Some(&[1])],
        keep: 0,
        cuts: &[],
    },
    Row {
        shows: "UART 0 fails its first write",
        calls: &["run pair.xmp --ticks 20"],
        fails: [Some(&[0]), Some(&[])],
        keep: 0,
        cuts: &[],
    },
    Row {
        shows: "UART 1 fails first, and UART 0 is told",
        calls: &["run pair.xmp --ticks 20"],
        fails: [Some(&[1]), Some(&[0])],
        keep: 0,
        cuts: &[],
    },
    Row {
        shows: "the report fails before a UART is tried",
        calls: &["run pair.xmp --ticks 20"],
        fails: [Some(&[]), Some(&[0])],
        keep: 0,
        cuts: &[0],
    },
    Row {
        shows: "a UART keeps a front of what it fails to take",
        calls: &["bare hi.bin 100"],
        fails: [Some(&[0]), None],
        keep: 1,
        cuts: &[],
    },
    Row {
        shows: "a partition without a console",
        calls: &["run mute.xmp --ticks 20"],
        fails: [Some(&[]), Some(&[])],
        keep: 0,
        cuts: &[],
    },
    Row {
        shows: "what is traced goes to no UART",
        calls: &["run trace.xmp --ticks 20"],
        fails: [Some(&[]), Some(&[])],
        keep: 0,
        cuts: &[],
    },
    Row {
        shows: "two partitions on one UART",
        calls: &["run shared.xmp --ticks 20"],
        fails: [Some(&[]), Some(&[])],
        keep: 0,
        cuts: &[],
    },
    Row {
        shows: "an empty place",
        calls: &["run pair.xmp --ticks 20"],
        fails: [Some(&[]), None],
        keep: 0,
        cuts: &[],
    },
    Row {
        shows: "a UART that would fail each write is tried once",
        calls: &["run shared.xmp --ticks 20"],
        fails: [Some(&[0, 1, 2, 3]), Some(&[])],
        keep: 1,
        cuts: &[],
    },
    Row {
        shows: "two runs on a board, whose UART 1 fails in the first",
        calls: &["run pair.xmp --ticks 20", "run pair.xmp --ticks 20"],
        fails: [Some(&[]), Some(&[1])],
        keep: 0,
        cuts: &[],
    },
    Row {
        shows: "a replay by the script that a run wrote",
        calls: &["run pair.xmp --ticks 20 --script 1=s", "alone pair.xmp 1 s"],
        fails: [Some(&[]), Some(&[])],
        keep: 0,
        cuts: &[],
    },
];

fn main(rt: HostRuntime) -> Result<()> {
    let mut files = MemStore::new(rt.alloc(), Vec::new(rt.alloc()));
    put_data(&rt, &mut files)?;
    make_all(rt.alloc(), &mut files)?;
    for row in ROWS {
        println!(rt; "# {}", row.shows)?;
        do_row(&rt, row, &mut files)?;
    }
    println!(rt; "# a file that was there before")?;
    on_a_file(&rt, &mut files)
}

// Puts the files of the data folder into the store.
fn put_data(rt: &HostRuntime, files: &mut MemStore) -> Result<()> {
    for name in FILES {
        let bytes = fs::read(rt, name)?;
        files.put(name, &bytes).ok().context(NO_MEMORY)?;
    }
    Ok(())
}

// Does the calls that make the containers.
fn make_all(alloc: Global, files: &mut MemStore) -> Result<()> {
    for call in MAKING {
        make(alloc, call, files)?;
    }
    Ok(())
}

// Does a call that is to end well, and whose lines go nowhere.
fn make(alloc: Global, call: &str, files: &mut MemStore) -> Result<()> {
    let words = words_of(alloc, call)?;
    match run_quietly(alloc, &words, files) {
        Status::Done => Ok(()),
        status => bail!("{call}: ended with {status:?}"),
    }
}

// Does what the words say; the lines go nowhere.
fn run_quietly(alloc: Global, words: &Words, files: &mut MemStore) -> Status {
    let mut out = SureSink::new();
    let mut err = SureSink::new();
    xm_main(alloc, words, files, &mut out, &mut err, &mut Board::new())
}

// Does the calls of a row on one board, and prints what its UARTs got, and whether they stand at their places still.
fn do_row(rt: &HostRuntime, row: Row, files: &mut MemStore) -> Result<()> {
    let [first, second] = row.fails;
    let mut board = Board::new();
    if let Some(uart) = tape(rt, "got0", first, row.keep)? {
        board.set(0, uart);
    }
    if let Some(uart) = tape(rt, "got1", second, row.keep)? {
        board.set(1, uart);
    }
    for place in 0..row.calls.len() {
        do_call(rt, row.calls, place, row.cuts, files, &mut board)?;
    }
    print_uart(rt, 0, "got0", board.take(0).is_some())?;
    print_uart(rt, 1, "got1", board.take(1).is_some())
}

// Does one of these calls on a board, its report failing at these writes, and prints it with what came of it. By its
// `requires` it is stated for a board of any UARTs, and so are its callers.
fn do_call(
    rt: &HostRuntime,
    calls: &[&str],
    place: usize,
    cuts: &[u64],
    files: &mut MemStore,
    board: &mut Board,
) -> Result<()>
    requires { place < length calls.now }
{
    let call = calls[place];
    let words = words_of(rt.alloc(), call)?;
    let mut out = sink(rt.alloc(), cuts)?;
    let mut err = sink(rt.alloc(), &[])?;
    let status = xm_main(rt.alloc(), &words, files, &mut out, &mut err, board);
    print_call(rt, call, out.got(), err.got(), status)
}

// Runs over a file that was there before: one that writes nothing, and two that do.
fn on_a_file(rt: &HostRuntime, files: &mut MemStore) -> Result<()> {
    fs::write(rt, "uart0.out", "of a run before")?;
    let Ok(uart) = Box::new(rt.alloc(), FileUart::new(rt.clone()?, 0)) else {
        bail!(NO_MEMORY);
    };
    let mut board = Board::new();
    board.set(0, uart);
    for place in 0..FILE_CALLS.len() {
        do_call(rt, &FILE_CALLS, place, &[], files, &mut board)?;
        let got = fs::read_to_string(rt, "uart0.out")?;
        println!(rt; "uart0.out has `{got}`")?;
    }
    Ok(())
}

// A UART for a place, where there is to be one, over an empty file.
fn tape(
    rt: &HostRuntime,
    name: &'static str,
    fails: Option<&'static [u64]>,
    keep: usize,
) -> Result<Option<Box<TapeUart<HostRuntime>>>> {
    fs::write(rt, name, "")?;
    let Some(fails) = fails else {
        return Ok(None);
    };
    let uart = TapeUart::new(rt.clone()?, name, fails, keep);
    let Ok(uart) = Box::new(rt.alloc(), uart) else {
        bail!(NO_MEMORY);
    };
    Ok(Some(uart))
}

// A sink that fails these writes.
fn sink(alloc: Global, fails: &[u64]) -> Result<MemSink> {
    Ok(MemSink::new(alloc, Vec::from_slice(alloc, fails)?, 100))
}

// Prints a call, its report, its line on the error output and its status.
fn print_call(rt: &HostRuntime, call: &str, out: &[u8], err: &[u8], status: Status) -> Result<()> {
    println!(rt; "$ xm_run {call}")?;
    print!(rt; "{}", str::from_utf8(out)?)?;
    print!(rt; "{}", str::from_utf8(err)?)?;
    println!(rt; "status {}", status.code())?;
    Ok(())
}

// Prints what a UART got, and whether it stood at its place still.
fn print_uart(rt: &HostRuntime, place: u8, name: &str, there: bool) -> Result<()> {
    let got = fs::read_to_string(rt, name)?;
    println!(rt; "uart {place} got `{got}`, there={there}")?;
    Ok(())
}

// The words of a call, which stand apart by one blank each.
fn words_of(alloc: Global, call: &str) -> Result<Words> {
    let mut words = Words::new(alloc);
    for word in call.split(' ') {
        words.push(word).ok().context(NO_MEMORY)?;
    }
    Ok(words)
}
