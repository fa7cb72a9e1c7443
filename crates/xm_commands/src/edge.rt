//! The program over the system: its arguments, its files, its streams, and the files of its UARTs.

ghost use Rattle.std.specs.Prelude.{◌≡◌, ◌≢◌, ◌<◌, ◌↔◌, IfOk, None, false};
ghost use Rattle.std.specs.IoError.{error_kind};
ghost use Rattle.std.specs.Process.{exit_status};
ghost use Rattle.file_commands.specs.Status.{IsCodeOf};
ghost use Rattle.xm_outside.specs.FileUart.{uart_file};
ghost use Rattle.xm_commands.specs.Arguments.{after_name};
ghost use Rattle.xm_commands.specs.Ended.{IsEndedBy, IsOnFiles, SaysUsage};
ghost use Rattle.xm_commands.specs.World.{sink_view};
ghost use Rattle.command_line.specs.Words.{command_of};

use crate::arguments::carry_out;
use crate::top::misused;
use file_commands::Status;
use std::io::{Error, ErrorKind, Write};
use std::process::ExitCode;
use std::{env, io};
use uart_board::Board;
use xm_base::Memory;
use xm_outside::{FileStore, FileUart, OutSink, Sink, Uart};

/// The process's arguments, the program's name first.
pub fn arguments_of(rt: &HostRuntime) -> io::Result<Vec<String>> {
    let given = env::args(rt)?.collect(rt.alloc())?;
    Ok(given)
}

/// Does what the arguments say, and ends with the code of the status. `stdout` gets the report, `stderr` the line on an
/// error, and the files `uart0.out` to `uart7.out` what goes to the UARTs. Out of memory for the arguments or for the
/// UARTs is reported by the status alone; arguments that cannot be read for another cause are misuse.
pub fn program<O: Write + Drop, E: Write + Drop>(
    rt: &HostRuntime,
    given: io::Result<Vec<String>>,
    stdout: O,
    stderr: E,
) -> ExitCode
    // The exit status is the code of a status to which the given arguments come. Arguments that were read: the status
    // answers the words after the first as that of `xm_main` does, over a store that reports nothing but its counts,
    // which were 0, with a board that has at each of its eight places the UART of a file before its first write, and
    // with a report and an error output that report nothing but their faults, of which there were none; or there was no
    // memory for the UARTs, and nothing was done. Arguments that could not be read: NoMemory where the cause was
    // memory, and Usage for every other cause. After Done no write to the error output failed.
    ensures ended { IsEndedBy given (exit_status result) }
    // Of arguments that were read: but after 6, the exit status is 2 exactly where the words after the first are no
    // command.
    ensures usage { IfOk given (λ texts. exit_status result ≢ 6
        → ((exit_status result ≡ 2) ↔ (command_of (after_name texts.items) ≡ None))) }
{
    let mut out = OutSink::new(stdout);
    let mut err = OutSink::new(stderr);
    match given {
        Ok(texts) => exit_code(on_files(rt, &texts, &mut out, &mut err)),
        Err(error) => exit_code(unread(&error, &mut err)),
    }
}

// The code of a status.
fn exit_code(status: Status) -> ExitCode
    ensures { IsCodeOf status (exit_status result) }
{
    ExitCode::from(status.code())
}

// Does what the arguments say, over the files of the system and with the UART of a file at each place of the board.
fn on_files<O: Sink, E: Sink>(
    rt: &HostRuntime,
    given: &[String],
    out: &mut O,
    err: &mut E,
) -> Status
    ensures call { IsOnFiles result (after_name given.now)
        (sink_view (O.got out.old) (O.faults out.old)) (sink_view (O.got out.new) (O.faults out.new))
        (sink_view (E.got err.old) (E.faults err.old)) (sink_view (E.got err.new) (E.faults err.new)) }
    ensures silent { result ≡ Status.Done → err.new ≡ err.old }
{
    let mut board = Board::new();
    for place in 0..8 {
        let Ok(uart) = file_uart(rt, place) else {
            return Status::NoMemory;
        };
        board.set(place, uart);
    }
    let Ok(store) = rt.clone() else {
        return Status::NoMemory;
    };
    let mut files = FileStore::new(store);
    carry_out(rt.alloc(), given, &mut files, out, err, &mut board)
}

// The UART of the place's file, which no write has made yet, in a box.
fn file_uart(rt: &HostRuntime, place: u8) -> Result<Box<FileUart<HostRuntime>>, Memory>
    requires { place < 8 }
    ensures name { IfOk result (λ uart. uart.value.name.now ≡ uart_file place) }
    ensures unmade { IfOk result (λ uart. uart.value.made ≡ false) }
    ensures faults { IfOk result (λ uart. ⟦<FileUart<HostRuntime> as Uart>⟧.faults uart.value ≡ 0) }
{
    let Ok(own) = rt.clone() else {
        return Err(Memory);
    };
    match Box::new(rt.alloc(), FileUart::new(own, place)) {
        Ok(uart) => Ok(uart),
        Err(_) => Err(Memory),
    }
}

// The answer to arguments that could not be read: memory ran out for them, or they are misused.
fn unread<E: Sink>(error: &Error, err: &mut E) -> Status
    ensures starved { error_kind error.now ≡ ErrorKind.OutOfMemory → result ≡ Status.NoMemory }
    ensures quiet { error_kind error.now ≡ ErrorKind.OutOfMemory → err.new ≡ err.old }
    ensures misused { error_kind error.now ≢ ErrorKind.OutOfMemory → SaysUsage result
        (sink_view (E.got err.old) (E.faults err.old)) (sink_view (E.got err.new) (E.faults err.new)) }
    ensures silent { result ≡ Status.Done → err.new ≡ err.old }
{
    if error.kind() == ErrorKind::OutOfMemory {
        return Status::NoMemory;
    }
    misused(err)
}
