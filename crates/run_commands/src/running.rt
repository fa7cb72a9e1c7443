//! A system is run, its report goes out, and core files of its partitions and the files that were made of it are written after it.

ghost use Rattle.std.specs.Prelude.{◌≡◌, ◌+◌, ◌≤◌, [], ◌∷◌, Some, length, map};
ghost use Rattle.xm_base.specs.declared.limits.TheConstants.{TICKS};
ghost use Rattle.run_commands.specs.Accounts.{HasAccount};
ghost use Rattle.run_commands.specs.Boards.{LeavesBoard};
ghost use Rattle.run_commands.specs.lemmas.Beginnings.{IsBeginning, machine_of};
ghost use Rattle.run_commands.specs.lemmas.Cores.{AreForPartitions, FitInto};
ghost use Rattle.file_commands.specs.Outcome.{outcome_of, outcome_of_run};
ghost use Rattle.run_commands.specs.lemmas.Made.{made_output};
ghost use Rattle.file_commands.specs.EndingValues.{ending_of};
ghost use Rattle.file_commands.specs.lemmas.WorkTerms.{HasOutcome};
ghost use Rattle.file_commands.specs.Work.{outside};
ghost use Rattle.command_line.specs.Seen.{seen_files};
ghost use Rattle.command_line.specs.Words.{Bare};
ghost use Rattle.upset_files.specs.Fits.{AllFit};

use crate::beginning::{Beginning, begin};
use crate::cores::core_room;
use crate::later::{ended, write_later};
use crate::making::MadeFile;
use command_line::PartFiles;
use file_commands::{Ending, Refusal, read_file};
use machine_model::keeps_numbers;
use std::alloc::Global;
use uart_board::{Board, ViewBoard};
use upset_model::UpsetLine;
use xm_base::{FILE_BYTES, Memory, proof};
use xm_container::{BareFault, System, bare};
use xm_machine::{Inputs, Machine, WriteFault};
use xm_outside::{Sink, Store};

/// Reads a raw image and runs it for this many ticks.
pub fn run_file<'a, S: Store, O: Sink>(
    alloc: Global,
    image: &'a str,
    ticks: u64,
    files: &mut S,
    out: &mut O,
    board: &mut Board,
) -> Ending<'a>
    // Called for at most the limit of ticks.
    requires { ticks ≤ TICKS }
    // The run of a raw image results in what is defined of the contents, or the call ends where it could not; what the
    // board of UARTs holds is by the same ending and contents.
    ensures accounted { HasAccount (ending_of result) (Some (Bare image.now ticks))
        (outside (S.files files.old) (S.read_faults files.old) (S.write_faults files.old) (S.calls files.old)
        (O.got out.old) (O.faults out.old))
        (outside (S.files files.new) (S.read_faults files.new) (S.write_faults files.new) (S.calls files.new)
        (O.got out.new) (O.faults out.new))
        (⟦<Board as ViewBoard>⟧.board_view board.old) (⟦<Board as ViewBoard>⟧.board_view board.new) }
{
    match read_file(alloc, image, files) {
        Ok(bytes) => run_bytes(alloc, image, ticks, &bytes, files, out, board),
        Err(ending) => ending,
    }
}

// Runs the bytes of an image's file, where their number is right.
fn run_bytes<'a, S: Store, O: Sink>(
    alloc: Global,
    image: &'a str,
    ticks: u64,
    bytes: &[u8],
    files: &mut S,
    out: &mut O,
    board: &mut Board,
) -> Ending<'a>
    requires { ticks ≤ TICKS }
    ensures outcome { HasOutcome (ending_of result) (outcome_of (Bare image.now ticks) (bytes.now ∷ []))
        (outside (S.files files.old) (S.read_faults files.old) (S.write_faults files.old) (S.calls files.old)
        (O.got out.old) (O.faults out.old))
        (outside (S.files files.new) (S.read_faults files.new) (S.write_faults files.new) (S.calls files.new)
        (O.got out.new) (O.faults out.new)) }
    ensures board { LeavesBoard (ending_of result) (outcome_of (Bare image.now ticks) (bytes.now ∷ [])).run
        (O.got out.old) (O.got out.new)
        (⟦<Board as ViewBoard>⟧.board_view board.old) (⟦<Board as ViewBoard>⟧.board_view board.new) }
{
    if bytes.len() > FILE_BYTES {
        return Ending::Refused {
            file: image,
            why: Refusal::TooLong,
        };
    }
    match bare(alloc, bytes) {
        Ok(system) => match Inputs::new(alloc, 1) {
            Ok(inputs) => {
                let cores = PartFiles::none();
                let made = Vec::new(alloc);
                let beginning = Beginning::Boot(inputs);
                run_system(
                    alloc,
                    ticks,
                    &[],
                    cores,
                    &made,
                    system,
                    beginning,
                    files,
                    out,
                    board,
                )
            }
            Err(_) => Ending::NoMemory,
        },
        Err(BareFault::Memory) => Ending::NoMemory,
        Err(BareFault::Length { found }) => Ending::Refused {
            file: image,
            why: Refusal::Length { found },
        },
    }
}

/// Runs a system that begins so, while these upsets strike; then core files of its partitions are written, and these files after them. All
/// memory is taken before the run.
pub(crate) fn run_system<'a, S: Store, O: Sink>(
    alloc: Global,
    ticks: u64,
    upsets: &[UpsetLine],
    cores: PartFiles<'a>,
    made: &[MadeFile<'a>],
    system: System,
    beginning: Beginning,
    files: &mut S,
    out: &mut O,
    board: &mut Board,
) -> Ending<'a>
    requires begins { IsBeginning system beginning }
    requires most { (machine_of system beginning).ticks + ticks ≤ TICKS }
    requires fit { AllFit system.conf ((machine_of system beginning).ticks + ticks)
        (machine_of system beginning).ticks upsets.now }
    requires inside { AreForPartitions (length system.conf.parts) (seen_files cores) }
    ensures outcome { HasOutcome (ending_of result)
        (outcome_of_run upsets.now ticks (seen_files cores.entry) (map made_output made.now)
        (machine_of system beginning))
        (outside (S.files files.old) (S.read_faults files.old) (S.write_faults files.old) (S.calls files.old)
        (O.got out.old) (O.faults out.old))
        (outside (S.files files.new) (S.read_faults files.new) (S.write_faults files.new) (S.calls files.new)
        (O.got out.new) (O.faults out.new)) }
    ensures board { LeavesBoard (ending_of result)
        (outcome_of_run upsets.now ticks (seen_files cores.entry) (map made_output made.now)
        (machine_of system beginning)).run
        (O.got out.old) (O.got out.new)
        (⟦<Board as ViewBoard>⟧.board_view board.old) (⟦<Board as ViewBoard>⟧.board_view board.new) }
{
    match begin(alloc, system, beginning) {
        Ok(mut machine) => {
            let machine = &mut machine;
            run_machine(
                alloc, ticks, upsets, cores, made, machine, files, out, board,
            )
        }
        Err(Memory) => Ending::NoMemory,
    }
}

// Runs a machine, where there is memory for its core files.
fn run_machine<'a, S: Store, O: Sink>(
    alloc: Global,
    ticks: u64,
    upsets: &[UpsetLine],
    cores: PartFiles<'a>,
    made: &[MadeFile<'a>],
    machine: &mut Machine,
    files: &mut S,
    out: &mut O,
    board: &mut Board,
) -> Ending<'a>
    requires most { machine.old.state.ticks + ticks ≤ TICKS }
    requires fit { AllFit machine.old.state.system.conf (machine.old.state.ticks + ticks) machine.old.state.ticks
        upsets.now }
    requires inside { AreForPartitions (length machine.old.state.system.conf.parts) (seen_files cores) }
    ensures outcome { HasOutcome (ending_of result)
        (outcome_of_run upsets.now ticks (seen_files cores.entry) (map made_output made.now) machine.old.state)
        (outside (S.files files.old) (S.read_faults files.old) (S.write_faults files.old) (S.calls files.old)
        (O.got out.old) (O.faults out.old))
        (outside (S.files files.new) (S.read_faults files.new) (S.write_faults files.new) (S.calls files.new)
        (O.got out.new) (O.faults out.new)) }
    ensures board { LeavesBoard (ending_of result)
        (outcome_of_run upsets.now ticks (seen_files cores.entry) (map made_output made.now) machine.old.state).run
        (O.got out.old) (O.got out.new)
        (⟦<Board as ViewBoard>⟧.board_view board.old) (⟦<Board as ViewBoard>⟧.board_view board.new) }
{
    // The machine has each partition of its configuration.
    proof! { let _sys = machine.sys(); }
    match core_room(alloc, machine, cores) {
        Ok(mut room) => run_into(
            ticks, upsets, cores, made, machine, &mut room, files, out, board,
        ),
        Err(Memory) => Ending::NoMemory,
    }
}

// Runs a machine, with room for its core files, and writes these and the files that were made after the report.
fn run_into<'a, S: Store, O: Sink>(
    ticks: u64,
    upsets: &[UpsetLine],
    cores: PartFiles<'a>,
    made: &[MadeFile<'a>],
    machine: &mut Machine,
    room: &mut [u8],
    files: &mut S,
    out: &mut O,
    board: &mut Board,
) -> Ending<'a>
    requires most { machine.old.state.ticks + ticks ≤ TICKS }
    requires fit { AllFit machine.old.state.system.conf (machine.old.state.ticks + ticks) machine.old.state.ticks
        upsets.now }
    requires inside { AreForPartitions (length machine.old.state.parts) (seen_files cores) }
    requires room { FitInto machine.old.state.system (length room.old) (seen_files cores) }
    ensures outcome { HasOutcome (ending_of result)
        (outcome_of_run upsets.now ticks (seen_files cores.entry) (map made_output made.now) machine.old.state)
        (outside (S.files files.old) (S.read_faults files.old) (S.write_faults files.old) (S.calls files.old)
        (O.got out.old) (O.faults out.old))
        (outside (S.files files.new) (S.read_faults files.new) (S.write_faults files.new) (S.calls files.new)
        (O.got out.new) (O.faults out.new)) }
    ensures board { LeavesBoard (ending_of result)
        (outcome_of_run upsets.now ticks (seen_files cores.entry) (map made_output made.now) machine.old.state).run
        (O.got out.old) (O.got out.new)
        (⟦<Board as ViewBoard>⟧.board_view board.old) (⟦<Board as ViewBoard>⟧.board_view board.new) }
{
    proof! { keeps_numbers(); }
    board.begin();
    match machine.run_struck(ticks, upsets, out, board) {
        Ok(_) => ended(write_later(machine, cores, made, room, files), board),
        Err(WriteFault) => Ending::WriteFaultReport,
    }
}
