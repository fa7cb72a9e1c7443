//! A container is unpacked, and its system is run.

ghost use Rattle.std.specs.Prelude.{◌≡◌, ◌+◌, ◌≤◌, ◌∷◌, None, Ok, Some, drop, length, map, true};
ghost use Rattle.xm_base.specs.declared.limits.TheConstants.{TICKS};
ghost use Rattle.xm_container.specs.Reading.{unpacked};
ghost use Rattle.run_commands.specs.Accounts.{HasAccount};
ghost use Rattle.run_commands.specs.Boards.{LeavesBoard};
ghost use Rattle.run_commands.specs.lemmas.Beginnings.{IsBeginning, machine_of};
ghost use Rattle.run_commands.specs.lemmas.Cores.{AreForPartitions};
ghost use Rattle.run_commands.specs.Numbers.{HasScripts, ReceivesIn, ReceivesOf, StoresIn, StoresOf};
ghost use Rattle.run_commands.specs.lemmas.NumbersTerms.{ReceivesShort, StoresShort};
ghost use Rattle.run_commands.specs.lemmas.Made.{made_output};
ghost use Rattle.run_commands.specs.lemmas.ReadyRuns.{ReadyNumbers, ReadyStores};
ghost use Rattle.file_commands.specs.Inputs.{inputs_for};
ghost use Rattle.file_commands.specs.Outcome.{content, first_long, outcome_of, outcome_of_run, ran_with, run_inputs, run_outcome};
ghost use Rattle.file_commands.specs.EndingValues.{vector_bytes, ending_of};
ghost use Rattle.file_commands.specs.lemmas.WorkTerms.{HasOutcome};
ghost use Rattle.file_commands.specs.Work.{outside};
ghost use Rattle.command_line.specs.Grammar.{count_of};
ghost use Rattle.command_line.specs.Seen.{seen_files, seen_options};
ghost use Rattle.command_line.specs.Words.{Run, begins_once, span_in};
ghost use Rattle.upset_files.specs.Fits.{AllFit};

use crate::readiness::{ReadyRun, ready_run};
use crate::running::run_system;
use builders::no_container;
use command_line::{PartFiles, RunOptions};
use file_commands::{Ending, Refusal, first_long, read_files, split_contents, unmade};
use std::alloc::Global;
use uart_board::{Board, ViewBoard};
use xm_container::{System, unpack};
use xm_outside::{Sink, Store};

/// Reads a container, the inputs of a run, its upsets and the saved machine that it goes on from, and runs it.
pub fn run_container<'a, S: Store, O: Sink>(
    alloc: Global,
    container: &'a str,
    options: RunOptions<'a>,
    files: &mut S,
    out: &mut O,
    board: &mut Board,
) -> Ending<'a>
    // Called for at most the limit of ticks or of major frames.
    requires most { count_of (span_in (seen_options options)) ≤ TICKS }
    // Called with options that begin a run in one way: where they name a saved machine, they name neither input words
    // nor scripts.
    requires begun { begins_once (seen_options options) ≡ true }
    // A container is run with the files that its options name: it results in what is defined of the contents, or the
    // call ends where it could not; what the board of UARTs holds is by the same ending and contents.
    ensures accounted { HasAccount (ending_of result) (Some (Run container.now (seen_options options.entry)))
        (outside (S.files files.old) (S.read_faults files.old) (S.write_faults files.old) (S.calls files.old)
        (O.got out.old) (O.faults out.old))
        (outside (S.files files.new) (S.read_faults files.new) (S.write_faults files.new) (S.calls files.new)
        (O.got out.new) (O.faults out.new))
        (⟦<Board as ViewBoard>⟧.board_view board.old) (⟦<Board as ViewBoard>⟧.board_view board.new) }
    // A run that made its scripts: what its partitions received is bytes and words, where it has numbers of them.
    ensures numbers { HasScripts (ending_of result)
        → ReceivesOf container.now (seen_options options.entry) (S.files files.old) }
    // A run that made its files: the numbers of the machine that it saved are in their ranges.
    ensures stored { HasScripts (ending_of result)
        → StoresOf container.now (seen_options options.entry) (S.files files.old) }
{
    match read_files(
        alloc,
        container,
        options.inputs(),
        options.upsets(),
        options.from(),
        files,
    ) {
        Ok(contents) => run_files(alloc, container, options, &contents, files, out, board),
        Err(ending) => ending,
    }
}

// Runs a container with inputs, by the contents of their files.
fn run_files<'a, S: Store, O: Sink>(
    alloc: Global,
    container: &'a str,
    options: RunOptions<'a>,
    contents: &[Vec<u8>],
    files: &mut S,
    out: &mut O,
    board: &mut Board,
) -> Ending<'a>
    requires most { count_of (span_in (seen_options options)) ≤ TICKS }
    requires begun { begins_once (seen_options options) ≡ true }
    ensures outcome { HasOutcome (ending_of result)
        (outcome_of (Run container.now (seen_options options.entry)) (map vector_bytes contents.now))
        (outside (S.files files.old) (S.read_faults files.old) (S.write_faults files.old) (S.calls files.old)
        (O.got out.old) (O.faults out.old))
        (outside (S.files files.new) (S.read_faults files.new) (S.write_faults files.new) (S.calls files.new)
        (O.got out.new) (O.faults out.new)) }
    ensures board { LeavesBoard (ending_of result)
        (outcome_of (Run container.now (seen_options options.entry)) (map vector_bytes contents.now)).run
        (O.got out.old) (O.got out.new)
        (⟦<Board as ViewBoard>⟧.board_view board.old) (⟦<Board as ViewBoard>⟧.board_view board.new) }
    ensures numbers { HasScripts (ending_of result)
        → ReceivesShort container.now (seen_options options.entry) (map vector_bytes contents.now) }
    ensures stored { HasScripts (ending_of result)
        → StoresShort container.now (seen_options options.entry) (map vector_bytes contents.now) }
{
    match first_long(
        container,
        options.inputs(),
        options.upsets(),
        options.from(),
        contents,
    ) {
        Some(file) => Ending::Refused {
            file,
            why: Refusal::TooLong,
        },
        None => run_packed(alloc, container, options, contents, files, out, board),
    }
}

// Runs a container with inputs, where none of their files is too long.
fn run_packed<'a, S: Store, O: Sink>(
    alloc: Global,
    container: &'a str,
    options: RunOptions<'a>,
    contents: &[Vec<u8>],
    files: &mut S,
    out: &mut O,
    board: &mut Board,
) -> Ending<'a>
    requires most { count_of (span_in (seen_options options)) ≤ TICKS }
    requires begun { begins_once (seen_options options) ≡ true }
    requires short { first_long (container.now ∷ run_inputs (seen_options options)) (map vector_bytes contents.now)
        ≡ None }
    ensures outcome { HasOutcome (ending_of result)
        (run_outcome container.now (seen_options options.entry) (content 0 (map vector_bytes contents.now))
        (drop 1 (map vector_bytes contents.now)))
        (outside (S.files files.old) (S.read_faults files.old) (S.write_faults files.old) (S.calls files.old)
        (O.got out.old) (O.faults out.old))
        (outside (S.files files.new) (S.read_faults files.new) (S.write_faults files.new) (S.calls files.new)
        (O.got out.new) (O.faults out.new)) }
    ensures board { LeavesBoard (ending_of result)
        (run_outcome container.now (seen_options options.entry) (content 0 (map vector_bytes contents.now))
        (drop 1 (map vector_bytes contents.now))).run
        (O.got out.old) (O.got out.new)
        (⟦<Board as ViewBoard>⟧.board_view board.old) (⟦<Board as ViewBoard>⟧.board_view board.new) }
    ensures numbers { HasScripts (ending_of result)
        → ReceivesIn (seen_options options.entry) (map vector_bytes contents.now) }
    ensures stored { HasScripts (ending_of result)
        → StoresIn (seen_options options.entry) (map vector_bytes contents.now) }
{
    let (bytes, _) = split_contents(contents);
    match unpack(alloc, bytes) {
        Ok(system) => run_unpacked(
            alloc, container, options, system, contents, files, out, board,
        ),
        Err(fault) => unmade(container, no_container(alloc, fault)),
    }
}

// Runs the system of a container with inputs, by the contents of their files.
fn run_unpacked<'a, S: Store, O: Sink>(
    alloc: Global,
    container: &'a str,
    options: RunOptions<'a>,
    system: System,
    contents: &[Vec<u8>],
    files: &mut S,
    out: &mut O,
    board: &mut Board,
) -> Ending<'a>
    requires most { count_of (span_in (seen_options options)) ≤ TICKS }
    requires begun { begins_once (seen_options options) ≡ true }
    requires short { first_long (run_inputs (seen_options options)) (drop 1 (map vector_bytes contents.now)) ≡ None }
    requires same { unpacked (content 0 (map vector_bytes contents.now)) ≡ Ok system }
    ensures outcome { HasOutcome (ending_of result)
        (ran_with container.now (seen_options options.entry) (content 0 (map vector_bytes contents.now))
        (drop 1 (map vector_bytes contents.now)) system
        (inputs_for (length system.conf.parts) (seen_options options.entry) (drop 1 (map vector_bytes contents.now))))
        (outside (S.files files.old) (S.read_faults files.old) (S.write_faults files.old) (S.calls files.old)
        (O.got out.old) (O.faults out.old))
        (outside (S.files files.new) (S.read_faults files.new) (S.write_faults files.new) (S.calls files.new)
        (O.got out.new) (O.faults out.new)) }
    ensures board { LeavesBoard (ending_of result)
        (ran_with container.now (seen_options options.entry) (content 0 (map vector_bytes contents.now))
        (drop 1 (map vector_bytes contents.now)) system
        (inputs_for (length system.conf.parts) (seen_options options.entry)
        (drop 1 (map vector_bytes contents.now)))).run
        (O.got out.old) (O.got out.new)
        (⟦<Board as ViewBoard>⟧.board_view board.old) (⟦<Board as ViewBoard>⟧.board_view board.new) }
    ensures numbers { HasScripts (ending_of result)
        → ReadyNumbers (seen_options options.entry) (map vector_bytes contents.now) system }
    ensures stored { HasScripts (ending_of result)
        → ReadyStores (seen_options options.entry) (map vector_bytes contents.now) system }
{
    match ready_run(alloc, container, options, contents, &system) {
        Ok(ready) => run_ready(alloc, ready, options.cores(), system, files, out, board),
        Err(ending) => ending,
    }
}

// Runs a system with what its run is given.
fn run_ready<'a, S: Store, O: Sink>(
    alloc: Global,
    ready: ReadyRun<'a>,
    cores: PartFiles<'a>,
    system: System,
    files: &mut S,
    out: &mut O,
    board: &mut Board,
) -> Ending<'a>
    requires begins { IsBeginning system ready.beginning }
    requires most { (machine_of system ready.beginning).ticks + ready.ticks ≤ TICKS }
    requires fit { AllFit system.conf ((machine_of system ready.beginning).ticks + ready.ticks)
        (machine_of system ready.beginning).ticks ready.upsets.items }
    requires inside { AreForPartitions (length system.conf.parts) (seen_files cores) }
    ensures outcome { HasOutcome (ending_of result)
        (outcome_of_run ready.entry.upsets.items ready.entry.ticks (seen_files cores.entry)
        (map made_output ready.entry.made.items) (machine_of system ready.entry.beginning))
        (outside (S.files files.old) (S.read_faults files.old) (S.write_faults files.old) (S.calls files.old)
        (O.got out.old) (O.faults out.old))
        (outside (S.files files.new) (S.read_faults files.new) (S.write_faults files.new) (S.calls files.new)
        (O.got out.new) (O.faults out.new)) }
    ensures board { LeavesBoard (ending_of result)
        (outcome_of_run ready.entry.upsets.items ready.entry.ticks (seen_files cores.entry)
        (map made_output ready.entry.made.items) (machine_of system ready.entry.beginning)).run
        (O.got out.old) (O.got out.new)
        (⟦<Board as ViewBoard>⟧.board_view board.old) (⟦<Board as ViewBoard>⟧.board_view board.new) }
{
    let ReadyRun {
        ticks,
        beginning,
        upsets,
        made,
    } = ready;
    run_system(
        alloc, ticks, &upsets, cores, &made, system, beginning, files, out, board,
    )
}
