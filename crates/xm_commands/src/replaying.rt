//! One partition of a container is replayed alone, its report goes out, and its core file is written after it.

ghost use Rattle.std.specs.Prelude.{◌≡◌, ◌≤◌, ◌∷◌, None, Some, drop, length, map, option_copied};
ghost use Rattle.xm_base.specs.declared.limits.TheConstants.{FILE_BYTES};
ghost use Rattle.replay_setup.specs.Readied.{IsReady, Readies, unready_of};
ghost use Rattle.builders.specs.Ready.{replay_of};
ghost use Rattle.run_commands.specs.Accounts.{HasAccount};
ghost use Rattle.run_commands.specs.Boards.{LeavesBoard};
ghost use Rattle.file_commands.specs.Outcome.{content, bytes_if_any, file_if_any, first_long, name_if_any, outcome_of, played, replay_input_bytes, replay_inputs, replay_outcome, replay_upset_bytes};
ghost use Rattle.core_files.specs.Length.{core_length_of};
ghost use Rattle.recording_model.specs.Replayed.{replay_lines};
ghost use Rattle.xm_alone.specs.Shown.{IsShown};
ghost use Rattle.recording_model.specs.Lone.{booted_alone, own_view};
ghost use Rattle.xm_machine.specs.Outcome.{HasWriteCause};
ghost use Rattle.xm_commands.specs.lemmas.Replaying.{HasCoreRoom, ready_of, unready_ending};
ghost use Rattle.file_commands.specs.EndingValues.{vector_bytes, ending_of};
ghost use Rattle.file_commands.specs.lemmas.WorkTerms.{HasOutcome};
ghost use Rattle.file_commands.specs.Work.{outside};
ghost use Rattle.command_line.specs.Seen.{seen_replay};
ghost use Rattle.command_line.specs.Words.{Replay as ReplayPart};

use crate::lone_core::{lone_room, write_lone_core};
use command_line::ReplayOptions;
use cue_scripts::Script;
use file_commands::{Ending, Refusal, first_long_of_four, read_four, split_contents};
use replay_setup::{Replay, Unready, make_ready};
use run_commands::ended;
use std::alloc::Global;
use uart_board::{Board, ViewBoard};
use upset_model::UpsetLine;
use xm_alone::{Alone, Shown};
use xm_base::{Memory, PartId};
use xm_machine::WriteFault;
use xm_outside::{Sink, Store};

/// Reads a container, the script of a partition, its input words and upsets, and replays the partition.
pub(crate) fn replay_container<'a, S: Store, O: Sink>(
    alloc: Global,
    container: &'a str,
    part: PartId,
    script: &'a str,
    options: ReplayOptions<'a>,
    files: &mut S,
    out: &mut O,
    board: &mut Board,
) -> Ending<'a>
    ensures accounted { HasAccount (ending_of result)
        (Some (ReplayPart container.now part script.now (seen_replay options.entry)))
        (outside (S.files files.old) (S.read_faults files.old) (S.write_faults files.old) (S.calls files.old)
        (O.got out.old) (O.faults out.old))
        (outside (S.files files.new) (S.read_faults files.new) (S.write_faults files.new) (S.calls files.new)
        (O.got out.new) (O.faults out.new))
        (⟦<Board as ViewBoard>⟧.board_view board.old) (⟦<Board as ViewBoard>⟧.board_view board.new) }
{
    match read_four(
        alloc,
        container,
        script,
        options.input(),
        options.upsets(),
        files,
    ) {
        Ok(contents) => replay_files(
            alloc, container, part, script, options, &contents, files, out, board,
        ),
        Err(ending) => ending,
    }
}

// Replays a partition, by the contents of the files.
fn replay_files<'a, S: Store, O: Sink>(
    alloc: Global,
    container: &'a str,
    part: PartId,
    script: &'a str,
    options: ReplayOptions<'a>,
    contents: &[Vec<u8>],
    files: &mut S,
    out: &mut O,
    board: &mut Board,
) -> Ending<'a>
    ensures outcome { HasOutcome (ending_of result)
        (outcome_of (ReplayPart container.now part script.now (seen_replay options.entry))
        (map vector_bytes contents.now))
        (outside (S.files files.old) (S.read_faults files.old) (S.write_faults files.old) (S.calls files.old)
        (O.got out.old) (O.faults out.old))
        (outside (S.files files.new) (S.read_faults files.new) (S.write_faults files.new) (S.calls files.new)
        (O.got out.new) (O.faults out.new)) }
    ensures board { LeavesBoard (ending_of result)
        (outcome_of (ReplayPart container.now part script.now (seen_replay options.entry))
        (map vector_bytes contents.now)).run
        (O.got out.old) (O.got out.new)
        (⟦<Board as ViewBoard>⟧.board_view board.old) (⟦<Board as ViewBoard>⟧.board_view board.new) }
{
    match first_long_of_four(
        container,
        script,
        options.input(),
        options.upsets(),
        contents,
    ) {
        Some(file) => Ending::Refused {
            file,
            why: Refusal::TooLong,
        },
        None => replay_short(
            alloc, container, part, script, options, contents, files, out, board,
        ),
    }
}

// Replays a partition, where none of the files is too long.
#[tactic(auto, unfolding(file_commands::specs::Outcome::replay_outcome))]
fn replay_short<'a, S: Store, O: Sink>(
    alloc: Global,
    container: &'a str,
    part: PartId,
    script: &'a str,
    options: ReplayOptions<'a>,
    contents: &[Vec<u8>],
    files: &mut S,
    out: &mut O,
    board: &mut Board,
) -> Ending<'a>
    requires { first_long (container.now ∷ script.now ∷ replay_inputs (seen_replay options))
        (map vector_bytes contents.now)
        ≡ None }
    ensures outcome { HasOutcome (ending_of result)
        (replay_outcome container.now part script.now (seen_replay options.entry)
        (content 0 (map vector_bytes contents.now)) (content 1 (map vector_bytes contents.now))
        (replay_input_bytes (seen_replay options.entry) (map vector_bytes contents.now))
        (replay_upset_bytes (seen_replay options.entry) (map vector_bytes contents.now)))
        (outside (S.files files.old) (S.read_faults files.old) (S.write_faults files.old) (S.calls files.old)
        (O.got out.old) (O.faults out.old))
        (outside (S.files files.new) (S.read_faults files.new) (S.write_faults files.new) (S.calls files.new)
        (O.got out.new) (O.faults out.new)) }
    ensures board { LeavesBoard (ending_of result)
        (replay_outcome container.now part script.now (seen_replay options.entry)
        (content 0 (map vector_bytes contents.now)) (content 1 (map vector_bytes contents.now))
        (replay_input_bytes (seen_replay options.entry) (map vector_bytes contents.now))
        (replay_upset_bytes (seen_replay options.entry) (map vector_bytes contents.now))).run
        (O.got out.old) (O.got out.new)
        (⟦<Board as ViewBoard>⟧.board_view board.old) (⟦<Board as ViewBoard>⟧.board_view board.new) }
{
    match ready_by(alloc, part, options, contents) {
        Ok(replay) => play_owned(alloc, replay, options.core(), files, out, board),
        Err(why) => unready(container, part, script, options, why),
    }
}

// The replay by the contents of the files, or why there is none.
fn ready_by(
    alloc: Global,
    part: PartId,
    options: ReplayOptions<'_>,
    contents: &[Vec<u8>],
) -> Result<Replay, Unready>
    requires { length (replay_input_bytes (seen_replay options) (map vector_bytes contents.now)) ≤ FILE_BYTES }
    ensures { Readies result
        (replay_of (content 0 (map vector_bytes contents.now)) part (content 1 (map vector_bytes contents.now))
        (replay_input_bytes (seen_replay options.entry) (map vector_bytes contents.now))
        (replay_upset_bytes (seen_replay options.entry) (map vector_bytes contents.now))) }
{
    let (bytes, others) = split_contents(contents);
    let (received, more) = split_contents(others);
    let (input, last) = split_if_any(options.input(), more);
    let (struck, _) = split_if_any(options.upsets(), last);
    make_ready(alloc, bytes, part, received, input, struck)
}

// The content of a file that may be named, and those of the files after it: none where it is not named.
fn split_if_any<'a>(file: Option<&str>, contents: &'a [Vec<u8>]) -> (&'a [u8], &'a [Vec<u8>])
    ensures first { result.0.now ≡ bytes_if_any (option_copied file.entry) (content 0 (map vector_bytes contents.now)) }
    ensures others { map vector_bytes result.1.now
        ≡ drop (length (name_if_any (option_copied file.entry))) (map vector_bytes contents.now) }
{
    match file {
        Some(_) => split_contents(contents),
        None => (b"", contents),
    }
}

// Plays a replay that is ready, and gives it back.
fn play_owned<'a, S: Store, O: Sink>(
    alloc: Global,
    replay: Replay,
    core: Option<&'a str>,
    files: &mut S,
    out: &mut O,
    board: &mut Board,
) -> Ending<'a>
    requires { IsReady replay.shown replay.alone replay.script replay.upsets.items }
    ensures outcome { HasOutcome (ending_of result) (played (option_copied core.entry) (ready_of replay.alone replay.upsets.items replay.script))
        (outside (S.files files.old) (S.read_faults files.old) (S.write_faults files.old) (S.calls files.old)
        (O.got out.old) (O.faults out.old))
        (outside (S.files files.new) (S.read_faults files.new) (S.write_faults files.new) (S.calls files.new)
        (O.got out.new) (O.faults out.new)) }
    ensures board { LeavesBoard (ending_of result)
        (played (option_copied core.entry) (ready_of replay.alone replay.upsets.items replay.script)).run (O.got out.old) (O.got out.new)
        (⟦<Board as ViewBoard>⟧.board_view board.old) (⟦<Board as ViewBoard>⟧.board_view board.new) }
{
    let Replay {
        mut alone,
        script,
        upsets,
        shown,
    } = replay;
    play_ready(
        alloc, &mut alone, &script, &upsets, &shown, core, files, out, board,
    )
}

// Plays a replay that is ready, where there is memory for its core file.
fn play_ready<'a, S: Store, O: Sink>(
    alloc: Global,
    alone: &mut Alone,
    script: &Script,
    upsets: &[UpsetLine],
    shown: &Option<Shown>,
    core: Option<&'a str>,
    files: &mut S,
    out: &mut O,
    board: &mut Board,
) -> Ending<'a>
    requires { IsReady shown.now alone.old script.now upsets.now }
    ensures outcome { HasOutcome (ending_of result) (played (option_copied core.entry) (ready_of alone.old upsets.now script.now))
        (outside (S.files files.old) (S.read_faults files.old) (S.write_faults files.old) (S.calls files.old)
        (O.got out.old) (O.faults out.old))
        (outside (S.files files.new) (S.read_faults files.new) (S.write_faults files.new) (S.calls files.new)
        (O.got out.new) (O.faults out.new)) }
    ensures board { LeavesBoard (ending_of result)
        (played (option_copied core.entry) (ready_of alone.old upsets.now script.now)).run (O.got out.old) (O.got out.new)
        (⟦<Board as ViewBoard>⟧.board_view board.old) (⟦<Board as ViewBoard>⟧.board_view board.new) }
{
    match lone_room(alloc, alone, core) {
        Ok(mut room) => play_into(
            alone, script, upsets, shown, core, &mut room, files, out, board,
        ),
        Err(Memory) => Ending::NoMemory,
    }
}

// Plays a replay that is ready, with room for its core file, and writes that after the report.
fn play_into<'a, S: Store, O: Sink>(
    alone: &mut Alone,
    script: &Script,
    upsets: &[UpsetLine],
    shown: &Option<Shown>,
    core: Option<&'a str>,
    room: &mut [u8],
    files: &mut S,
    out: &mut O,
    board: &mut Board,
) -> Ending<'a>
    requires ready { IsReady shown.now alone.old script.now upsets.now }
    requires room { HasCoreRoom (option_copied core) (core_length_of (own_view alone.old)) (length room.old) }
    ensures outcome { HasOutcome (ending_of result) (played (option_copied core.entry) (ready_of alone.old upsets.now script.now))
        (outside (S.files files.old) (S.read_faults files.old) (S.write_faults files.old) (S.calls files.old)
        (O.got out.old) (O.faults out.old))
        (outside (S.files files.new) (S.read_faults files.new) (S.write_faults files.new) (S.calls files.new)
        (O.got out.new) (O.faults out.new)) }
    ensures board { LeavesBoard (ending_of result)
        (played (option_copied core.entry) (ready_of alone.old upsets.now script.now)).run (O.got out.old) (O.got out.new)
        (⟦<Board as ViewBoard>⟧.board_view board.old) (⟦<Board as ViewBoard>⟧.board_view board.new) }
{
    board.begin();
    match show(alone, script, upsets, shown, out, board) {
        Ok(()) => ended(write_lone_core(alone, core, room, files), board),
        Err(WriteFault) => Ending::WriteFaultReport,
    }
}

// Shows a replay that is ready: what is kept of it, where it was done already.
fn show<O: Sink>(
    alone: &mut Alone,
    script: &Script,
    upsets: &[UpsetLine],
    shown: &Option<Shown>,
    out: &mut O,
    board: &mut Board,
) -> Result<(), WriteFault>
    requires { IsReady shown.now alone.old script.now upsets.now }
    ensures replay { IsShown result upsets.now script.now (replay_lines upsets.now (own_view alone.old) script.now)
        (booted_alone alone.old.system alone.old.p) alone.new (O.got out.old) (O.got out.new)
        (⟦<Board as ViewBoard>⟧.board_view board.old) (⟦<Board as ViewBoard>⟧.board_view board.new) }
    ensures cause { HasWriteCause result (O.faults out.old) (O.faults out.new) }
{
    match shown {
        Some(shown) => alone.show(shown, out, board),
        None => alone.play(script, upsets, out, board),
    }
}

// How a replay ends that cannot begin.
fn unready<'a>(
    container: &'a str,
    part: PartId,
    script: &'a str,
    options: ReplayOptions<'a>,
    why: Unready,
) -> Ending<'a>
    ensures { ending_of result
        ≡ unready_ending container.now part script.now (seen_replay options.entry) (unready_of why) }
{
    match why {
        Unready::NoContainer { text } => Ending::Refused {
            file: container,
            why: Refusal::Fault { text },
        },
        Unready::NoPartition => Ending::Refused {
            file: container,
            why: Refusal::Partition { id: part },
        },
        Unready::NoScript { text } => Ending::Refused {
            file: script,
            why: Refusal::Fault { text },
        },
        Unready::OddInput { found } => Ending::Refused {
            file: file_if_any(options.input()),
            why: Refusal::Input { found },
        },
        Unready::NoUpsets { text } => Ending::Refused {
            file: file_if_any(options.upsets()),
            why: Refusal::Fault { text },
        },
        Unready::Memory => Ending::NoMemory,
    }
}

// The name of a file that may be named, where it is.
fn file_if_any(file: Option<&str>) -> &str
    ensures { result.now ≡ file_if_any (option_copied file.entry) }
{
    match file {
        Some(file) => file,
        None => "",
    }
}
