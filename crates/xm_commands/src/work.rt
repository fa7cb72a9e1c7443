//! What the words say is done.

ghost use Rattle.std.specs.Prelude.{Some};
ghost use Rattle.run_commands.specs.Accounts.{HasAccount};
ghost use Rattle.file_commands.specs.EndingValues.{ending_of};
ghost use Rattle.xm_commands.specs.lemmas.Ticks.{BeginsOnce, HasTicks};
ghost use Rattle.file_commands.specs.Work.{outside};
ghost use Rattle.run_commands.specs.Numbers.{HasScripts};
ghost use Rattle.run_commands.specs.lemmas.NumbersTerms.{WordsReceive, WordsStore};
ghost use Rattle.command_line.specs.Seen.{command_seen};
ghost use Rattle.command_line.specs.Words.{command_of};

use crate::generating::generate;
use crate::replaying::replay_container;
use builders::MadeFile::{self, Configuration, Upgraded};
use builders::Printout::{self, Container, Groups, Plan, Steering, Verdict, Verdicts};
use command_line::Command::{
    Bare, BuildImage, CheckContainer, CheckPlan, Generate, ListContainer, ListGroups, ListSteerers,
    MakePlan, Pack, Parse, ReadImage, Replay, Run, Upgrade,
};
use command_line::{Command, Words, command, grammar};
use file_commands::Conversion::{File, Report};
use file_commands::{Ending, convert, pack_files};
use run_commands::{run_container, run_file};
use std::alloc::Global;
use uart_board::{Board, ViewBoard};
use xm_base::proof;
use xm_outside::{Sink, Store};

/// Does what the words say. The answer is how that ended.
pub(crate) fn work<'a, S: Store, O: Sink>(
    alloc: Global,
    words: &'a Words,
    files: &mut S,
    out: &mut O,
    board: &mut Board,
) -> Ending<'a>
    ensures accounted { HasAccount (ending_of result) (command_of words.now)
        (outside (S.files files.old) (S.read_faults files.old) (S.write_faults files.old) (S.calls files.old)
        (O.got out.old) (O.faults out.old))
        (outside (S.files files.new) (S.read_faults files.new) (S.write_faults files.new) (S.calls files.new)
        (O.got out.new) (O.faults out.new))
        (⟦<Board as ViewBoard>⟧.board_view board.old) (⟦<Board as ViewBoard>⟧.board_view board.new) }
    ensures numbers { HasScripts (ending_of result) → WordsReceive (command_of words.now) (S.files files.old) }
    ensures stored { HasScripts (ending_of result) → WordsStore (command_of words.now) (S.files files.old) }
{
    proof! { grammar(); }
    match command(words) {
        None => Ending::Usage,
        Some(command) => do_command(alloc, command, files, out, board),
    }
}

// Carries out a command.
fn do_command<'a, S: Store, O: Sink>(
    alloc: Global,
    command: Command<'a>,
    files: &mut S,
    out: &mut O,
    board: &mut Board,
) -> Ending<'a>
    requires ticks { HasTicks command }
    requires begun { BeginsOnce command }
    ensures accounted { HasAccount (ending_of result) (command_seen (Some command.entry))
        (outside (S.files files.old) (S.read_faults files.old) (S.write_faults files.old) (S.calls files.old)
        (O.got out.old) (O.faults out.old))
        (outside (S.files files.new) (S.read_faults files.new) (S.write_faults files.new) (S.calls files.new)
        (O.got out.new) (O.faults out.new))
        (⟦<Board as ViewBoard>⟧.board_view board.old) (⟦<Board as ViewBoard>⟧.board_view board.new) }
    ensures numbers { HasScripts (ending_of result)
        → WordsReceive (command_seen (Some command.entry)) (S.files files.old) }
    ensures stored { HasScripts (ending_of result)
        → WordsStore (command_seen (Some command.entry)) (S.files files.old) }
{
    match command {
        Bare { image, ticks } => run_file(alloc, image, ticks, files, out, board),
        Parse {
            description,
            output,
        } => convert(alloc, File(Configuration, output), description, files, out),
        Upgrade {
            configuration,
            output,
        } => convert(alloc, File(Upgraded, output), configuration, files, out),
        BuildImage { program, output } => convert(
            alloc,
            File(MadeFile::Image, output),
            program,
            files,
            out,
        ),
        ReadImage { image } => convert(alloc, Report(Printout::Image), image, files, out),
        Pack {
            configuration,
            output,
            images,
        } => pack_files(alloc, configuration, output, images, files, out),
        ListContainer { container } => convert(alloc, Report(Container), container, files, out),
        CheckContainer { container } => convert(alloc, Report(Verdict), container, files, out),
        MakePlan { description } => convert(alloc, Report(Plan), description, files, out),
        CheckPlan { description } => convert(alloc, Report(Verdicts), description, files, out),
        ListGroups { description } => convert(alloc, Report(Groups), description, files, out),
        ListSteerers { description } => convert(alloc, Report(Steering), description, files, out),
        Generate { number } => generate(alloc, number, out),
        Run { container, options } => {
            run_container(alloc, container, options, files, out, board)
        }
        Replay {
            container,
            part,
            script,
            options,
        } => replay_container(alloc, container, part, script, options, files, out, board),
    }
}
