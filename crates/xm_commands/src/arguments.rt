//! The arguments of a process, and the command line that they hold.

ghost use Rattle.std.specs.Prelude.{◌≡◌, IfOk};
ghost use Rattle.xm_commands.specs.Arguments.{after_name};
ghost use Rattle.xm_commands.specs.Called.{IsCall};
ghost use Rattle.command_line.specs.Texts.{texts_of};

use crate::top::xm_main;
use crate::world::Surroundings;
use command_line::Words;
use file_commands::Status;
use std::alloc::Global;
use uart_board::Board;
use xm_base::Memory;
use xm_outside::{Sink, Store};

/// The words of the command line: all arguments but the first, which is the program's name.
pub fn words_after_name(alloc: Global, given: &[String]) -> Result<Words, Memory>
    // The words are exactly the arguments after the first, in their order.
    ensures words { IfOk result (λ words. words ≡ after_name given.now) }
{
    match given.split_first() {
        Some((_name, rest)) => words_of(alloc, rest),
        None => Ok(Words::new(alloc)),
    }
}

// A word for each text, in their order.
fn words_of(alloc: Global, texts: &[String]) -> Result<Words, Memory>
    ensures words { IfOk result (λ words. words ≡ texts_of texts.now) }
{
    let mut words = Words::new(alloc);
    for text in texts {
        words.push(text.as_str())?;
    }
    Ok(words)
}

/// Does what the arguments after the program's name say. Out of memory for the words themselves is reported by
/// the status alone.
pub fn carry_out<S: Store, O: Sink, E: Sink>(
    alloc: Global,
    given: &[String],
    files: &mut S,
    out: &mut O,
    err: &mut E,
    board: &mut Board,
) -> Status
    // Whatever happens, the status answers the words after the first argument as `xm_main` answers its words; or the
    // call ran out of memory for the words, the status is NoMemory, and the world is as before.
    ensures call { IsCall result (after_name given.now)
        (⟦<(S, O, E, Board) as Surroundings>⟧.world (files.old, out.old, err.old, board.old))
        (⟦<(S, O, E, Board) as Surroundings>⟧.world (files.new, out.new, err.new, board.new)) }
    // After Done the error output is as before.
    ensures silent { result ≡ Status.Done → err.new ≡ err.old }
{
    let Ok(words) = words_after_name(alloc, given) else {
        return Status::NoMemory;
    };
    follow(alloc, &words, given, files, out, err, board)
}

// For the proof: by its `requires` it is stated for a board of any UARTs. Without one it would be stated only for UARTs that are
// known where `xm_main` is, and so would its callers. It does what the words say, which are those after the program's name.
fn follow<S: Store, O: Sink, E: Sink>(
    alloc: Global,
    words: &Words,
    given: &[String],
    files: &mut S,
    out: &mut O,
    err: &mut E,
    board: &mut Board,
) -> Status
    requires words { words.now ≡ after_name given.now }
    ensures call { IsCall result (after_name given.now)
        (⟦<(S, O, E, Board) as Surroundings>⟧.world (files.old, out.old, err.old, board.old))
        (⟦<(S, O, E, Board) as Surroundings>⟧.world (files.new, out.new, err.new, board.new)) }
    ensures silent { result ≡ Status.Done → err.new ≡ err.old }
{
    xm_main(alloc, words, files, out, err, board)
}
