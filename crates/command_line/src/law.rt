//! The grammar in the words of its users.

ghost use Rattle.command_line.specs.Grammar.{CommandsAreSpelled, TicksAreDecimal};

/// What is to be typed for a number of ticks, and for each command.
pub fn grammar()
    // Law: a word says a number of ticks exactly where it is that number in decimal, and not above the limit.
    ensures ticks { TicksAreDecimal }
    // Law: words are a command exactly where they are its command line, what they name is a file, files for partitions
    // are one at most of each kind for each of the numbers up to 31, a run has one length, one file at most of upsets,
    // one saved machine at most that it goes on from, then without input words and scripts, and one file at most that
    // its machine is saved to, a replay one file of each kind at most, and both have their options in any order.
    ensures commands { CommandsAreSpelled }
{}
