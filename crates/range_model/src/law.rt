//! That the numbers in a machine stay in their ranges.

ghost use Rattle.range_model.specs.Instructions.{InstructionsKeepRanges};
ghost use Rattle.range_model.specs.Laws.{BootedScriptsAreInRange, BootsInRange, CuesAreInRange, KeepsRanges, RunsInRange, ScriptsAreInRange};

use machine_model::keeps_numbers;

/// An instruction leaves words in the registers and bytes in the memory, and a trap has a type of one byte.
pub fn instructions_keep_ranges()
    ensures law { InstructionsKeepRanges }
{}

/// In a system whose configuration meets the rules, and whose images begin at words and load bytes, the numbers of each partition and
/// of each channel are in their ranges: when the machine boots, after each tick, and so after every run.
pub fn keeps_ranges()
    // The registers of each partition are words and its memory is bytes, its table of traps ends among the addresses,
    // the status of its last reset is a word, what its trace entries hold is bytes, and so is each message in a
    // channel: when the machine boots, after each tick, and so after every run.
    ensures boots { BootsInRange }
    ensures ticks { KeepsRanges }
    ensures runs { RunsInRange }
{
    keeps_numbers();
}

/// So is what each partition receives: in each tick, and in each cue of its script of a run.
pub fn cues_are_in_range()
    // A message that a partition receives is bytes, and so is what it is shown, and the status of a reset is a word: in
    // a tick, in each cue of its script of any number of ticks, and from the boot on.
    ensures tick { CuesAreInRange }
    ensures run { ScriptsAreInRange }
    ensures booted { BootedScriptsAreInRange }
{
    keeps_numbers();
}
