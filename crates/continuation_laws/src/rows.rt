//! Rows worked by hand: what the words of the laws say of a small system.

ghost use Rattle.continuation_laws.specs.rows.GivenRows.{OneIsLeft, SplitAtTick, StrikesAtItsTick};
ghost use Rattle.continuation_laws.specs.rows.OnwardRows.{GoesOnAtItsTick};

/// The words of the laws on input words, on upsets of a continuation and on runs from any machine.
pub fn worked_rows()
    // Row: of two words that a partition was given it has read one; the machine with the other one alone is as before but
    // for the words of its system, which a boot reads.
    ensures left { OneIsLeft }
    // Row: of three upsets a continuation after two ticks meets the second before its first tick, and the third before
    // its second.
    ensures upsets { StrikesAtItsTick }
    // Row: of these upsets the first is before tick 2, and the others are of it or after it.
    ensures split { SplitAtTick }
    // Row: a machine that has done two ticks goes on for five, with these upsets: the second one strikes before its first
    // tick, and the first line of its report has seven ticks. Where the machine has halted nothing strikes it, and the
    // report has a first line and an end.
    ensures onward { GoesOnAtItsTick }
{}
