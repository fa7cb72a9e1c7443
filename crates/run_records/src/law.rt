//! The laws of what is recorded of a run.

ghost use Rattle.run_records.specs.Calls.{CallsAlone, CallsInPieces, HasEachEvent, TextsAsReported};
ghost use Rattle.run_records.specs.Counts.{CountsAllTicks, CountsAlone, CountsBusyTicks, CountsEachOnce, CountsWords, RowsRise, TakesNoMore, TextsDetermineCounts, TrapsOutside};
ghost use Rattle.run_records.specs.Doing.{DoesItsWork};
ghost use Rattle.run_records.specs.OwnTicks.{FindsTicksAlone, FindsTicksInPieces};
ghost use Rattle.run_records.specs.Stops.{StopsAlone, StopsFirst, StopsInPrefix};
ghost use Rattle.run_records.specs.Tried.{IsTriedLast};
ghost use Rattle.run_records.specs.Use.{OccurrencesHaveAllTicks, OverrunsAreOccurrences, SlotTicksInPieces, SlotsHaveBusyTicks, UsesAlone};
ghost use Rattle.run_records.specs.UseText.{UseTextAlone};

use machine_model::keeps_numbers;
use upset_laws::contains_upsets;

/// A partition finds the same ticks in a run as alone. All that is recorded of it is taken from these.
pub fn finds_ticks()
    // A partition's part of a tick is the work of what it does: it rests, an interrupt is delivered to it, or it executes an
    // instruction.
    ensures doing { DoesItsWork }
    // The ticks of a run as a partition finds them, from any machine and with any upsets before each of them, are those that
    // it finds alone, under its script and with its own upsets: its state before each, and what it receives.
    ensures alone { FindsTicksAlone }
    // More ticks are the first of them, and then those after them.
    ensures pieces { FindsTicksInPieces }
{
    contains_upsets();
    keeps_numbers();
}

/// The counts of each word: how often its instruction completed, was a branch that was taken, and trapped.
pub fn counts_words()
    // A word has a row exactly where an instruction was executed there. The row has how often it completed, how often it was a
    // branch that was taken, and how often it trapped.
    ensures exact { CountsWords }
    // The rows are in rising order of address, and no two are of one address.
    ensures rising { RowsRise }
    // The rows count each instruction once: what completed and what trapped, of all rows, are as many as were executed.
    ensures once { CountsEachOnce }
    // A branch is taken no more often than it completes.
    ensures taken { TakesNoMore }
    // The ticks in which a partition does something are those in which it executes an instruction, which its rows count, and
    // those in which an interrupt is delivered to it.
    ensures busy { CountsBusyTicks }
    // The file counts each of them once: in the row of a word, outside the areas, or as an interrupt.
    ensures all { CountsAllTicks }
    // What an instruction comes to, it comes to where it is tried last: after the spill or the fill that it needed.
    ensures last { IsTriedLast }
    // An instruction outside the areas of its partition traps, as one that cannot be fetched.
    ensures outside { TrapsOutside }
    // The counts of a partition in a run, from any machine and with any upsets before each tick, are those of the partition
    // alone, under its script and with its own upsets.
    ensures alone { CountsAlone }
    // The text of the file determines the counts: no other counts have it, where addresses are words and counts have 64 bits.
    ensures text { TextsDetermineCounts }
{
    finds_ticks();
}

/// Where a run ends by a stop: before the first tick that executes at an address, or after the first that changed a byte.
pub fn stops_first()
    // A stop ends a run after the least number of ticks at which one holds: it holds there, and none holds after fewer ticks.
    // Where no stop ends it none holds before any of its ticks, nor after it.
    ensures first { StopsFirst }
    // The ticks of the run are the first ones of the run without stops, and so is what it reports.
    ensures prefix { StopsInPrefix }
    // Where all stops are of one partition, the run ends where that partition alone does, under its script and with its own
    // upsets.
    ensures alone { StopsAlone }
{
    contains_upsets();
    keeps_numbers();
}

/// The lines of a partition's calls, deliveries, traps, health events and changes of state.
pub fn lists_calls()
    // Of each tick the file has the health events and the changes of state that the report has, in their order, and no others.
    ensures events { HasEachEvent }
    // The text of a change of state is the report's, and so is that of a health event where nothing was accessed.
    ensures texts { TextsAsReported }
    // The text of a run's file, from any tick on, is that of the first ticks of the run, and then that of those after them.
    ensures pieces { CallsInPieces }
    // The lines of a partition in a run, from any machine, from any tick on and with any upsets before each tick, are those of
    // the partition alone, under its script and with its own upsets.
    ensures alone { CallsAlone }
{
    finds_ticks();
    keeps_numbers();
}

/// The figures of how slots and partitions were used.
pub fn counts_use()
    // A partition does something in its own slots alone: the ticks of its slots in which it does are as many as all in which it
    // does.
    ensures slots { SlotsHaveBusyTicks }
    // The slots' ticks of a run are those of its first ticks, and then those of the ticks after them.
    ensures pieces { SlotTicksInPieces }
    // Each tick of a slot is in one of its occurrences.
    ensures occurrences { OccurrencesHaveAllTicks }
    // No slot has more overruns than frames in which it ran.
    ensures overruns { OverrunsAreOccurrences }
    // How a partition was used in a run, from any machine and with any upsets before each tick, is how it was used alone, under
    // its script and with its own upsets.
    ensures alone { UsesAlone }
    // The file of a run has the lines of all slots, and then those of each partition, which are those of it alone.
    ensures text { UseTextAlone }
{
    finds_ticks();
}
