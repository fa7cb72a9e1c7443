//! Rows worked by hand: bits that flip, the tick before which they do, and what is reported of them.

ghost use Rattle.upset_model.specs.rows.PlaceRows.{EdgeRows, GlobalRows, MemoryRows, RegisterRows, TimerRows, TrapRows, WindowRows};
ghost use Rattle.upset_model.specs.rows.ReportRows.{ReportRows};
ghost use Rattle.upset_model.specs.rows.StrikeRows.{ReadyRows, RunRows, ScheduleRows};

/// The first and the last bit of each place.
pub fn flips_at_edges()
    // The global registers 1 and 7.
    ensures globals { GlobalRows }
    // The registers 0 and 127 of the windows.
    ensures windows { WindowRows }
    // The program counters, Y and the condition codes.
    ensures registers { RegisterRows }
    // The deadlines of the two timers, one that becomes 0 and one of a timer that is not armed.
    ensures timers { TimerRows }
    // The base of the table of traps, and the masked and the pending interrupts.
    ensures traps { TrapRows }
    // A byte of memory.
    ensures memory { MemoryRows }
    // The bits beside them are no places.
    ensures edges { EdgeRows }
{}

/// Upsets strike before the tick of their line.
pub fn strikes_before_its_tick()
    // Of three lines, two strike before tick 3, in their order, and one before tick 7.
    ensures schedule { ScheduleRows }
    // The upsets of tick 0 strike before the first tick, and those of tick 1 after it.
    ensures runs { RunRows }
    // Of three partitions the one of a line is struck, and no other; a machine that has halted is not struck.
    ensures ready { ReadyRows }
{}

/// A run reports each upset that strikes.
pub fn reports_what_strikes()
    // The line of an upset stands before the lines of its tick, and after those of the ticks before. An upset of a
    // machine that has halted has no line.
    ensures reports { ReportRows }
{}
