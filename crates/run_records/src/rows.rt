//! Rows worked by hand: what is counted, listed and figured of small cases.

ghost use Rattle.run_records.specs.rows.RecordRows.{AccessedRows, CountRows, DoingRows, LineRows, StopRows, TakenRows, UseRows, UseTextRows};

/// What is recorded of small cases.
pub fn records_small_cases()
    // What a partition does: it rests, takes an interrupt, or executes an instruction.
    ensures doing { DoingRows }
    // Which branches are taken.
    ensures taken { TakenRows }
    // The rows of a loop of two words and of a word that traps, and the text of a file.
    ensures counts { CountRows }
    // A stop before a tick, one after it, and none.
    ensures stops { StopRows }
    // The text of each kind of line.
    ensures lines { LineRows }
    // The address of a trap's health event, and that of a delivery that failed.
    ensures accessed { AccessedRows }
    // Three frames of a slot: finished, overrun, and cut by the end of the run.
    ensures used { UseRows }
    // The text of a slot that ran twice, and of a partition with an interrupt that waits and two refused calls.
    ensures text { UseTextRows }
{}
