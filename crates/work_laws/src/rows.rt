//! Rows worked by hand: what the words of the laws say of small systems and states.

ghost use Rattle.work_laws.specs.rows.WorkRows.{CountedChanges, LabelsAlone, OwnersOfSlots};

/// The words of the laws on labels, on changes and on the order of lines.
pub fn worked_rows()
    // Row: which fields are labels, and which are not.
    ensures labels { LabelsAlone }
    // Row: how many bytes are the most, and that a byte more in a memory is one change.
    ensures changes { CountedChanges }
    // Row: whose slot a tick is in.
    ensures owners { OwnersOfSlots }
{}
