//! Rows worked by hand: what the words of the laws say of small systems and states.

ghost use Rattle.machine_laws.specs.rows.BoundRows.{BoundsAreReached};
ghost use Rattle.machine_laws.specs.rows.EqualRows.{SameForTheFirst};
ghost use Rattle.machine_laws.specs.rows.SpareRows.{NotSpared, OutsideInterrupts, ResetRows};
ghost use Rattle.machine_laws.specs.rows.TurnRows.{TurnsOfTwoPlans};

/// The words of the laws on plans, on what is spared and on what is the same.
pub fn worked_rows()
    // Row: whose slot each moment of two plans is in, gaps and a plan that is not there among them.
    ensures turns { TurnsOfTwoPlans }
    // Row: which interrupts come from outside, which orders and events are resets, and of which changes a partition is
    // not spared.
    ensures outside { OutsideInterrupts }
    ensures resets { ResetRows }
    ensures spared { NotSpared }
    // Row: a trap that cannot be delivered is three lines, and a console call prints each byte that it is given.
    ensures bounds { BoundsAreReached }
    // Row: a partition is the same in two machines whatever the other one is, but not where a tick more is done.
    ensures same { SameForTheFirst }
{}
