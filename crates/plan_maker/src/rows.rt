//! Requirements worked by hand.

ghost use Rattle.plan_maker.specs.rows.Rows.{AreWorked};

/// The plans that are made from a few small requirements, and why none is made from others.
pub fn worked_rows()
    // Requirements worked by hand, and the plans that are made from them.
    ensures rows { AreWorked }
{}
