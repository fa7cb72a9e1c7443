//! Rows worked by hand: which partitions may steer others.

ghost use Rattle.flow_laws.specs.rows.SteererRows.{WhoMaySteer};

/// Which partitions may steer others.
pub fn worked_rows()
    // Row: a system partition may steer, and one whose health table has an action on all; one whose actions are on
    // itself alone may not.
    ensures steerers { WhoMaySteer }
{}
