//! The law of the lines of steering.

ghost use Rattle.builders.specs.Steering.{ShowsSteerers};

/// A partition has a line of steering exactly where it may steer others.
pub fn shows_steerers()
    // Law: a partition of a system has a line of steering exactly where it may steer others: where it has the system
    // flag, or its health table has an action on the hypervisor or on the plan.
    ensures law { ShowsSteerers }
{}
