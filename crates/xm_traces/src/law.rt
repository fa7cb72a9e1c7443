//! What a ring keeps after any number of entries.

ghost use Rattle.xm_traces.specs.Ring.{FindsByNumber, KeepsLast};

/// Of entries that are noted one after another a ring keeps the last 64, and finds each by its number.
pub fn last_by_number<T>()
    // Law: of entries that are noted one after another the last 64 are kept, and each is found by its number.
    ensures law { KeepsLast T }
    ensures numbered { FindsByNumber T }
{}
