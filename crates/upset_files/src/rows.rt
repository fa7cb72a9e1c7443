//! Rows worked by hand: places, bits and lines.

ghost use Rattle.upset_files.specs.rows.LineRows.{FirstFaults, LaterLines, MalformedLines, ManyLines, ReadLines, UnfitLines};
ghost use Rattle.upset_files.specs.rows.PlaceRows.{BitEdges, OtherWords, SpelledPlaces};

/// The first and the last place of each kind.
pub fn places_at_edges()
    // Each is read from its spelling.
    ensures spelled { SpelledPlaces }
    // What stands beside them is no place.
    ensures other { OtherWords }
{}

/// The first and the last bit of each place.
pub fn bits_at_edges()
    // Each is there, and those beside them are not.
    ensures { BitEdges }
{}

/// Lines that are read, and lines that are not.
pub fn lines_at_edges()
    // Lines with rising ticks, of which two are equal.
    ensures read { ReadLines }
    // A field is malformed or missing.
    ensures malformed { MalformedLines }
    // What a line names does not exist, its tick is before that of the line above, or the run ends before it.
    ensures unfit { UnfitLines }
    // Of two faults the first is the text's.
    ensures first { FirstFaults }
    // A run from tick 3 on: lines at its first tick, one before it, and a second line before the first.
    ensures later { LaterLines }
    // More lines than there may be.
    ensures many { ManyLines }
{}
