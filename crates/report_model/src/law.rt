//! The law that a text is of one list of lines alone.

ghost use Rattle.report_model.specs.Texts.{LinesAreDetermined, TextsDetermineLines};

/// A text is that of one list of lines alone, and its beginning that of one line alone, where the numbers of the lines are in their ranges.
pub fn texts_determine_lines()
    // Law: bytes that begin with the text of a line begin with that of no other, and what stands after it is the same:
    // so its tick, its partition and its kind can be read back, and where it ends.
    ensures line { LinesAreDetermined }
    // Law: the text of lines is that of no other lines.
    ensures lines { TextsDetermineLines }
{}
