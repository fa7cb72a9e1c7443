//! The laws of files of upsets.

ghost use Rattle.upset_files.specs.Laws.{FaultsAreFirst, PlacesAreSpelled, PlacesAreThose, ReadUpsetsAreSpelled, UpsetsAreRead, UpsetsHaveOneSpelling, UpsetsMayStrike};

/// The places of a file are those that may be struck, each with one spelling.
pub fn places_are_spelled()
    // Law: a word is a place exactly where it is its spelling.
    ensures spelled { PlacesAreSpelled }
    // A partition may be struck at just the places and bits that fit it,
    ensures those { PlacesAreThose }
    // so each upset that fits may strike.
    ensures strike { UpsetsMayStrike }
{}

/// What is spelled is read, and what is read is spelled, in one way; and what is refused has a first line that is wrong.
pub fn upsets_are_spelled()
    // Law: the upsets of a text are read.
    ensures read { UpsetsAreRead }
    // What is read of a text are its upsets.
    ensures spelled { ReadUpsetsAreSpelled }
    // Two lists of upsets with one text are equal.
    ensures one { UpsetsHaveOneSpelling }
    // A fault is that of the first line that is wrong: all before it are spelled and fit.
    ensures first { FaultsAreFirst }
{}
