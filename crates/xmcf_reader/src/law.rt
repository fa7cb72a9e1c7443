//! What the tokens of a text are, and what its draft keeps.

ghost use Rattle.xmcf_reader.specs.Laws.{FaultlessIsDraft, FaultlessIsOfTags};
ghost use Rattle.xmcf_reader.specs.Spelling.{SpelledIsTaken, TextIsCut};

/// A text is its tokens, as they are spelled, and then the rest that begins no token.
pub fn spelled()
    ensures { TextIsCut }
{}

/// What is spelled as a token, with a byte after it that ends it, is the token that is found.
pub fn taken()
    ensures { SpelledIsTaken }
{}

/// What a text without a fault gives is a draft: each start tag gives its entry, after its parent, and each entry has the
/// children that the table allows and demands.
pub fn drafted()
    // Law: the draft of a text without a fault is one.
    ensures { FaultlessIsDraft }
{}

/// The entries of a text without a fault are those of its start tags, one each and in their order: the place, the element and
/// the values of the tag, below the innermost element that is open there, which is found by counting where elements begin and
/// end.
pub fn nested()
    // Law: the entries of a text without a fault are those of its start tags, each with the place and the values of its
    // tag; the parent is found by counting tags, without a stack.
    ensures { FaultlessIsOfTags }
{}
