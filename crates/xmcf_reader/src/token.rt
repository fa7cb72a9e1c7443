//! The tokens that an XM_CF text is cut into.

/// A token, with the name or the text in it.
#[derive(Clone, Copy, Debug)]
pub(crate) enum Token<'a> {
    /// Blanks, as many as stand there.
    Blanks,
    /// A comment.
    Comment,
    /// The declaration at the text's first place.
    Declaration,
    /// `<` and the name of an element.
    Opening(&'a [u8]),
    /// The name of an attribute.
    Name(&'a [u8]),
    /// `=`.
    Equals,
    /// A value in its quotes.
    Value(&'a [u8]),
    /// `>`.
    TagEnd,
    /// `/>`.
    EmptyEnd,
    /// An end tag, with its name.
    EndTag(&'a [u8]),
}

/// Why no token stands at the beginning of a text.
#[derive(Clone, Copy, Debug, PartialEq, Eq)]
pub(crate) enum Stop {
    /// The spelling breaks at this byte.
    Break { at: usize },
    /// A reference stands at this byte.
    Reference { at: usize },
    /// The text ends inside the token.
    Ended,
}

/// What stands at the beginning of a text.
#[derive(Clone, Copy, Debug)]
pub(crate) enum Front<'a> {
    /// A token, and its length.
    Found(Token<'a>, usize),
    /// No token.
    Broken(Stop),
}
