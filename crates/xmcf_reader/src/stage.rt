//! Where in a tag a text is.

ghost use Rattle.std.specs.Prelude.{◌≡◌};
ghost use Rattle.xmcf_reader.specs.Draft as draft;
ghost use Rattle.xmcf_reader.specs.Faults as faults;

use crate::lexer::{is_blank, is_letter, is_quote};
use crate::table::Attribute;

/// Where in a tag a text is.
#[derive(Clone, Copy, Debug)]
pub(crate) enum Stage {
    /// Between tags.
    Between,
    /// In a start tag, right after its name or a value.
    Bare,
    /// In a start tag, after blanks: an attribute may stand.
    Spaced,
    /// After an attribute's name.
    Named(Attribute),
    /// After an attribute's `=`.
    Equaled(Attribute),
}

impl Stage {
    /// Whether it is between tags.
    pub(crate) fn is_between(self) -> bool
        ensures { result ≡ faults.is_between self }
    {
        match self {
            Stage::Between => true,
            Stage::Bare | Stage::Spaced | Stage::Named(_) | Stage::Equaled(_) => false,
        }
    }

    /// Whether an attribute may stand.
    pub(crate) fn is_spaced(self) -> bool
        ensures { result ≡ faults.is_spaced self }
    {
        match self {
            Stage::Spaced => true,
            Stage::Between | Stage::Bare | Stage::Named(_) | Stage::Equaled(_) => false,
        }
    }

    /// Whether the start tag may end.
    pub(crate) fn may_end(self) -> bool
        ensures { result ≡ faults.may_end self }
    {
        match self {
            Stage::Bare | Stage::Spaced => true,
            Stage::Between | Stage::Named(_) | Stage::Equaled(_) => false,
        }
    }

    /// Whether it is after an attribute's name.
    pub(crate) fn is_named(self) -> bool
        ensures { result ≡ faults.is_named self }
    {
        match self {
            Stage::Named(_) => true,
            Stage::Between | Stage::Bare | Stage::Spaced | Stage::Equaled(_) => false,
        }
    }

    /// Whether the byte begins an item that may stand here.
    pub(crate) fn may_begin(self, byte: u8) -> bool
        ensures { result ≡ faults.may_begin self byte }
    {
        match self {
            Stage::Between => is_blank(byte) || byte == b'<',
            Stage::Bare => is_blank(byte) || byte == b'>' || byte == b'/',
            Stage::Spaced => is_letter(byte) || byte == b'>' || byte == b'/',
            Stage::Named(_) => is_blank(byte) || byte == b'=',
            Stage::Equaled(_) => is_blank(byte) || is_quote(byte),
        }
    }

    /// The stage after blanks.
    pub(crate) fn spaced(self) -> Stage
        ensures { result ≡ draft.blank_passed self }
    {
        match self {
            Stage::Bare => Stage::Spaced,
            Stage::Between | Stage::Spaced | Stage::Named(_) | Stage::Equaled(_) => self,
        }
    }

    /// The stage after a `=`.
    pub(crate) fn equaled(self) -> Stage
        ensures { result ≡ draft.equaled self }
    {
        match self {
            Stage::Named(attribute) => Stage::Equaled(attribute),
            Stage::Between | Stage::Bare | Stage::Spaced | Stage::Equaled(_) => self,
        }
    }
}
