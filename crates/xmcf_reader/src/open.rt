//! An element whose end is to come.

ghost use Rattle.std.specs.Prelude.{◌≡◌, ◌∷◌, [], ◌++◌};
ghost use Rattle.std.specs.List.{find};
ghost use Rattle.xmcf_reader.specs.Draft as draft;
ghost use Rattle.xmcf_reader.specs.lemmas.FaultsTerms.{DoesUnlessMemory};
ghost use Rattle.xmcf_reader.specs.Table.{attributes, allowed_children};
ghost use Rattle.xmcf_reader.specs.lemmas.Seen.{pairs_of};
ghost use Rattle.xmcf_reader.specs.Words.{word_text};
ghost use Rattle.std.specs.Str.{bytes_eq};

use crate::elements::{Pair, text_at};
use crate::fault::ReadFault;
use crate::table::{Attribute, Child, Often, attributes, children};
use crate::word::Word;
use std::alloc::Global;
use std::marker::Model;

impl Often {
    /// Whether the child may stand again.
    fn is_many(self) -> bool
        ensures { result ≡ draft.is_many self }
    {
        match self {
            Often::One | Often::Maybe => false,
            Often::Some | Often::Any => true,
        }
    }

    /// Whether the child has to stand.
    fn is_needed(self) -> bool
        ensures { result ≡ draft.is_needed self }
    {
        match self {
            Often::One | Often::Some => true,
            Often::Maybe | Often::Any => false,
        }
    }
}

/// Whether a word is among words.
#[tactic(auto, unfolding(crate::specs::Draft::is_among))]
fn is_among(word: Word, words: &[Word]) -> bool
    ensures { result ≡ draft.is_among word words.now }
{
    words.iter().any(|other| other.is(word))
}

/// The child of that name in the table.
#[tactic(auto, unfolding(crate::specs::Draft::child_named))]
fn child_named(word: Word, element: Word) -> Option<Child>
    ensures { result ≡ draft.child_named word element }
{
    children(element)
        .iter()
        .copied()
        .find(|child| child.word.is(word))
}

/// Whether the table demands a child that does not stand.
fn lacks_child(noted: &[Word], child: Child) -> bool
    ensures { result ≡ draft.lacks_child noted.now child }
{
    child.often.is_needed() && !is_among(child.word, noted)
}

/// The first child that the table demands and that does not stand.
pub(crate) fn missing_child(word: Word, noted: &[Word]) -> Option<Child>
    ensures { result ≡ find (draft.lacks_child noted.now) (allowed_children word) }
{
    children(word)
        .iter()
        .copied()
        .find(|child| lacks_child(noted, *child))
}

/// Whether the table demands an attribute that does not stand.
fn lacks_attribute(given: &[Pair<'_>], attribute: Attribute) -> bool
    ensures { result ≡ draft.lacks_attribute (pairs_of given.now) attribute }
{
    attribute.needed && text_at(attribute.word, given).is_none()
}

/// The first attribute that the table demands and that does not stand.
pub(crate) fn missing_attribute(word: Word, given: &[Pair<'_>]) -> Option<Attribute>
    ensures { result ≡ find (draft.lacks_attribute (pairs_of given.now)) (attributes word) }
{
    attributes(word)
        .iter()
        .copied()
        .find(|attribute| lacks_attribute(given, *attribute))
}

/// Whether the attribute's name is so spelled.
fn is_spelled(attribute: Attribute, name: &[u8]) -> bool
    ensures { result ≡ bytes_eq (word_text attribute.word) name.now }
{
    attribute.word.is_spelled(name)
}

/// The attribute of an element that bytes name.
#[tactic(auto, unfolding(crate::specs::Draft::attribute_named))]
pub(crate) fn attribute_named(name: &[u8], element: Word) -> Option<Attribute>
    ensures { result ≡ draft.attribute_named name.now element }
{
    attributes(element)
        .iter()
        .copied()
        .find(|attribute| is_spelled(*attribute, name))
}

/// An element whose end is to come: its number in the draft, and its children so far.
#[derive(Debug, Drop)]
pub(crate) struct Open {
    word: Word,
    number: u32,
    children: Vec<Word>,
}

impl Model for Open {
    ghost Value = { Rattle.xmcf_reader.specs.Draft.Open };

    ghost view = { λ inner. record { word = inner.word; number = inner.number; children = inner.children.items } };
}

impl Open {
    /// An element without children.
    pub(crate) fn new(alloc: Global, word: Word, number: u32) -> Open
        ensures { result ≡ record { word = word; number = number; children = [] } }
    {
        Open {
            word,
            number,
            children: Vec::new(alloc),
        }
    }

    /// The element's name.
    pub(crate) fn word(&self) -> Word
        ensures { result ≡ self.now.word }
    {
        self.word
    }

    /// The element's number.
    pub(crate) fn number(&self) -> u32
        ensures { result ≡ self.now.number }
    {
        self.number
    }

    /// The children so far.
    pub(crate) fn children(&self) -> &[Word]
        ensures { result.now ≡ self.now.children }
    {
        self.children.as_slice()
    }

    /// Whether an element may stand as the next child.
    #[tactic(auto, unfolding(crate::specs::Draft::may_be_child))]
    pub(crate) fn may_have(&self, word: Word) -> bool
        ensures { result ≡ draft.may_be_child word self.now }
    {
        match child_named(word, self.word) {
            None => false,
            Some(child) => child.often.is_many() || !is_among(word, self.children.as_slice()),
        }
    }

    /// One more child.
    pub(crate) fn note(&mut self, word: Word) -> Result<(), ReadFault>
        ensures { DoesUnlessMemory result (record self.old { children = self.old.children ++ word ∷ [] }) self.new }
    {
        self.children.push(word)?;
        Ok(())
    }
}
