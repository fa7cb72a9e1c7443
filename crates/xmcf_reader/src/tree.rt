//! The tree of the tokens, and what they break.

ghost use Rattle.std.specs.Prelude.{◌≡◌, ◌+◌, ◌<◌, ◌^◌, [], ◌&&◌, not, length, Some};
ghost use Rattle.xmcf_reader.specs.Draft as draft;
ghost use Rattle.xmcf_reader.specs.Elements as elements;
ghost use Rattle.xmcf_reader.specs.Faults as faults;
ghost use Rattle.xmcf_reader.specs.lemmas.FaultsTerms as faults_lemmas;
ghost use Rattle.xmcf_reader.specs.lemmas.FaultsTerms.{AnswersFirst, Checks, DoesUnlessMemory};
ghost use Rattle.xmcf_reader.specs.Faults.{when};
ghost use Rattle.xmcf_reader.specs.lemmas.Seen.{pairs_of, token_of};
ghost use Rattle.xmcf_reader.specs.Tokens as tokens;
ghost use Rattle.xmcf_reader.specs.lemmas.Trees.{context_of};
ghost use Rattle.xmcf_reader.specs.Words.{element_named};
ghost use Rattle.xmcf_reader.specs.declared.fault.ReadFault.TheVariants as fault;

use crate::draft::{Entry, push_entry};
use crate::elements::{Pair, built, text_at};
use crate::fault::ReadFault;
use crate::open::{Open, attribute_named, missing_attribute, missing_child};
use crate::stage::Stage;
use crate::table::{Attribute, Child};
use crate::token::Token;
use crate::values::has_form;
use crate::word::Word;
use std::alloc::Global;

/// A start tag: the place of its `<`, its element, and the attributes that stand in it so far.
#[derive(Debug, Drop)]
pub(crate) struct Tag<'a> {
    at: usize,
    word: Word,
    given: Vec<Pair<'a>>,
}

/// What the tokens so far give.
#[derive(Debug, Drop)]
pub(crate) struct Tree<'a> {
    alloc: Global,
    entries: Vec<Entry>,
    current: Option<Open>,
    outer: Vec<Open>,
    stage: Stage,
    tag: Tag<'a>,
}

/// An item that stands here or not.
fn placed(stands: bool, at: usize) -> Result<(), ReadFault>
    ensures { Checks result (when (not stands) (fault.BadItem at)) }
{
    if stands {
        Ok(())
    } else {
        Err(ReadFault::BadItem { at })
    }
}

/// The fault of an attribute that is missing.
fn lacks_attribute(attribute: Attribute, at: usize) -> ReadFault
    ensures { result ≡ fault.MissingAttribute at attribute.word }
{
    ReadFault::MissingAttribute {
        at,
        which: attribute.word,
    }
}

/// The fault of a child that is missing.
fn lacks_child(child: Child, at: usize) -> ReadFault
    ensures { result ≡ fault.MissingChild at child.word }
{
    ReadFault::MissingChild {
        at,
        which: child.word,
    }
}

/// No attribute is missing.
#[tactic(auto, unfolding(crate::specs::Faults::missing_attributes), using(crate::specs::lemmas::FaultsLemmas::none_passes, crate::specs::lemmas::FaultsLemmas::first_passes))]
fn attributes_stand(word: Word, given: &[Pair<'_>], at: usize) -> Result<(), ReadFault>
    ensures { Checks result (faults.missing_attributes word (pairs_of given.now) at) }
{
    match missing_attribute(word, given) {
        Some(attribute) => Err(lacks_attribute(attribute, at)),
        None => Ok(()),
    }
}

/// No child is missing.
#[tactic(auto, unfolding(crate::specs::Faults::missing_children), using(crate::specs::lemmas::FaultsLemmas::none_passes, crate::specs::lemmas::FaultsLemmas::first_passes))]
fn children_stand(word: Word, noted: &[Word], at: usize) -> Result<(), ReadFault>
    ensures { Checks result (faults.missing_children word noted.now at) }
{
    match missing_child(word, noted) {
        Some(child) => Err(lacks_child(child, at)),
        None => Ok(()),
    }
}

impl<'a> Tree<'a> {
    /// Before the first token.
    pub(crate) fn new(alloc: Global) -> Tree<'a>
        ensures { context_of result ≡ draft.empty_draft }
    {
        Tree {
            alloc,
            entries: Vec::new(alloc),
            current: None,
            outer: Vec::new(alloc),
            stage: Stage::Between,
            tag: Tag {
                at: 0,
                word: Word::SystemDescription,
                given: Vec::new(alloc),
            },
        }
    }

    /// The entries.
    pub(crate) fn into_entries(self) -> Vec<Entry>
        ensures { result.items ≡ (context_of self.entry).entries }
    {
        self.entries
    }

    /// Whether the root has ended.
    fn is_done(&self) -> bool
        ensures { result ≡ faults.is_done (context_of self.now).open_elements (context_of self.now).entries }
    {
        match &self.current {
            None => !self.entries.is_empty(),
            Some(_) => false,
        }
    }

    /// Whether an element may stand here.
    fn may_stand(&self, word: Word) -> bool
        ensures { result ≡ draft.may_stand word (context_of self.now).open_elements }
    {
        match &self.current {
            None => word.is(Word::SystemDescription),
            Some(parent) => parent.may_have(word),
        }
    }

    /// The number of the innermost open element.
    fn parent_number(&self) -> u32
        ensures { result ≡ draft.parent_number (context_of self.now).open_elements }
    {
        match &self.current {
            None => 0,
            Some(parent) => parent.number(),
        }
    }

    /// What an element that begins here breaks.
    fn check_element(&self, name: &[u8], at: usize) -> Result<(), ReadFault>
        ensures { Checks result (faults.element_faults (element_named name.now) (context_of self.now).open_elements at) }
    {
        match Word::element(name) {
            None => Err(ReadFault::UnknownElement { at }),
            Some(word) if self.may_stand(word) => Ok(()),
            Some(_) => Err(ReadFault::WrongChild { at }),
        }
    }

    /// What an opening breaks.
    fn check_opening(&self, name: &[u8], at: usize) -> Result<(), ReadFault>
        ensures { Checks result (faults.faults_of (context_of self.now) (tokens.Opening name.now) at) }
    {
        placed(self.stage.is_between() && !self.is_done(), at)?;
        self.check_element(name, at)
    }

    /// What an attribute that begins here breaks.
    fn check_attribute(&self, name: &[u8], at: usize) -> Result<(), ReadFault>
        ensures { Checks result (faults.attribute_faults (draft.attribute_named name.now (context_of self.now).tag.word) (context_of self.now).tag at) }
    {
        match attribute_named(name, self.tag.word) {
            None => Err(ReadFault::UnknownAttribute { at }),
            Some(attribute) => match text_at(attribute.word, self.tag.given.as_slice()) {
                None => Ok(()),
                Some(_) => Err(ReadFault::RepeatedAttribute { at }),
            },
        }
    }

    /// What an attribute's name breaks.
    fn check_name(&self, name: &[u8], at: usize) -> Result<(), ReadFault>
        ensures { Checks result (faults.faults_of (context_of self.now) (tokens.Name name.now) at) }
    {
        placed(self.stage.is_spaced(), at)?;
        self.check_attribute(name, at)
    }

    /// What a value breaks.
    fn check_value(&self, text: &[u8], at: usize) -> Result<(), ReadFault>
        requires { at + 1 < 2 ^ 64 }
        ensures { Checks result (faults.value_faults (context_of self.now).stage text.now at) }
    {
        match self.stage {
            Stage::Between | Stage::Bare | Stage::Spaced | Stage::Named(_) => {
                Err(ReadFault::BadItem { at })
            }
            Stage::Equaled(attribute) if has_form(attribute.form, text) => Ok(()),
            Stage::Equaled(_) => Err(ReadFault::BadValue { at: at + 1 }),
        }
    }

    /// What the end of a start tag breaks.
    fn check_tag_end(&self, at: usize) -> Result<(), ReadFault>
        ensures { Checks result (faults.faults_of (context_of self.now) tokens.TagEnd at) }
    {
        placed(self.stage.may_end(), at)?;
        attributes_stand(self.tag.word, self.tag.given.as_slice(), at)
    }

    /// What the end of an empty tag breaks.
    fn check_empty_end(&self, at: usize) -> Result<(), ReadFault>
        ensures { Checks result (faults.faults_of (context_of self.now) tokens.EmptyEnd at) }
    {
        self.check_tag_end(at)?;
        children_stand(self.tag.word, &[], at)
    }

    /// Whether an end tag's name is that of the innermost open element.
    fn closes(&self, name: &[u8]) -> bool
        ensures { result ≡ faults.closes name.now (context_of self.now).open_elements }
    {
        match &self.current {
            None => false,
            Some(inner) => inner.word().is_spelled(name),
        }
    }

    /// No child of the innermost open element is missing.
    fn check_children(&self, at: usize) -> Result<(), ReadFault>
        ensures { Checks result (faults.missing_of (context_of self.now).open_elements at) }
    {
        match &self.current {
            None => Ok(()),
            Some(inner) => children_stand(inner.word(), inner.children(), at),
        }
    }

    /// What an end tag breaks.
    fn check_end_tag(&self, name: &[u8], at: usize) -> Result<(), ReadFault>
        ensures { Checks result (faults.faults_of (context_of self.now) (tokens.EndTag name.now) at) }
    {
        placed(self.stage.is_between() && self.closes(name), at)?;
        self.check_children(at)
    }

    /// What a token breaks.
    fn check(&self, token: Token<'_>, at: usize) -> Result<(), ReadFault>
        requires { at + 1 < 2 ^ 64 }
        ensures { Checks result (faults.faults_of (context_of self.now) (token_of token.entry) at) }
    {
        match token {
            Token::Blanks => Ok(()),
            Token::Comment | Token::Declaration => placed(self.stage.is_between(), at),
            Token::Opening(name) => self.check_opening(name, at),
            Token::Name(name) => self.check_name(name, at),
            Token::Equals => placed(self.stage.is_named(), at),
            Token::Value(text) => self.check_value(text, at),
            Token::TagEnd => self.check_tag_end(at),
            Token::EmptyEnd => self.check_empty_end(at),
            Token::EndTag(name) => self.check_end_tag(name, at),
        }
    }

    /// A start tag begins.
    fn begin(&mut self, element: Option<Word>, at: usize)
        ensures { context_of self.new ≡ draft.tag_begun element at (context_of self.old) }
    {
        if let Some(word) = element {
            self.stage = Stage::Bare;
            self.tag.at = at;
            self.tag.word = word;
            self.tag.given.clear();
        }
    }

    /// An attribute's name stands.
    fn name(&mut self, attribute: Option<Attribute>)
        ensures { context_of self.new ≡ draft.named_as attribute (context_of self.old) }
    {
        if let Some(attribute) = attribute {
            self.stage = Stage::Named(attribute);
        }
    }

    /// A value stands.
    fn value(&mut self, text: &'a [u8]) -> Result<(), ReadFault>
        ensures { DoesUnlessMemory result (draft.valued (context_of self.old).stage text.now (context_of self.old)) (context_of self.new) }
    {
        if let Stage::Equaled(attribute) = self.stage {
            self.tag.given.push(Pair {
                word: attribute.word,
                text,
            })?;
            self.stage = Stage::Bare;
        }
        Ok(())
    }

    /// The element of the start tag is a child of the innermost open element.
    fn note(&mut self) -> Result<(), ReadFault>
        ensures { DoesUnlessMemory result (record (context_of self.old) { open_elements = draft.child_noted (context_of self.old).tag.word (context_of self.old).open_elements }) (context_of self.new) }
    {
        match &mut self.current {
            None => Ok(()),
            Some(parent) => parent.note(self.tag.word),
        }
    }

    /// The element of the start tag is an entry.
    fn enter(&mut self) -> Result<(), ReadFault>
        ensures { DoesUnlessMemory result (record (context_of self.old) { entries = draft.entry_added (elements.built (context_of self.old).tag.word (context_of self.old).tag.given) (context_of self.old) }) (context_of self.new) }
    {
        let parent = self.parent_number();
        match built(self.tag.word, self.tag.given.as_slice()) {
            None => Ok(()),
            Some(what) => push_entry(&mut self.entries, self.tag.at, parent, what),
        }
    }

    /// A start tag ends.
    #[tactic(auto, unfolding(crate::specs::Draft::tag_ended))]
    fn end_tag(&mut self) -> Result<(), ReadFault>
        ensures { DoesUnlessMemory result (draft.tag_ended (context_of self.old)) (context_of self.new) }
    {
        self.enter()?;
        self.note()?;
        self.stage = Stage::Between;
        Ok(())
    }

    /// The element of the tag is open.
    fn descend(&mut self, number: u32) -> Result<(), ReadFault>
        ensures { DoesUnlessMemory result (draft.opened number (context_of self.old)) (context_of self.new) }
    {
        let inner = Open::new(self.alloc, self.tag.word, number);
        match self.current.take() {
            None => self.outer.clear(),
            Some(parent) => self.outer.push(parent)?,
        }
        self.current = Some(inner);
        Ok(())
    }

    /// A start tag ends, and its element is open.
    fn open(&mut self) -> Result<(), ReadFault>
        requires { length (context_of self.old).entries < 2 ^ 32 }
        ensures { DoesUnlessMemory result (draft.opened (length (context_of self.old).entries) (draft.tag_ended (context_of self.old))) (context_of self.new) }
    {
        let number = self.entries.len() as u32;
        self.end_tag()?;
        self.descend(number)
    }

    /// The innermost open element ends.
    fn close(&mut self)
        ensures { context_of self.new ≡ record (context_of self.old) { open_elements = draft.outer_of (context_of self.old).open_elements } }
    {
        if self.current.is_some() {
            self.current = self.outer.pop();
        }
    }

    /// What one more token gives.
    fn go_on(&mut self, token: Token<'a>, at: usize) -> Result<(), ReadFault>
        requires { length (context_of self.old).entries < 2 ^ 32 }
        ensures { DoesUnlessMemory result (draft.after_token (context_of self.old) (token_of token.entry) at) (context_of self.new) }
    {
        match token {
            Token::Blanks => self.stage = self.stage.spaced(),
            Token::Comment | Token::Declaration => {}
            Token::Opening(name) => self.begin(Word::element(name), at),
            Token::Name(name) => self.name(attribute_named(name, self.tag.word)),
            Token::Equals => self.stage = self.stage.equaled(),
            Token::Value(text) => self.value(text)?,
            Token::TagEnd => self.open()?,
            Token::EmptyEnd => self.end_tag()?,
            Token::EndTag(_) => self.close(),
        }
        Ok(())
    }

    /// Takes one more token.
    pub(crate) fn take(&mut self, token: Token<'a>, at: usize) -> Result<(), ReadFault>
        requires at { at + 1 < 2 ^ 64 }
        requires room { length (context_of self.old).entries < 2 ^ 32 }
        ensures { AnswersFirst result (faults.faults_of (context_of self.old) (token_of token.entry) at) (draft.after_token (context_of self.old) (token_of token.entry) at) (context_of self.new) }
    {
        self.check(token, at)?;
        self.go_on(token, at)
    }

    /// The fault of a rest that begins no token, where its spelling breaks so.
    pub(crate) fn broken(&self, at: usize, byte: u8, broken: ReadFault) -> ReadFault
        ensures { Some result ≡ faults_lemmas.first_of (faults.faults_from (context_of self.now) (faults.Rest at byte broken)) }
    {
        if self.stage.may_begin(byte) {
            broken
        } else {
            ReadFault::BadItem { at }
        }
    }

    /// What the end of the text breaks.
    pub(crate) fn finish(&self, at: usize) -> Result<(), ReadFault>
        ensures { Checks result (faults.faults_from (context_of self.now) (faults.End at)) }
    {
        if self.stage.is_between() && self.is_done() {
            Ok(())
        } else {
            Err(ReadFault::Unclosed { at })
        }
    }
}
