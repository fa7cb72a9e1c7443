//! What a file is made of: what a table says, completed by another one.

use crate::entry::Entry;
use anyhow::{Context, Result, bail};
use toml::Value;

// The keys of a recipe.
const KEYS: [&str; 12] = [
    "name",
    "hex",
    "text",
    "data",
    "of",
    "program",
    "length",
    "fill",
    "bytes",
    "replace",
    "insert",
    "append_hex",
];

/// A source of bytes.
#[derive(Clone, Copy)]
pub(crate) enum Source<'a> {
    Hex(&'a str),
    Text(&'a str),
    Data(&'a str),
    Of(&'a str),
    Program(Entry<'a>),
}

/// A file's name, its source and its changes.
#[derive(Clone, Copy)]
pub struct Recipe<'a> {
    own: Entry<'a>,
    base: Option<Entry<'a>>,
}

impl<'a> Recipe<'a> {
    /// What a table says, and where it says nothing, what the base says.
    pub fn new(own: Entry<'a>, base: Option<Entry<'a>>) -> Result<Recipe<'a>> {
        own.has_only(&KEYS)?;
        if let Some(base) = base {
            base.has_only(&KEYS)?;
        }
        Ok(Recipe { own, base })
    }

    pub fn name(self) -> Result<&'a str> {
        self.text("name")?.context("a file has no name")
    }

    /// The one source of its bytes.
    pub(crate) fn source(self) -> Result<Source<'a>> {
        match source_in(self.own)? {
            Some(source) => Ok(source),
            None => match self.base {
                Some(base) => source_in(base)?.context("no source"),
                None => bail!("no source"),
            },
        }
    }

    pub(crate) fn text(self, key: &str) -> Result<Option<&'a str>> {
        self.with(key).text(key)
    }

    pub(crate) fn number(self, key: &str) -> Result<Option<u64>> {
        self.with(key).number(key)
    }

    pub(crate) fn list(self, key: &str) -> Result<&'a [Value]> {
        Ok(self.with(key).list(key)?.unwrap_or(&[]))
    }

    pub(crate) fn entry(self, key: &str) -> Result<Option<Entry<'a>>> {
        self.with(key).entry(key)
    }

    // The table that is asked for a key.
    fn with(self, key: &str) -> Entry<'a> {
        match self.base {
            Some(base) if !self.own.has(key) => base,
            _ => self.own,
        }
    }
}

// The one source that a table names, where it names any.
fn source_in(entry: Entry<'_>) -> Result<Option<Source<'_>>> {
    let texts = (
        entry.text("hex")?,
        entry.text("text")?,
        entry.text("data")?,
        entry.text("of")?,
    );
    match (texts, entry.entry("program")?) {
        ((Some(hex), None, None, None), None) => Ok(Some(Source::Hex(hex))),
        ((None, Some(text), None, None), None) => Ok(Some(Source::Text(text))),
        ((None, None, Some(name), None), None) => Ok(Some(Source::Data(name))),
        ((None, None, None, Some(name)), None) => Ok(Some(Source::Of(name))),
        ((None, None, None, None), Some(program)) => Ok(Some(Source::Program(program))),
        ((None, None, None, None), None) => Ok(None),
        _ => bail!("more than one source"),
    }
}
