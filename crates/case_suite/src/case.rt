//! A case: what it says of itself, and what its group says for all of its cases.

use anyhow::{Context, Result};
use case_reader::{Entry, Recipe};
use toml::Value;

// The keys of a case.
const KEYS: [&str; 19] = [
    "shows",
    "call",
    "words",
    "calls",
    "file",
    "make",
    "status",
    "usage",
    "out",
    "out_begins",
    "out_md5",
    "refused",
    "of_file",
    "err",
    "same",
    "absent",
    "fails",
    "resets",
    "lengths",
];

/// A case, and its group.
#[derive(Clone, Copy)]
pub(crate) struct Case<'a> {
    /// What it says of itself.
    pub(crate) own: Entry<'a>,
    pub(crate) group: Entry<'a>,
}

impl<'a> Case<'a> {
    pub(crate) fn new(own: Entry<'a>, group: Entry<'a>) -> Result<Case<'a>> {
        own.has_only(&KEYS)?;
        Ok(Case { own, group })
    }

    /// What it shows.
    pub(crate) fn shows(self) -> Result<&'a str> {
        self.own.text("shows")?.context("a case shows nothing")
    }

    /// The text of a key, its own or else its group's.
    pub(crate) fn text(self, key: &str) -> Result<Option<&'a str>> {
        match self.own.text(key)? {
            Some(text) => Ok(Some(text)),
            None => self.group.text(key),
        }
    }

    /// The list of a key, its own or else its group's; where there is none, it has nothing.
    pub(crate) fn list(self, key: &str) -> Result<&'a [Value]> {
        match self.own.list(key)? {
            Some(list) => Ok(list),
            None => Ok(self.group.list(key)?.unwrap_or(&[])),
        }
    }

    /// The table of a key, its own or else its group's.
    pub(crate) fn entry(self, key: &str) -> Result<Option<Entry<'a>>> {
        match self.own.entry(key)? {
            Some(entry) => Ok(Some(entry)),
            None => self.group.entry(key),
        }
    }

    /// How the file is made that is its alone, where there is one.
    pub(crate) fn recipe(self) -> Result<Option<Recipe<'a>>> {
        let base = self.group.entry("make")?;
        match self.own.entry("make")? {
            Some(own) => Ok(Some(Recipe::new(own, base)?)),
            None => match base {
                Some(base) => Ok(Some(Recipe::new(base, None)?)),
                None => Ok(None),
            },
        }
    }
}
