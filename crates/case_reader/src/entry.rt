//! A table of a file of cases, whose values are asked for by their keys.

use anyhow::{Context, Result, bail};
use toml::{Table, Value};

/// A table.
#[derive(Clone, Copy)]
pub struct Entry<'a> {
    table: &'a Table,
}

impl<'a> Entry<'a> {
    pub fn new(table: &'a Table) -> Entry<'a> {
        Entry { table }
    }

    /// Refuses a table that has another key than these.
    pub fn has_only(self, keys: &[&str]) -> Result<()> {
        for key in self.table.keys() {
            if !is_among(key, keys) {
                bail!("{key} is no key here");
            }
        }
        Ok(())
    }

    /// The text of a key, where it is there.
    pub fn text(self, key: &str) -> Result<Option<&'a str>> {
        match self.table.get(key) {
            Some(value) => Ok(Some(text_of(value).context(key)?)),
            None => Ok(None),
        }
    }

    /// The number of a key, where it is there.
    pub fn number(self, key: &str) -> Result<Option<u64>> {
        match self.table.get(key) {
            Some(value) => Ok(Some(number_of(value).context(key)?)),
            None => Ok(None),
        }
    }

    /// The list of a key, where it is there.
    pub fn list(self, key: &str) -> Result<Option<&'a [Value]>> {
        match self.table.get(key) {
            Some(Value::Array(list)) => Ok(Some(list)),
            Some(_) => bail!("{key} is no list"),
            None => Ok(None),
        }
    }

    /// The table of a key, where it is there.
    pub fn entry(self, key: &str) -> Result<Option<Entry<'a>>> {
        match self.table.get(key) {
            Some(value) => Ok(Some(entry_of(value).context(key)?)),
            None => Ok(None),
        }
    }

    /// Whether a key is there.
    pub fn has(self, key: &str) -> bool {
        self.table.contains_key(key)
    }

    /// The table itself.
    pub fn table(self) -> &'a Table {
        self.table
    }
}

// Whether a key is one of these.
fn is_among(key: &str, keys: &[&str]) -> bool {
    for known in keys {
        if *known == key {
            return true;
        }
    }
    false
}

/// A value that is to be a text.
pub fn text_of(value: &Value) -> Result<&str> {
    value.as_str().context("no text")
}

/// A value that is to be a number.
pub fn number_of(value: &Value) -> Result<u64> {
    let number = value.as_integer().context("no number")?;
    Ok(u64::try_from(number)?)
}

/// A value that is to be a table.
pub fn entry_of(value: &Value) -> Result<Entry<'_>> {
    match value {
        Value::Table(table) => Ok(Entry { table }),
        _ => bail!("no table"),
    }
}

/// A value that is to be a list of two.
pub(crate) fn pair_of(value: &Value) -> Result<(&Value, &Value)> {
    let list = value.as_array().context("no list")?;
    match list.as_slice() {
        [first, second] => Ok((first, second)),
        _ => bail!("no two values"),
    }
}
