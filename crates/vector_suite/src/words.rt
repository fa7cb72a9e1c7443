//! Words: the instruction that each spells, and the least word that spells the same.

use crate::vector::hexadecimal;
use anyhow::{Context, Result};
use sparc_code::{decode, encode};
use std::alloc::Global;
use std::string::String;

/// What a line says of a word.
#[derive(Debug, Drop)]
pub(crate) struct WordLine<'a> {
    /// The group that the word belongs to.
    pub(crate) kind: &'a str,
    pub(crate) word: u32,
    pub(crate) said: &'a str,
}

/// Reads a line `KIND WORD -> WHAT IS SAID`.
pub(crate) fn read_word(line: &str) -> Result<WordLine<'_>> {
    parts_of(line).context("a line tells no word")
}

// The parts of a line.
fn parts_of(line: &str) -> Option<WordLine<'_>> {
    let (given, said) = line.split_once(" -> ")?;
    let (kind, word) = given.split_once(' ')?;
    Some(WordLine {
        kind,
        word: hexadecimal(word)?,
        said,
    })
}

/// The instruction of a word, as text.
pub(crate) fn decoded(word: u32, alloc: Global) -> Result<String> {
    let instr = decode(word);
    Ok(format!(in alloc; "{instr:?}")?)
}

/// The least word of the instruction of a word, as text.
pub(crate) fn least(word: u32, alloc: Global) -> Result<String> {
    let word = encode(&decode(word));
    Ok(format!(in alloc; "{word:08x}")?)
}
