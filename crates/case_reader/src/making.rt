//! The bytes of files, as their recipes say.

use crate::entry::{Entry, number_of, pair_of, text_of};
use crate::random::random_memory;
use crate::recipe::{Recipe, Source};
use anyhow::{Context, Result, bail};
use std::alloc::Global;
use std::fs::{File, Files};
use std::io::Read;

// The first words of a program file for SPARC, 32 bits and big endian, up to its entry.
const PROGRAM_FRONT: [u32; 6] = [0x7f45_4c46, 0x0102_0100, 0, 0, 0x0002_0002, 1];

// After the entry: the program headers begin at 52, and there is one of 32 bytes.
const PROGRAM_TABLE: [u32; 6] = [52, 0, 0, 0x0034_0020, 0x0001_0000, 0];

/// Files that were made, by their names: those that every book may use, then those of one book.
#[derive(Drop)]
pub struct Shelf {
    files: Vec<(String, Vec<u8>)>,
}

impl Shelf {
    pub fn new(alloc: Global) -> Shelf {
        Shelf {
            files: Vec::new(alloc),
        }
    }

    /// Makes a file, and keeps it.
    pub fn put(&mut self, rt: &impl Files, alloc: Global, recipe: Recipe<'_>) -> Result<()> {
        let name = recipe.name()?;
        let bytes = made(rt, alloc, recipe, self).context(name)?;
        self.files.push((String::from_str(alloc, name)?, bytes))?;
        Ok(())
    }

    /// The bytes of a file.
    pub fn get(&self, name: &str) -> Result<&[u8]> {
        for (known, bytes) in &self.files {
            if known.as_str() == name {
                return Ok(bytes);
            }
        }
        bail!("there is no file {name}")
    }

    /// How many files there are.
    pub fn count(&self) -> usize {
        self.files.len()
    }

    /// Keeps the first files alone.
    pub fn keep(&mut self, count: usize) {
        self.files.truncate(count);
    }
}

/// The bytes that a recipe makes, over the files that were made before.
pub fn made(rt: &impl Files, alloc: Global, recipe: Recipe<'_>, shelf: &Shelf) -> Result<Vec<u8>> {
    let mut bytes = raw(rt, alloc, recipe, shelf)?;
    resize(&mut bytes, recipe)?;
    set_bytes(&mut bytes, recipe)?;
    let mut bytes = replaced_all(alloc, bytes, recipe)?;
    if let Some(insert) = recipe.entry("insert")? {
        bytes = inserted(alloc, &bytes, insert)?;
    }
    if let Some(digits) = recipe.text("append_hex")? {
        bytes.extend_from_slice(&of_hex(alloc, digits)?)?;
    }
    Ok(bytes)
}

// The bytes of a recipe's source.
fn raw(rt: &impl Files, alloc: Global, recipe: Recipe<'_>, shelf: &Shelf) -> Result<Vec<u8>> {
    match recipe.source()? {
        Source::Hex(digits) => of_hex(alloc, digits),
        Source::Text(text) => Ok(Vec::from_slice(alloc, text.as_bytes())?),
        Source::Data(name) => read_data(rt, alloc, name),
        Source::Of(name) => Ok(Vec::from_slice(alloc, shelf.get(name)?)?),
        Source::Program(program) => program_file(alloc, program),
    }
}

// Cuts the bytes, or fills them up.
fn resize(bytes: &mut Vec<u8>, recipe: Recipe<'_>) -> Result<()> {
    if let Some(length) = recipe.number("length")? {
        let fill = u8::try_from(recipe.number("fill")?.unwrap_or(0))?;
        bytes.resize(usize::try_from(length)?, fill)?;
    }
    Ok(())
}

// Puts other bytes at their places.
fn set_bytes(bytes: &mut [u8], recipe: Recipe<'_>) -> Result<()> {
    for change in recipe.list("bytes")? {
        let (place, value) = pair_of(change)?;
        let place = usize::try_from(number_of(place)?)?;
        let byte = bytes.get_mut(place).context("no byte is at that place")?;
        *byte = u8::try_from(number_of(value)?)?;
    }
    Ok(())
}

// Puts other texts in the place of some.
fn replaced_all(alloc: Global, bytes: Vec<u8>, recipe: Recipe<'_>) -> Result<Vec<u8>> {
    let mut bytes = bytes;
    for change in recipe.list("replace")? {
        let (old, new) = pair_of(change)?;
        bytes = replaced(alloc, &bytes, text_of(old)?, text_of(new)?)?;
    }
    Ok(bytes)
}

/// The bytes of a file of the data folder.
pub fn read_data(rt: &impl Files, alloc: Global, name: &str) -> Result<Vec<u8>> {
    let mut bytes = Vec::new(alloc);
    File::open(rt, name)?.read_to_end(&mut bytes)?;
    Ok(bytes)
}

// The bytes that hexadecimal digits spell, white space aside.
fn of_hex(alloc: Global, digits: &str) -> Result<Vec<u8>> {
    let mut close = Vec::new(alloc);
    for digit in digits.as_bytes() {
        if !digit.is_ascii_whitespace() {
            close.push(*digit)?;
        }
    }
    Ok(hex::decode(alloc, close)?)
}

// A program file of one header, which loads words from after the headers and enters them.
fn program_file(alloc: Global, program: Entry<'_>) -> Result<Vec<u8>> {
    program.has_only(&["start", "words", "seed", "count"])?;
    let start = program.text("start")?.context("no start")?;
    let start = u32::from_str_radix(start, 16)?;
    let words = program_words(alloc, program, start)?;
    let size = u32::try_from(words.len())?;
    let header = [1, 84, start, start, size, size, 7, 4];
    let mut bytes = Vec::new(alloc);
    for part in [&PROGRAM_FRONT[..], &[start], &PROGRAM_TABLE, &header] {
        for word in part {
            bytes.extend_from_slice(&word.to_be_bytes())?;
        }
    }
    bytes.extend_from_slice(&words)?;
    Ok(bytes)
}

// The words of a program: as they are written, or this many random ones.
fn program_words(alloc: Global, program: Entry<'_>, start: u32) -> Result<Vec<u8>> {
    match program.number("seed")? {
        Some(seed) => {
            let count = program.number("count")?.context("no count")?;
            random_memory(alloc, start, u32::try_from(seed)?, u32::try_from(count)?)
        }
        None => of_hex(alloc, program.text("words")?.context("no words")?),
    }
}

// A text with another part in the place of the first occurrence of one.
fn replaced(alloc: Global, bytes: &[u8], old: &str, new: &str) -> Result<Vec<u8>> {
    let text = str::from_utf8(bytes)?;
    let Some((before, after)) = text.split_once(old) else {
        bail!("no {old} is to be replaced");
    };
    let mut bytes = Vec::from_slice(alloc, before.as_bytes())?;
    bytes.extend_from_slice(new.as_bytes())?;
    bytes.extend_from_slice(after.as_bytes())?;
    Ok(bytes)
}

// A text with a part for each number before the first occurrence of another one.
fn inserted(alloc: Global, bytes: &[u8], insert: Entry<'_>) -> Result<Vec<u8>> {
    insert.has_only(&["before", "text", "from", "to"])?;
    let mark = insert.text("before")?.context("no before")?;
    let part = insert.text("text")?.context("no text")?;
    let Some((before, after)) = str::from_utf8(bytes)?.split_once(mark) else {
        bail!("no {mark} is to be found");
    };
    let mut bytes = Vec::from_slice(alloc, before.as_bytes())?;
    let from = insert.number("from")?.context("no from")?;
    for number in from..insert.number("to")?.context("no to")? {
        put_numbered(alloc, &mut bytes, part, number)?;
    }
    bytes.extend_from_slice(mark.as_bytes())?;
    bytes.extend_from_slice(after.as_bytes())?;
    Ok(bytes)
}

// Puts a part, with a number for each `#`, and its two last digits for each `@`.
fn put_numbered(alloc: Global, bytes: &mut Vec<u8>, part: &str, number: u64) -> Result<()> {
    let decimal = format!(in alloc; "{number}")?;
    let two = format!(in alloc; "{:02}", number % 100)?;
    for byte in part.as_bytes() {
        match byte {
            b'#' => bytes.extend_from_slice(decimal.as_bytes())?,
            b'@' => bytes.extend_from_slice(two.as_bytes())?,
            _ => bytes.push(*byte)?,
        }
    }
    Ok(())
}
