//! What a file says of its lines, and whether it is so of a line.

use crate::memory::VectorMemory;
use crate::trial::tried;
use crate::vector::read_vector;
use crate::words::{decoded, least, read_word};
use anyhow::{Context, Result};
use std::string::String;

/// What a file says of each of its lines.
#[derive(Clone, Copy, Debug, PartialEq, Eq)]
pub(crate) enum Claim {
    /// It is a word and the instruction that it spells.
    Decodes,
    /// It is a word and the least word that spells the same.
    Encodes,
    /// It is a vector that holds.
    Holds,
    /// It is a vector that does not hold.
    Differs,
    /// It is no vector.
    IsNone,
}

/// Whether it is so of a line, and the kind of the line.
#[derive(Debug, Drop)]
pub(crate) struct Judged<'a> {
    pub(crate) kind: &'a str,
    pub(crate) holds: bool,
}

impl Claim {
    /// The word for lines of which it is so.
    pub(crate) fn verb(self) -> &'static str {
        match self {
            Claim::Decodes | Claim::Encodes | Claim::Holds => "hold",
            Claim::Differs => "do not hold",
            Claim::IsNone => "are no vectors",
        }
    }
}

/// Whether a claim is so of a line; where it is not, the line is printed.
pub(crate) fn judge<'a>(
    rt: &HostRuntime,
    claim: Claim,
    line: &'a str,
    memory: &mut VectorMemory,
) -> Result<Judged<'a>> {
    match claim {
        Claim::Decodes => {
            let word = read_word(line)?;
            let text = decoded(word.word, rt.alloc())?;
            compared(rt, line, word.kind, word.said, text)
        },
        Claim::Encodes => {
            let word = read_word(line)?;
            let text = least(word.word, rt.alloc())?;
            compared(rt, line, word.kind, word.said, text)
        },
        Claim::Holds => held(rt, line, memory),
        Claim::Differs => differing(rt, line, memory),
        Claim::IsNone => no_vector(rt, line),
    }
}

// Whether the text that came is what a line says.
fn compared<'a>(
    rt: &impl Print,
    line: &'a str,
    kind: &'a str,
    said: &str,
    came: String,
) -> Result<Judged<'a>> {
    let holds = came.as_str() == said;
    if !holds {
        println!(rt; "differs: {line}")?;
        println!(rt; "came to: {came}")?;
    }
    Ok(Judged { kind, holds })
}

// Whether a line is a vector that holds.
fn held<'a>(rt: &impl Print, line: &'a str, memory: &mut VectorMemory) -> Result<Judged<'a>> {
    let vector = read_vector(line).context("a line is no vector")?;
    let kind = vector.kind;
    let other = tried(memory, vector);
    let holds = other.is_none();
    if let Some(other) = other {
        println!(rt; "differs: {line}")?;
        println!(rt; "came to: {other}")?;
    }
    Ok(Judged { kind, holds })
}

// Whether a line is a vector that does not hold.
fn differing<'a>(rt: &impl Print, line: &'a str, memory: &mut VectorMemory) -> Result<Judged<'a>> {
    let vector = read_vector(line).context("a line is no vector")?;
    let kind = vector.kind;
    let holds = tried(memory, vector).is_some();
    if !holds {
        println!(rt; "holds: {line}")?;
    }
    Ok(Judged { kind, holds })
}

// Whether a line is no vector.
fn no_vector<'a>(rt: &impl Print, line: &'a str) -> Result<Judged<'a>> {
    let holds = read_vector(line).is_none();
    if !holds {
        println!(rt; "is a vector: {line}")?;
    }
    Ok(Judged {
        kind: "line",
        holds,
    })
}
