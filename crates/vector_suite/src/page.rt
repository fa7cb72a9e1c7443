//! The page of instructions: the instruction that each row of its tables has for a selector, and the selectors that no row has.

use crate::tally::Tallies;
use crate::vector::hexadecimal;
use anyhow::{Context, Result};
use sparc_code::{Instr, decode};
use std::alloc::Global;
use std::string::String;

// The fields of a word where its row says nothing of them; immediate bits that are a register rs2, too.
const RD: u32 = 22;

const RS1: u32 = 9;

const LOW: u32 = 10;

/// A row of a table: what stands in its columns.
#[derive(Debug, Drop)]
struct Row<'a> {
    section: &'a str,
    names: &'a str,
    selectors: &'a str,
    does: &'a str,
    raises: &'a str,
}

/// The fields of a word that a row may fix.
#[derive(Clone, Copy, Debug)]
struct Fields {
    rd: u32,
    rs1: u32,
}

/// Compares the page with the decoder, and prints each row that has another instruction.
pub(crate) fn try_page(rt: &HostRuntime, page: &str) -> Result<()> {
    let mut tallies = Tallies::new(rt.alloc());
    for line in page.lines() {
        if let Some(row) = read_row(line) {
            try_row(rt, &row, &mut tallies)?;
        } else if let Some(row) = read_group(line) {
            try_word(
                rt,
                &row,
                row.names,
                hexadecimal(row.selectors),
                &mut tallies,
            )?;
        }
    }
    try_rest(rt, page, &mut tallies)?;
    tallies.print(rt, "hold")
}

// The row of a table of instructions: `| B.1 | NAME, NAME | SELECTOR, SELECTOR | WHAT IT DOES | WHAT IT RAISES |`.
fn read_row(line: &str) -> Option<Row<'_>> {
    let (section, rest) = line.strip_prefix("| ")?.split_once(" | ")?;
    if !section.starts_with("B.") {
        return None;
    }
    let (names, rest) = rest.split_once(" | ")?;
    let (selectors, rest) = rest.split_once(" | ")?;
    let (does, rest) = rest.split_once(" |")?;
    let raises = rest.strip_suffix("|")?.trim();
    Some(Row {
        section,
        names,
        selectors,
        does,
        raises,
    })
}

// The row of the table of words: `| GROUP | WORD | WHAT IT RAISES |`.
fn read_group(line: &str) -> Option<Row<'_>> {
    let (names, rest) = line.strip_prefix("| ")?.split_once(" | ")?;
    let (selectors, rest) = rest.split_once(" | ")?;
    let raises = rest.strip_suffix(" |")?;
    if selectors.len() != 8 || hexadecimal(selectors).is_none() {
        return None;
    }
    Some(Row {
        section: "group",
        names,
        selectors,
        does: "nothing",
        raises,
    })
}

// Tries the words of a row: one for each name.
fn try_row<'a>(rt: &HostRuntime, row: &Row<'a>, tallies: &mut Tallies<'a>) -> Result<()> {
    let fields = fields_of(row.selectors);
    let mut selectors = row.selectors.split(", ");
    for name in row.names.split(", ") {
        let selector = selectors
            .next()
            .context("a row has a name without a selector")?;
        try_word(rt, row, name, word_of(selector, fields), tallies)?;
        if row.raises.starts_with("02 for an odd rd") {
            let odd = Fields {
                rd: RD + 1,
                ..fields
            };
            try_none(rt, row.section, word_of(selector, odd), tallies)?;
        }
    }
    Ok(())
}

// Tries a word of a row: it is the instruction of a name, or of the group that raises what the row says where it does nothing.
fn try_word<'a>(
    rt: &HostRuntime,
    row: &Row<'a>,
    name: &str,
    word: Option<u32>,
    tallies: &mut Tallies<'a>,
) -> Result<()> {
    let word = word.context("a row has a selector that is none")?;
    let instr = decode(word);
    let wanted = if row.does == "nothing" {
        row.raises
    } else {
        name
    };
    let came = name_of(&instr, rt.alloc())?;
    let holds = came.as_str().eq_ignore_ascii_case(wanted);
    if !holds {
        println!(rt;
            "differs: {} {name} {word:08x}: came to {came}",
            row.section
        )?;
    }
    tallies.count(row.section, holds)?;
    Ok(())
}

// Tries a word that is no instruction.
fn try_none<'a>(
    rt: &HostRuntime,
    kind: &'a str,
    word: Option<u32>,
    tallies: &mut Tallies<'a>,
) -> Result<()> {
    let row = Row {
        section: kind,
        names: "",
        selectors: "",
        does: "nothing",
        raises: "02",
    };
    try_word(rt, &row, "none", word, tallies)
}

// Tries a word of each selector that no row has: it is no instruction.
fn try_rest<'a>(rt: &HostRuntime, page: &str, tallies: &mut Tallies<'a>) -> Result<()> {
    for number in 0..8u8 {
        let selector = format!(in rt.alloc(); "0:{number}")?;
        try_selector(rt, page, selector.as_str(), tallies)?;
    }
    for number in 0..64u8 {
        let selector = format!(in rt.alloc(); "2:{number:02X}")?;
        try_selector(rt, page, selector.as_str(), tallies)?;
        let selector = format!(in rt.alloc(); "3:{number:02X}")?;
        try_selector(rt, page, selector.as_str(), tallies)?;
    }
    Ok(())
}

// Tries a selector where no row has it.
fn try_selector<'a>(
    rt: &HostRuntime,
    page: &str,
    selector: &str,
    tallies: &mut Tallies<'a>,
) -> Result<()> {
    if is_selected(page, selector) {
        return Ok(());
    }
    let fields = fields_of("");
    try_none(rt, "none", word_of(selector, fields), tallies)
}

// Whether a row of the page has a selector.
fn is_selected(page: &str, selector: &str) -> bool {
    for line in page.lines() {
        if let Some(row) = read_row(line) {
            if row.selectors.split(", ").any(|one| one == selector) {
                return true;
            }
        }
    }
    false
}

// The fields that a row fixes beside its selectors: `rd 0`, `rs1 15`.
fn fields_of(selectors: &str) -> Fields {
    let mut fields = Fields { rd: RD, rs1: RS1 };
    for item in selectors.split(", ") {
        if let Some(number) = item.strip_prefix("rd ").and_then(decimal) {
            fields.rd = number;
        } else if let Some(number) = item.strip_prefix("rs1 ").and_then(decimal) {
            fields.rs1 = number;
        }
    }
    fields
}

fn decimal(digits: &str) -> Option<u32> {
    digits.parse::<u32>().ok()
}

// A word with a selector, which is its op, and its op2 or op3 where it has one; or the word that stands in its place.
fn word_of(selector: &str, fields: Fields) -> Option<u32> {
    if selector.len() == 8 {
        return hexadecimal(selector);
    }
    let Some((op, number)) = selector.split_once(':') else {
        return if selector == "1" {
            Some(1 << 30 | LOW)
        } else {
            None
        };
    };
    let number = hexadecimal(number)?;
    let registers = fields.rd << 25 | fields.rs1 << 14 | LOW;
    match op {
        "0" => Some(fields.rd << 25 | number << 22 | LOW),
        "2" => Some(2 << 30 | number << 19 | registers),
        "3" => Some(3 << 30 | number << 19 | registers),
        _ => None,
    }
}

// The name of an instruction in the manual, or the trap of its group.
fn name_of(instr: &Instr, alloc: Global) -> Result<String> {
    let name = match instr {
        Instr::Arith { op, .. } => return Ok(format!(in alloc; "{op:?}")?),
        Instr::Mem { op, .. } => return Ok(format!(in alloc; "{op:?}")?),
        Instr::Sethi { rd: 0, imm: 0 } => "NOP",
        Instr::Sethi { .. } => "SETHI",
        Instr::Branch { .. } => "Bicc",
        Instr::Call { .. } => "CALL",
        Instr::Jump { .. } => "JMPL",
        Instr::Trap { .. } => "Ticc",
        Instr::Save { .. } => "SAVE",
        Instr::Restore { .. } => "RESTORE",
        Instr::ReadY { .. } => "RDY",
        Instr::WriteY { .. } => "WRY",
        Instr::Barrier => "STBAR",
        Instr::Flush => "FLUSH",
        Instr::Illegal => "02",
        Instr::Privileged => "03",
        Instr::Float => "04",
        Instr::Coproc => "24",
    };
    Ok(format!(in alloc; "{name}")?)
}
