//! Tries words and vectors, of one call each, on the processor: prints how many hold of each kind, and each that does not.
#![tactic(auto)]

mod call;
mod claim;
mod contents;
mod memory;
mod page;
mod state;
mod tally;
mod trial;
mod vector;
mod words;

use anyhow::Result;
use claim::{Claim, judge};
use memory::VectorMemory;
use page::try_page;
use std::fs;
use tally::Tallies;

// The files, and what each says of its lines. A line that begins with # says what stands there.
const FILES: [(&str, Claim); 7] = [
    ("words.txt", Claim::Decodes),
    ("least.txt", Claim::Encodes),
    ("worked.txt", Claim::Holds),
    ("windows.txt", Claim::Holds),
    ("differing.txt", Claim::Differs),
    ("no_vectors.txt", Claim::IsNone),
    ("instructions.txt", Claim::Holds),
];

// The page, whose tables are compared with the decoder.
const PAGE: &str = "INSTRUCTIONS.md";

fn main(rt: HostRuntime) -> Result<()> {
    let mut memory = VectorMemory::new(rt.alloc())?;
    for (file, claim) in FILES {
        try_file(&rt, file, claim, &mut memory)?;
    }
    println!(rt; "{PAGE}:")?;
    let page = fs::read_to_string(&rt, PAGE)?;
    try_page(&rt, page.as_str())
}

// Tries each line of a file, and prints what came of it.
fn try_file(rt: &HostRuntime, file: &str, claim: Claim, memory: &mut VectorMemory) -> Result<()> {
    let text = fs::read_to_string(rt, file)?;
    let mut tallies = Tallies::new(rt.alloc());
    println!(rt; "{file}:")?;
    for line in text.lines() {
        if !line.starts_with('#') {
            let judged = judge(rt, claim, line, memory)?;
            tallies.count(judged.kind, judged.holds)?;
        }
    }
    tallies.print(rt, claim.verb())
}
