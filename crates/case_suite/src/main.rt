//! Does the cases of its data folder by the program's commands, and prints how many of each group come out as wanted, and
//! each that does not. A run that is to end well is done tick by tick and stretch by stretch, too.
#![tactic(auto)]

mod case;
mod pace;
mod reset;
mod tally;
mod ticking;
mod trial;
mod verdict;
mod wanted;

use anyhow::{Context, Result};
use case::Case;
use case_reader::{Entry, Recipe, Shelf, entry_of, read_data};
use std::alloc::Global;
use std::fs::Files;
use tally::Tally;
use toml::{Table, Value};
use trial::tried;
use verdict::Verdict;

// The files that the cases of all others may use.
const WORKED: &str = "worked.toml";

// The files of cases, in the order in which they are done.
const BOOKS: [&str; 32] = [
    "differing.toml",
    "raw_images.toml",
    "descriptions.toml",
    "rules.toml",
    "plans.toml",
    "groups.toml",
    "programs.toml",
    "containers.toml",
    "binary_configurations.toml",
    "versions.toml",
    "images.toml",
    "container_files.toml",
    "damaged_files.toml",
    "runs.toml",
    "scripts.toml",
    "machines.toml",
    "calls.toml",
    "ports.toml",
    "timers.toml",
    "health.toml",
    "resets.toml",
    "between.toml",
    "wild_calls.toml",
    "random_guests.toml",
    "systems.toml",
    "spans.toml",
    "upsets.toml",
    "saves.toml",
    "outside.toml",
    "words.toml",
    "texts.toml",
    "configurations.toml",
];

// The keys of a group.
const GROUP_KEYS: [&str; 12] = [
    "name", "call", "words", "before", "file", "make", "status", "of_file", "output", "fails",
    "differs", "case",
];

fn main(rt: HostRuntime) -> Result<()> {
    let mut shelf = Shelf::new(rt.alloc());
    let worked = read_table(&rt, rt.alloc(), WORKED)?;
    fill(&rt, rt.alloc(), Entry::new(&worked), &mut shelf)?;
    let mut all = Tally::new();
    for name in BOOKS {
        let book = read_table(&rt, rt.alloc(), name)?;
        all.add(do_book(&rt, rt.alloc(), Entry::new(&book), &mut shelf).context(name)?);
    }
    println!(rt;
        "all: {all} as wanted, {} of them tick by tick",
        all.ticked()
    )?;
    Ok(())
}

// Reads a file of the data folder.
fn read_table(rt: &impl Files, alloc: Global, name: &str) -> Result<Table> {
    let text = read_data(rt, alloc, name).context(name)?;
    toml::table_from_slice(alloc, &text).context(name)
}

// Makes the files of a book; one that cannot be made is printed, and the cases that name it cannot be done.
fn fill(
    rt: &(impl Files + Print),
    alloc: Global,
    book: Entry<'_>,
    shelf: &mut Shelf,
) -> Result<()> {
    for file in book.list("file")?.unwrap_or(&[]) {
        let recipe = Recipe::new(entry_of(file)?, None)?;
        if let Err(error) = shelf.put(rt, alloc, recipe) {
            println!(rt; "a file cannot be made: {error:#}")?;
        }
    }
    Ok(())
}

// Does the cases of a book, and counts them.
fn do_book(
    rt: &(impl Files + Print),
    alloc: Global,
    book: Entry<'_>,
    shelf: &mut Shelf,
) -> Result<Tally> {
    book.has_only(&["file", "group"])?;
    let shared = shelf.count();
    fill(rt, alloc, book, shelf)?;
    let mut all = Tally::new();
    for group in book.list("group")?.unwrap_or(&[]) {
        all.add(do_group(rt, alloc, shelf, entry_of(group)?)?);
    }
    shelf.keep(shared);
    Ok(all)
}

// Does the cases of a group, and prints how many hold, or differ where they are to differ.
fn do_group(
    rt: &(impl Files + Print),
    alloc: Global,
    shelf: &Shelf,
    group: Entry<'_>,
) -> Result<Tally> {
    group.has_only(&GROUP_KEYS)?;
    let name = group.text("name")?.context("a group has no name")?;
    let mut tally = Tally::new();
    for case in group.list("case")?.unwrap_or(&[]) {
        count(rt, alloc, shelf, name, group, case, &mut tally)?;
    }
    let verb = if group.has("differs") {
        "differ"
    } else {
        "hold"
    };
    println!(rt; "{name}: {tally} {verb}")?;
    Ok(tally)
}

// Does a case, and counts it: it is to hold, or to differ where its group is to differ; else it is printed.
fn count(
    rt: &(impl Files + Print),
    alloc: Global,
    shelf: &Shelf,
    name: &str,
    group: Entry<'_>,
    case: &Value,
    tally: &mut Tally,
) -> Result<()> {
    let case = Case::new(entry_of(case)?, group).context(name)?;
    let shows = case.shows().context(name)?;
    match tried(rt, alloc, shelf, case) {
        Ok(verdict) => {
            let wanted = verdict.lines().is_empty() != group.has("differs");
            if !wanted {
                print_verdict(rt, name, shows, &verdict)?;
            }
            tally.count(wanted);
            if verdict.is_ticked() {
                tally.count_ticked();
            }
        }
        Err(error) => {
            println!(rt; "{name}, {shows}: cannot be done: {error:#}")?;
            tally.count(false);
        }
    }
    Ok(())
}

// Prints how a case differs, or that it holds.
fn print_verdict(rt: &impl Print, name: &str, shows: &str, verdict: &Verdict) -> Result<()> {
    if verdict.lines().is_empty() {
        println!(rt; "{name}, {shows}: holds")?;
    }
    for line in verdict.lines() {
        println!(rt; "{name}, {shows}: {line}")?;
    }
    Ok(())
}
