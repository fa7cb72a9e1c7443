//! A case tried: its command lines over its files, and their outcome.

ghost use Rattle.std.specs.Prelude.{◌≡◌, OnOk};

use crate::case::Case;
use crate::pace::Pace;
use crate::ticking::is_ticked;
use crate::verdict::Verdict;
use crate::wanted;
use anyhow::{Context, Result, bail};
use case_reader::{Entry, Shelf, made, number_of, text_of};
use command_line::Words;
use std::alloc::Global;
use std::fs::Files;
use toml::{Table, Value};
use uart_board::Board;
use xm_base::TICKS;
use xm_commands::{Status, xm_main};
use xm_outside::{MemSink, MemStore, Sink};

const NO_MEMORY: &str = "there is no memory";

// How many bytes a sink takes a call where a case says nothing.
const STEP: u64 = 1000;

/// A file that is in the store before the calls.
type Given<'a> = (&'a str, &'a [u8]);

/// Does a case, and answers how it differs from what it says.
pub(crate) fn tried<'a>(
    rt: &impl Files,
    alloc: Global,
    shelf: &'a Shelf,
    case: Case<'a>,
) -> Result<Verdict> {
    match case.recipe()? {
        Some(recipe) => {
            let bytes = made(rt, alloc, recipe, shelf)?;
            compared(alloc, shelf, case, Some((recipe.name()?, &bytes)))
        }
        None => compared(alloc, shelf, case, None),
    }
}

// The files of a case, and its own one, which takes the place of one with its name.
fn given<'a>(
    alloc: Global,
    shelf: &'a Shelf,
    case: Case<'a>,
    own: Option<Given<'a>>,
) -> Result<Vec<Given<'a>>> {
    let mut given = Vec::new(alloc);
    for file in case.list("file")? {
        let file = text_of(file)?;
        let (name, known) = file.split_once('=').unwrap_or((file, file));
        if own.is_none_or(|own| own.0 != name) {
            given.push((name, shelf.get(known)?))?;
        }
    }
    if let Some(own) = own {
        given.push(own)?;
    }
    Ok(given)
}

// Does the calls of a case over its files, of which one may be its own, and compares.
fn compared<'a>(
    alloc: Global,
    shelf: &'a Shelf,
    case: Case<'a>,
    own: Option<Given<'a>>,
) -> Result<Verdict> {
    let given = &given(alloc, shelf, case, own)?;
    let mut files = store(alloc, case.entry("fails")?, given)?;
    let words = prepare(alloc, case, &mut files)?;
    let mut verdict = Verdict::new(alloc);
    compare_ticks(alloc, case, &words, &files, &mut verdict)?;
    if !case.own.has("resets") {
        compare_call(alloc, case, &words, &mut files, &mut verdict)?;
        compare_files(shelf, case, given, &files, &mut verdict)?;
    }
    Ok(verdict)
}

// Does what the words of a case say, and compares its status and what it writes.
fn compare_call(
    alloc: Global,
    case: Case<'_>,
    words: &Words,
    files: &mut MemStore,
    verdict: &mut Verdict,
) -> Result<()> {
    let fails = case.entry("fails")?;
    let mut out = sink(alloc, fails, "out", "out_step")?;
    let mut err = sink(alloc, fails, "err", "err_step")?;
    let status = xm_main(alloc, words, files, &mut out, &mut err, &mut Board::new());
    verdict.status(wanted::status(case)?, status)?;
    verdict.report("report", case.own, out.got())?;
    let line = wanted::line(alloc, case)?;
    verdict.text("error output", line.as_bytes(), err.got())
}

// The paces of runs beside that of the command: tick by tick, and by stretches of a tick, a few, a slot, and as long as they may be.
const PACES: [Pace; 5] = [
    Pace::Ticks,
    Pace::Stretches(1),
    Pace::Stretches(7),
    Pace::Stretches(1000),
    Pace::Stretches(TICKS),
];

// Does the words' run at each pace, where it is to end well, and compares its report.
fn compare_ticks(
    alloc: Global,
    case: Case<'_>,
    words: &Words,
    files: &MemStore,
    verdict: &mut Verdict,
) -> Result<()> {
    if wanted::status(case)? != Status::Done {
        return Ok(());
    }
    for pace in PACES {
        compare_pace(alloc, case, words, files, pace, verdict)?;
    }
    compare_lengths(alloc, case, words, files, verdict)
}

// Does the words' run by stretches of each length up to the one that the case names, and compares its report.
fn compare_lengths(
    alloc: Global,
    case: Case<'_>,
    words: &Words,
    files: &MemStore,
    verdict: &mut Verdict,
) -> Result<()> {
    for most in 1..=case.own.number("lengths")?.unwrap_or(0) {
        compare_pace(alloc, case, words, files, Pace::Stretches(most), verdict)?;
    }
    Ok(())
}

// Does the words' run at a pace, and compares its report.
fn compare_pace(
    alloc: Global,
    case: Case<'_>,
    words: &Words,
    files: &MemStore,
    pace: Pace,
    verdict: &mut Verdict,
) -> Result<()> {
    let resets = case.own.list("resets")?.unwrap_or(&[]);
    let mut out = sink(alloc, None, "out", "out_step")?;
    if is_ticked(alloc, words, files, resets, pace, &mut out)? {
        verdict.report_of_ticks(case.own, out.got())?;
    }
    Ok(())
}

// A store with the files that are given.
fn store(alloc: Global, fails: Option<Entry<'_>>, given: &[Given<'_>]) -> Result<MemStore> {
    let mut files = MemStore::new(alloc, failing(alloc, fails, "files")?);
    for (name, bytes) in given {
        files.put(name, bytes).ok().context(NO_MEMORY)?;
    }
    Ok(files)
}

// A sink that takes some bytes a call, and fails at some of its calls.
fn sink(alloc: Global, fails: Option<Entry<'_>>, key: &str, step: &str) -> Result<MemSink> {
    let step = match fails {
        Some(fails) => fails.number(step)?.unwrap_or(STEP),
        None => STEP,
    };
    Ok(MemSink::new(alloc, failing(alloc, fails, key)?, usize::try_from(step)?))
}

// The numbers of the calls that fail.
fn failing(alloc: Global, fails: Option<Entry<'_>>, key: &str) -> Result<Vec<u64>> {
    let mut calls = Vec::new(alloc);
    let Some(fails) = fails else {
        return Ok(calls);
    };
    fails.has_only(&["files", "out", "err", "out_step", "err_step"])?;
    for call in fails.list(key)?.unwrap_or(&[]) {
        calls.push(number_of(call)?)?;
    }
    Ok(calls)
}

// Does all calls before the last one, and answers the words of that.
fn prepare(alloc: Global, case: Case<'_>, files: &mut MemStore) -> Result<Words> {
    for call in case.group.list("before")?.unwrap_or(&[]) {
        carry_out(alloc, text_of(call)?, files)?;
    }
    let Some((last, earlier)) = case.own.list("calls")?.unwrap_or(&[]).split_last() else {
        return last_words(alloc, case);
    };
    for call in earlier {
        carry_out(alloc, text_of(call)?, files)?;
    }
    call_words(alloc, text_of(last)?)
}

// The words of a case that has one call.
fn last_words(alloc: Global, case: Case<'_>) -> Result<Words> {
    match words_in(alloc, case.own)? {
        Some(words) => Ok(words),
        None => words_in(alloc, case.group)?.context("there is no call"),
    }
}

// The words that a table names, as a list or as a call.
fn words_in(alloc: Global, entry: Entry<'_>) -> Result<Option<Words>> {
    if let Some(words) = entry.list("words")? {
        return Ok(Some(list_words(alloc, words)?));
    }
    match entry.text("call")? {
        Some(call) => Ok(Some(call_words(alloc, call)?)),
        None => Ok(None),
    }
}

// Does what a call says, or reports that it was not done.
fn carry_out(alloc: Global, call: &str, files: &mut MemStore) -> Result<()> {
    let words = call_words(alloc, call)?;
    let mut out = sink(alloc, None, "out", "out_step")?;
    let mut err = sink(alloc, None, "err", "err_step")?;
    done(alloc, &words, files, &mut out, &mut err).context(call)
}

// Does what the words say, or reports that it was not done.
fn done<O: Sink, E: Sink>(
    alloc: Global,
    words: &Words,
    files: &mut MemStore,
    out: &mut O,
    err: &mut E,
) -> Result<()>
    ensures done { OnOk result (err.new ≡ err.old) }
{
    match xm_main(alloc, words, files, out, err, &mut Board::new()) {
        Status::Done => Ok(()),
        status => bail!("ended with {status:?}"),
    }
}

// The words of a call, which stand apart by one blank each.
fn call_words(alloc: Global, call: &str) -> Result<Words> {
    let mut words = Words::new(alloc);
    for word in call.split(' ') {
        words.push(word).ok().context(NO_MEMORY)?;
    }
    Ok(words)
}

// The words of a list.
fn list_words(alloc: Global, list: &[Value]) -> Result<Words> {
    let mut words = Words::new(alloc);
    for word in list {
        words.push(text_of(word)?).ok().context(NO_MEMORY)?;
    }
    Ok(words)
}

// Compares the files that are in the store after the calls.
fn compare_files(
    shelf: &Shelf,
    case: Case<'_>,
    given: &[Given<'_>],
    files: &MemStore,
    verdict: &mut Verdict,
) -> Result<()> {
    let same = case.own.entry("same")?;
    for (name, bytes) in given {
        if !names(same, name) {
            verdict.file(name, bytes, files.get(name))?;
        }
    }
    if let Some(same) = same {
        compare_same(shelf, same.table(), given, files, verdict)?;
    }
    for name in case.own.list("absent")?.unwrap_or(&[]) {
        let name = text_of(name)?;
        verdict.presence(name, false, files.get(name).is_some())?;
    }
    compare_output(case, same, files, verdict)
}

// Whether a table that is there has a key.
fn names(entry: Option<Entry<'_>>, key: &str) -> bool {
    match entry {
        Some(entry) => entry.has(key),
        None => false,
    }
}

// Compares the files whose bytes are given by name.
fn compare_same(
    shelf: &Shelf,
    same: &Table,
    given: &[Given<'_>],
    files: &MemStore,
    verdict: &mut Verdict,
) -> Result<()> {
    for (name, known) in same {
        verdict.file(
            name,
            bytes_of(shelf, given, text_of(known)?)?,
            files.get(name),
        )?;
    }
    Ok(())
}

// Compares whether the file is there that the group's command lines write.
fn compare_output(
    case: Case<'_>,
    same: Option<Entry<'_>>,
    files: &MemStore,
    verdict: &mut Verdict,
) -> Result<()> {
    match case.group.text("output")? {
        Some(name) if !names(same, name) => {
            let wanted = wanted::status(case)? == Status::Done;
            verdict.presence(name, wanted, files.get(name).is_some())
        }
        _ => Ok(()),
    }
}

// The bytes of a file that is given, or of the shelf.
fn bytes_of<'a>(shelf: &'a Shelf, given: &'a [Given<'_>], name: &str) -> Result<&'a [u8]> {
    for (known, bytes) in given {
        if *known == name {
            return Ok(bytes);
        }
    }
    shelf.get(name)
}
