//! Files are read.

ghost use Rattle.std.specs.Prelude.{◌≡◌, ◌∷◌, ◌+◌, ◌++◌, ℕ, List, None, Option, drop, length, map, option_copied};
ghost use Rattle.file_commands.specs.Outcome.{content, first_long, name_if_any};
ghost use Rattle.file_commands.specs.Packing.{file_names};
ghost use Rattle.file_commands.specs.EndingValues.{AreFilesRead, IsFileRead, vector_bytes};
ghost use Rattle.file_commands.specs.lemmas.Read.{HasRead, HasReadNext};
ghost use Rattle.file_commands.specs.Work.{Outside, outside};
ghost use Rattle.command_line.specs.Seen.{seen_files};

use crate::ending::Ending;
use command_line::PartFiles;
use std::alloc::Global;
use xm_base::FILE_BYTES;
use xm_outside::{Store, StoreFault};

/// The bytes of a file, or its first ones where it is too long; or how the call ends without them.
pub fn read_file<'a, S: Store>(
    alloc: Global,
    file: &'a str,
    files: &mut S,
) -> Result<Vec<u8>, Ending<'a>>
    // The bytes of a file, or its first ones where it is too long; or the call ends by the store's fault or the file's
    // absence, or out of memory, and the store was called once.
    ensures { (got : Option (List ℕ)) (faults : ℕ) → IsFileRead result file.now
        (outside (S.files files.old) (S.read_faults files.old) (S.write_faults files.old) (S.calls files.old)
        got faults)
        (outside (S.files files.new) (S.read_faults files.new) (S.write_faults files.new) (S.calls files.new)
        got faults) }
{
    match files.read(alloc, file, FILE_BYTES) {
        Ok(bytes) => Ok(bytes),
        Err(StoreFault::Memory) => Err(Ending::NoMemory),
        Err(StoreFault::Failed) => Err(Ending::ReadFault { file }),
        Err(StoreFault::Absent) => Err(Ending::ReadFault { file }),
    }
}

/// The bytes of a file, of files for partitions, and of two more where there are such, that of upsets and that of a saved machine, read in this order: of each
/// its bytes, or its first ones where it is too long.
pub fn read_files<'a, S: Store>(
    alloc: Global,
    first: &'a str,
    others: PartFiles<'a>,
    upsets: Option<&'a str>,
    from: Option<&'a str>,
    files: &mut S,
) -> Result<Vec<Vec<u8>>, Ending<'a>>
    // The bytes of several files in their order; or the call ends at the first that is not read.
    ensures { (got : Option (List ℕ)) (faults : ℕ)
        → AreFilesRead result
        (first.now ∷ file_names (seen_files others.entry) ++ name_if_any (option_copied upsets.entry)
        ++ name_if_any (option_copied from.entry))
        (outside (S.files files.old) (S.read_faults files.old) (S.write_faults files.old) (S.calls files.old)
        got faults)
        (outside (S.files files.new) (S.read_faults files.new) (S.write_faults files.new) (S.calls files.new)
        got faults) }
{
    let mut contents = Vec::new(alloc);
    match read_next(alloc, first, &mut contents, files) {
        Ok(()) => {}
        Err(ending) => return Err(ending),
    }
    match read_for_parts(alloc, others, &mut contents, files) {
        Ok(()) => {}
        Err(ending) => return Err(ending),
    }
    match read_if_any(alloc, upsets, &mut contents, files) {
        Ok(()) => {}
        Err(ending) => return Err(ending),
    }
    match read_if_any(alloc, from, &mut contents, files) {
        Ok(()) => Ok(contents),
        Err(ending) => Err(ending),
    }
}

// The bytes of files for partitions, after those of files before them.
fn read_for_parts<'a, S: Store>(
    alloc: Global,
    parts: PartFiles<'a>,
    contents: &mut Vec<Vec<u8>>,
    files: &mut S,
) -> Result<(), Ending<'a>>
    ensures { (got : Option (List ℕ)) (faults : ℕ) (all later : List (List ℕ)) (before : Outside)
        → HasRead all (file_names (seen_files parts.entry) ++ later) (map vector_bytes contents.old.items) before (outside (S.files files.old) (S.read_faults files.old) (S.write_faults files.old) (S.calls files.old) got faults)
        → HasReadNext result all later (map vector_bytes contents.new.items) before (outside (S.files files.new) (S.read_faults files.new) (S.write_faults files.new) (S.calls files.new) got faults) }
{
    let mut rest = parts;
    while let Some((next, others)) = rest.split_first() {
        match read_next(alloc, next.file, contents, files) {
            Ok(()) => {}
            Err(ending) => return Err(ending),
        }
        rest = others;
    }
    Ok(())
}

/// The bytes of two files, and of two more where there are such, read in this order: of each its bytes, or its first ones where it is too
/// long.
pub fn read_four<'a, S: Store>(
    alloc: Global,
    first: &'a str,
    second: &'a str,
    third: Option<&'a str>,
    last: Option<&'a str>,
    files: &mut S,
) -> Result<Vec<Vec<u8>>, Ending<'a>>
    // The bytes of several files in their order; or the call ends at the first that is not read.
    ensures { (got : Option (List ℕ)) (faults : ℕ)
        → AreFilesRead result
        (first.now ∷ second.now ∷ name_if_any (option_copied third.entry) ++ name_if_any (option_copied last.entry))
        (outside (S.files files.old) (S.read_faults files.old) (S.write_faults files.old) (S.calls files.old)
        got faults)
        (outside (S.files files.new) (S.read_faults files.new) (S.write_faults files.new) (S.calls files.new)
        got faults) }
{
    let mut contents = Vec::new(alloc);
    match read_next(alloc, first, &mut contents, files) {
        Ok(()) => {}
        Err(ending) => return Err(ending),
    }
    match read_next(alloc, second, &mut contents, files) {
        Ok(()) => {}
        Err(ending) => return Err(ending),
    }
    match read_if_any(alloc, third, &mut contents, files) {
        Ok(()) => {}
        Err(ending) => return Err(ending),
    }
    match read_if_any(alloc, last, &mut contents, files) {
        Ok(()) => Ok(contents),
        Err(ending) => Err(ending),
    }
}

// The bytes of one file more, where there is one, after those of files before it.
fn read_if_any<'a, S: Store>(
    alloc: Global,
    file: Option<&'a str>,
    contents: &mut Vec<Vec<u8>>,
    files: &mut S,
) -> Result<(), Ending<'a>>
    ensures { (got : Option (List ℕ)) (faults : ℕ) (all rest : List (List ℕ)) (before : Outside)
        → HasRead all (name_if_any (option_copied file.entry) ++ rest) (map vector_bytes contents.old.items) before (outside (S.files files.old) (S.read_faults files.old) (S.write_faults files.old) (S.calls files.old) got faults)
        → HasReadNext result all rest (map vector_bytes contents.new.items) before (outside (S.files files.new) (S.read_faults files.new) (S.write_faults files.new) (S.calls files.new) got faults) }
{
    match file {
        Some(file) => read_next(alloc, file, contents, files),
        None => Ok(()),
    }
}

// The bytes of one file more, after those of files before it.
fn read_next<'a, S: Store>(
    alloc: Global,
    file: &'a str,
    contents: &mut Vec<Vec<u8>>,
    files: &mut S,
) -> Result<(), Ending<'a>>
    ensures { (got : Option (List ℕ)) (faults : ℕ) (all rest : List (List ℕ)) (before : Outside)
        → HasRead all (file.now ∷ rest) (map vector_bytes contents.old.items) before (outside (S.files files.old) (S.read_faults files.old) (S.write_faults files.old) (S.calls files.old) got faults)
        → HasReadNext result all rest (map vector_bytes contents.new.items) before (outside (S.files files.new) (S.read_faults files.new) (S.write_faults files.new) (S.calls files.new) got faults) }
{
    let bytes = match read_file(alloc, file, files) {
        Ok(bytes) => bytes,
        Err(ending) => return Err(ending),
    };
    if contents.push(bytes).is_err() {
        return Err(Ending::NoMemory);
    }
    Ok(())
}

/// The first of four files with these contents that is too long; there may be no third and no last.
pub fn first_long_of_four<'a>(
    first: &'a str,
    second: &'a str,
    third: Option<&'a str>,
    last: Option<&'a str>,
    contents: &[Vec<u8>],
) -> Option<&'a str>
    // The first of the files that has more bytes than a file may have.
    ensures value { option_copied result
        ≡ first_long
        (first.now ∷ second.now ∷ name_if_any (option_copied third.entry) ++ name_if_any (option_copied last.entry))
        (map vector_bytes contents.now) }
{
    let (bytes, others) = contents.split_first()?;
    if bytes.len() > FILE_BYTES {
        return Some(first);
    }
    let (bytes, more) = others.split_first()?;
    if bytes.len() > FILE_BYTES {
        return Some(second);
    }
    first_long_of_two(third, last, more)
}

// The first of two files with these contents that is too long; there may be none.
fn first_long_of_two<'a>(
    first: Option<&'a str>,
    last: Option<&'a str>,
    contents: &[Vec<u8>],
) -> Option<&'a str>
    ensures value { option_copied result
        ≡ first_long (name_if_any (option_copied first.entry) ++ name_if_any (option_copied last.entry))
        (map vector_bytes contents.now) }
{
    let (bytes, more) = contents.split_first()?;
    let Some(file) = first else {
        return if_long(last, bytes);
    };
    if bytes.len() > FILE_BYTES {
        return Some(file);
    }
    let (bytes, _) = more.split_first()?;
    if_long(last, bytes)
}

/// The first of the files with these contents that is too long: this one, those for partitions, and two more where there are such.
pub fn first_long<'a>(
    first: &'a str,
    others: PartFiles<'a>,
    upsets: Option<&'a str>,
    from: Option<&'a str>,
    contents: &[Vec<u8>],
) -> Option<&'a str>
    // The first of the files that has more bytes than a file may have.
    ensures value { option_copied result
        ≡ first_long
        (first.now ∷ file_names (seen_files others.entry) ++ name_if_any (option_copied upsets.entry)
        ++ name_if_any (option_copied from.entry))
        (map vector_bytes contents.now) }
{
    let (bytes, more) = contents.split_first()?;
    if bytes.len() > FILE_BYTES {
        return Some(first);
    }
    first_long_for_parts(others, upsets, from, more)
}

// The first of the files for partitions, and of two more where there are such, that is too long.
fn first_long_for_parts<'a>(
    files: PartFiles<'a>,
    upsets: Option<&'a str>,
    from: Option<&'a str>,
    contents: &[Vec<u8>],
) -> Option<&'a str>
    ensures value { option_copied result
        ≡ first_long (file_names (seen_files files.entry) ++ name_if_any (option_copied upsets.entry) ++ name_if_any (option_copied from.entry))
        (map vector_bytes contents.now) }
{
    let mut rest = files;
    let mut more = contents;
    while let Some((first, others)) = rest.split_first() {
        let (bytes, after) = more.split_first()?;
        if bytes.len() > FILE_BYTES {
            return Some(first.file);
        }
        rest = others;
        more = after;
    }
    first_long_of_two(upsets, from, more)
}

// The file, where there is one and its bytes are too long.
fn if_long<'a>(file: Option<&'a str>, bytes: &[u8]) -> Option<&'a str>
    ensures value { (contents : List (List ℕ))
        → option_copied result ≡ first_long (name_if_any (option_copied file.entry)) (bytes.now ∷ contents) }
{
    if bytes.len() > FILE_BYTES { file } else { None }
}

/// The content of the file after those for partitions, where there is one.
pub fn content_after<'a>(parts: PartFiles<'_>, contents: &'a [Vec<u8>]) -> &'a [u8]
    // The content of the file after those for partitions.
    ensures { result.now ≡ content (length (seen_files parts.entry)) (map vector_bytes contents.now) }
{
    let mut rest = parts;
    let mut more = contents;
    while let Some((_, others)) = rest.split_first() {
        match more.split_first() {
            Some((_, after)) => more = after,
            None => return b"",
        }
        rest = others;
    }
    match more.first() {
        Some(bytes) => bytes,
        None => b"",
    }
}

/// The content of the file after those for partitions and that of upsets, where there is one.
pub fn content_after_upsets<'a>(
    parts: PartFiles<'_>,
    upsets: Option<&str>,
    contents: &'a [Vec<u8>],
) -> &'a [u8]
    // The content of the file after those for partitions and, where there is one, that of upsets.
    ensures { result.now
        ≡ content (length (seen_files parts.entry) + length (name_if_any (option_copied upsets.entry)))
        (map vector_bytes contents.now) }
{
    match upsets {
        None => content_after(parts, contents),
        Some(_) => match contents.split_first() {
            Some((_, more)) => content_after(parts, more),
            None => b"",
        },
    }
}

/// The content of the first file, and those of the others.
pub fn split_contents(contents: &[Vec<u8>]) -> (&[u8], &[Vec<u8>])
    // The content of the first file, and those of the others.
    ensures first { result.0.now ≡ content 0 (map vector_bytes contents.now) }
    ensures others { map vector_bytes result.1.now ≡ drop 1 (map vector_bytes contents.now) }
{
    match contents.split_first() {
        Some((first, others)) => (first, others),
        None => (b"", contents),
    }
}
