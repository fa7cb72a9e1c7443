//! Files for partitions, as words name them.

ghost use Rattle.std.specs.Prelude.{◌≡◌, ◌∷◌, [], MatchOption, None, false, length, nat_eq, true};
ghost use Rattle.command_line.specs.Seen.{seen_file, seen_files};
ghost use Rattle.command_line.specs.lemmas.SeenTerms.{seen_part_file};
ghost use Rattle.command_line.specs.Texts.{texts_of};
ghost use Rattle.command_line.specs.Words.{are_apart, are_named, are_part_files, files_in, has_part, is_file, part_file_by, part_file_of, part_files, run_options};

use crate::numbers::part;
use crate::reading::is_file;
use crate::run_options::{FileKind, first_of_kind};
use xm_base::PartId;

/// A file for a partition: a word `P=FILE`, split at its first `=`.
#[derive(Clone, Copy, Debug, PartialEq, Eq)]
pub struct PartFile<'a> {
    pub part: PartId,
    pub file: &'a str,
}

/// Files for partitions in the order of their words, at most one for each partition.
#[derive(Clone, Copy, Debug, PartialEq, Eq)]
pub struct PartFiles<'a> {
    // What the options are that name the files, or `None` where each word names one.
    option: Option<FileKind>,
    words: &'a [String],
}

impl<'a> PartFiles<'a> {
    /// The files that the words name, or `None` where they are no files for partitions.
    #[tactic(auto, unfolding(crate::specs::Words::are_part_files))]
    pub(crate) fn new(words: &'a [String]) -> Option<PartFiles<'a>>
        ensures { MatchOption result (are_part_files (texts_of words.now) ≡ false)
            (λ files. (are_part_files (texts_of words.now) ≡ true) × (files.option ≡ None) × (files.words.now ≡ words.now)) }
    {
        let files = PartFiles {
            option: None,
            words,
        };
        if !words.is_empty() && are_named(words) && files.are_apart() {
            Some(files)
        } else {
            None
        }
    }

    /// No files.
    pub fn none() -> PartFiles<'a>
        ensures value { seen_files result ≡ [] }
    {
        PartFiles {
            option: None,
            words: &[],
        }
    }

    /// The files of a kind that the options of a run name.
    pub(crate) fn of_options(kind: FileKind, words: &'a [String]) -> PartFiles<'a>
        ensures value { seen_files result ≡ files_in kind (run_options (texts_of words.now)) }
    {
        PartFiles {
            option: Some(kind),
            words,
        }
    }

    /// The first file and the others, or `None` where there is none.
    pub fn split_first(self) -> Option<(PartFile<'a>, PartFiles<'a>)>
        // The first of the files for partitions that a command names, and the others; none exactly where there is none.
        ensures value { MatchOption result (seen_files self.entry ≡ [])
            (λ (first, others). seen_files self.entry ≡ seen_file first ∷ seen_files others) }
    {
        let (first, words) = match self.option {
            Some(kind) => first_of_kind(kind, self.words)?,
            None => first_of_words(self.words)?,
        };
        Some((first, PartFiles { words, ..self }))
    }

    // Whether there is no file.
    pub(crate) fn is_empty(self) -> bool
        ensures value { result ≡ nat_eq (length (seen_files self.entry)) 0 }
    {
        self.split_first().is_none()
    }

    // Whether there is a file for the partition.
    fn has_part(self, part: PartId) -> bool
        ensures value { result ≡ has_part part (seen_files self.entry) }
    {
        let mut rest = self;
        while let Some((first, others)) = rest.split_first() {
            if first.part == part {
                return true;
            }
            rest = others;
        }
        false
    }

    // Whether each partition has one file at most.
    pub(crate) fn are_apart(self) -> bool
        ensures value { result ≡ are_apart (seen_files self.entry) }
    {
        let mut rest = self;
        while let Some((first, others)) = rest.split_first() {
            if others.has_part(first.part) {
                return false;
            }
            rest = others;
        }
        true
    }
}

/// The file that the first word names, and the other words.
fn first_of_words(words: &[String]) -> Option<(PartFile<'_>, &[String])>
    ensures value { MatchOption result (part_files (texts_of words.now) ≡ [])
        (λ (first, others). part_files (texts_of words.now) ≡ seen_file first ∷ part_files (texts_of others.now)) }
{
    let (word, others) = words.split_first()?;
    let first = part_file(word)?;
    Some((first, others))
}

/// Whether each word names a file for a partition.
fn are_named(words: &[String]) -> bool
    ensures value { result ≡ are_named (texts_of words.now) }
{
    for word in words {
        if part_file(word.as_str()).is_none() {
            return false;
        }
    }
    true
}

/// The file for a partition that a word names.
#[tactic(auto, unfolding(crate::specs::Words::part_file_of))]
pub(crate) fn part_file(word: &str) -> Option<PartFile<'_>>
    ensures value { seen_part_file result ≡ part_file_of word.now }
{
    match word.split_once('=') {
        Some((part_word, file)) => named(part(part_word), file),
        None => None,
    }
}

/// The file for a partition, where there is a partition and the word names a file.
fn named(part: Option<PartId>, file: &str) -> Option<PartFile<'_>>
    ensures value { seen_part_file result ≡ part_file_by part (is_file file.now) file.now }
{
    let part = part?;
    if is_file(file) {
        Some(PartFile { part, file })
    } else {
        None
    }
}
