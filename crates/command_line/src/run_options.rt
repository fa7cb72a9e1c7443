//! The options of a run, as words name them.

ghost use Rattle.std.specs.Prelude.{◌≡◌, ◌∷◌, [], MatchOption, false, length, nat_eq, option_copied, true};
ghost use Rattle.command_line.specs.Seen.{seen_file, seen_files, seen_option, seen_options};
ghost use Rattle.command_line.specs.lemmas.SeenTerms.{seen_part_file, seen_run_option};
ghost use Rattle.command_line.specs.Texts.{texts_of};
ghost use Rattle.command_line.specs.Words.{are_kinds_apart, are_options, are_run_options, are_single, begins_once, cores_in, file_by, files_in, first_file, from_in, inputs_in, is_single, kind_of, kind_place, option_for, option_whole, part_file_of, run_file_by, run_files_in, run_kind_of, run_option_of, run_options, run_place, save_in, scripts_in, span_in, span_of, spans_in, upsets_in};

use crate::commands::Span;
use crate::numbers::{frames, ticks};
use crate::part_files::{PartFile, PartFiles, part_file};
use crate::reading::is_file;

/// What a file for a partition is to a run.
#[derive(Clone, Copy, Debug, PartialEq, Eq)]
pub enum FileKind {
    /// The input words of the partition.
    Input,
    /// Where the partition's core file is written.
    Core,
    /// Where the partition's script is written: the file of all that it receives.
    Script,
}

impl FileKind {
    // Its place among all kinds.
    fn place(self) -> u8
        ensures value { result ≡ kind_place self }
    {
        match self {
            FileKind::Input => 0,
            FileKind::Core => 1,
            FileKind::Script => 2,
        }
    }
}

/// What a file is to a whole run.
#[derive(Clone, Copy, Debug, PartialEq, Eq)]
pub enum RunKind {
    /// The upsets that strike.
    Upsets,
    /// The saved machine that the run goes on from.
    From,
    /// Where the machine after the run is saved.
    Save,
}

impl RunKind {
    // Its place among all kinds.
    fn place(self) -> u8
        ensures value { result ≡ run_place self }
    {
        match self {
            RunKind::Upsets => 0,
            RunKind::From => 1,
            RunKind::Save => 2,
        }
    }
}

/// An option of a run.
#[derive(Clone, Copy, Debug, PartialEq, Eq)]
pub enum RunOption<'a> {
    /// How long the run is.
    Length(Span),
    /// A file for the whole run.
    ForRun(RunKind, &'a str),
    /// A file for a partition.
    ForPart(FileKind, PartFile<'a>),
}

impl<'a> RunOption<'a> {
    // The file, where the option names one of this kind.
    fn file(self, kind: FileKind) -> Option<PartFile<'a>>
        ensures value { seen_part_file result ≡ file_by kind (seen_option self.entry) }
    {
        match self {
            RunOption::Length(_) => None,
            RunOption::ForRun(_, _) => None,
            RunOption::ForPart(other, file) => {
                if other.place() == kind.place() {
                    Some(file)
                } else {
                    None
                }
            }
        }
    }

    // The file for the whole run, where the option names one of this kind.
    fn run_file(self, kind: RunKind) -> Option<&'a str>
        ensures value { option_copied result ≡ run_file_by kind (seen_option self.entry) }
    {
        match self {
            RunOption::Length(_) => None,
            RunOption::ForRun(other, file) => {
                if other.place() == kind.place() {
                    Some(file)
                } else {
                    None
                }
            }
            RunOption::ForPart(_, _) => None,
        }
    }
}

/// The options of a run in the order of their words: one length, at most one file of each kind for the whole run, and at most one file of each kind for each
/// partition; no input words and no scripts where the run goes on from a saved machine.
#[derive(Clone, Copy, Debug, PartialEq, Eq)]
pub struct RunOptions<'a> {
    words: &'a [String],
}

impl<'a> RunOptions<'a> {
    /// The options that the words name, or `None` where they are no options of a run.
    #[tactic(auto, unfolding(crate::specs::Words::are_run_options))]
    pub(crate) fn new(words: &'a [String]) -> Option<RunOptions<'a>>
        ensures { MatchOption result (are_run_options (texts_of words.now) ≡ false)
            (λ options. (are_run_options (texts_of words.now) ≡ true) × (options.words.now ≡ words.now)) }
    {
        let options = RunOptions { words };
        if are_options(words)
            && options.has_one_span()
            && options.are_single()
            && options.are_kinds_apart()
            && options.begins_once()
        {
            Some(options)
        } else {
            None
        }
    }

    /// How long the run is.
    pub fn span(self) -> Span
        // How long the run is: the first and only length among its options.
        ensures value { result ≡ span_in (seen_options self.entry) }
    {
        match self.split_first_span() {
            Some((span, _)) => span,
            None => Span::Ticks(0),
        }
    }

    /// The file of the upsets that strike, where there is one.
    pub fn upsets(self) -> Option<&'a str>
        // The file of upsets that a run names, where it names one.
        ensures value { option_copied result ≡ upsets_in (seen_options self.entry) }
    {
        self.first_file(RunKind::Upsets)
    }

    /// The saved machine that the run goes on from, where there is one.
    pub fn from(self) -> Option<&'a str>
        // The file of the saved machine that a run goes on from, where it names one.
        ensures value { option_copied result ≡ from_in (seen_options self.entry) }
    {
        self.first_file(RunKind::From)
    }

    /// Where the machine after the run is saved, if it is.
    pub fn save(self) -> Option<&'a str>
        // The file that the machine after a run is saved to, where it names one.
        ensures value { option_copied result ≡ save_in (seen_options self.entry) }
    {
        self.first_file(RunKind::Save)
    }

    /// The inputs of partitions in the order of their words.
    pub fn inputs(self) -> PartFiles<'a>
        ensures value { seen_files result ≡ inputs_in (seen_options self.entry) }
    {
        PartFiles::of_options(FileKind::Input, self.words)
    }

    /// The core files of partitions in the order of their words.
    pub fn cores(self) -> PartFiles<'a>
        ensures value { seen_files result ≡ cores_in (seen_options self.entry) }
    {
        PartFiles::of_options(FileKind::Core, self.words)
    }

    /// The scripts of partitions in the order of their words.
    pub fn scripts(self) -> PartFiles<'a>
        ensures value { seen_files result ≡ scripts_in (seen_options self.entry) }
    {
        PartFiles::of_options(FileKind::Script, self.words)
    }

    /// The first option and the others, or `None` where there is none.
    pub fn split_first(self) -> Option<(RunOption<'a>, RunOptions<'a>)>
        // The first option of a run and the others, in the order of the words; none exactly where there is none.
        ensures value { MatchOption result (seen_options self.entry ≡ [])
            (λ (first, others). seen_options self.entry ≡ seen_option first ∷ seen_options others) }
    {
        match self.words {
            [option, word, others @ ..] => {
                let first = run_option(option.as_str(), word.as_str())?;
                Some((first, RunOptions { words: others }))
            }
            _ => None,
        }
    }

    // The first length and the options after it, or `None` where no option says how long the run is.
    fn split_first_span(self) -> Option<(Span, RunOptions<'a>)>
        ensures value { MatchOption result (spans_in (seen_options self.entry) ≡ [])
            (λ (span, others). spans_in (seen_options self.entry) ≡ span ∷ spans_in (seen_options others)) }
    {
        let mut rest = self;
        while let Some((first, others)) = rest.split_first() {
            if let RunOption::Length(span) = first {
                return Some((span, others));
            }
            rest = others;
        }
        None
    }

    // The first file of this kind for the whole run and the options after it, or `None` where no option names one.
    fn split_first_of(self, kind: RunKind) -> Option<(&'a str, RunOptions<'a>)>
        ensures value { MatchOption result (run_files_in kind (seen_options self.entry) ≡ [])
            (λ (file, others). run_files_in kind (seen_options self.entry) ≡ file.now ∷ run_files_in kind (seen_options others)) }
    {
        let mut rest = self;
        while let Some((first, others)) = rest.split_first() {
            if let Some(file) = first.run_file(kind) {
                return Some((file, others));
            }
            rest = others;
        }
        None
    }

    // The first file of this kind for the whole run, where an option names one.
    fn first_file(self, kind: RunKind) -> Option<&'a str>
        ensures value { option_copied result ≡ first_file (run_files_in kind (seen_options self.entry)) }
    {
        match self.split_first_of(kind) {
            Some((file, _)) => Some(file),
            None => None,
        }
    }

    // Whether exactly one option says how long the run is.
    fn has_one_span(self) -> bool
        ensures value { result ≡ nat_eq (length (spans_in (seen_options self.entry))) 1 }
    {
        match self.split_first_span() {
            Some((_, others)) => others.split_first_span().is_none(),
            None => false,
        }
    }

    // Whether one option at most names a file of this kind for the whole run.
    fn is_single(self, kind: RunKind) -> bool
        ensures value { result ≡ is_single kind (seen_options self.entry) }
    {
        match self.split_first_of(kind) {
            Some((_, others)) => others.split_first_of(kind).is_none(),
            None => true,
        }
    }

    // Whether one option at most names a file of each kind for the whole run.
    fn are_single(self) -> bool
        ensures value { result ≡ are_single (seen_options self.entry) }
    {
        self.is_single(RunKind::Upsets)
            && self.is_single(RunKind::From)
            && self.is_single(RunKind::Save)
    }

    // Whether no option names a file of this kind for the whole run.
    fn has_none(self, kind: RunKind) -> bool
        ensures value { result ≡ nat_eq (length (run_files_in kind (seen_options self.entry))) 0 }
    {
        self.split_first_of(kind).is_none()
    }

    // Whether the run begins in one way: it has no input words and no scripts where it goes on from a saved machine.
    fn begins_once(self) -> bool
        ensures value { result ≡ begins_once (seen_options self.entry) }
    {
        self.has_none(RunKind::From) || (self.inputs().is_empty() && self.scripts().is_empty())
    }

    // Whether each partition has one file of each kind at most.
    fn are_kinds_apart(self) -> bool
        ensures value { result ≡ are_kinds_apart (seen_options self.entry) }
    {
        self.inputs().are_apart() && self.cores().are_apart() && self.scripts().are_apart()
    }
}

/// The first file of this kind among the options that the words spell, and the words after it.
pub(crate) fn first_of_kind(kind: FileKind, words: &[String]) -> Option<(PartFile<'_>, &[String])>
    ensures value { MatchOption result (files_in kind (run_options (texts_of words.now)) ≡ [])
        (λ (first, others). files_in kind (run_options (texts_of words.now)) ≡ seen_file first ∷ files_in kind (run_options (texts_of others.now))) }
{
    let mut rest = RunOptions { words };
    while let Some((first, others)) = rest.split_first() {
        if let Some(file) = first.file(kind) {
            return Some((file, others.words));
        }
        rest = others;
    }
    None
}

/// Whether the words are options of a run.
fn are_options(words: &[String]) -> bool
    ensures value { result ≡ are_options (texts_of words.now) }
{
    let mut rest = words;
    while let [option, word, others @ ..] = rest {
        if run_option(option.as_str(), word.as_str()).is_none() {
            return false;
        }
        rest = others;
    }
    rest.is_empty()
}

/// The option of a run that two words spell.
#[tactic(auto, unfolding(crate::specs::Words::run_option_of))]
fn run_option<'a>(option: &str, word: &'a str) -> Option<RunOption<'a>>
    ensures value { seen_run_option result ≡ run_option_of option.now word.now }
{
    match span(option, word) {
        Some(span) => Some(RunOption::Length(span)),
        None => match for_run(run_kind(option), word) {
            Some(whole) => Some(whole),
            None => for_part(kind(option), word),
        },
    }
}

/// How long the run is that an option and its number ask for.
#[tactic(auto, unfolding(crate::specs::Words::span_of))]
fn span(option: &str, count: &str) -> Option<Span>
    ensures { result ≡ span_of option.now count.now }
{
    if option == "--frames" {
        frames(count).map(Span::Frames)
    } else if option == "--ticks" {
        ticks(count).map(Span::Ticks)
    } else {
        None
    }
}

/// What a file is to a whole run, by its option.
#[tactic(auto, unfolding(crate::specs::Words::run_kind_of))]
fn run_kind(option: &str) -> Option<RunKind>
    ensures { result ≡ run_kind_of option.now }
{
    if option == "--upset" {
        Some(RunKind::Upsets)
    } else if option == "--from" {
        Some(RunKind::From)
    } else if option == "--save" {
        Some(RunKind::Save)
    } else {
        None
    }
}

/// The option with a file for the whole run, where there is a kind and the word names a file.
fn for_run(kind: Option<RunKind>, file: &str) -> Option<RunOption<'_>>
    ensures { seen_run_option result ≡ option_whole kind file.now }
{
    let kind = kind?;
    if is_file(file) {
        Some(RunOption::ForRun(kind, file))
    } else {
        None
    }
}

/// What a file is to its run, by its option.
#[tactic(auto, unfolding(crate::specs::Words::kind_of))]
fn kind(option: &str) -> Option<FileKind>
    ensures { result ≡ kind_of option.now }
{
    if option == "--input" {
        Some(FileKind::Input)
    } else if option == "--core" {
        Some(FileKind::Core)
    } else if option == "--script" {
        Some(FileKind::Script)
    } else {
        None
    }
}

/// The option with a file for a partition, where there is a kind and the word names a file.
fn for_part(kind: Option<FileKind>, word: &str) -> Option<RunOption<'_>>
    ensures { seen_run_option result ≡ option_for kind (part_file_of word.now) }
{
    let kind = kind?;
    let file = part_file(word)?;
    Some(RunOption::ForPart(kind, file))
}
