//! The options of a replay, as words name them.

ghost use Rattle.std.specs.Prelude.{◌≡◌, ◌∷◌, [], MatchOption, false, option_copied, true};
ghost use Rattle.command_line.specs.Seen.{seen_replay, seen_replay_file};
ghost use Rattle.command_line.specs.lemmas.SeenTerms.{seen_replay_option};
ghost use Rattle.command_line.specs.Texts.{texts_of};
ghost use Rattle.command_line.specs.Words.{are_few, are_options_by, are_replay_options, first_file, replay_core, replay_files_in, replay_input, replay_kind_of, replay_option_of, replay_place, replay_upsets};

use crate::reading::is_file;

/// What a file is to a replay.
#[derive(Clone, Copy, Debug, PartialEq, Eq)]
pub enum ReplayKind {
    /// The input words of the partition.
    Input,
    /// Where the partition's core file is written.
    Core,
    /// The upsets, of which those of the partition strike.
    Upsets,
}

impl ReplayKind {
    // Its place among all kinds.
    fn place(self) -> u8
        ensures value { result ≡ replay_place self }
    {
        match self {
            ReplayKind::Input => 0,
            ReplayKind::Core => 1,
            ReplayKind::Upsets => 2,
        }
    }
}

/// An option of a replay: a file, and what it is there.
#[derive(Clone, Copy, Debug, PartialEq, Eq)]
pub struct ReplayFile<'a> {
    pub kind: ReplayKind,
    pub file: &'a str,
}

/// The options of a replay in the order of their words: at most one file of each kind.
#[derive(Clone, Copy, Debug, PartialEq, Eq)]
pub struct ReplayOptions<'a> {
    words: &'a [String],
}

impl<'a> ReplayOptions<'a> {
    /// The options that the words name, or `None` where they are no options of a replay.
    #[tactic(auto, unfolding(crate::specs::Words::are_replay_options))]
    pub(crate) fn new(words: &'a [String]) -> Option<ReplayOptions<'a>>
        ensures { MatchOption result (are_replay_options (texts_of words.now) ≡ false)
            (λ options. (are_replay_options (texts_of words.now) ≡ true) × (options.words.now ≡ words.now)) }
    {
        let options = ReplayOptions { words };
        if are_options(words)
            && options.has_few(ReplayKind::Input)
            && options.has_few(ReplayKind::Core)
            && options.has_few(ReplayKind::Upsets)
        {
            Some(options)
        } else {
            None
        }
    }

    /// The file of the partition's input words, where there is one.
    pub fn input(self) -> Option<&'a str>
        // The file of input words that a replay names, where it names one.
        ensures value { option_copied result ≡ replay_input (seen_replay self.entry) }
    {
        self.first_file(ReplayKind::Input)
    }

    /// Where the partition's core file is written, if it is.
    pub fn core(self) -> Option<&'a str>
        // The file that the core file of a replay becomes, where it names one.
        ensures value { option_copied result ≡ replay_core (seen_replay self.entry) }
    {
        self.first_file(ReplayKind::Core)
    }

    /// The file of upsets, where there is one.
    pub fn upsets(self) -> Option<&'a str>
        // The file of upsets that a replay names, where it names one.
        ensures value { option_copied result ≡ replay_upsets (seen_replay self.entry) }
    {
        self.first_file(ReplayKind::Upsets)
    }

    /// The first option and the others, or `None` where there is none.
    pub fn split_first(self) -> Option<(ReplayFile<'a>, ReplayOptions<'a>)>
        // The first option of a replay and the others, in the order of the words; none exactly where there is none.
        ensures value { MatchOption result (seen_replay self.entry ≡ [])
            (λ (first, others). seen_replay self.entry ≡ seen_replay_file first ∷ seen_replay others) }
    {
        match self.words {
            [option, word, others @ ..] => {
                let first = replay_option(option.as_str(), word.as_str())?;
                Some((first, ReplayOptions { words: others }))
            }
            _ => None,
        }
    }

    // The first file of this kind and the options after it, or `None` where no option names one.
    fn split_first_of(self, kind: ReplayKind) -> Option<(&'a str, ReplayOptions<'a>)>
        ensures value { MatchOption result (replay_files_in kind (seen_replay self.entry) ≡ [])
            (λ (file, others). replay_files_in kind (seen_replay self.entry) ≡ file.now ∷ replay_files_in kind (seen_replay others)) }
    {
        let mut rest = self;
        while let Some((first, others)) = rest.split_first() {
            if first.kind.place() == kind.place() {
                return Some((first.file, others));
            }
            rest = others;
        }
        None
    }

    // The first file of this kind, where an option names one.
    fn first_file(self, kind: ReplayKind) -> Option<&'a str>
        ensures value { option_copied result ≡ first_file (replay_files_in kind (seen_replay self.entry)) }
    {
        match self.split_first_of(kind) {
            Some((file, _)) => Some(file),
            None => None,
        }
    }

    // Whether one option at most names a file of this kind.
    fn has_few(self, kind: ReplayKind) -> bool
        ensures value { result ≡ are_few kind (seen_replay self.entry) }
    {
        match self.split_first_of(kind) {
            Some((_, others)) => others.split_first_of(kind).is_none(),
            None => true,
        }
    }
}

/// Whether the words are options of a replay.
fn are_options(words: &[String]) -> bool
    ensures value { result ≡ are_options_by replay_option_of (texts_of words.now) }
{
    let mut rest = words;
    while let [option, word, others @ ..] = rest {
        if replay_option(option.as_str(), word.as_str()).is_none() {
            return false;
        }
        rest = others;
    }
    rest.is_empty()
}

/// The option of a replay that two words spell.
fn replay_option<'a>(option: &str, word: &'a str) -> Option<ReplayFile<'a>>
    ensures value { seen_replay_option result ≡ replay_option_of option.now word.now }
{
    let kind = kind(option)?;
    if is_file(word) {
        Some(ReplayFile { kind, file: word })
    } else {
        None
    }
}

/// What a file is to its replay, by its option.
#[tactic(auto, unfolding(crate::specs::Words::replay_kind_of))]
fn kind(option: &str) -> Option<ReplayKind>
    ensures { result ≡ replay_kind_of option.now }
{
    if option == "--input" {
        Some(ReplayKind::Input)
    } else if option == "--core" {
        Some(ReplayKind::Core)
    } else if option == "--upset" {
        Some(ReplayKind::Upsets)
    } else {
        None
    }
}
