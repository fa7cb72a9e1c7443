//! What words spell.

ghost use Rattle.std.specs.Prelude.{◌≡◌, ◌&&◌};
ghost use Rattle.command_line.specs.Seen.{command_seen, seen_command};
ghost use Rattle.command_line.specs.Texts.{texts_of};
ghost use Rattle.command_line.specs.Words.{Pack, Parse, ListGroups, are_part_files, asked, bare_of, by_verb, command_by_count, command_of, command_of_more, command_of_one, command_of_three, command_of_two, flows_command, format_command, generate_for, is_file, of_file, of_files, pack_command, part_files, plan_command, replay_by, replay_command, run_of, seed_of, ticks_of, part_number};

use crate::commands::Command;
use crate::numbers::{part, seed, ticks};
use crate::part_files::PartFiles;
use crate::replay_options::ReplayOptions;
use crate::run_options::RunOptions;
use crate::words::Words;

/// The command that the words spell, or `None` where they spell none.
#[tactic(auto, unfolding(crate::specs::Words::command_of))]
pub fn command(words: &Words) -> Option<Command<'_>>
    ensures { command_seen result ≡ command_of words.now }
{
    match words.texts() {
        [name, first, rest @ ..] => {
            if name.as_str() == "run" {
                run(first.as_str(), rest)
            } else if name.as_str() == "alone" {
                replay(first.as_str(), rest)
            } else {
                command_by_count(name.as_str(), first.as_str(), rest)
            }
        }
        _ => None,
    }
}

/// The command of a name and words whose number is fixed, or those of images.
#[tactic(auto, unfolding(crate::specs::Words::command_by_count))]
fn command_by_count<'a>(name: &str, first: &'a str, rest: &'a [String]) -> Option<Command<'a>>
    ensures { command_seen result ≡ command_by_count name.now first.now (texts_of rest.now) }
{
    match rest {
        [] => command_of_one(name, first),
        [second] => command_of_two(name, first, second.as_str()),
        [second, third] => command_of_three(name, first, second.as_str(), third.as_str()),
        [configuration, output, images @ ..] => {
            command_of_more(name, first, configuration.as_str(), output.as_str(), images)
        }
    }
}

/// The command of a name and one word.
#[tactic(auto, unfolding(crate::specs::Words::command_of_one))]
fn command_of_one<'a>(name: &str, first: &'a str) -> Option<Command<'a>>
    ensures { command_seen result ≡ command_of_one name.now first.now }
{
    if name == "flows" {
        list_groups(first)
    } else if name == "gen" {
        generate(first)
    } else {
        None
    }
}

/// The groups of the partitions of a system description, which the word names.
fn list_groups(description: &str) -> Option<Command<'_>>
    ensures { command_seen result ≡ of_file ListGroups description.now }
{
    if is_file(description) {
        Some(Command::ListGroups { description })
    } else {
        None
    }
}

/// The generation of a system out of the number that a word spells.
fn generate<'a>(word: &str) -> Option<Command<'a>>
    ensures { command_seen result ≡ generate_for (seed_of word.now) }
{
    match seed(word) {
        Some(number) => Some(Command::Generate { number }),
        None => None,
    }
}

/// The command of a name and two words.
#[tactic(auto, unfolding(crate::specs::Words::command_of_two))]
fn command_of_two<'a>(name: &str, first: &'a str, second: &'a str) -> Option<Command<'a>>
    ensures { command_seen result ≡ command_of_two name.now first.now second.now }
{
    if name == "bare" {
        bare(first, second)
    } else if name == "xmcparser" {
        parse(first, second)
    } else if name == "xmeformat" {
        format_command(first, second)
    } else if name == "xmpack" {
        pack_command(first, second)
    } else if name == "plan" {
        plan_command(first, second)
    } else if name == "flows" {
        flows_command(first, second)
    } else {
        None
    }
}

/// The command of a name and three words.
#[tactic(auto, unfolding(crate::specs::Words::command_of_three))]
fn command_of_three<'a>(
    name: &str,
    verb: &str,
    input: &'a str,
    output: &'a str,
) -> Option<Command<'a>>
    ensures { command_seen result ≡ command_of_three name.now verb.now input.now output.now }
{
    if name == "xmeformat" && verb == "build" {
        let command = Command::BuildImage {
            program: input,
            output,
        };
        of_files(input, output, command)
    } else if name == "xmcparser" && verb == "upgrade" {
        let command = Command::Upgrade {
            configuration: input,
            output,
        };
        of_files(input, output, command)
    } else {
        None
    }
}

/// The command of a name and four words or more.
#[tactic(auto, unfolding(crate::specs::Words::command_of_more))]
fn command_of_more<'a>(
    name: &str,
    verb: &str,
    configuration: &'a str,
    output: &'a str,
    images: &'a [String],
) -> Option<Command<'a>>
    ensures { command_seen result ≡ command_of_more name.now verb.now configuration.now output.now (texts_of images.now) }
{
    if name == "xmpack" && verb == "build" {
        pack(configuration, output, images)
    } else {
        None
    }
}

/// The run of an image that two words ask for.
fn bare<'a>(image: &'a str, count: &str) -> Option<Command<'a>>
    ensures { command_seen result ≡ bare_of (is_file image.now) image.now (ticks_of count.now) }
{
    if !is_file(image) {
        return None;
    }
    let ticks = ticks(count)?;
    Some(Command::Bare { image, ticks })
}

/// The run of a container with the options that the words spell.
fn run<'a>(container: &'a str, options: &'a [String]) -> Option<Command<'a>>
    ensures { command_seen result ≡ run_of container.now (texts_of options.now) }
{
    if !is_file(container) {
        return None;
    }
    let options = RunOptions::new(options)?;
    Some(Command::Run { container, options })
}

/// The replay that a container and further words ask for: a partition, its script, and options.
fn replay<'a>(container: &'a str, rest: &'a [String]) -> Option<Command<'a>>
    ensures { command_seen result ≡ replay_command container.now (texts_of rest.now) }
{
    match rest {
        [word, script, options @ ..] => {
            replay_by(container, word.as_str(), script.as_str(), options)
        }
        _ => None,
    }
}

/// The replay of a partition by its script, with the options that the words spell.
fn replay_by<'a>(
    container: &'a str,
    word: &str,
    script: &'a str,
    options: &'a [String],
) -> Option<Command<'a>>
    ensures { command_seen result ≡ replay_by (is_file container.now && is_file script.now) container.now (part_number word.now) script.now (texts_of options.now) }
{
    if !is_file(container) || !is_file(script) {
        return None;
    }
    let part = part(word)?;
    let options = ReplayOptions::new(options)?;
    Some(Command::Replay {
        container,
        part,
        script,
        options,
    })
}

/// The configuration that two words ask for.
fn parse<'a>(description: &'a str, output: &'a str) -> Option<Command<'a>>
    ensures { command_seen result ≡ of_files Parse description.now output.now }
{
    let command = Command::Parse {
        description,
        output,
    };
    of_files(description, output, command)
}

/// The command of two files, where their words name some.
fn of_files<'a>(first: &str, second: &str, command: Command<'a>) -> Option<Command<'a>>
    ensures { command_seen result ≡ asked (is_file first.now && is_file second.now) (seen_command command.entry) }
{
    if is_file(first) && is_file(second) {
        Some(command)
    } else {
        None
    }
}

/// The container that two words and the words of the images ask for.
fn pack<'a>(configuration: &'a str, output: &'a str, images: &'a [String]) -> Option<Command<'a>>
    ensures { command_seen result ≡ asked (is_file configuration.now && is_file output.now && are_part_files (texts_of images.now)) (Pack configuration.now output.now (part_files (texts_of images.now))) }
{
    if !is_file(configuration) || !is_file(output) {
        return None;
    }
    let images = PartFiles::new(images)?;
    Some(Command::Pack {
        configuration,
        output,
        images,
    })
}

/// What `xmeformat` is asked to do with a file.
#[tactic(auto, unfolding(crate::specs::Words::format_command))]
fn format_command<'a>(verb: &str, image: &'a str) -> Option<Command<'a>>
    ensures { command_seen result ≡ format_command verb.now image.now }
{
    if verb == "read" && is_file(image) {
        Some(Command::ReadImage { image })
    } else {
        None
    }
}

/// What `flows` is asked to print of a file besides groups.
#[tactic(auto, unfolding(crate::specs::Words::flows_command))]
fn flows_command<'a>(option: &str, description: &'a str) -> Option<Command<'a>>
    ensures { command_seen result ≡ flows_command option.now description.now }
{
    if option == "--steering" && is_file(description) {
        Some(Command::ListSteerers { description })
    } else {
        None
    }
}

/// What `xmpack` is asked to do with a file.
fn pack_command<'a>(verb: &str, container: &'a str) -> Option<Command<'a>>
    ensures { command_seen result ≡ pack_command verb.now container.now }
{
    let list = Command::ListContainer { container };
    let check = Command::CheckContainer { container };
    by_verb(verb, container, "list", list, "check", check)
}

/// What `plan` is asked to do with a file.
fn plan_command<'a>(verb: &str, description: &'a str) -> Option<Command<'a>>
    ensures { command_seen result ≡ plan_command verb.now description.now }
{
    let make = Command::MakePlan { description };
    let check = Command::CheckPlan { description };
    by_verb(verb, description, "make", make, "check", check)
}

/// The command of a file that one of two verbs asks for.
#[tactic(auto, unfolding(crate::specs::Words::by_verb))]
fn by_verb<'a>(
    verb: &str,
    file: &str,
    one: &str,
    first: Command<'a>,
    other: &str,
    second: Command<'a>,
) -> Option<Command<'a>>
    ensures { command_seen result ≡ by_verb (is_file file.now) verb.now one.now (seen_command first.entry) other.now (seen_command second.entry) }
{
    if !is_file(file) {
        None
    } else if verb == one {
        Some(first)
    } else if verb == other {
        Some(second)
    } else {
        None
    }
}

/// Whether the word names a file.
#[tactic(auto, unfolding(crate::specs::Words::is_file))]
pub(crate) fn is_file(word: &str) -> bool
    ensures { result ≡ is_file word.now }
{
    !word.is_empty() && !word.as_bytes().starts_with(b"--")
}
