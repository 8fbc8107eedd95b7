ghost use Rattle.std.specs.Prelude.{◌≤◌, map, IfSome};
ghost use Rattle.std.specs.String.{string_bytes};
ghost use Rattle.command_parts.specs.Reading.{Reads};
ghost use Rattle.command_parts.specs.Command.{asked_by, explain_of, explain_on, help_of, help_on};
ghost use Rattle.command_parts.specs.Command.{sizes_of, version_of};

use super::command::Command;
use super::command_words::{WordsFault, read_command, read_only_name};
use super::name::Name;
use super::options::number_up_to;
use command_texts::{is_explained, is_word};
use std::alloc::Global;

/// The greatest number that may be asked of.
pub const MOST_NUMBER: u64 = 255;

/// Reads a command by its word and the words behind it, also one that tells of texts or sizes.
pub fn read_asked(alloc: Global, word: &str, rest: &[String]) -> Result<Command, WordsFault>
    ensures { Reads (asked_by word.now (map string_bytes rest.now)) result }
{
    if word == "explain" {
        read_explain(rest)
    } else if word == "help" {
        read_help(alloc, rest)
    } else if word == "version" {
        read_version(rest)
    } else if word == "sizes" {
        read_sizes(alloc, rest)
    } else {
        read_command(alloc, word, rest)
    }
}

fn read_explain(words: &[String]) -> Result<Command, WordsFault>
    ensures { Reads (explain_of (map string_bytes words.now)) result }
{
    let Some((word, rest)) = words.split_first() else {
        return Ok(Command::Explain { number: None });
    };
    if rest.is_empty() {
        return explain_on(number_up_to(word.as_str(), MOST_NUMBER));
    }
    Err(WordsFault::Bad)
}

/// `explain` of a number that is printed.
fn explain_on(number: Option<u64>) -> Result<Command, WordsFault>
    requires { IfSome number (λ it. it ≤ MOST_NUMBER) }
    ensures { Reads (explain_on number) result }
{
    let Some(number) = number else {
        return Err(WordsFault::Bad);
    };
    let number = number as u8;
    if is_explained(number) {
        return Ok(Command::Explain {
            number: Some(number),
        });
    }
    Err(WordsFault::Bad)
}

fn read_help(alloc: Global, words: &[String]) -> Result<Command, WordsFault>
    ensures { Reads (help_of (map string_bytes words.now)) result }
{
    let Some((word, rest)) = words.split_first() else {
        return Ok(Command::Help { word: None });
    };
    if rest.is_empty() {
        return help_on(alloc, word.as_str());
    }
    Err(WordsFault::Bad)
}

/// `help` of a command.
fn help_on(alloc: Global, word: &str) -> Result<Command, WordsFault>
    ensures { Reads (help_on word.now) result }
{
    if is_word(word) {
        let word = Name::from_str(alloc, word)?;
        return Ok(Command::Help { word: Some(word) });
    }
    Err(WordsFault::Bad)
}

fn read_version(words: &[String]) -> Result<Command, WordsFault>
    ensures { Reads (version_of (map string_bytes words.now)) result }
{
    if words.is_empty() {
        Ok(Command::Version)
    } else {
        Err(WordsFault::Bad)
    }
}

fn read_sizes(alloc: Global, words: &[String]) -> Result<Command, WordsFault>
    ensures { Reads (sizes_of (map string_bytes words.now)) result }
{
    let amx = read_only_name(alloc, words)?;
    Ok(Command::Sizes { amx })
}
