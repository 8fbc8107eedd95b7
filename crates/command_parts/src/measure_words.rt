ghost use Rattle.std.specs.Prelude.{◌≡◌, ◌<◌, ◌^◌, map};
ghost use Rattle.std.specs.String.{string_bytes};
ghost use Rattle.command_parts.specs.Reading.{Reads};
ghost use Rattle.command_parts.specs.Command.{functions_of, measure_by, sample_of, sample_with};
ghost use Rattle.command_parts.specs.Command.{unless_zero, usage_of};

use super::command::{Command, SampleWords};
use super::command_words::{WordsFault, read_only_name, read_two_names};
use super::name::Name;
use super::options::number_up_to;
use std::alloc::Global;

/// The most functions that a sample may be asked to have.
pub const MOST_FUNCTIONS: u64 = 500;

/// Reads a command that measures, by its word and the words behind it.
pub fn read_measure(alloc: Global, word: &str, rest: &[String]) -> Result<Command, WordsFault>
    ensures { Reads (measure_by word.now (map string_bytes rest.now)) result }
{
    if word == "sample" {
        read_sample(alloc, rest)
    } else if word == "usage" {
        read_usage(alloc, rest)
    } else {
        Err(WordsFault::Bad)
    }
}

fn read_sample(alloc: Global, words: &[String]) -> Result<Command, WordsFault>
    ensures { Reads (sample_of (map string_bytes words.now)) result }
{
    let (number, amx, rest) = read_two_names(alloc, words)?;
    if rest.is_empty() {
        sample_with(number.as_str(), amx)
    } else {
        Err(WordsFault::Bad)
    }
}

/// `sample` by its two words.
fn sample_with(number: &str, amx: Name) -> Result<Command, WordsFault>
    ensures { Reads (sample_with number.now amx) result }
{
    match functions_of(number) {
        Some(functions) => Ok(Command::Sample(SampleWords { functions, amx })),
        None => Err(WordsFault::Bad),
    }
}

/// How many functions a word asks for, where it is a number from 1 to the most.
fn functions_of(word: &str) -> Option<u32>
    ensures { result ≡ functions_of word.now }
{
    match number_up_to(word, MOST_FUNCTIONS) {
        Some(number) => unless_zero(number),
        None => None,
    }
}

/// A number that isn't 0.
fn unless_zero(number: u64) -> Option<u32>
    requires { number < 2 ^ 32 }
    ensures { result ≡ unless_zero number }
{
    if number == 0 {
        None
    } else {
        Some(number as u32)
    }
}

fn read_usage(alloc: Global, words: &[String]) -> Result<Command, WordsFault>
    ensures { Reads (usage_of (map string_bytes words.now)) result }
{
    let src = read_only_name(alloc, words)?;
    Ok(Command::Usage { src })
}
