ghost use Rattle.std.specs.Prelude.{◌≡◌, ◌↔◌, codes, map, take, unwrap_or, Some, None, IfOk, IfErr};
ghost use Rattle.std.specs.Prelude.{IsTrue};
ghost use Rattle.std.specs.String.{string_bytes};
ghost use Rattle.command_parts.specs.Reading.{Reads, IsBad};
ghost use Rattle.command_parts.specs.Command.{command_of, command_by, compile_of, compact_of};
ghost use Rattle.command_parts.specs.Command.{compact_word, verify_of, list_of, run_of, go_of};
ghost use Rattle.command_parts.specs.Command.{resume_of, assemble_of, many_of};
ghost use Rattle.command_parts.specs.Command.{run_with, resume_with, go_with};
ghost use Rattle.command_parts.specs.Command.{is_plain, first_plain, optional_plain};
ghost use Rattle.command_parts.specs.Front.{AreImageWords, AreTwoNames, IsOnlyName, NoTwoNames};

use super::asked_words::read_asked;
use super::command::{AssembleWords, Command, CompileWords, GoWords, ResumeWords, RunWords};
use super::measure_words::read_measure;
use super::name::Name;
use super::options::{DEFAULT_SLEEPS, DEFAULT_STEPS, Options, read_options};
use host_run::MAIN;
use pawn_base::{Bytes, Memory};
use std::alloc::Global;
use thiserror::Error;

/// Why words are no command.
#[derive(Clone, Copy, Debug, PartialEq, Eq, Error)]
pub enum WordsFault {
    #[error("bad words")]
    Bad,
    #[error("no memory")]
    Memory,
}

impl From<Memory> for WordsFault {
    ghost use Rattle.std.specs.Prelude.{◌≡◌};
    ghost use Rattle.command_parts.specs.declared.command_words.WordsFault.TheVariants as variants;

    ghost from_gives = { λ _ fault. fault ≡ variants.Memory };

    fn from(_: Memory) -> WordsFault {
        WordsFault::Memory
    }
}

/// The names of a file, of its script and of its image, and options.
#[derive(Drop)]
struct ImageWords {
    amx: Name,
    script: Name,
    image: Name,
    options: Options,
}

/// Reads the words behind the program's name: a command's word, its plain words in order, then
/// options in any order.
pub fn read_words(alloc: Global, words: &[String]) -> Result<Command, WordsFault>
    ensures { Reads (command_of (map string_bytes words.now)) result }
{
    let Some((word, rest)) = words.split_first() else {
        return Err(WordsFault::Bad);
    };
    read_asked(alloc, word.as_str(), rest)
}

/// Reads a command by its word and the words behind it.
pub fn read_command(alloc: Global, word: &str, rest: &[String]) -> Result<Command, WordsFault>
    ensures { Reads (command_by word.now (map string_bytes rest.now)) result }
{
    if word == "verify" {
        read_verify(alloc, rest)
    } else if word == "list" {
        read_list(alloc, rest)
    } else if word == "run" {
        read_run(alloc, rest)
    } else if word == "resume" {
        read_resume(alloc, rest)
    } else if word == "go" {
        read_go(alloc, rest)
    } else if word == "compile" {
        read_compile(alloc, rest)
    } else if word == "assemble" {
        read_assemble(alloc, rest)
    } else if word == "many" {
        read_many(alloc, rest)
    } else {
        read_measure(alloc, word, rest)
    }
}

fn read_verify(alloc: Global, words: &[String]) -> Result<Command, WordsFault>
    ensures { Reads (verify_of (map string_bytes words.now)) result }
{
    let amx = read_only_name(alloc, words)?;
    Ok(Command::Verify { amx })
}

fn read_list(alloc: Global, words: &[String]) -> Result<Command, WordsFault>
    ensures { Reads (list_of (map string_bytes words.now)) result }
{
    let amx = read_only_name(alloc, words)?;
    Ok(Command::List { amx })
}

fn read_run(alloc: Global, words: &[String]) -> Result<Command, WordsFault>
    ensures { Reads (run_of (map string_bytes words.now)) result }
{
    let words = read_image_words(alloc, words)?;
    run_with(alloc, words)
}

fn read_resume(alloc: Global, words: &[String]) -> Result<Command, WordsFault>
    ensures { Reads (resume_of (map string_bytes words.now)) result }
{
    let words = read_image_words(alloc, words)?;
    resume_with(words)
}

fn read_go(alloc: Global, words: &[String]) -> Result<Command, WordsFault>
    ensures { Reads (go_of (map string_bytes words.now)) result }
{
    let (src, amx, words) = read_two_names(alloc, words)?;
    let (script, words) = read_optional_name(alloc, words)?;
    let options = read_options(alloc, words)?;
    go_with(src, amx, script, options)
}

fn read_compile(alloc: Global, words: &[String]) -> Result<Command, WordsFault>
    ensures { Reads (compile_of (map string_bytes words.now)) result }
{
    let (src, amx, words) = read_two_names(alloc, words)?;
    match read_compact(words) {
        Some(compact) => Ok(Command::Compile(CompileWords { src, amx, compact })),
        None => Err(WordsFault::Bad),
    }
}

fn read_assemble(alloc: Global, words: &[String]) -> Result<Command, WordsFault>
    ensures { Reads (assemble_of (map string_bytes words.now)) result }
{
    let (text, amx, words) = read_two_names(alloc, words)?;
    match read_compact(words) {
        Some(compact) => Ok(Command::Assemble(AssembleWords { text, amx, compact })),
        None => Err(WordsFault::Bad),
    }
}

fn read_many(alloc: Global, words: &[String]) -> Result<Command, WordsFault>
    ensures { Reads (many_of (map string_bytes words.now)) result }
{
    let plan = read_only_name(alloc, words)?;
    Ok(Command::Many { plan })
}

/// Reads the names of a file, of its script and of its image, then options.
fn read_image_words(alloc: Global, words: &[String]) -> Result<ImageWords, WordsFault>
    ensures { AreImageWords (map string_bytes words.now) result }
{
    let (amx, script, words) = read_two_names(alloc, words)?;
    let (image, words) = read_name(alloc, words)?;
    let options = read_options(alloc, words)?;
    Ok(ImageWords {
        amx,
        script,
        image,
        options,
    })
}

/// Whether compact cells are asked for, by the words behind the plain ones.
fn read_compact(words: &[String]) -> Option<bool>
    ensures { result ≡ compact_of (map string_bytes words.now) }
{
    let Some((word, rest)) = words.split_first() else {
        return Some(false);
    };
    if rest.is_empty() {
        return compact_word(word.as_str());
    }
    None
}

/// That compact cells are asked for, by the one word that says so.
fn compact_word(word: &str) -> Option<bool>
    ensures { result ≡ compact_word word.now }
{
    if word == "--compact" {
        Some(true)
    } else {
        None
    }
}

/// `run` with its options.
fn run_with(alloc: Global, words: ImageWords) -> Result<Command, WordsFault>
    ensures { Reads (run_with words.amx words.script words.image words.options) result }
{
    let ImageWords {
        amx,
        script,
        image,
        options,
    } = words;
    let Options {
        steps,
        sleeps,
        entry,
        count,
    } = options;
    if sleeps.is_some() {
        return Err(WordsFault::Bad);
    }
    let entry = entry_or_main(alloc, entry)?;
    Ok(Command::Run(RunWords {
        amx,
        script,
        image,
        steps: steps.unwrap_or(DEFAULT_STEPS),
        entry,
        count,
    }))
}

/// `resume` with its options.
fn resume_with(words: ImageWords) -> Result<Command, WordsFault>
    ensures { Reads (resume_with words.amx words.script words.image words.options) result }
{
    let ImageWords {
        amx,
        script,
        image,
        options,
    } = words;
    if options.sleeps.is_some() {
        return Err(WordsFault::Bad);
    }
    if options.entry.is_some() {
        return Err(WordsFault::Bad);
    }
    Ok(Command::Resume(ResumeWords {
        amx,
        script,
        image,
        steps: options.steps.unwrap_or(DEFAULT_STEPS),
        count: options.count,
    }))
}

/// `go` with its options.
fn go_with(
    src: Name,
    amx: Name,
    script: Option<Name>,
    options: Options,
) -> Result<Command, WordsFault>
    ensures { Reads (go_with src amx script options) result }
{
    if options.entry.is_some() {
        return Err(WordsFault::Bad);
    }
    Ok(Command::Go(GoWords {
        src,
        amx,
        script,
        steps: options.steps.unwrap_or(DEFAULT_STEPS),
        sleeps: options.sleeps.unwrap_or(DEFAULT_SLEEPS),
        count: options.count,
    }))
}

/// The entry that is given, or else main.
fn entry_or_main(alloc: Global, entry: Option<Bytes>) -> Result<Bytes, WordsFault>
    ensures given { IfOk result (λ name. name ≡ unwrap_or entry MAIN) }
    ensures free { IfErr result (λ fault. fault ≡ WordsFault.Memory) }
{
    match entry {
        Some(name) => Ok(name),
        None => Ok(Bytes::from_slice(alloc, &MAIN)?),
    }
}

/// Reads a plain word with nothing behind it.
pub fn read_only_name(alloc: Global, words: &[String]) -> Result<Name, WordsFault>
    ensures { IsOnlyName (map string_bytes words.now) result }
{
    let (name, rest) = read_name(alloc, words)?;
    if rest.is_empty() {
        Ok(name)
    } else {
        Err(WordsFault::Bad)
    }
}

/// Reads two plain words, and gives the words behind them.
pub fn read_two_names(
    alloc: Global,
    words: &[String],
) -> Result<(Name, Name, &[String]), WordsFault>
    ensures plain { IfOk result (λ it. AreTwoNames (map string_bytes words.now) it.0 it.1
        (map string_bytes it.2.now)) }
    ensures bad { IfErr result (NoTwoNames (map string_bytes words.now)) }
{
    let (first, words) = read_name(alloc, words)?;
    let (second, words) = read_name(alloc, words)?;
    Ok((first, second, words))
}

/// Reads a plain word, and gives the words behind it.
fn read_name(alloc: Global, words: &[String]) -> Result<(Name, &[String]), WordsFault>
    ensures plain { IfOk result (λ it. first_plain (map string_bytes words.now)
        ≡ Some (it.0, map string_bytes it.1.now)) }
    ensures bad { IfErr result (λ fault.
        IsBad fault (first_plain (map string_bytes words.now) ≡ None)) }
{
    let Some((word, rest)) = words.split_first() else {
        return Err(WordsFault::Bad);
    };
    if is_plain(word.as_str()) {
        let name = Name::from_str(alloc, word.as_str())?;
        return Ok((name, rest));
    }
    Err(WordsFault::Bad)
}

/// Reads a plain word that may be left out.
fn read_optional_name(
    alloc: Global,
    words: &[String],
) -> Result<(Option<Name>, &[String]), WordsFault>
    ensures taken { IfOk result (λ it. optional_plain (map string_bytes words.now)
        ≡ (it.0, map string_bytes it.1.now)) }
    ensures free { IfErr result (λ fault. fault ≡ WordsFault.Memory) }
{
    let Some((word, rest)) = words.split_first() else {
        return Ok((None, words));
    };
    if is_plain(word.as_str()) {
        let name = Name::from_str(alloc, word.as_str())?;
        return Ok((Some(name), rest));
    }
    Ok((None, words))
}

/// Whether a word isn't empty and isn't an option.
fn is_plain(word: &str) -> bool
    ensures { result ≡ is_plain word.now }
{
    if word.is_empty() {
        return false;
    }
    !is_option(word)
}

/// Whether a word begins with two hyphens.
fn is_option(word: &str) -> bool
    ensures { IsTrue result ↔ (take 2 word.now ≡ codes "--") }
{
    word.starts_with("--")
}
