ghost use Rattle.std.specs.Prelude.{◌≡◌, Some, map};
ghost use Rattle.std.specs.String.{string_bytes};
ghost use Rattle.pawn_outside.specs.Said.{Said};
ghost use Rattle.command_parts.specs.Command.{command_of};
ghost use Rattle.command_parts.specs.Calls.{CommandCalls};
ghost use Rattle.command_parts.specs.Told.{with_faults};
ghost use Rattle.pawn_cli.specs.Answers.{Answers, Does, words_stop};

use super::list::list;
use super::sizes::sizes;
use super::texts::{tell_explained, tell_help, tell_version};
use super::verify::verify;
use command_many::many;
use command_parts::{Command, Status, Stop, WordsFault, read_words, tell_stop};
use commands::{assemble, compile, go, resume, run, sample, usage};
use pawn_outside::{Files, Sink};
use std::alloc::Global;

/// Does what the words behind the program's name say, over any files and any sink.
pub fn pawn<F: Files, S: Sink>(
    alloc: Global,
    words: &[String],
    files: &mut F,
    out: &mut S,
) -> Status
    ensures answer { Answers (with_faults (Said S.taken S.faults S.has_room))
        (command_of (map string_bytes words.now)) (F.held files.old) (F.held files.new)
        (out.old, F.faults files.old) (out.new, F.faults files.new) result }
    ensures calls { CommandCalls F.faults F.never_fails files.old files.new result }
{
    match read_words(alloc, words) {
        Ok(command) => serve(alloc, command, files, out),
        Err(fault) => tell_stop(stop_of(fault), out),
    }
}

/// The stop at words that are no command, or want of memory for their names.
fn stop_of(fault: WordsFault) -> Stop
    ensures { result ≡ words_stop fault }
{
    match fault {
        WordsFault::Bad => Stop::BadWords,
        WordsFault::Memory => Stop::NoMemory,
    }
}

/// Does a command.
fn serve<F: Files, S: Sink>(alloc: Global, command: Command, files: &mut F, out: &mut S) -> Status
    ensures answer { Does (with_faults (Said S.taken S.faults S.has_room)) (Some command)
        (F.held files.old) (F.held files.new) (out.old, F.faults files.old)
        (out.new, F.faults files.new) result }
    ensures calls { CommandCalls F.faults F.never_fails files.old files.new result }
{
    match command {
        Command::Compile(words) => compile(alloc, &words, files, out),
        Command::Assemble(words) => assemble(alloc, &words, files, out),
        Command::Verify { amx } => verify(alloc, amx.as_str(), files, out),
        Command::List { amx } => list(alloc, amx.as_str(), files, out),
        Command::Sizes { amx } => sizes(alloc, amx.as_str(), files, out),
        Command::Explain { number } => tell_explained(number, out),
        Command::Help { word } => tell_help(&word, out),
        Command::Version => tell_version(out),
        Command::Run(words) => run(alloc, &words, files, out),
        Command::Resume(words) => resume(alloc, &words, files, out),
        Command::Go(words) => go(alloc, &words, files, out),
        Command::Sample(words) => sample(alloc, &words, files, out),
        Command::Usage { src } => usage(alloc, src.as_str(), files, out),
        Command::Many { plan } => many(alloc, plan.as_str(), files, out),
    }
}
