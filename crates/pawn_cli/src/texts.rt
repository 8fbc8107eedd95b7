ghost use Rattle.pawn_outside.specs.Said.{Said};
ghost use Rattle.command_texts.specs.Explained.{explained};
ghost use Rattle.command_texts.specs.Forms.{helped};
ghost use Rattle.pawn_cli.specs.Texts.{TellsText, version_text};

use super::version::{LANGUAGE, PROGRAM};
use command_parts::{Name, Status, told};
use command_texts::{explain, help};
use pawn_outside::{Sink, say};

/// Tells what a number says, what gives it, and its cure; or lists all numbers.
pub fn tell_explained<S: Sink>(number: Option<u8>, out: &mut S) -> Status
    ensures { TellsText (explained number) (Said S.taken S.faults S.has_room) out.old out.new
        result }
{
    told(Status::Ok, explain(number, out))
}

/// Tells the forms of all commands, or that of one and what it does.
pub fn tell_help<S: Sink>(word: &Option<Name>, out: &mut S) -> Status
    ensures { TellsText (helped word.now) (Said S.taken S.faults S.has_room) out.old out.new
        result }
{
    match word {
        None => told(Status::Ok, help(None, out)),
        Some(word) => told(Status::Ok, help(Some(word.as_str()), out)),
    }
}

/// Tells the versions of the program, of the language, of files and of images.
pub fn tell_version<S: Sink>(out: &mut S) -> Status
    ensures { TellsText version_text (Said S.taken S.faults S.has_room) out.old out.new result }
{
    let text: [&[u8]; 5] = [
        b"sulkhen ",
        &PROGRAM,
        b"\nlanguage ",
        &LANGUAGE,
        b"\nfile 8\nimage 2\n",
    ];
    told(Status::Ok, say(out, &text))
}
