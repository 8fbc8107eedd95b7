ghost use Rattle.std.specs.Prelude.{◌≡◌, Some, IfOk};
ghost use Rattle.pawn_outside.specs.Held.{Held};
ghost use Rattle.pawn_outside.specs.OnlyRead.{OnlyRead};
ghost use Rattle.pawn_pre.specs.ConditionMachine.{value_of};
ghost use Rattle.pawn_pre.specs.Answers.{Answers};
ghost use Rattle.pawn_pre.specs.Bounds.{IsBounded};
ghost use Rattle.pawn_pre.specs.Page.{HasOneOutcome};
ghost use Rattle.pawn_pre.specs.Sound.{IsSoundStack};
ghost use Rattle.pawn_pre.specs.WalkAnswers.{EndsIn};

use super::fault::PreFault;
use super::file::FILE_LIMIT;
use super::line::Lines;
use super::walk::Walk;
use pawn_base::Bytes;
use pawn_outside::{Files, ReadAnswer};
use std::alloc::Global;

/// The lines of a source, over the files that it includes: lines are cut and joined, comments
/// blanked, directives carried out and definitions substituted (Language Guide, "Preprocessor").
///
/// # Errors
///
/// `Source` with the first fault in the order of lines: 1 an unknown directive, 2 an unbalanced
/// conditional, 3 a missing include, 4 `#error`, 5 a false `#assert`, 6 a bad pattern, 7 more than
/// 1,000 substitutions in a line, 8 an include at depth 17, 9 a line of more than 4,095 bytes, 10
/// more than 1,048,576 bytes in all, 11 a bad condition, 12 an open comment. `NoSource` where the
/// source isn't held, `TooLarge` where a file has more than 16,777,216 bytes, `Files` where the
/// files failed, `Memory` for want of memory.
pub fn preprocess<F: Files>(alloc: Global, name: &str, files: &mut F) -> Result<Lines, PreFault>
    // The answer is what the source comes to, where the files tell what they hold.
    ensures answers { (map : Held) → F.held files.old ≡ Some map → Answers map name.now result }

    // A source comes to one outcome.
    ensures only { (map : Held) → HasOneOutcome map name.now }

    // Whatever the files tell, all lines have at most 1,048,576 bytes and stand in files named.
    ensures bounds { IfOk result IsBounded }

    // Nothing held changes, and `Files` comes only where the files failed.
    ensures files { OnlyRead F.held F.faults F.never_fails files.old files.new
        (result ≡ Err PreFault.Files) }
{
    read_lines(alloc, name, files)
}

/// Settles line after line until no file is open.
fn drive<F: Files>(alloc: Global, walk: Walk, files: &mut F) -> Result<Lines, PreFault>
    ensures ends { (map : Held) → F.held files.old ≡ Some map →
        EndsIn value_of map walk result }
    ensures bounds { IsSoundStack walk → IfOk result IsBounded }
    ensures files { OnlyRead F.held F.faults F.never_fails files.old files.new
        (result ≡ Err PreFault.Files) }
{
    let mut walk = walk;
    loop {
        match walk.turn(alloc, files) {
            Ok(true) => continue,
            Ok(false) => {
                let lines = walk.finish(alloc)?;
                return Ok(lines);
            }
            Err(fault) => return Err(fault),
        }
    }
}

/// The lines of a source, over the files that it includes.
fn read_lines<F: Files>(alloc: Global, name: &str, files: &mut F) -> Result<Lines, PreFault>
    ensures answers { (map : Held) → F.held files.old ≡ Some map →
        Answers map name.now result }
    ensures bounds { IfOk result IsBounded }
    ensures files { OnlyRead F.held F.faults F.never_fails files.old files.new
        (result ≡ Err PreFault.Files) }
{
    match files.read(alloc, name, FILE_LIMIT) {
        ReadAnswer::Got(bytes) => {
            let walk = Walk::begin(alloc, name, bytes.as_slice())?;
            drive(alloc, walk, files)
        }
        ReadAnswer::Missing => Err(PreFault::NoSource),
        ReadAnswer::TooLarge => {
            let name = Bytes::from_slice(alloc, name.as_bytes())?;
            Err(PreFault::TooLarge(name))
        }
        ReadAnswer::Failed => Err(PreFault::Files),
        ReadAnswer::Memory => Err(PreFault::Memory),
    }
}
