ghost use Rattle.std.specs.Prelude.{map};
ghost use Rattle.types_rules.specs.TypedTrees as whole;
ghost use Rattle.check_functions.specs.Finds.{Finds};
ghost use Rattle.check_declarations.specs.DoneView.{bodied_view};

use super::done_declarations::Bodied;
use super::marks::{all_behind, make_room, no_marks};
use pawn_verdict::CheckFault;
use std::alloc::Global;

/// Whether each function, all its bodies together, returns with a value everywhere or nowhere
/// (Language Guide, "Functions", on `return`). Room is made for `count` functions at first.
///
/// # Errors
///
/// 64 at the first return that differs from one before it of the same function, or `Memory`.
pub fn returns_stand(alloc: Global, bodies: &[Bodied], count: usize) -> Result<(), CheckFault>
    ensures { Finds (whole.return_faults (map bodied_view bodies.now)) result }
{
    let mut marks = no_marks(alloc, count)?;
    for it in bodies {
        make_room(&mut marks, it.number)?;
        let number = it.number as usize;
        marks[number] = all_behind(marks[number], it.returns.as_slice())?;
    }
    Ok(())
}
