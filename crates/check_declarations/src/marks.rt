ghost use Rattle.std.specs.Prelude.{◌≡◌, ◌<◌, ℕ, [], ◌∷◌, map, length, replicate, None, IfOk};
ghost use Rattle.check_locals.specs.StoodView.{returned_view};
ghost use Rattle.check_declarations.specs.Marks.{Agrees, mark_of};

use check_locals::Returned;
use pawn_base::Memory;
use pawn_verdict::{CheckFault, broken};
use std::alloc::Global;
use types_rules::RETURN_MIXED;

/// Whether the returns of a function give a value; None where it has none yet.
pub type Mark = Option<bool>;

/// No marks, for so many functions.
pub fn no_marks(alloc: Global, count: usize) -> Result<Vec<Mark>, Memory>
    ensures { IfOk result (λ marks. (number : ℕ) → mark_of marks.items number ≡ None) }
{
    let marks = vec![in alloc; None; count]?;
    Ok(marks)
}

/// The mark of the function with a number has its place.
pub fn make_room(marks: &mut Vec<Mark>, number: u32) -> Result<(), Memory>
    ensures room { IfOk result (λ done. number < length marks.new.items) }
    ensures same { IfOk result (λ done. (other : ℕ)
        → mark_of marks.new.items other ≡ mark_of marks.old.items other) }
{
    let room = number as usize + 1;
    for _ in marks.len()..room {
        marks.push(None)?;
    }
    Ok(())
}

/// A return behind others that give a value or don't.
fn same_as(gives: bool, it: &Returned) -> Result<Mark, CheckFault>
    ensures { Agrees (Some gives) (returned_view it.now ∷ []) result }
{
    if it.gives == gives {
        Ok(Some(gives))
    } else {
        Err(broken(RETURN_MIXED, it.at.place))
    }
}

/// A return behind others.
fn behind(mark: Mark, it: &Returned) -> Result<Mark, CheckFault>
    ensures { Agrees mark (returned_view it.now ∷ []) result }
{
    match mark {
        None => Ok(Some(it.gives)),
        Some(gives) => same_as(gives, it),
    }
}

/// The returns of a body behind those of other bodies of its function.
///
/// # Errors
///
/// 64 at the first one that gives a value where those before it don't, or gives none where they do.
pub fn all_behind(mark: Mark, returns: &[Returned]) -> Result<Mark, CheckFault>
    ensures { Agrees mark (map returned_view returns.now) result }
{
    let mut last = mark;
    for it in returns {
        last = behind(last, it)?;
    }
    Ok(last)
}
