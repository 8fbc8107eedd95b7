ghost use Rattle.std.specs.Prelude.{◌≡◌, ◌++◌, [], ◌∷◌, drop, map, take, IfOk};
ghost use Rattle.pawn_meaning.specs.View.{slot_view};
ghost use Rattle.gen_sim.specs.JumpCode.{jump_to};
ghost use Rattle.gen_sim.specs.FlowCode.{leave_code};
ghost use Rattle.gen_laws.specs.GoesOn.{at_end_of};
ghost use Rattle.gen_stmt.specs.Grown.{Grown};
ghost use Rattle.gen_stmt.specs.Led.{exit_at};
ghost use Rattle.gen_stmt.specs.Left.{left_code};
ghost use Rattle.gen_stmt.specs.Standing.{IsMark, Stands};

use super::draft::{Draft, Exit};
use super::locals::{Locals, Mark};
use super::place::Place;
use amx_ops::Op;
use gen_expr::put::cell_of;
use pawn_base::Memory;

/// So many locals leave the stack, which take so many cells.
pub fn dropped(count: usize, cells: u64, b: Draft) -> Result<Draft, Memory>
    ensures { IfOk result (λ r. Grown b r (λ exits. left_code count cells)) }
{
    if count == 0 {
        return Ok(b);
    }
    if cells >= 1_073_741_824 {
        return Err(Memory);
    }
    let bytes = cell_of(4 * cells)?;
    let done = b.put(Op::Stack, bytes)?;
    Ok(done)
}

/// The locals leave the stack that were made since a mark.
fn dropped_since(mark: Mark, place: &Place<'_>, locals: &Locals, b: Draft) -> Result<Draft, Memory>
    requires stands { Stands place.now locals.now }
    requires mark { IsMark (map slot_view place.now.slots.now) mark locals.now.made.items }
    ensures { IfOk result (λ r. Grown b r (λ exits.
        leave_code (map slot_view place.now.slots.now) (drop mark.made locals.now.made.items))) }
{
    let now = locals.mark();
    let done = dropped(now.made - mark.made, now.cells - mark.cells, b)?;
    Ok(done)
}

/// So they do at a block's end, where control comes there.
fn dropped_at_end(
    never: bool,
    mark: Mark,
    place: &Place<'_>,
    locals: &Locals,
    b: Draft,
) -> Result<Draft, Memory>
    requires stands { Stands place.now locals.now }
    requires mark { IsMark (map slot_view place.now.slots.now) mark locals.now.made.items }
    ensures { IfOk result (λ r. Grown b r (λ exits. leave_code (map slot_view place.now.slots.now)
        (at_end_of never (drop mark.made locals.now.made.items)))) }
{
    if never {
        return Ok(b);
    }
    dropped_since(mark, place, locals, b)
}

/// The locals aren't in force any more that were made since a block began; they leave the stack,
/// unless control never comes to the block's end.
#[inline(never)]
pub fn leave_block(
    never: bool,
    mark: Mark,
    place: &Place<'_>,
    locals: &mut Locals,
    b: Draft,
) -> Result<Draft, Memory>
    requires stands { Stands place.now locals.old }
    requires mark { IsMark (map slot_view place.now.slots.now) mark locals.old.made.items }
    ensures made { IfOk result (λ _. locals.new.made.items ≡ take mark.made locals.old.made.items) }
    ensures stands { IfOk result (λ _. Stands place.now locals.new) }
    ensures code { IfOk result (λ r. Grown b r (λ exits.
        leave_code (map slot_view place.now.slots.now)
        (at_end_of never (drop mark.made locals.old.made.items)))) }
{
    let done = dropped_at_end(never, mark, place, locals, b)?;
    locals.leave(mark);
    Ok(done)
}

/// The loop around is left, and the locals that were made since its body began.
#[inline(never)]
pub fn leave_loop(
    exit: Exit,
    since: Mark,
    place: &Place<'_>,
    locals: &Locals,
    b: Draft,
) -> Result<Draft, Memory>
    requires stands { Stands place.now locals.now }
    requires mark { IsMark (map slot_view place.now.slots.now) since locals.now.made.items }
    ensures { IfOk result (λ r. Grown b r (λ exits.
        leave_code (map slot_view place.now.slots.now) (drop since.made locals.now.made.items)
        ++ jump_to Op.Jump (exit_at exits exit) ∷ [])) }
{
    let left = dropped_since(since, place, locals, b)?;
    let done = left.jump_out(exit)?;
    Ok(done)
}
