ghost use Rattle.std.specs.Prelude.{◌≡◌, ◌++◌, map, IfOk};
ghost use Rattle.pawn_meaning.specs.View.{body_view, slot_view, stmt_view};
ghost use Rattle.names_rules.specs.Verdict.{both};
ghost use Rattle.types_rules.specs.Stood.{one};
ghost use Rattle.types_rules.specs.Declarations as spec;
ghost use Rattle.pawn_verdict.specs.Answers.{Answers};
ghost use Rattle.check_heads.specs.HeadedView.{headed_view};
ghost use Rattle.check_locals.specs.StoodView.{stood_view};
ghost use Rattle.check_locals.specs.Tells.{Tells, told as plain_told};
ghost use Rattle.check_declarations.specs.DoneView.{done_view};
ghost use Rattle.check_declarations.specs.Fits.{fits_in};

use super::done_declarations::{Bodied, Done};
use super::slots::slots_again;
use check_heads::Headed;
use check_locals::{Stood, one_of};
use pawn_base::{List, Memory};
use pawn_meaning::{Body, Slot, Stmt, locals_fit};
use pawn_tree::At;
use pawn_verdict::{CheckFault, broken};
use std::alloc::Global;
use types_rules::LIMIT_ARRAY;

/// A body whose first slots are the parameters.
fn body_with(slots: List<Slot>, more: List<Slot>, stmt: Stmt) -> Result<Body, Memory>
    ensures { IfOk result (λ it. body_view it ≡ record {
      slots = map slot_view slots ++ map slot_view more;
      stmt = stmt_view stmt;
    }) }
{
    let mut slots = slots;
    slots.append(more)?;
    Ok(Body { slots, stmt })
}

/// A function's body with all that it makes.
fn function_done(alloc: Global, number: u32, at: At, head: Headed, x: Stood) -> Result<Done, Memory>
    ensures { IfOk result (λ it. done_view it
        ≡ spec.bodied number at (headed_view head) (stood_view x)) }
{
    let params = slots_again(alloc, head.slots.as_slice())?;
    let Stood { stmts, parts } = x;
    let parts = Box::into_inner(parts);
    let stmt = one_of(alloc, stmts)?;
    let body = body_with(head.slots, parts.slots, stmt)?;
    let mut bodies = Vec::new(alloc);
    bodies.push(Bodied {
        number,
        at,
        params,
        body,
        returns: parts.returns,
    })?;
    let made = parts.made;
    let mut warned = head.warned;
    warned.append(made.warned)?;
    Ok(Done {
        objects: made.literals,
        bodies,
        warned,
    })
}

/// Whether the locals of the first body are within the limit.
fn first_fits(done: &Done) -> bool
    ensures { result ≡ fits_in (done_view done.now).bodies }
{
    match done.bodies.first() {
        None => true,
        Some(it) => locals_fit(&it.body.stmt, it.body.slots.as_slice()),
    }
}

/// A function with its head and body, whose locals are within the limit.
///
/// # Errors
///
/// 68 for more locals.
fn function_within(
    alloc: Global,
    number: u32,
    at: At,
    head: Headed,
    x: Stood,
) -> Result<Done, CheckFault>
    ensures { Answers done_view (spec.within_locals at (spec.body_of (headed_view head)
        (stood_view x)) (spec.bodied number at (headed_view head) (stood_view x))) result }
{
    let done = function_done(alloc, number, at, head, x)?;
    if first_fits(&done) {
        Ok(done)
    } else {
        Err(broken(LIMIT_ARRAY, at.place))
    }
}

/// A function with its head and body, where both stand; None where it falls.
///
/// # Errors
///
/// 68 for locals beyond the limit.
#[tactic(auto, using(check_locals::proofs::ToldLaws::parts))]
pub fn function_joined(
    alloc: Global,
    number: u32,
    at: At,
    head: Option<Headed>,
    x: Option<Stood>,
) -> Result<Option<Done>, CheckFault>
    ensures { Tells done_view (both (plain_told headed_view head) (plain_told stood_view x)
        (λ head x. spec.within_locals at (spec.body_of head x) (spec.bodied number at head x)))
        result }
{
    match head {
        None => match x {
            None => Ok(None),
            Some(_) => Ok(None),
        },
        Some(head) => match x {
            None => Ok(None),
            Some(x) => Ok(Some(function_within(alloc, number, at, head, x)?)),
        },
    }
}
