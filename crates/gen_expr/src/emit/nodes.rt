//! A function for each kind of node, by its parts: a frame has room for all the locals in it, and
//! as many frames stand as the tree has levels.

ghost use Rattle.std.specs.Prelude.{◌≡◌, ◌*◌, length, None, IfOk};
ghost use Rattle.pawn_meaning.specs.Program.{Unary, Binary, And, Or, Cond, Assign, Update};
ghost use Rattle.pawn_meaning.specs.Program.{UpdateBy, Step, StepBy, Copy, Operate, OperateOne};
ghost use Rattle.pawn_meaning.specs.Program.{Seq};
ghost use Rattle.pawn_meaning.specs.View.{scalar_view, array_view, expr_view};
ghost use Rattle.pawn_meaning.specs.Fold.{fold};
ghost use Rattle.gen_laws.specs.ExprCode.{value_items};
ghost use Rattle.gen_expr.specs.Built.{with_items};
ghost use Rattle.gen_expr.specs.Standing.{scope_of, Serves};

use super::{
    and_then, array, array_beside, beside, first_part, left, operand, operate, or_else, place,
    target, update_operand, value,
};
use crate::access::updated_by;
use crate::builder::Builder;
use crate::calls::{one, operated};
use crate::ends::copy;
use crate::frame::Frame;
use crate::jumps::{land, last_cell};
use crate::operators::prefix;
use crate::right::right_of;
use crate::steps::turned;
use crate::target::{step, update, write};
use pawn_base::Memory;
use pawn_cells::{Operator, Prefix};
use pawn_meaning::{Array, Expr, Scalar};

/// An operator before its operand.
#[cycle(emit)]
#[inline(never)]
pub(super) fn unary(o: Prefix, x: &Expr, frame: &Frame<'_>, b: Builder) -> Result<Builder, Memory>
    requires serves { Serves frame.now }
    requires open { fold (Unary o (expr_view x.now)) ≡ None }
    ensures { IfOk result (λ r. r ≡ with_items (value_items (scope_of frame.now)
        (4 * length b.code) (Unary o (expr_view x.now))) b) }
{
    prefix(o, value(x, frame, b)?)
}

/// An operator between two operands.
#[cycle(emit)]
#[inline(never)]
pub(super) fn binary(
    o: Operator,
    x: &Expr,
    y: &Expr,
    frame: &Frame<'_>,
    b: Builder,
) -> Result<Builder, Memory>
    requires serves { Serves frame.now }
    requires open { fold (Binary o (expr_view x.now) (expr_view y.now)) ≡ None }
    ensures { IfOk result (λ r. r ≡ with_items (value_items (scope_of frame.now)
        (4 * length b.code) (Binary o (expr_view x.now) (expr_view y.now))) b) }
{
    let how = right_of(y, frame)?;
    let first = left(x, how, frame, b)?;
    operate(o, y, how, frame, first)
}

/// `&&`
#[cycle(emit)]
#[inline(never)]
pub(super) fn conjunction(
    x: &Expr,
    y: &Expr,
    frame: &Frame<'_>,
    b: Builder,
) -> Result<Builder, Memory>
    requires serves { Serves frame.now }
    requires open { fold (And (expr_view x.now) (expr_view y.now)) ≡ None }
    ensures { IfOk result (λ r. r ≡ with_items (value_items (scope_of frame.now)
        (4 * length b.code) (And (expr_view x.now) (expr_view y.now))) b) }
{
    and_then(y, frame, value(x, frame, b)?)
}

/// `||`
#[cycle(emit)]
#[inline(never)]
pub(super) fn disjunction(
    x: &Expr,
    y: &Expr,
    frame: &Frame<'_>,
    b: Builder,
) -> Result<Builder, Memory>
    requires serves { Serves frame.now }
    requires open { fold (Or (expr_view x.now) (expr_view y.now)) ≡ None }
    ensures { IfOk result (λ r. r ≡ with_items (value_items (scope_of frame.now)
        (4 * length b.code) (Or (expr_view x.now) (expr_view y.now))) b) }
{
    or_else(y, frame, value(x, frame, b)?)
}

/// `? :`
#[cycle(emit)]
#[inline(never)]
pub(super) fn choice(
    c: &Expr,
    x: &Expr,
    y: &Expr,
    frame: &Frame<'_>,
    b: Builder,
) -> Result<Builder, Memory>
    requires serves { Serves frame.now }
    requires open { fold (Cond (expr_view c.now) (expr_view x.now) (expr_view y.now)) ≡ None }
    ensures { IfOk result (λ r. r ≡ with_items (value_items (scope_of frame.now)
        (4 * length b.code) (Cond (expr_view c.now) (expr_view x.now) (expr_view y.now))) b) }
{
    let opened = first_part(x, frame, value(c, frame, b)?)?;
    let end = last_cell(&opened)?;
    let second = value(y, frame, opened)?;
    land(end, second)
}

/// `=`
#[cycle(emit)]
#[inline(never)]
pub(super) fn assignment(
    p: &Scalar,
    x: &Expr,
    frame: &Frame<'_>,
    b: Builder,
) -> Result<Builder, Memory>
    requires { Serves frame.now }
    ensures { IfOk result (λ r. r ≡ with_items (value_items (scope_of frame.now)
        (4 * length b.code) (Assign (scalar_view p.now) (expr_view x.now))) b) }
{
    write(p, operand(x, frame, target(p, frame, b)?)?)
}

/// An operator with `=`.
#[cycle(emit)]
#[inline(never)]
pub(super) fn updating(
    p: &Scalar,
    o: Operator,
    x: &Expr,
    frame: &Frame<'_>,
    b: Builder,
) -> Result<Builder, Memory>
    requires { Serves frame.now }
    ensures { IfOk result (λ r. r ≡ with_items (value_items (scope_of frame.now)
        (4 * length b.code) (Update (scalar_view p.now) o (expr_view x.now))) b) }
{
    let valued = update_operand(x, frame, target(p, frame, b)?)?;
    update(p, o, valued)
}

/// An operator of the user's with `=`, its operands exchanged or not, and what converts its value.
#[derive(Clone, Copy, Debug)]
pub(super) struct UserOperator {
    pub function: u32,
    pub swapped: bool,
    pub convert: Option<u32>,
}

/// A user's operator with `=`.
#[cycle(emit)]
#[inline(never)]
pub(super) fn user_update(
    p: &Scalar,
    by: UserOperator,
    x: &Expr,
    frame: &Frame<'_>,
    b: Builder,
) -> Result<Builder, Memory>
    requires { Serves frame.now }
    ensures { IfOk result (λ r. r ≡ with_items (value_items (scope_of frame.now)
        (4 * length b.code) (UpdateBy (scalar_view p.now) by.function by.swapped (expr_view x.now)
        by.convert)) b) }
{
    let both = beside(x, frame, place(p, frame, b)?)?;
    updated_by(p, by.function, by.swapped, by.convert, both)
}

/// `++` or `--`.
#[cycle(emit)]
#[inline(never)]
pub(super) fn one_step(
    p: &Scalar,
    delta: i32,
    first: bool,
    frame: &Frame<'_>,
    b: Builder,
) -> Result<Builder, Memory>
    requires { Serves frame.now }
    ensures { IfOk result (λ r. r ≡ with_items (value_items (scope_of frame.now)
        (4 * length b.code) (Step (scalar_view p.now) delta first)) b) }
{
    step(p, delta, first, target(p, frame, b)?)
}

/// A user's `++` or `--`.
#[cycle(emit)]
#[inline(never)]
pub(super) fn user_step(
    p: &Scalar,
    f: u32,
    first: bool,
    frame: &Frame<'_>,
    b: Builder,
) -> Result<Builder, Memory>
    requires { Serves frame.now }
    ensures { IfOk result (λ r. r ≡ with_items (value_items (scope_of frame.now)
        (4 * length b.code) (StepBy (scalar_view p.now) f first)) b) }
{
    turned(p, f, first, place(p, frame, b)?)
}

/// `=` between arrays.
#[cycle(emit)]
#[inline(never)]
pub(super) fn array_copy(
    to: &Array,
    from: &Array,
    n: u32,
    frame: &Frame<'_>,
    b: Builder,
) -> Result<Builder, Memory>
    requires { Serves frame.now }
    ensures { IfOk result (λ r. r ≡ with_items (value_items (scope_of frame.now)
        (4 * length b.code) (Copy (array_view to.now) (array_view from.now) n)) b) }
{
    let (first, _) = array(to, frame, b)?;
    copy(n, array_beside(from, frame, first)?)
}

/// A user's operator on two operands, exchanged or not.
#[cycle(emit)]
#[inline(never)]
pub(super) fn user_operator(
    f: u32,
    swapped: bool,
    x: &Expr,
    y: &Expr,
    frame: &Frame<'_>,
    b: Builder,
) -> Result<Builder, Memory>
    requires { Serves frame.now }
    ensures { IfOk result (λ r. r ≡ with_items (value_items (scope_of frame.now)
        (4 * length b.code) (Operate f (expr_view x.now) (expr_view y.now) swapped)) b) }
{
    operated(f, swapped, beside(y, frame, value(x, frame, b)?)?)
}

/// A user's operator on one operand.
#[cycle(emit)]
#[inline(never)]
pub(super) fn user_prefix(
    f: u32,
    x: &Expr,
    frame: &Frame<'_>,
    b: Builder,
) -> Result<Builder, Memory>
    requires { Serves frame.now }
    ensures { IfOk result (λ r. r ≡ with_items (value_items (scope_of frame.now)
        (4 * length b.code) (OperateOne f (expr_view x.now))) b) }
{
    one(f, value(x, frame, b)?)
}

/// `,`
#[cycle(emit)]
#[inline(never)]
pub(super) fn sequence(x: &Expr, y: &Expr, frame: &Frame<'_>, b: Builder) -> Result<Builder, Memory>
    requires { Serves frame.now }
    ensures { IfOk result (λ r. r ≡ with_items (value_items (scope_of frame.now)
        (4 * length b.code) (Seq (expr_view x.now) (expr_view y.now))) b) }
{
    value(y, frame, value(x, frame, b)?)
}
