ghost use Rattle.std.specs.Prelude.{◌≡◌, ◌*◌, length, true, false, not as no, IfOk};
ghost use Rattle.pawn_meaning.specs.View.{expr_view, perhaps_view};
ghost use Rattle.gen_sim.specs.Branch.{test_where};
ghost use Rattle.gen_laws.specs.BranchItems.{single_items, joint_items, jump_items, perhaps_jumps};
ghost use Rattle.gen_expr.specs.Standing.{scope_of, Serves};
ghost use Rattle.gen_expr.specs.TestView.{test_view};
ghost use Rattle.gen_stmt.specs.Grown.{Grown};
ghost use Rattle.gen_stmt.specs.Ended.{Ended};

use super::draft::{Draft, Exit, Hole};
use amx_ops::Op;
use gen_expr::frame::Frame;
use gen_expr::{Test, condition, folded};
use pawn_base::{List, Memory};
use pawn_cells::Prefix;
use pawn_meaning::Expr;

/// The test that holds where another one's truth is so.
fn test_where(when: bool, t: Test) -> Test
    ensures { test_view result ≡ test_where when (test_view t) }
{
    if when { t } else { t.opposite() }
}

/// A condition that is told by one test, with its jump.
fn jump_by_test(e: &Expr, when: bool, frame: &Frame<'_>, b: Draft) -> Result<Draft, Memory>
    requires { Serves frame.now }
    ensures { IfOk result (λ r. Grown b r (λ exits. single_items (scope_of frame.now) when
        exits.broke (4 * length b.code.code) (expr_view e.now))) }
{
    let Draft { code, holes } = b;
    let (code, test) = condition(e, frame, code)?;
    let ready = Draft { code, holes };
    ready.jump_out_where(test_where(when, test), Exit::Break)
}

/// Appends a condition with its jumps, which are taken where its truth is so. They are exits of the
/// draft.
#[cycle(jump_where)]
pub fn jump_where(e: &Expr, when: bool, frame: &Frame<'_>, b: Draft) -> Result<Draft, Memory>
    requires { Serves frame.now }
    ensures { IfOk result (λ r. Grown b r (λ exits. jump_items (scope_of frame.now) when
        exits.broke (4 * length b.code.code) (expr_view e.now))) }
{
    if folded(e).is_some() {
        return jump_by_test(e, when, frame, b);
    }
    match e {
        Expr::Unary(o, x) => match o {
            Prefix::Not => jump_where(x, !when, frame, b),
            Prefix::Invert | Prefix::Negate => jump_by_test(e, when, frame, b),
        },
        Expr::And(x, y) => {
            if when {
                jump_past(x, y, when, frame, b)
            } else {
                jump_both(x, y, when, frame, b)
            }
        }
        Expr::Or(x, y) => {
            if when {
                jump_both(x, y, when, frame, b)
            } else {
                jump_past(x, y, when, frame, b)
            }
        }
        _ => jump_by_test(e, when, frame, b),
    }
}

/// Two operands, each of which jumps where its truth is so.
#[cycle(jump_where)]
fn jump_both(x: &Expr, y: &Expr, when: bool, frame: &Frame<'_>, b: Draft) -> Result<Draft, Memory>
    requires { Serves frame.now }
    ensures { IfOk result (λ r. Grown b r (λ exits. joint_items when when exits.broke
        (4 * length b.code.code) (λ t q. jump_items (scope_of frame.now) when t q (expr_view x.now))
        (λ t q. jump_items (scope_of frame.now) when t q (expr_view y.now)))) }
{
    let left = jump_where(x, when, frame, b)?;
    let both = jump_where(y, when, frame, left)?;
    Ok(both)
}

/// Two operands: the left one jumps behind the right one where its truth isn't so.
#[cycle(jump_where)]
fn jump_past(x: &Expr, y: &Expr, when: bool, frame: &Frame<'_>, b: Draft) -> Result<Draft, Memory>
    requires { Serves frame.now }
    ensures { IfOk result (λ r. Grown b r (λ exits. joint_items (no when) when exits.broke
        (4 * length b.code.code)
        (λ t q. jump_items (scope_of frame.now) (no when) t q (expr_view x.now))
        (λ t q. jump_items (scope_of frame.now) when t q (expr_view y.now)))) }
{
    let (left, ends) = open(x, !when, frame, b)?;
    let right = jump_where(y, when, frame, left)?;
    right.land_all(ends.as_slice(), 0)
}

/// A condition, beside its jumps, which lead nowhere yet.
#[cycle(jump_where)]
pub fn open(
    e: &Expr,
    when: bool,
    frame: &Frame<'_>,
    b: Draft,
) -> Result<(Draft, List<Hole>), Memory>
    requires { Serves frame.now }
    ensures { IfOk result (λ r. Ended b r.0 r.1 (λ to exits. jump_items (scope_of frame.now) when to
        (4 * length b.code.code) (expr_view e.now))) }
{
    let Draft { code, holes } = b;
    let begun = Draft::new(frame.alloc, code);
    let Draft { code, holes: ends } = jump_where(e, when, frame, begun)?;
    Ok((Draft { code, holes }, ends))
}

/// A loop's condition, which may be absent: its jumps are taken where it holds.
pub fn perhaps_jump(e: &Option<Expr>, frame: &Frame<'_>, b: Draft) -> Result<Draft, Memory>
    requires { Serves frame.now }
    ensures { IfOk result (λ r. Grown b r (λ exits. perhaps_jumps (scope_of frame.now) true
        exits.broke (4 * length b.code.code) (perhaps_view e.now))) }
{
    match e {
        Some(e) => jump_where(e, true, frame, b),
        None => {
            let ready = b.put(Op::ConstPri, 1)?;
            ready.jump_out_where(Test::IsSet, Exit::Break)
        }
    }
}
