ghost use Rattle.std.specs.Prelude.{◌≡◌, ◌*◌, length, IfOk};
ghost use Rattle.pawn_meaning.specs.ValidExprs.{IsValidExpr};
ghost use Rattle.pawn_meaning.specs.View.{expr_view};
ghost use Rattle.gen_sim.specs.Contract.{Appended};
ghost use Rattle.gen_sim.specs.PushCode.{value_push, pushed_by};
ghost use Rattle.gen_laws.specs.ExprCode.{value_items};
ghost use Rattle.gen_expr.specs.Built.{with_items};
ghost use Rattle.gen_expr.specs.Standing.{scope_of, Serves};

use super::builder::Builder;
use super::emit::{push_value, value};
use super::frame::Frame;
use gen_laws::code_means;
use pawn_base::Memory;
use pawn_meaning::Expr;

/// Appends the code of an expression, which leaves its value in PRI. Of a valid expression it is
/// whole instructions without a fault, whose calls wait for their functions' addresses, within the
/// expression's lean weight; and in every file of such code it does what the expression means. A
/// node that names what isn't there, or a number that no cell holds, is answered as want of memory.
pub fn expression(e: &Expr, frame: &Frame<'_>, b: Builder) -> Result<Builder, Memory>
    requires { Serves frame.now }
    ensures code { IfOk result (λ r. r ≡ with_items
        (value_items (scope_of frame.now) (4 * length b.code) (expr_view e.now)) b) }
    ensures means { IfOk result (λ r. let scope = scope_of frame.now in
        IsValidExpr scope (expr_view e.now) → Appended scope (length scope.program.natives)
        (expr_view e.now) b.code b.waits r.code r.waits) }
{
    // The law of all such code, by which `means` follows from `code`.
    code_means();
    let done = value(e, frame, b)?;
    Ok(done)
}

/// Appends the code of an expression whose value is pushed: by one instruction, where it is known
/// or stands at a place for which there is such a one, and else from PRI.
pub fn push_expression(e: &Expr, frame: &Frame<'_>, b: Builder) -> Result<Builder, Memory>
    requires { Serves frame.now }
    ensures { IfOk result (λ r. let scope = scope_of frame.now in
        r ≡ with_items (pushed_by (value_push scope (expr_view e.now))
        (value_items scope (4 * length b.code) (expr_view e.now))) b) }
{
    push_value(e, frame, b)
}
