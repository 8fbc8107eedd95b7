ghost use Rattle.std.specs.Prelude.{◌≡◌, ◌*◌, length, IfOk};
ghost use Rattle.pawn_meaning.specs.View.{expr_view};
ghost use Rattle.gen_laws.specs.ExprCode.{effect_items};
ghost use Rattle.gen_expr.specs.Built.{with_items};
ghost use Rattle.gen_expr.specs.Standing.{scope_of, Serves};

use super::builder::Builder;
use super::emit::{target, value};
use super::frame::Frame;
use super::target::step_unused;
use pawn_base::Memory;
use pawn_meaning::Expr;

/// Appends the code of an expression whose value isn't used: a step of a cell is one instruction
/// where there is such a one, and so it is in both parts of a comma; for any other it is the code
/// of its value.
pub fn effect(e: &Expr, frame: &Frame<'_>, b: Builder) -> Result<Builder, Memory>
    requires { Serves frame.now }
    ensures { IfOk result (λ r. r ≡ with_items
        (effect_items (scope_of frame.now) (4 * length b.code) (expr_view e.now)) b) }
{
    match e {
        Expr::Step(p, delta, _) => step_unused(p, *delta, target(p, frame, b)?),
        Expr::Seq(x, y) => effect(y, frame, effect(x, frame, b)?),
        _ => value(e, frame, b),
    }
}
