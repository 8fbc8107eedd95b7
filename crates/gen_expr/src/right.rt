ghost use Rattle.std.specs.Prelude.{◌≡◌, false, ◌∷◌, ◌++◌, IfOk, []};
ghost use Rattle.pawn_meaning.specs.View.{expr_view};
ghost use Rattle.pawn_meaning.specs.Fold as folding;
ghost use Rattle.gen_sim.specs.SimpleCode.{taking, alt_code, alone, const_code};
ghost use Rattle.gen_sim.specs.DirectCode.{direct_load};
ghost use Rattle.gen_sim.specs.OperandCode.{right_of, read_place, loaded_code, known_code};
ghost use Rattle.gen_sim.specs.ChainCode.{loaded_compare, compare_by};
ghost use Rattle.gen_expr.specs.Built.{with_items};
ghost use Rattle.gen_expr.specs.DirectView.{direct_view, perhaps_direct};
ghost use Rattle.gen_sim.specs.ChangeCode.{leaves_alt};
ghost use Rattle.gen_expr.specs.RightView.{right_view};
ghost use Rattle.gen_expr.specs.TargetCode.{change_part};
ghost use Rattle.gen_expr.specs.Standing.{scope_of, Serves};

use super::builder::Builder;
use super::direct::{Direct, direct_of};
use super::frame::Frame;
use super::operators::{compare, two};
use super::put::{constant, constant_alt};
use amx_ops::Op;
use pawn_base::Memory;
use pawn_cells::{Cell, Comparison, Operator};
use pawn_meaning::{Expr, fold};

/// How a right operand comes, while the left one is in PRI.
#[derive(Clone, Copy, Debug)]
pub enum Right {
    /// It folds to this cell.
    Known(i32),
    /// It is what stands at a direct place.
    Placed(Direct),
    /// The left one waits on the stack meanwhile.
    Waiting,
}

/// Whether an expression may fold: it ends at the first part that isn't constant, so that most
/// expressions are told apart at once.
fn may_fold(e: &Expr) -> bool
    ensures { result ≡ false → folding.is_constant (expr_view e.now) ≡ false }
{
    match e {
        Expr::Const(_) => true,
        Expr::Unary(_, x) | Expr::Chain(x, _) => may_fold(x),
        Expr::Binary(_, x, y) | Expr::And(x, y) | Expr::Or(x, y) => may_fold(y) && may_fold(x),
        Expr::Cond(x, y, z) => may_fold(z) && may_fold(y) && may_fold(x),
        _ => false,
    }
}

/// What an expression folds to.
pub fn folded(e: &Expr) -> Option<i32>
    ensures { result ≡ folding.fold (expr_view e.now) }
{
    if may_fold(e) { fold(e) } else { None }
}

/// The direct place that an expression reads.
fn read_place(e: &Expr, frame: &Frame<'_>) -> Result<Option<Direct>, Memory>
    requires { Serves frame.now }
    ensures { IfOk result (λ found.
        perhaps_direct found ≡ read_place (scope_of frame.now) (expr_view e.now)) }
{
    match e {
        Expr::Read(place) => direct_of(place, frame),
        _ => Ok(None),
    }
}

/// How an expression comes that is a right operand.
pub fn right_of(e: &Expr, frame: &Frame<'_>) -> Result<Right, Memory>
    requires { Serves frame.now }
    ensures { IfOk result (λ r.
        right_view r ≡ right_of (scope_of frame.now) (expr_view e.now)) }
{
    if let Some(v) = folded(e) {
        return Ok(Right::Known(v));
    }
    match read_place(e, frame)? {
        Some(d) => Ok(Right::Placed(d)),
        None => Ok(Right::Waiting),
    }
}

/// An operator, with the left operand in PRI and the right one in ALT.
fn operate_loaded(o: Operator, b: Builder) -> Result<Builder, Memory>
    ensures { IfOk result (λ r. r ≡ with_items (loaded_code o) b) }
{
    match o {
        Operator::Multiply => b.put(Op::Smul, 0),
        Operator::Divide => b.put(Op::Sdiv, 0),
        Operator::Remainder => two(Op::Sdiv, Op::MovePri, b),
        Operator::Add => b.put(Op::Add, 0),
        Operator::Subtract => b.put(Op::Sub, 0),
        Operator::ShiftLeft => b.put(Op::Shl, 0),
        Operator::ShiftRight => b.put(Op::Sshr, 0),
        Operator::ShiftUnsigned => b.put(Op::Shr, 0),
        Operator::And => b.put(Op::And, 0),
        Operator::Xor => b.put(Op::Xor, 0),
        Operator::Or => b.put(Op::Or, 0),
        Operator::Equal => b.put(Op::Eq, 0),
        Operator::NotEqual => b.put(Op::Neq, 0),
    }
}

/// An operator whose right operand goes to ALT as it is.
#[tactic(auto, using(crate::proofs::GrowLaws::then_grow))]
fn operate_constant(o: Operator, v: i32, b: Builder) -> Result<Builder, Memory>
    ensures { IfOk result (λ r. r ≡ with_items (alt_code v ++ loaded_code o) b) }
{
    let b = constant_alt(v, b)?;
    let b = operate_loaded(o, b)?;
    Ok(b)
}

/// An operator whose right operand is known: its own instruction has it, where there is such a one.
pub fn operate_known(o: Operator, v: i32, b: Builder) -> Result<Builder, Memory>
    ensures { IfOk result (λ r. r ≡ with_items (known_code o v) b) }
{
    match o {
        Operator::Multiply => b.put(Op::SmulC, v),
        Operator::Add => b.put(Op::AddC, v),
        Operator::Subtract => b.put(Op::AddC, Cell(v).neg().0),
        Operator::ShiftLeft => b.put(Op::ShlCPri, v),
        Operator::ShiftUnsigned => b.put(Op::ShrCPri, v),
        Operator::Equal => b.put(Op::EqCPri, v),
        Operator::Divide
        | Operator::Remainder
        | Operator::ShiftRight
        | Operator::And
        | Operator::Xor
        | Operator::Or
        | Operator::NotEqual => operate_constant(o, v, b),
    }
}

/// An operator whose right operand stands at a direct place.
#[tactic(auto, using(crate::proofs::GrowLaws::then_grow))]
pub fn operate_placed(o: Operator, d: Direct, b: Builder) -> Result<Builder, Memory>
    ensures { IfOk result (λ r. let at = direct_view d in
        r ≡ with_items (taking at.loads_alt at.operand ∷ loaded_code o) b) }
{
    let b = d.load_alt(b)?;
    let b = operate_loaded(o, b)?;
    Ok(b)
}

/// A comparison, with the left operand in PRI and the right one in ALT.
fn compare_loaded(o: Comparison, b: Builder) -> Result<Builder, Memory>
    ensures { IfOk result (λ r. r ≡ with_items (alone (loaded_compare o) ∷ []) b) }
{
    match o {
        Comparison::Less => b.put(Op::Sless, 0),
        Comparison::LessEqual => b.put(Op::Sleq, 0),
        Comparison::Greater => b.put(Op::Sgrtr, 0),
        Comparison::GreaterEqual => b.put(Op::Sgeq, 0),
    }
}

/// A comparison, by how its right operand was brought.
pub fn compare_by(how: Right, o: Comparison, b: Builder) -> Result<Builder, Memory>
    ensures { IfOk result (λ r. r ≡ with_items (alone (compare_by (right_view how) o) ∷ []) b) }
{
    match how {
        Right::Known(_) | Right::Placed(_) => compare_loaded(o, b),
        Right::Waiting => compare(o, b),
    }
}

/// Whether an operator's instruction with a known operand leaves ALT as it is.
pub fn leaves_alt(o: Operator) -> bool
    ensures { result ≡ leaves_alt o }
{
    match o {
        Operator::Multiply
        | Operator::Add
        | Operator::Subtract
        | Operator::ShiftLeft
        | Operator::ShiftUnsigned
        | Operator::Equal => true,
        Operator::Divide
        | Operator::Remainder
        | Operator::ShiftRight
        | Operator::And
        | Operator::Xor
        | Operator::Or
        | Operator::NotEqual => false,
    }
}

impl Right {
    /// An operator on the value in PRI, by a right operand that is known, at a direct place, or in
    /// ALT.
    pub fn change(self, o: Operator, b: Builder) -> Result<Builder, Memory>
        ensures { IfOk result (λ r. r ≡ with_items (change_part o (right_view self)) b) }
    {
        match self {
            Right::Known(v) => operate_known(o, v, b),
            Right::Placed(d) => operate_placed(o, d, b),
            Right::Waiting => operate_loaded(o, b),
        }
    }
}

/// The address in PRI goes to ALT, and a known value to PRI.
#[tactic(auto, using(crate::proofs::GrowLaws::then_grow))]
pub fn move_constant(v: i32, b: Builder) -> Result<Builder, Memory>
    ensures { IfOk result (λ r. r ≡ with_items (alone Op.MoveAlt ∷ const_code v) b) }
{
    let b = b.put(Op::MoveAlt, 0)?;
    let b = constant(v, b)?;
    Ok(b)
}

/// The address in PRI goes to ALT, and a direct place's cell to PRI.
#[tactic(auto, using(crate::proofs::GrowLaws::then_grow))]
pub fn move_placed(d: Direct, b: Builder) -> Result<Builder, Memory>
    ensures { IfOk result (λ r.
        r ≡ with_items (alone Op.MoveAlt ∷ direct_load (direct_view d)) b) }
{
    let b = b.put(Op::MoveAlt, 0)?;
    let b = d.load(b)?;
    Ok(b)
}
