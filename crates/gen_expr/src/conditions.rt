ghost use Rattle.std.specs.Prelude.{◌≡◌, ◌*◌, [], ◌∷◌, true, length, is_some, IfOk};
ghost use Rattle.pawn_meaning.specs.View.{expr_view, links_view};
ghost use Rattle.gen_sim.specs.SimpleCode.{taking};
ghost use Rattle.gen_sim.specs.TestCode.{IsSet, test_op, opposite, link_test, mirrored};
ghost use Rattle.gen_sim.specs.TestCode.{test_by, zero_by, zero_test};
ghost use Rattle.gen_laws.specs.ExprCode.{value_items};
ghost use Rattle.gen_laws.specs.ConditionCode.{operator_test, links_test, pair_test, pair_items};
ghost use Rattle.gen_laws.specs.ConditionCode.{test_of, test_items};
ghost use Rattle.gen_expr.specs.Built.{with_items};
ghost use Rattle.gen_expr.specs.Standing.{scope_of, Serves};
ghost use Rattle.gen_expr.specs.RightView.{right_view};
ghost use Rattle.gen_expr.specs.TestView.{test_view, perhaps_test};

use super::builder::Builder;
use super::emit::{bring, value};
use super::frame::Frame;
use super::right::{Right, folded, right_of};
use amx_ops::Op;
use pawn_base::Memory;
use pawn_cells::{Comparison, Operator, Prefix};
use pawn_meaning::{Expr, Link};

/// What holds behind the code of a condition where the condition does: of PRI alone, or of PRI
/// beside ALT.
#[derive(Clone, Copy, Debug)]
pub enum Test {
    IsZero,
    IsSet,
    AreSame,
    AreOther,
    IsLess,
    IsAtMost,
    IsGreater,
    IsAtLeast,
}

impl Test {
    /// What holds where this doesn't.
    pub fn opposite(self) -> Test
        ensures { test_view result ≡ opposite (test_view self) }
    {
        match self {
            Test::IsZero => Test::IsSet,
            Test::IsSet => Test::IsZero,
            Test::AreSame => Test::AreOther,
            Test::AreOther => Test::AreSame,
            Test::IsLess => Test::IsAtLeast,
            Test::IsAtMost => Test::IsGreater,
            Test::IsGreater => Test::IsAtMost,
            Test::IsAtLeast => Test::IsLess,
        }
    }

    /// Appends a jump to an address, which is taken where it holds.
    pub fn jump(self, to: i32, b: Builder) -> Result<Builder, Memory>
        ensures { IfOk result (λ r. r ≡ with_items (taking (test_op (test_view self)) to ∷ []) b) }
    {
        match self {
            Test::IsZero => b.put(Op::Jzer, to),
            Test::IsSet => b.put(Op::Jnz, to),
            Test::AreSame => b.put(Op::Jeq, to),
            Test::AreOther => b.put(Op::Jneq, to),
            Test::IsLess => b.put(Op::Jsless, to),
            Test::IsAtMost => b.put(Op::Jsleq, to),
            Test::IsGreater => b.put(Op::Jsgrtr, to),
            Test::IsAtLeast => b.put(Op::Jsgeq, to),
        }
    }
}

/// The test of an operator on two operands, where it is one.
fn operator_test(o: Operator) -> Option<Test>
    ensures { perhaps_test result ≡ operator_test o }
{
    match o {
        Operator::Equal => Some(Test::AreSame),
        Operator::NotEqual => Some(Test::AreOther),
        Operator::Multiply
        | Operator::Divide
        | Operator::Remainder
        | Operator::Add
        | Operator::Subtract
        | Operator::ShiftLeft
        | Operator::ShiftRight
        | Operator::ShiftUnsigned
        | Operator::And
        | Operator::Xor
        | Operator::Or => None,
    }
}

/// The test of a comparison, with its left operand in PRI.
fn link_test(o: Comparison) -> Test
    ensures { test_view result ≡ link_test o }
{
    match o {
        Comparison::Less => Test::IsLess,
        Comparison::LessEqual => Test::IsAtMost,
        Comparison::Greater => Test::IsGreater,
        Comparison::GreaterEqual => Test::IsAtLeast,
    }
}

/// Whether links are one comparison by the machine.
fn is_single(links: &[Link]) -> bool
    ensures { result ≡ is_some (links_test (links_view links.now)) }
{
    links.len() == 1 && links[0].function.is_none()
}

/// The same of PRI and ALT the other way round.
fn mirrored(t: Test) -> Test
    ensures { test_view result ≡ mirrored (test_view t) }
{
    match t {
        Test::IsZero => Test::IsZero,
        Test::IsSet => Test::IsSet,
        Test::AreSame => Test::AreSame,
        Test::AreOther => Test::AreOther,
        Test::IsLess => Test::IsGreater,
        Test::IsAtMost => Test::IsAtLeast,
        Test::IsGreater => Test::IsLess,
        Test::IsAtLeast => Test::IsAtMost,
    }
}

/// A test of two operands, by how the right one was brought.
fn test_by(how: Right, t: Test) -> Test
    ensures { test_view result ≡ test_by (right_view how) (test_view t) }
{
    match how {
        Right::Known(_) | Right::Placed(_) => t,
        Right::Waiting => mirrored(t),
    }
}

/// Of a right operand that is 0: the left one is tested by itself.
fn test_by_zero(t: Test) -> Option<Test>
    ensures { perhaps_test result ≡ zero_by (test_view t) true }
{
    match t {
        Test::AreSame => Some(Test::IsZero),
        Test::AreOther => Some(Test::IsSet),
        Test::IsZero
        | Test::IsSet
        | Test::IsLess
        | Test::IsAtMost
        | Test::IsGreater
        | Test::IsAtLeast => None,
    }
}

/// Where the right operand is known to be 0.
fn zero_test(t: Test, how: Right) -> Option<Test>
    ensures { perhaps_test result ≡ zero_test (test_view t) (right_view how) }
{
    match how {
        Right::Known(v) => { if v == 0 { test_by_zero(t) } else { None } }
        Right::Placed(_) | Right::Waiting => None,
    }
}

/// Two operands, of which a test is to hold.
fn pair(
    t: Test,
    x: &Expr,
    y: &Expr,
    frame: &Frame<'_>,
    b: Builder,
) -> Result<(Builder, Test), Memory>
    requires { Serves frame.now }
    ensures code { IfOk result (λ r. r.0 ≡ with_items (pair_items (scope_of frame.now)
        (4 * length b.code) (test_view t) (expr_view x.now) (expr_view y.now)) b) }
    ensures test { IfOk result (λ r.
        test_view r.1 ≡ pair_test (scope_of frame.now) (test_view t) (expr_view y.now)) }
{
    let how = right_of(y, frame)?;
    let left = value(x, frame, b)?;
    match zero_test(t, how) {
        Some(u) => Ok((left, u)),
        None => {
            let brought = bring(y, how, frame, left)?;
            Ok((brought, test_by(how, t)))
        }
    }
}

/// A condition that is tested by its value.
fn plain(e: &Expr, frame: &Frame<'_>, b: Builder) -> Result<(Builder, Test), Memory>
    requires { Serves frame.now }
    ensures code { IfOk result (λ r. r.0 ≡ with_items
        (value_items (scope_of frame.now) (4 * length b.code) (expr_view e.now)) b) }
    ensures test { IfOk result (λ r. test_view r.1 ≡ IsSet) }
{
    let code = value(e, frame, b)?;
    Ok((code, Test::IsSet))
}

/// Appends what stands before a condition's jump. The test holds behind it where the condition
/// does.
pub fn condition(e: &Expr, frame: &Frame<'_>, b: Builder) -> Result<(Builder, Test), Memory>
    requires { Serves frame.now }
    ensures code { IfOk result (λ r. r.0 ≡ with_items
        (test_items (scope_of frame.now) (4 * length b.code) (expr_view e.now)) b) }
    ensures test { IfOk result (λ r.
        test_view r.1 ≡ test_of (scope_of frame.now) (expr_view e.now)) }
{
    if folded(e).is_some() {
        return plain(e, frame, b);
    }
    match e {
        Expr::Unary(o, x) => match o {
            Prefix::Not => {
                let (code, test) = condition(x, frame, b)?;
                Ok((code, test.opposite()))
            }
            Prefix::Invert | Prefix::Negate => plain(e, frame, b),
        },
        Expr::Binary(o, x, y) => match operator_test(*o) {
            Some(t) => pair(t, x, y, frame, b),
            None => plain(e, frame, b),
        },
        Expr::Chain(x, links) => {
            let items = links.as_slice();
            if is_single(items) {
                let link = &items[0];
                pair(link_test(link.op), x, &link.operand, frame, b)
            } else {
                plain(e, frame, b)
            }
        }
        _ => plain(e, frame, b),
    }
}
