ghost use Rattle.std.specs.Prelude.{◌≡◌, map, option_map, Some, IfOk};
ghost use Rattle.pawn_meaning.specs.View.{expr_view, object_view};
ghost use Rattle.pawn_cells.specs.Operators as cells;
ghost use Rattle.names_rules.specs.Verdict.{Stands, after};
ghost use Rattle.types_rules.specs.Operators as spec;
ghost use Rattle.types_rules.specs.Typed as typed;
ghost use Rattle.pawn_verdict.specs.Answers.{Answers};
ghost use Rattle.check_nodes.specs.CodeView.{code_view};
ghost use Rattle.check_nodes.specs.ContextView.{around_view};
ghost use Rattle.check_nodes.specs.TypedView.{typed_view};
ghost use Rattle.check_nodes.specs.OperandView.{operand_view};
ghost use Rattle.check_nodes.specs.Values.{value_of};

use super::context::Context;
use super::made::Made;
use super::operands::Operand;
use super::tags::{function_tag, takes_either};
use super::typed::{Form, Typed};
use super::wanted_cell::cell;
use pawn_base::Memory;
use pawn_cells::{Cell, Logical, Operator, Prefix};
use pawn_meaning::Expr;
use pawn_tags::{Choice, Op, TRUTH_TAG, UNTAGGED};
use pawn_token::Sign;
use pawn_tree::At;
use pawn_verdict::{Between, CheckFault, between_of, broken};
use std::alloc::Global;
use types_rules::{CONSTANT_DIVIDE_BY_ZERO, UNDEFINED};

/// A value and no more.
pub fn make_value(at: At, code: Box<Expr>, tag: u32, value: Option<i32>, made: Made) -> Typed
    ensures { typed_view result ≡ value_of at (code_view code) tag value
        (map object_view made.literals) made.warned }
{
    Typed {
        at,
        form: Form::Value(code),
        tag,
        value,
        made,
    }
}

// ---- two operands

/// Whether a built-in operator divides by a constant that is 0.
pub fn divides_by_zero(it: Operator, divisor: Option<i32>) -> bool
    ensures { result ≡ spec.divides_by_zero it divisor }
{
    match (it, divisor) {
        (Operator::Divide | Operator::Remainder, Some(value)) => value == 0,
        _ => false,
    }
}

/// A comparison gives a truth value, each other operator has the left operand's tag.
fn operator_tag(it: Operator, left: u32) -> u32
    ensures { result ≡ spec.operator_tag it left }
{
    match it {
        Operator::Equal | Operator::NotEqual => TRUTH_TAG,
        _ => left,
    }
}

/// What an operator makes of two constants.
fn operator_value(it: Operator, left: Option<i32>, right: Option<i32>) -> Option<i32>
    ensures { result ≡ spec.value_of_both (cells.binary it) left right }
{
    let (Some(left), Some(right)) = (left, right) else {
        return None;
    };
    match it.apply(Cell(left), Cell(right)) {
        None => None,
        Some(cell) => Some(cell.0),
    }
}

/// The user operator for two operands.
pub fn chosen(cx: &Context, user: Option<Op>, left: u32, right: u32) -> Option<Choice>
    ensures { result ≡ spec.chosen (around_view cx.now) user left right }
{
    match user {
        None => None,
        Some(op) => cx.operators.choose(op, left, right),
    }
}

/// The built-in operator.
///
/// # Errors
///
/// 67 for a division by a constant that is 0.
fn built_in(
    alloc: Global,
    cx: &Context,
    at: At,
    it: Operator,
    x: Operand,
    y: Operand,
) -> Result<Typed, CheckFault>
    ensures { Answers typed_view (spec.built_in (around_view cx.now) at it
        (operand_view x) (operand_view y) (code_view x.code) (code_view y.code)) result }
{
    if divides_by_zero(it, y.value) {
        return Err(broken(CONSTANT_DIVIDE_BY_ZERO, at.place));
    }
    let passed = takes_either(cx, x.tag, y.tag);
    let value = operator_value(it, x.value, y.value);
    let made = x.made.then_behind(alloc, passed, y.at, y.made);
    let code = Box::new(alloc, Expr::Binary(it, x.code, y.code))?;
    Ok(make_value(at, code, operator_tag(it, x.tag), value, made?))
}

/// The operator that is chosen: the user's if there is one, else the built-in one.
fn operate_by(
    alloc: Global,
    cx: &Context,
    at: At,
    it: Operator,
    by: Option<Choice>,
    x: Operand,
    y: Operand,
) -> Result<Typed, CheckFault>
    ensures { Answers typed_view (spec.operate (around_view cx.now) at it
        (operand_view x) (operand_view y) (code_view x.code) (code_view y.code) by) result }
{
    match by {
        None => built_in(alloc, cx, at, it, x, y),
        Some(by) => {
            let made = x.made.then(y.made);
            let code = Expr::Operate(by.function, x.code, y.code, by.swapped);
            let code = Box::new(alloc, code)?;
            Ok(make_value(at, code, function_tag(cx, by.function), None, made?))
        }
    }
}

/// An operator that needs both operands.
///
/// # Errors
///
/// 54 for an array, 67 for a built-in division by a constant that is 0.
#[tactic(auto, unfolding(types_rules::specs::Operators::operator_rule), using(pawn_verdict::proofs::VerdictLaws::verdicts))]
fn operate(
    alloc: Global,
    cx: &Context,
    at: At,
    it: Operator,
    user: Option<Op>,
    x: Typed,
    y: Typed,
) -> Result<Typed, CheckFault>
    ensures { Answers typed_view
        (spec.operator_rule (around_view cx.now) at it user (typed_view x) (typed_view y)) result }
{
    let by = chosen(cx, user, x.tag, y.tag);
    let first = x.as_operand(alloc, at);
    let second = y.as_operand(alloc, at);
    let (first, second) = (first?, second?);
    operate_by(alloc, cx, at, it, by, first, second)
}

fn logical_value(it: Logical, left: Option<i32>, right: Option<i32>) -> Option<i32>
    ensures { result ≡ spec.value_of_both (λ a b. Some (cells.logical it a b)) left right }
{
    let (Some(left), Some(right)) = (left, right) else {
        return None;
    };
    Some(it.apply(Cell(left), Cell(right)).0)
}

/// The code of `&&` or `||`.
fn logical_code(it: Logical, left: Box<Expr>, right: Box<Expr>) -> Expr
    ensures { expr_view result ≡ spec.logical_code it (code_view left) (code_view right) }
{
    match it {
        Logical::And => Expr::And(left, right),
        Logical::Or => Expr::Or(left, right),
    }
}

/// `&&` and `||`.
#[tactic(auto, unfolding(types_rules::specs::Operators::logical_rule), using(pawn_verdict::proofs::VerdictLaws::verdicts))]
fn decide(alloc: Global, at: At, it: Logical, x: Typed, y: Typed) -> Result<Typed, CheckFault>
    ensures { Answers typed_view (spec.logical_rule at it (typed_view x) (typed_view y)) result }
{
    let value = logical_value(it, x.value, y.value);
    let left = cell(alloc, at, x.form);
    let right = cell(alloc, at, y.form);
    let made = x.made.then(y.made);
    let code = Box::new(alloc, logical_code(it, left?, right?))?;
    Ok(make_value(at, code, TRUTH_TAG, value, made?))
}

fn last_value(left: Option<i32>, right: Option<i32>) -> Option<i32>
    ensures { result ≡ spec.value_of_both (λ a b. Some b) left right }
{
    left?;
    right
}

/// `,`, whose value and tag are those of the right operand.
#[tactic(auto, unfolding(types_rules::specs::Operators::comma_rule), using(pawn_verdict::proofs::VerdictLaws::verdicts))]
fn take_last(alloc: Global, at: At, x: Typed, y: Typed) -> Result<Typed, CheckFault>
    ensures { Answers typed_view (spec.comma_rule at (typed_view x) (typed_view y)) result }
{
    let value = last_value(x.value, y.value);
    let left = cell(alloc, at, x.form);
    let right = cell(alloc, at, y.form);
    let made = x.made.then(y.made);
    let code = Box::new(alloc, Expr::Seq(left?, right?))?;
    Ok(make_value(at, code, y.tag, value, made?))
}

/// A sign between two operands that groups to the left.
///
/// # Errors
///
/// 54 for an array, 67 for a built-in division by a constant that is 0.
pub fn binary(
    alloc: Global,
    cx: &Context,
    at: At,
    sign: Sign,
    x: Typed,
    y: Typed,
) -> Result<Typed, CheckFault>
    ensures { Answers typed_view
        (spec.binary_rule (around_view cx.now) at sign (typed_view x) (typed_view y)) result }
{
    match between_of(sign) {
        Between::Operates(it, user) => operate(alloc, cx, at, it, user, x, y),
        Between::Decides(it) => decide(alloc, at, it, x, y),
        Between::Takes => take_last(alloc, at, x, y),
        Between::Nothing => Err(broken(UNDEFINED, at.place)),
    }
}

// ---- one operand

/// The user operator for one operand.
pub fn chosen_for_one(cx: &Context, op: Op, tag: u32) -> Option<Choice>
    ensures { result ≡ spec.chosen_for_one (around_view cx.now) op tag }
{
    cx.operators.choose(op, tag, UNTAGGED)
}

fn prefix_value(it: Prefix, value: Option<i32>) -> Option<i32>
    ensures { result ≡ option_map (cells.prefix it) value }
{
    match value {
        None => None,
        Some(value) => Some(it.apply(Cell(value)).0),
    }
}

/// A sign before an operand: the user operator if there is one, else the built-in one, which gives
/// a value of this tag.
#[tactic(auto, using(pawn_verdict::proofs::VerdictLaws::verdicts))]
fn operate_one(
    alloc: Global,
    cx: &Context,
    at: At,
    it: Prefix,
    tag: u32,
    by: Option<Choice>,
    x: Typed,
) -> Result<Typed, CheckFault>
    ensures { Answers typed_view (after (typed.cell at (typed_view x)) (λ e.
        Stands (spec.operate_one (around_view cx.now) at (typed_view x) e
        (spec.unary_value at it tag (typed_view x) e) by))) result }
{
    let operand = cell(alloc, at, x.form)?;
    match by {
        None => {
            let value = prefix_value(it, x.value);
            let code = Box::new(alloc, Expr::Unary(it, operand))?;
            Ok(make_value(at, code, tag, value, x.made))
        }
        Some(by) => {
            let code = Box::new(alloc, Expr::OperateOne(by.function, operand))?;
            Ok(make_value(at, code, function_tag(cx, by.function), None, x.made))
        }
    }
}

/// `!`, which gives a truth value.
#[tactic(auto, unfolding(types_rules::specs::Operators::not_rule))]
pub fn negate_truth(alloc: Global, cx: &Context, at: At, x: Typed) -> Result<Typed, CheckFault>
    ensures { Answers typed_view (spec.not_rule (around_view cx.now) at (typed_view x)) result }
{
    let by = chosen_for_one(cx, Op::Not, x.tag);
    operate_one(alloc, cx, at, Prefix::Not, TRUTH_TAG, by, x)
}

/// `-`
#[tactic(auto, unfolding(types_rules::specs::Operators::negate_rule))]
pub fn negate(alloc: Global, cx: &Context, at: At, x: Typed) -> Result<Typed, CheckFault>
    ensures { Answers typed_view (spec.negate_rule (around_view cx.now) at (typed_view x)) result }
{
    let (by, tag) = (chosen_for_one(cx, Op::Neg, x.tag), x.tag);
    operate_one(alloc, cx, at, Prefix::Negate, tag, by, x)
}

/// `~`, which no user defines.
#[tactic(auto, unfolding(types_rules::specs::Operators::invert_rule))]
pub fn invert(alloc: Global, cx: &Context, at: At, x: Typed) -> Result<Typed, CheckFault>
    ensures { Answers typed_view (spec.invert_rule at (typed_view x)) result }
{
    let tag = x.tag;
    operate_one(alloc, cx, at, Prefix::Invert, tag, None, x)
}
