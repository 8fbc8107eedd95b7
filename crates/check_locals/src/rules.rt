ghost use Rattle.std.specs.Prelude.{◌≡◌, [], ◌∷◌, ◌++◌, map, IfOk};
ghost use Rattle.pawn_meaning.specs.Program as code;
ghost use Rattle.pawn_meaning.specs.View.{else_view, object_view, perhaps_view, slot_view};
ghost use Rattle.pawn_meaning.specs.View.{stmt_view};
ghost use Rattle.types_rules.specs.Stood.{stood};
ghost use Rattle.types_rules.specs.Statements as spec;
ghost use Rattle.pawn_verdict.specs.Answers.{Answers};
ghost use Rattle.check_nodes.specs.CodeView.{code_view};
ghost use Rattle.check_locals.specs.StoodView.{jump_view, maybe_view, other_view};
ghost use Rattle.check_locals.specs.StoodView.{perhaps_code, returned_view, stood_view};
ghost use Rattle.check_locals.specs.StoodView.{used_view};

use super::stood::{Parts, Returned, Stood, one_of};
use super::used::{Maybe, Used};
use check_nodes::Made;
use pawn_base::{List, Memory};
use pawn_meaning::{Expr, Stmt};
use pawn_tree::At;
use pawn_verdict::{CheckFault, broken};
use std::alloc::Global;
use types_rules::OUTSIDE_LOOP;

/// What stands behind `else` or `default`, as the program holds it.
#[derive(Drop)]
pub struct Otherwise {
    pub stmt: Option<Box<Stmt>>,
    pub parts: Parts,
}

/// What stands behind `else` or `default`, or nothing.
pub fn otherwise_of(alloc: Global, other: Option<Stood>) -> Result<Otherwise, Memory>
    ensures stmt { IfOk result (λ it. else_view it.stmt ≡ (other_view other).other) }
    ensures slots { IfOk result (λ it. map slot_view it.parts.slots ≡
        (other_view other).stood.slots) }
    ensures objects { IfOk result (λ it. map object_view it.parts.made.literals ≡
        (other_view other).stood.objects) }
    ensures returns { IfOk result (λ it. map returned_view it.parts.returns ≡
        (other_view other).stood.returns) }
    ensures warned { IfOk result (λ it. it.parts.made.warned ≡ (other_view other).stood.warned) }
{
    match other {
        None => Ok(Otherwise {
            stmt: None,
            parts: Parts::of(alloc, Made::nothing(alloc)),
        }),
        Some(x) => {
            let stmt = one_of(alloc, x.stmts)?;
            Ok(Otherwise {
                stmt: Some(Box::new(alloc, stmt)?),
                parts: Box::into_inner(x.parts),
            })
        }
    }
}

/// An expression whose value isn't used.
pub fn do_rule(alloc: Global, x: Used) -> Result<Stood, Memory>
    ensures { IfOk result (λ it. stood_view it ≡ spec.do_rule (used_view x)) }
{
    Ok(Stood::of(alloc, Stmt::Do(Box::into_inner(x.expr)), x.made)?)
}

/// A block of statements.
#[tactic(auto, using(crate::proofs::NodeLaws::nodes))]
pub fn block_rule(alloc: Global, x: Stood) -> Result<Stood, Memory>
    ensures { IfOk result (λ it. stood_view it ≡ spec.block_rule (stood_view x)) }
{
    let block = Stmt::Block(List::from_vec(x.stmts));
    Ok(Stood::with(alloc, block, Box::into_inner(x.parts))?)
}

/// An `if` with its parts.
#[tactic(auto, using(crate::proofs::NodeLaws::nodes))]
pub fn if_rule(alloc: Global, c: Used, s: Stood, other: Option<Stood>) -> Result<Stood, Memory>
    ensures { IfOk result (λ it. stood_view it ≡
        spec.if_rule (used_view c) (stood_view s) (other_view other)) }
{
    let body = Box::new(alloc, one_of(alloc, s.stmts)?)?;
    let other = otherwise_of(alloc, other)?;
    let inner = Box::into_inner(s.parts).then(other.parts)?;
    let parts = inner.behind(c.made)?;
    Ok(Stood::with(
        alloc,
        Stmt::If(Box::into_inner(c.expr), body, other.stmt),
        parts,
    )?)
}

/// A `while` with its parts.
#[tactic(auto, using(crate::proofs::NodeLaws::nodes))]
pub fn while_rule(alloc: Global, c: Used, s: Stood) -> Result<Stood, Memory>
    ensures { IfOk result (λ it. stood_view it ≡ spec.while_rule (used_view c) (stood_view s)) }
{
    let body = Box::new(alloc, one_of(alloc, s.stmts)?)?;
    let parts = Box::into_inner(s.parts).behind(c.made)?;
    Ok(Stood::with(alloc, Stmt::While(Box::into_inner(c.expr), body), parts)?)
}

/// A `do` with its parts.
#[tactic(auto, using(crate::proofs::NodeLaws::nodes))]
pub fn do_while_rule(alloc: Global, s: Stood, c: Used) -> Result<Stood, Memory>
    ensures { IfOk result (λ it. stood_view it ≡ spec.do_while_rule (stood_view s) (used_view c)) }
{
    let body = Box::new(alloc, one_of(alloc, s.stmts)?)?;
    let parts = Box::into_inner(s.parts).then(Parts::of(alloc, c.made))?;
    Ok(Stood::with(alloc, Stmt::DoWhile(body, Box::into_inner(c.expr)), parts)?)
}

/// What the parts of a `for` make beside its statements.
fn for_parts(first: Parts, c: Made, step: Made, s: Parts) -> Result<Parts, Memory>
    ensures slots { IfOk result (λ all. map slot_view all.slots ≡
        map slot_view first.slots ++ map slot_view s.slots) }
    ensures objects { IfOk result (λ all. map object_view all.made.literals ≡
        map object_view first.made.literals ++ ((map object_view c.literals
        ++ map object_view step.literals) ++ map object_view s.made.literals)) }
    ensures returns { IfOk result (λ all. map returned_view all.returns ≡
        map returned_view first.returns ++ map returned_view s.returns) }
    ensures warned { IfOk result (λ all. all.made.warned ≡
        first.made.warned ++ ((c.warned ++ step.warned) ++ s.made.warned)) }
{
    let made = c.then(step)?;
    let inner = s.behind(made)?;
    Ok(first.then(inner)?)
}

/// An expression that may be absent, as a node holds it.
fn unboxed(code: Option<Box<Expr>>) -> Option<Expr>
    ensures { perhaps_view result ≡ perhaps_code code }
{
    match code {
        None => None,
        Some(code) => Some(Box::into_inner(code)),
    }
}

/// What is done first, the condition and the step, and the body.
#[tactic(auto, using(crate::proofs::NodeLaws::nodes))]
pub fn for_rule(
    alloc: Global,
    first: Stood,
    c: Maybe,
    step: Maybe,
    s: Stood,
) -> Result<Stood, Memory>
    ensures { IfOk result (λ it. stood_view it ≡
        spec.for_rule (stood_view first) (maybe_view c) (maybe_view step) (stood_view s)) }
{
    let before = Box::into_inner(first.parts);
    let parts = for_parts(before, c.made, step.made, Box::into_inner(s.parts))?;
    let body = Box::new(alloc, one_of(alloc, s.stmts)?)?;
    let stmts = List::from_vec(first.stmts);
    let stmt = Stmt::For(stmts, unboxed(c.expr), unboxed(step.expr), body);
    Ok(Stood::with(alloc, stmt, parts)?)
}

/// A `return` that gives a value or doesn't.
pub fn return_rule(
    alloc: Global,
    at: At,
    gives: bool,
    expr: Box<Expr>,
    made: Made,
) -> Result<Stood, Memory>
    ensures { IfOk result (λ it. stood_view it ≡
        spec.return_rule at gives (code_view expr) (map object_view made.literals) made.warned) }
{
    let Parts {
        slots,
        made,
        mut returns,
    } = Parts::of(alloc, made);
    returns.push(Returned { at, gives })?;
    let parts = Parts {
        slots,
        made,
        returns,
    };
    Ok(Stood::with(alloc, Stmt::Return(Box::into_inner(expr)), parts)?)
}

/// The end of the run.
pub fn exit_rule(alloc: Global, x: Used) -> Result<Stood, Memory>
    ensures { IfOk result (λ it. stood_view it ≡
        stood (code.Exit (code_view x.expr) x.tag ∷ [])
        (map object_view x.made.literals) x.made.warned) }
{
    Ok(Stood::of(alloc, Stmt::Exit(Box::into_inner(x.expr), x.tag), x.made)?)
}

/// A sleep.
pub fn sleep_rule(alloc: Global, x: Used) -> Result<Stood, Memory>
    ensures { IfOk result (λ it. stood_view it ≡
        stood (code.Sleep (code_view x.expr) x.tag ∷ [])
        (map object_view x.made.literals) x.made.warned) }
{
    Ok(Stood::of(alloc, Stmt::Sleep(Box::into_inner(x.expr), x.tag), x.made)?)
}

/// A condition that has to hold.
pub fn assert_rule(alloc: Global, x: Used) -> Result<Stood, Memory>
    ensures { IfOk result (λ it. stood_view it ≡
        stood (code.Assert (code_view x.expr) ∷ [])
        (map object_view x.made.literals) x.made.warned) }
{
    Ok(Stood::of(alloc, Stmt::Assert(Box::into_inner(x.expr)), x.made)?)
}

/// A state of an automaton that is reached under a condition.
pub fn state_rule(alloc: Global, automaton: u32, state: u32, c: Maybe) -> Result<Stood, Memory>
    ensures { IfOk result (λ it. stood_view it ≡
        spec.state_rule (record { automaton = automaton; state = state }) (maybe_view c)) }
{
    Ok(Stood::of(
        alloc,
        Stmt::State(automaton, state, unboxed(c.expr)),
        c.made,
    )?)
}

/// A statement that stands in a loop alone.
#[derive(Clone, Copy, Debug, PartialEq, Eq)]
pub enum Jump {
    Break,
    Continue,
}

impl Jump {
    fn stmt(self) -> Stmt
        ensures { stmt_view result ≡ jump_view self }
    {
        match self {
            Jump::Break => Stmt::Break,
            Jump::Continue => Stmt::Continue,
        }
    }
}

/// `break` or `continue` with its surroundings.
///
/// # Errors
///
/// 63 outside of one.
#[tactic(auto, using(pawn_verdict::proofs::VerdictLaws::verdicts))]
pub fn in_a_loop(alloc: Global, at: At, in_loop: bool, jump: Jump) -> Result<Stood, CheckFault>
    ensures { Answers stood_view (spec.in_a_loop at in_loop (jump_view jump)) result }
{
    if in_loop {
        Ok(Stood::of(alloc, jump.stmt(), Made::nothing(alloc))?)
    } else {
        Err(broken(OUTSIDE_LOOP, at.place))
    }
}
