ghost use Rattle.std.specs.Prelude.{◌≡◌, map, option_map, IfOk};
ghost use Rattle.pawn_meaning.specs.Program as code;
ghost use Rattle.pawn_meaning.specs.View.{cases_view, else_view, stmt_view};
ghost use Rattle.names_rules.specs.Verdict.{Stands, after, both};
ghost use Rattle.types_rules.specs.Rule.{pair};
ghost use Rattle.types_rules.specs.Statements as spec;
ghost use Rattle.types_rules.specs.Switches.{apart as plain_apart};
ghost use Rattle.pawn_verdict.specs.Answers.{Answers};
ghost use Rattle.check_nodes.specs.CodeView.{code_view};
ghost use Rattle.check_nodes.specs.ContextView.{around_view};
ghost use Rattle.check_nodes.specs.TypedView.{typed_view};
ghost use Rattle.check_locals.specs.StoodView.{other_view, stood_view, used_view};
ghost use Rattle.check_locals.specs.Tells.{Tells, told};
ghost use Rattle.check_switches.specs.CaseView.{cased_view, labels_view, part_view, parts_view};
ghost use Rattle.check_switches.specs.Cased.{bare, bare_verdict, cased_behind, one_cased};
ghost use Rattle.check_switches.specs.Switching.{case_rule, cased_in, switch_in, use_in};

use super::apart::apart;
use super::case_parts::{CasePart, CaseParts};
use super::labels::{Labels, case_labels};
use check_locals::{Parts, Stood, Used, one_of, otherwise_of, use_at};
use check_nodes::{Context, Made, Typed};
use pawn_base::{List, Memory};
use pawn_meaning::{Case, Expr, Stmt};
use pawn_tree::At;
use pawn_verdict::CheckFault;
use std::alloc::Global;

/// Cases with their values: what the program does in each, all their ranges, and what they make
/// beside that.
#[derive(Drop)]
pub struct Cases {
    pub cases: List<Case>,
    pub ranges: List<(i32, i32)>,
    pub parts: Parts,
}

/// A case of these ranges.
fn case_with(alloc: Global, ranges: &[(i32, i32)], stmt: Stmt) -> Result<List<Case>, Memory>
    ensures { IfOk result (λ cases. cases_view cases ≡
        code.then_case ranges.now (stmt_view stmt) code.no_cases) }
{
    let ranges = List::from_vec(Vec::from_slice(alloc, ranges)?);
    let mut cases = List::new(alloc);
    cases.push(Case { ranges, stmt })?;
    Ok(cases)
}

/// A case with its values.
#[tactic(auto, using(crate::proofs::OneLaws::alone_is))]
fn one_case(alloc: Global, x: Labels, s: Stood) -> Result<Cases, Memory>
    ensures { IfOk result (λ it. cased_view it ≡
        bare (one_cased (labels_view x) (stood_view s))) }
{
    let made = Made {
        literals: List::new(alloc),
        warned: x.warned,
    };
    let parts = Box::into_inner(s.parts).behind(made)?;
    let stmt = one_of(alloc, s.stmts)?;
    Ok(Cases {
        cases: case_with(alloc, x.ranges.as_slice(), stmt)?,
        ranges: x.ranges,
        parts,
    })
}

/// Cases, and those behind them.
#[tactic(auto, using(crate::proofs::RuleLaws::cases_onto))]
fn then_cases(done: Cases, more: Cases) -> Result<Cases, Memory>
    ensures { IfOk result (λ all. cased_view all ≡
        cased_behind (cased_view done) (cased_view more)) }
{
    let Cases {
        mut cases,
        mut ranges,
        parts,
    } = done;
    cases.append(more.cases)?;
    ranges.append(more.ranges)?;
    Ok(Cases {
        cases,
        ranges,
        parts: parts.then(more.parts)?,
    })
}

/// A case by its parts.
///
/// # Errors
///
/// 57 for what is no constant.
#[tactic(auto, using(pawn_verdict::proofs::VerdictLaws::verdicts))]
fn case_of(
    alloc: Global,
    cx: &Context,
    at: At,
    tag: u32,
    part: CasePart,
) -> Result<Cases, CheckFault>
    ensures { Answers cased_view
        (case_rule (around_view cx.now) at tag (part_view part)) result }
{
    let ends = part.ends;
    let values = case_labels(alloc, cx, at, tag, ends.items)?;
    Ok(one_case(alloc, values, part.stood)?)
}

/// All cases by their parts.
///
/// # Errors
///
/// 57 for what is no constant.
fn cased(
    alloc: Global,
    cx: &Context,
    at: At,
    tag: u32,
    parts: Vec<CasePart>,
) -> Result<Cases, CheckFault>
    ensures { Answers cased_view (bare_verdict
        (cased_in (around_view cx.now) at tag (map part_view parts.items))) result }
{
    let mut done = Cases {
        cases: List::new(alloc),
        ranges: List::new(alloc),
        parts: Parts::of(alloc, Made::nothing(alloc)),
    };
    for part in parts {
        let it = case_of(alloc, cx, at, tag, part)?;
        done = then_cases(done, it)?;
    }
    Ok(done)
}

/// A `switch` as the program holds it.
fn switch_node(value: Box<Expr>, cases: List<Case>, other: Option<Box<Stmt>>) -> Stmt
    ensures { stmt_view result ≡
        code.Switch (code_view value) (cases_view cases) (else_view other) }
{
    Stmt::Switch(Box::into_inner(value), cases, other)
}

/// A `switch` with its parts.
fn switch_rule(alloc: Global, e: Used, it: Cases, other: Option<Stood>) -> Result<Stood, Memory>
    ensures { IfOk result (λ x. stood_view x ≡
        spec.switch_rule (used_view e) (cased_view it) (other_view other)) }
{
    let other = otherwise_of(alloc, other)?;
    let inner = it.parts.then(other.parts)?;
    let parts = inner.behind(e.made)?;
    let stmt = switch_node(e.expr, it.cases, other.stmt);
    Ok(Stood::with(alloc, stmt, parts)?)
}

/// A `switch` whose parts stand: its value, its cases, and what stands behind `default`.
#[derive(Drop)]
struct Switch {
    x: Typed,
    parts: CaseParts,
    other: Option<Stood>,
}

/// A `switch` by its parts, whose ranges don't touch.
///
/// # Errors
///
/// 54 for an array, 57 for what is no constant, 62 for a value that stands twice and for a range
/// that ends below its start.
#[tactic(auto, using(pawn_verdict::proofs::VerdictLaws::verdicts))]
fn switch_bare(alloc: Global, cx: &Context, at: At, s: Switch) -> Result<Stood, CheckFault>
    ensures { Answers stood_view (both (use_in (around_view cx.now) at (typed_view s.x))
        (bare_verdict (cased_in (around_view cx.now) at s.x.tag (parts_view s.parts)))
        (λ e it. after (plain_apart at it.ranges)
        (λ ranges. Stands (spec.switch_rule e it (other_view s.other))))) result }
{
    let Switch { x, parts, other } = s;
    let tag = x.tag;
    let e = use_at(alloc, at, x)?;
    let it = cased(alloc, cx, at, tag, parts.items)?;
    apart(alloc, at, it.ranges.as_slice())?;
    Ok(switch_rule(alloc, e, it, other)?)
}

/// The same, by the rule of a `switch`.
fn switch_by(alloc: Global, cx: &Context, at: At, s: Switch) -> Result<Stood, CheckFault>
    ensures { Answers stood_view (switch_in (around_view cx.now) at (typed_view s.x)
        (parts_view s.parts) (other_view s.other)) result }
{
    switch_bare(alloc, cx, at, s)
}

/// A `switch` by its parts, which stand or fall (Language Guide, "Statements"); None where one
/// falls.
///
/// # Errors
///
/// 54 for an array, 57 for what is no constant, 62 for a value that stands twice and for a range
/// that ends below its start.
#[tactic(auto, using(check_locals::proofs::ToldLaws::parts, crate::proofs::FallLaws::falls))]
pub fn switch_told(
    alloc: Global,
    cx: &Context,
    at: At,
    x: Option<Typed>,
    parts: Option<CaseParts>,
    other: Option<Option<Stood>>,
) -> Result<Option<Stood>, CheckFault>
    ensures { Tells stood_view (both (told typed_view x)
        (pair (told parts_view parts) (told other_view other))
        (λ x parts. switch_in (around_view cx.now) at x parts.0 parts.1)) result }
{
    let Some(x) = x else {
        return Ok(None);
    };
    let Some(parts) = parts else {
        return Ok(None);
    };
    let Some(other) = other else {
        return Ok(None);
    };
    Ok(Some(switch_by(alloc, cx, at, Switch { x, parts, other })?))
}
