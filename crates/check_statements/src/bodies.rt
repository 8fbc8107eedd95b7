ghost use Rattle.std.specs.Prelude.{◌≡◌, Bool, true, map, option_map, IfOk};
ghost use Rattle.pawn_tree.specs.Statements as tree;
ghost use Rattle.pawn_tree.specs.View.{case_view, expr_view, first_view, stmt_view};
ghost use Rattle.names_rules.specs.Verdict.{Stands, after};
ghost use Rattle.types_rules.specs.Counts as counts;
ghost use Rattle.types_rules.specs.Points.{beyond, inside};
ghost use Rattle.types_rules.specs.Statements as spec;
ghost use Rattle.check_locals.specs.PointView.{point_view};
ghost use Rattle.check_locals.specs.Tells.{Tells};
ghost use Rattle.check_locals.specs.StoodView.{other_view, stood_view};
ghost use Rattle.check_switches.specs.CaseView.{part_view, parts_view};
ghost use Rattle.check_statements.specs.BodyJudging.{behind_all, behind_in, block_in, cases_in};
ghost use Rattle.check_statements.specs.BodyJudging.{one_case_in, otherwise_in, stmt_in};

use super::firsts::{empty, first_done, judge_first, jump};
use super::loops::{block_told, do_while_told, for_told, if_told, other_of, while_told};
use super::places::{close, declared_in, go_back};
use super::setting::Setting;
use super::values::{maybe_part, part};
use check_locals::{Jump, Outcome, Point, Stood, local_constant, local_vars, then_maybe};
use check_switches::{CasePart, CaseParts, all_ends, case_told, no_case, switch_told, with_case};
use pawn_base::List;
use pawn_tree::{At, Case, Expr, First, Stmt};
use pawn_verdict::CheckFault;

// ---- all statements

/// Which typed statement a statement is (Language Guide, "Statements"), in a loop or not; None
/// where it falls.
///
/// # Errors
///
/// What breaks a rule in it.
#[cycle(statements)]
pub fn stmt<'a>(s: &'a Stmt, setting: &Setting, point: &mut Point<'a>, in_loop: bool) -> Outcome
    ensures tells { Tells stood_view
        (stmt_in setting.now (point_view point.old) in_loop (stmt_view s.now)) result }
    ensures behind { IfOk result (λ it. point_view point.new ≡
        behind_in setting.now (point_view point.old) (stmt_view s.now)) }
{
    match s {
        Stmt::Empty(_) => empty(setting.alloc),
        Stmt::Do(at, e) => setting.do_stmt(point, *at, e),
        Stmt::Block(_, list) => block_stmt(list, setting, point, in_loop),
        Stmt::If(at, c, s, other) => {
            let c = part(setting, point, c)?;
            let s = body(s, setting, point, in_loop)?;
            let other = otherwise(other, setting, point, in_loop)?;
            if_told(setting, *at, c, s, other)
        }
        Stmt::While(at, c, s) => while_stmt(s, setting, point, Test { at: *at, c }),
        Stmt::DoWhile(at, s, c) => do_while_stmt(s, setting, point, Test { at: *at, c }),
        Stmt::For(at, first, c, step, s) => { for_stmt(s, setting, point, *at, first, c, step) }
        Stmt::Switch(at, e, list, other) => {
            let x = part(setting, point, e)?;
            let parts = cases(list, setting, point, in_loop)?;
            let other = otherwise(other, setting, point, in_loop)?;
            switch_told(setting.alloc, setting.cx, *at, x, parts, other)
        }
        Stmt::Return(at, e) => setting.return_stmt(point, *at, e),
        Stmt::Exit(at, e) => setting.exit_stmt(point, *at, e),
        Stmt::Sleep(at, e) => setting.sleep_stmt(point, *at, e),
        Stmt::Assert(at, e) => setting.assert_stmt(point, *at, e),
        Stmt::Break(at) => jump(setting.alloc, *at, in_loop, Jump::Break),
        Stmt::Continue(at) => jump(setting.alloc, *at, in_loop, Jump::Continue),
        Stmt::State(at, c, name) => setting.state_stmt(point, *at, c, name),
        Stmt::Local(at, it) => local_vars(setting.alloc, setting.cx, point, *at, it),
        Stmt::Constant(at, it) => local_constant(setting.alloc, setting.cx, point, *at, it),
    }
}

/// A statement whose declarations end with it.
#[cycle(statements)]
fn body<'a>(s: &'a Stmt, setting: &Setting, point: &mut Point<'a>, in_loop: bool) -> Outcome
    ensures tells { Tells stood_view
        (stmt_in setting.now (point_view point.old) in_loop (stmt_view s.now)) result }
    ensures behind { IfOk result (λ it. point_view point.new ≡ beyond (point_view point.old)
        (counts.objects_in (stmt_view s.now)) (counts.slots_in (stmt_view s.now))) }
{
    let it = stmt(s, setting, point, in_loop)?;
    point.forget(declared_in(s));
    Ok(it)
}

/// What stands behind `else` and `default`, or nothing.
#[cycle(statements)]
fn otherwise<'a>(
    other: &'a Option<Box<Stmt>>,
    setting: &Setting,
    point: &mut Point<'a>,
    in_loop: bool,
) -> Result<Option<Option<Stood>>, CheckFault>
    ensures tells { Tells other_view (otherwise_in setting.now (point_view point.old) in_loop
        (tree.maybe_stmt (option_map (λ s. stmt_view s.value) other.now))) result }
    ensures behind { IfOk result (λ it. point_view point.new ≡ beyond (point_view point.old)
        (counts.objects_in_other (tree.maybe_stmt (option_map (λ s. stmt_view s.value) other.now)))
        (counts.slots_in_other (tree.maybe_stmt (option_map (λ s. stmt_view s.value) other.now)))) }
{
    match other {
        None => Ok(Some(None)),
        Some(s) => {
            let it = body(s, setting, point, in_loop)?;
            Ok(other_of(it))
        }
    }
}

/// The statements of a block, each behind those before it.
#[cycle(statements)]
fn block<'a>(
    list: &'a List<Stmt>,
    setting: &Setting,
    point: &mut Point<'a>,
    in_loop: bool,
) -> Outcome
    ensures tells { Tells stood_view (block_in setting.now (point_view point.old) in_loop
        (tree.stmts (map stmt_view list.now))) result }
    ensures behind { IfOk result (λ it. point_view point.new ≡ behind_all (behind_in setting.now)
        (point_view point.old) (tree.stmts (map stmt_view list.now))) }
{
    let items = list.as_slice();
    let none = Stood::nothing(setting.alloc)?;
    let mut done = Some(none);
    for i in 0..items.len() {
        let it = stmt(&items[i], setting, point, in_loop)?;
        done = then_maybe(setting.alloc, done, it)?;
    }
    Ok(done)
}

/// A block.
#[cycle(statements)]
fn block_stmt<'a>(
    list: &'a List<Stmt>,
    setting: &Setting,
    point: &mut Point<'a>,
    in_loop: bool,
) -> Outcome
    ensures tells { Tells stood_view (after (block_in setting.now (inside (point_view point.old))
        in_loop (tree.stmts (map stmt_view list.now))) (λ x. Stands (spec.block_rule x))) result }
    ensures behind { IfOk result (λ it. point_view point.new ≡ beyond (point_view point.old)
        (counts.objects_in_all (tree.stmts (map stmt_view list.now)))
        (counts.slots_in_all (tree.stmts (map stmt_view list.now)))) }
{
    point.enter()?;
    let it = block(list, setting, point, in_loop)?;
    point.leave();
    block_told(setting.alloc, it)
}

/// The test of a loop, and where the loop stands.
#[derive(Clone, Copy)]
struct Test<'t> {
    at: At,
    c: &'t Expr,
}

/// A `while`.
#[cycle(statements)]
fn while_stmt<'a>(s: &'a Stmt, setting: &Setting, point: &mut Point<'a>, test: Test) -> Outcome
    ensures tells { (in_loop : Bool) → Tells stood_view (stmt_in setting.now (point_view point.old)
        in_loop (tree.While test.entry.at (expr_view test.entry.c.now) (stmt_view s.now))) result }
    ensures behind { IfOk result (λ it. point_view point.new ≡
        behind_in setting.now (point_view point.old)
        (tree.While test.entry.at (expr_view test.entry.c.now) (stmt_view s.now))) }
{
    let c = part(setting, point, test.c)?;
    let s = body(s, setting, point, true)?;
    while_told(setting, test.at, c, s)
}

/// A `do`.
#[cycle(statements)]
fn do_while_stmt<'a>(s: &'a Stmt, setting: &Setting, point: &mut Point<'a>, test: Test) -> Outcome
    ensures tells { (in_loop : Bool) → Tells stood_view (stmt_in setting.now (point_view point.old)
        in_loop
        (tree.DoWhile test.entry.at (stmt_view s.now) (expr_view test.entry.c.now))) result }
    ensures behind { IfOk result (λ it. point_view point.new ≡
        behind_in setting.now (point_view point.old)
        (tree.DoWhile test.entry.at (stmt_view s.now) (expr_view test.entry.c.now))) }
{
    let s = body(s, setting, point, true)?;
    let c = part(setting, point, test.c)?;
    do_while_told(setting, test.at, s, c)
}

/// A `for`: what it does first is judged before its other parts, and looked at behind them, where
/// none of them has a fault.
#[cycle(statements)]
fn for_stmt<'a>(
    s: &'a Stmt,
    setting: &Setting,
    point: &mut Point<'a>,
    at: At,
    first: &'a First,
    c: &Option<Expr>,
    step: &Option<Expr>,
) -> Outcome
    ensures tells { (in_loop : Bool) → Tells stood_view (stmt_in setting.now (point_view point.old)
        in_loop (tree.For at (first_view first.now) (option_map expr_view c.now)
        (option_map expr_view step.now) (stmt_view s.now))) result }
    ensures behind { IfOk result (λ it. point_view point.new ≡
        behind_in setting.now (point_view point.old)
        (tree.For at (first_view first.now) (option_map expr_view c.now)
        (option_map expr_view step.now) (stmt_view s.now))) }
{
    point.enter()?;
    let objects = point.objects;
    let slots = point.slots;
    judge_first(setting, point, at, first)?;
    let c = maybe_part(setting, point, c)?;
    let step = maybe_part(setting, point, step)?;
    let s = body(s, setting, point, true)?;
    let all_objects = point.objects;
    let all_slots = point.slots;
    go_back(point, first, objects, slots);
    let done = first_done(setting, point, at, first)?;
    close(point, all_objects, all_slots);
    for_told(setting, at, done, c, step, s)
}

/// The cases of a `switch`.
#[cycle(statements)]
fn cases<'a>(
    list: &'a List<Case>,
    setting: &Setting,
    point: &mut Point<'a>,
    in_loop: bool,
) -> Result<Option<CaseParts>, CheckFault>
    ensures tells { Tells parts_view (cases_in setting.now (point_view point.old) in_loop
        (tree.cases (map case_view list.now))) result }
    ensures behind { IfOk result (λ it. point_view point.new ≡ beyond (point_view point.old)
        (counts.objects_in_cases (tree.cases (map case_view list.now)))
        (counts.slots_in_cases (tree.cases (map case_view list.now)))) }
{
    let items = list.as_slice();
    let mut done = Some(no_case(setting.alloc));
    for i in 0..items.len() {
        let it = one_case(&items[i], setting, point, in_loop)?;
        done = with_case(done, it)?;
    }
    Ok(done)
}

/// A case.
#[cycle(statements)]
#[tactic(auto, using(check_locals::proofs::ToldLaws::parts))]
fn one_case<'a>(
    x: &'a Case,
    setting: &Setting,
    point: &mut Point<'a>,
    in_loop: bool,
) -> Result<Option<CasePart>, CheckFault>
    ensures tells { Tells part_view (one_case_in setting.now (point_view point.old) in_loop
        (case_view x.now)) result }
    ensures behind { IfOk result (λ it. point_view point.new ≡ beyond (point_view point.old)
        (counts.objects_in_case (case_view x.now)) (counts.slots_in_case (case_view x.now))) }
{
    match x {
        Case::Values(_, ranges, s) => {
            let ends = all_ends(setting.alloc, setting.cx, &point.scopes, ranges.as_slice())?;
            let s = body(s, setting, point, in_loop)?;
            Ok(case_told(ends, s))
        }
    }
}
