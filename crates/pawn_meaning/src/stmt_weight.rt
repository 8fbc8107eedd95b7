ghost use Rattle.std.specs.Prelude.{◌≡◌, ◌+◌, ◌^◌, ◌≤◌, sum_by};
ghost use Rattle.pawn_meaning.specs.Capped.{capped};
ghost use Rattle.pawn_meaning.specs.Weight as spec;
ghost use Rattle.pawn_meaning.specs.View.{expr_view, stmt_view, else_view};

use super::expr_weight::{perhaps_weight, weigh};
use super::folding::node;
use super::node::{Case, Expr, Stmt};
use super::program_limits::{NODE_WEIGHT, PAIR_WEIGHT};
use pawn_base::List;

/// The weight of an expression.
fn expr_weight(expr: &Expr, lean: bool) -> u64
    ensures { result ≡ capped (spec.expr_weight (spec.alone_in lean) (expr_view expr.now)) }
{
    weigh(expr, lean).share.weight
}

/// The weight of a statement.
#[cycle(stmt_weight)]
pub fn stmt_weight(stmt: &Stmt, lean: bool) -> u64
    ensures { result ≡ capped (spec.stmt_weight (spec.alone_in lean) (stmt_view stmt.now)) }
{
    match stmt {
        Stmt::Block(stmts) => node(stmts_weight(stmts, lean)),
        Stmt::LocalArray(..) | Stmt::Break | Stmt::Continue | Stmt::Empty => NODE_WEIGHT,
        Stmt::Local(_, x) | Stmt::Do(x) | Stmt::Return(x) | Stmt::Assert(x) => {
            node(expr_weight(x, lean))
        }
        Stmt::Exit(x, _) | Stmt::Sleep(x, _) => node(expr_weight(x, lean)),
        Stmt::If(x, s, other) => {
            let branches = stmt_weight(s, lean).saturating_add(else_weight(other, lean));
            node(expr_weight(x, lean).saturating_add(branches))
        }
        Stmt::While(x, s) | Stmt::DoWhile(s, x) => {
            node(expr_weight(x, lean).saturating_add(stmt_weight(s, lean)))
        }
        Stmt::For(first, x, step, s) => {
            let head = stmts_weight(first, lean).saturating_add(perhaps_weight(x, lean));
            let pass = perhaps_weight(step, lean).saturating_add(stmt_weight(s, lean));
            node(head.saturating_add(pass))
        }
        Stmt::Switch(x, cases, other) => {
            let branches = cases_weight(cases, lean).saturating_add(else_weight(other, lean));
            node(expr_weight(x, lean).saturating_add(branches))
        }
        Stmt::State(_, _, x) => node(perhaps_weight(x, lean)),
    }
}

#[cycle(stmt_weight)]
fn stmts_weight(stmts: &List<Stmt>, lean: bool) -> u64
    ensures { result ≡ capped
        (sum_by (λ stmt. spec.stmt_weight (spec.alone_in lean) (stmt_view stmt)) stmts.now) }
{
    let items = stmts.as_slice();
    let mut sum = 0u64;
    for i in 0..items.len() {
        sum = sum.saturating_add(stmt_weight(&items[i], lean));
    }
    sum
}

#[cycle(stmt_weight)]
fn cases_weight(cases: &List<Case>, lean: bool) -> u64
    ensures { result ≡ capped (sum_by (λ case. spec.ranges_weight case.ranges +
        spec.stmt_weight (spec.alone_in lean) (stmt_view case.stmt)) cases.now) }
{
    let items = cases.as_slice();
    let mut sum = 0u64;
    for i in 0..items.len() {
        let values = ranges_weight(&items[i].ranges);
        sum = sum.saturating_add(values.saturating_add(stmt_weight(&items[i].stmt, lean)));
    }
    sum
}

#[cycle(stmt_weight)]
fn else_weight(other: &Option<Box<Stmt>>, lean: bool) -> u64
    ensures { result ≡
        capped (spec.else_weight (spec.alone_in lean) (else_view other.now)) }
{
    match other {
        Some(s) => stmt_weight(s, lean),
        None => 0,
    }
}

/// The weight of the values of a case.
fn ranges_weight(ranges: &List<(i32, i32)>) -> u64
    ensures { result ≡ capped (spec.ranges_weight ranges.now) }
{
    let items = ranges.as_slice();
    let mut sum = 0u64;
    for i in 0..items.len() {
        sum = sum.saturating_add(PAIR_WEIGHT * values_in(items[i]));
    }
    sum
}

/// The values from a least to a greatest one.
fn values_in(range: (i32, i32)) -> u64
    ensures value { result ≡ spec.values_in range }
    ensures limit { result ≤ 2 ^ 32 }
{
    let (least, greatest) = range;
    if least > greatest {
        return 0;
    }
    (i64::from(greatest) - i64::from(least) + 1) as u64
}
