ghost use Rattle.std.specs.Prelude.{◌≡◌, ◌≤◌, map, option_map};
ghost use Rattle.pawn_tree.specs.Height as spec;
ghost use Rattle.pawn_tree.specs.View.{expr_view, first_view, range_view, stmt_view, case_view};

use super::expression::Expr;
use super::expression_height::{expr_height, maybe_expr_height};
use super::statement::{Case, First, Range, Stmt};
use super::variable_height::vars_height;
use pawn_base::List;

fn first_height(x: &First) -> usize
    requires { spec.first_height (first_view x.now) ≤ 1024 }
    ensures { result ≡ spec.first_height (first_view x.now) }
{
    match x {
        First::Nothing => 0,
        First::New(vars) => vars_height(vars),
        First::Value(x) => expr_height(x),
    }
}

fn range_height(x: &Range) -> usize
    requires { spec.range_height (range_view x.now) ≤ 1024 }
    ensures { result ≡ spec.range_height (range_view x.now) }
{
    expr_height(&x.first).max(maybe_expr_height(&x.last))
}

fn ranges_height(list: &List<Range>) -> usize
    requires { spec.highest spec.range_height (map range_view list.now) ≤ 1024 }
    ensures { result ≡ spec.highest spec.range_height (map range_view list.now) }
{
    let items = list.as_slice();
    let mut height = 0;
    for i in 0..items.len() {
        height = height.max(range_height(&items[i]));
    }
    height
}

#[cycle(statement)]
pub fn stmt_height(x: &Stmt) -> usize
    requires { spec.stmt_height (stmt_view x.now) ≤ 1024 }
    ensures { result ≡ spec.stmt_height (stmt_view x.now) }
{
    match x {
        Stmt::Empty(_) | Stmt::Break(_) | Stmt::Continue(_) => 1,
        Stmt::Do(_, x) | Stmt::Assert(_, x) => 1 + expr_height(x),
        Stmt::Block(_, list) => 1 + stmts_height(list),
        Stmt::If(_, x, s, other) => 1 + expr_height(x).max(stmt_height(s).max(other_height(other))),
        Stmt::While(_, x, s) => 1 + expr_height(x).max(stmt_height(s)),
        Stmt::DoWhile(_, s, x) => 1 + stmt_height(s).max(expr_height(x)),
        Stmt::For(_, first, test, step, s) => {
            let body = maybe_expr_height(step).max(stmt_height(s));
            1 + first_height(first).max(maybe_expr_height(test).max(body))
        }
        Stmt::Switch(_, x, cases, other) => {
            1 + expr_height(x).max(cases_height(cases).max(other_height(other)))
        }
        Stmt::Return(_, x) | Stmt::Exit(_, x) => 1 + maybe_expr_height(x),
        Stmt::Sleep(_, x) | Stmt::State(_, x, _) => 1 + maybe_expr_height(x),
        Stmt::Local(_, x) => 1 + vars_height(&x.vars),
        Stmt::Constant(_, x) => 1 + expr_height(&x.value),
    }
}

#[cycle(statement)]
fn case_height(x: &Case) -> usize
    requires { spec.case_height (case_view x.now) ≤ 1024 }
    ensures { result ≡ spec.case_height (case_view x.now) }
{
    match x {
        Case::Values(_, ranges, s) => ranges_height(ranges).max(stmt_height(s)),
    }
}

#[cycle(statement)]
fn stmts_height(list: &List<Stmt>) -> usize
    requires { spec.highest spec.stmt_height (map stmt_view list.now) ≤ 1024 }
    ensures { result ≡ spec.highest spec.stmt_height (map stmt_view list.now) }
{
    let items = list.as_slice();
    let mut height = 0;
    for i in 0..items.len() {
        height = height.max(stmt_height(&items[i]));
    }
    height
}

#[cycle(statement)]
fn cases_height(list: &List<Case>) -> usize
    requires { spec.highest spec.case_height (map case_view list.now) ≤ 1024 }
    ensures { result ≡ spec.highest spec.case_height (map case_view list.now) }
{
    let items = list.as_slice();
    let mut height = 0;
    for i in 0..items.len() {
        height = height.max(case_height(&items[i]));
    }
    height
}

#[cycle(statement)]
fn other_height(x: &Option<Box<Stmt>>) -> usize
    requires { spec.height_of (λ b. spec.stmt_height (stmt_view b.value)) x.now ≤ 1024 }
    ensures { result ≡ spec.height_of (λ b. spec.stmt_height (stmt_view b.value)) x.now }
{
    match x {
        Some(s) => stmt_height(s),
        None => 0,
    }
}
