ghost use Rattle.std.specs.Prelude.{◌≡◌, map};
ghost use Rattle.pawn_meaning.specs.Capped.{capped};
ghost use Rattle.pawn_meaning.specs.Need as spec;
ghost use Rattle.pawn_meaning.specs.View.{stmt_view, else_view};

use super::load::{expr_load, perhaps_load};
use super::node::{Case, Stmt};
use pawn_base::List;

/// The greatest load of an expression in a statement.
#[cycle(stmt_load)]
pub fn stmt_load(stmt: &Stmt) -> u64
    ensures { result ≡ capped (spec.stmt_load (stmt_view stmt.now)) }
{
    match stmt {
        Stmt::Block(stmts) => stmts_load(stmts),
        Stmt::LocalArray(..) | Stmt::Break | Stmt::Continue | Stmt::Empty => 0,
        Stmt::Local(_, x) | Stmt::Do(x) | Stmt::Return(x) | Stmt::Assert(x) => expr_load(x),
        Stmt::Exit(x, _) | Stmt::Sleep(x, _) => expr_load(x),
        Stmt::If(x, s, other) => expr_load(x).max(stmt_load(s).max(else_load(other))),
        Stmt::While(x, s) | Stmt::DoWhile(s, x) => expr_load(x).max(stmt_load(s)),
        Stmt::For(first, x, step, s) => {
            let pass = perhaps_load(x).max(perhaps_load(step).max(stmt_load(s)));
            stmts_load(first).max(pass)
        }
        Stmt::Switch(x, cases, other) => {
            expr_load(x).max(cases_load(cases).max(else_load(other)))
        }
        Stmt::State(_, _, x) => perhaps_load(x),
    }
}

#[cycle(stmt_load)]
fn stmts_load(stmts: &List<Stmt>) -> u64
    ensures { result ≡ capped (spec.greatest
        (map (λ stmt. spec.stmt_load (stmt_view stmt)) stmts.now)) }
{
    let items = stmts.as_slice();
    let mut greatest = 0;
    for i in 0..items.len() {
        greatest = greatest.max(stmt_load(&items[i]));
    }
    greatest
}

#[cycle(stmt_load)]
fn cases_load(cases: &List<Case>) -> u64
    ensures { result ≡ capped (spec.greatest
        (map (λ case. spec.stmt_load (stmt_view case.stmt)) cases.now)) }
{
    let items = cases.as_slice();
    let mut greatest = 0;
    for i in 0..items.len() {
        greatest = greatest.max(stmt_load(&items[i].stmt));
    }
    greatest
}

#[cycle(stmt_load)]
fn else_load(other: &Option<Box<Stmt>>) -> u64
    ensures { result ≡ capped (spec.else_load (else_view other.now)) }
{
    match other {
        Some(s) => stmt_load(s),
        None => 0,
    }
}
