ghost use Rattle.std.specs.Prelude.{map, option_map, OnOk};
ghost use Rattle.pawn_tree.specs.Statements.{stmts, cases, maybe_stmt};
ghost use Rattle.pawn_tree.specs.View.{stmt_view, case_view};
ghost use Rattle.types_rules.specs.CalledIn as spec;
ghost use Rattle.check_source.specs.Adds.{Adds};

use super::expression::{in_expr, in_maybe};
use super::variable::{in_first, in_vars};
use pawn_base::{List, Memory};
use pawn_tree::{Case, Stmt};

/// Adds the names that are called in a statement, in the order of the source (Language Guide,
/// "Functions").
///
/// # Errors
///
/// `Memory` for want of memory.
#[cycle(statement)]
#[tactic(auto, using(crate::proofs::AddLaws::adds))]
pub fn add_called<'a>(x: &'a Stmt, out: &mut List<&'a [u8]>) -> Result<(), Memory>
    ensures { OnOk result (Adds out.old out.new (spec.called_in (stmt_view x.now))) }
{
    match x {
        Stmt::Empty(_) | Stmt::Break(_) | Stmt::Continue(_) | Stmt::Constant(..) => Ok(()),
        Stmt::Do(_, x) | Stmt::Assert(_, x) => in_expr(x, out),
        Stmt::Return(_, x) | Stmt::Exit(_, x) | Stmt::Sleep(_, x) => in_maybe(x, out),
        Stmt::State(_, x, _) => in_maybe(x, out),
        Stmt::Block(_, list) => in_stmts(list, out),
        Stmt::If(_, x, body, other) => {
            in_expr(x, out)?;
            add_called(body, out)?;
            in_other(other, out)
        }
        Stmt::While(_, x, body) => {
            in_expr(x, out)?;
            add_called(body, out)
        }
        Stmt::DoWhile(_, body, x) => {
            add_called(body, out)?;
            in_expr(x, out)
        }
        Stmt::For(_, first, test, step, body) => {
            in_first(first, out)?;
            in_maybe(test, out)?;
            in_maybe(step, out)?;
            add_called(body, out)
        }
        Stmt::Switch(_, x, list, other) => {
            in_expr(x, out)?;
            in_cases(list, out)?;
            in_other(other, out)
        }
        Stmt::Local(_, x) => in_vars(&x.vars, out),
    }
}

#[cycle(statement)]
#[tactic(auto, using(crate::proofs::AddLaws::adds))]
fn in_stmts<'a>(list: &'a List<Stmt>, out: &mut List<&'a [u8]>) -> Result<(), Memory>
    ensures { OnOk result (Adds out.old out.new
        (spec.called_in_all (stmts (map stmt_view list.now)))) }
{
    let items = list.as_slice();
    for i in 0..items.len() {
        add_called(&items[i], out)?;
    }
    Ok(())
}

#[cycle(statement)]
#[tactic(auto, using(crate::proofs::AddLaws::adds))]
fn in_case<'a>(x: &'a Case, out: &mut List<&'a [u8]>) -> Result<(), Memory>
    ensures { OnOk result (Adds out.old out.new (spec.called_in_case (case_view x.now))) }
{
    match x {
        Case::Values(_, _, body) => add_called(body, out),
    }
}

#[cycle(statement)]
#[tactic(auto, using(crate::proofs::AddLaws::adds))]
fn in_cases<'a>(list: &'a List<Case>, out: &mut List<&'a [u8]>) -> Result<(), Memory>
    ensures { OnOk result (Adds out.old out.new
        (spec.called_in_cases (cases (map case_view list.now)))) }
{
    let items = list.as_slice();
    for i in 0..items.len() {
        in_case(&items[i], out)?;
    }
    Ok(())
}

#[cycle(statement)]
#[tactic(auto, using(crate::proofs::AddLaws::adds))]
fn in_other<'a>(x: &'a Option<Box<Stmt>>, out: &mut List<&'a [u8]>) -> Result<(), Memory>
    ensures { OnOk result (Adds out.old out.new
        (spec.called_in_other (maybe_stmt (option_map (λ x. stmt_view x.value) x.now)))) }
{
    match x {
        None => Ok(()),
        Some(x) => add_called(x, out),
    }
}
