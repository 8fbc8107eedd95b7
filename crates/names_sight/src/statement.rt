ghost use Rattle.std.specs.Prelude.{◌≡◌, map, option_map, OnOk};
ghost use Rattle.pawn_tree.specs.Statements.{stmts, cases, maybe_stmt};
ghost use Rattle.pawn_tree.specs.View.{constant_view, first_view, range_view, stmt_view, case_view};
ghost use Rattle.names_rules.specs.Lists.{all_marks};
ghost use Rattle.names_rules.specs.StatementMarks as spec;
ghost use Rattle.names_sight.specs.MarkView.{marks_view};

use super::expression_marks::{expr_marks, maybe_expr_marks};
use super::mark::{Mark, Sort};
use super::marks::{closes, declares, opens};
use super::variable::{maybe_tag_marks, vars_marks};
use pawn_base::{List, Memory};
use pawn_cells::Place;
use pawn_tree::{At, Case, Constant, Expr, First, Range, Stmt};

/// The marks of a constant of a node at a place, outside all functions or in one.
pub fn constant_marks<'a>(
    place: Place,
    outside: bool,
    x: &'a Constant,
    out: &mut List<Mark<'a>>,
) -> Result<(), Memory>
    ensures { OnOk result (marks_view out.new ≡
        spec.constant_marks place outside (constant_view x.now) (marks_view out.old)) }
{
    maybe_tag_marks(&x.tag, out)?;
    expr_marks(&x.value, out)?;
    let sort = Sort::Constant(&x.value);
    declares(out, place, outside, &x.name, x.tag.as_ref(), sort)
}

fn first_marks<'a>(at: At, x: &'a First, out: &mut List<Mark<'a>>) -> Result<(), Memory>
    ensures { OnOk result (marks_view out.new ≡
        spec.first_marks at (first_view x.now) (marks_view out.old)) }
{
    match x {
        First::Nothing => Ok(()),
        First::New(vars) => vars_marks(at.place, false, vars, out),
        First::Value(x) => expr_marks(x, out),
    }
}

fn range_marks<'a>(x: &'a Range, out: &mut List<Mark<'a>>) -> Result<(), Memory>
    ensures { OnOk result (marks_view out.new ≡
        spec.range_marks (range_view x.now) (marks_view out.old)) }
{
    expr_marks(&x.first, out)?;
    maybe_expr_marks(&x.last, out)
}

fn ranges_marks<'a>(list: &'a List<Range>, out: &mut List<Mark<'a>>) -> Result<(), Memory>
    ensures { OnOk result (marks_view out.new ≡
        all_marks spec.range_marks (map range_view list.now) (marks_view out.old)) }
{
    let items = list.as_slice();
    for i in 0..items.len() {
        range_marks(&items[i], out)?;
    }
    Ok(())
}

/// The marks of a statement.
#[cycle(statement)]
pub fn stmt_marks<'a>(x: &'a Stmt, out: &mut List<Mark<'a>>) -> Result<(), Memory>
    ensures { OnOk result (marks_view out.new ≡
        spec.stmt_marks (stmt_view x.now) (marks_view out.old)) }
{
    match x {
        Stmt::Empty(_) | Stmt::Break(_) | Stmt::Continue(_) => Ok(()),
        Stmt::Do(_, x) | Stmt::Assert(_, x) => expr_marks(x, out),
        Stmt::Return(_, x) | Stmt::Exit(_, x) | Stmt::Sleep(_, x) => maybe_expr_marks(x, out),
        Stmt::State(_, x, _) => maybe_expr_marks(x, out),
        Stmt::Block(_, list) => {
            opens(out)?;
            stmts_marks(list, out)?;
            closes(out)
        }
        Stmt::If(_, x, body, other) => {
            expr_marks(x, out)?;
            stmt_marks(body, out)?;
            other_marks(other, out)
        }
        Stmt::While(_, x, body) => {
            expr_marks(x, out)?;
            stmt_marks(body, out)
        }
        Stmt::DoWhile(_, body, x) => {
            stmt_marks(body, out)?;
            expr_marks(x, out)
        }
        Stmt::For(at, first, test, step, body) => {
            opens(out)?;
            first_marks(*at, first, out)?;
            maybe_expr_marks(test, out)?;
            maybe_expr_marks(step, out)?;
            stmt_marks(body, out)?;
            closes(out)
        }
        Stmt::Switch(_, x, list, other) => {
            expr_marks(x, out)?;
            cases_marks(list, out)?;
            other_marks(other, out)
        }
        Stmt::Local(at, x) => vars_marks(at.place, false, &x.vars, out),
        Stmt::Constant(at, x) => constant_marks(at.place, false, x, out),
    }
}

#[cycle(statement)]
fn stmts_marks<'a>(list: &'a List<Stmt>, out: &mut List<Mark<'a>>) -> Result<(), Memory>
    ensures { OnOk result (marks_view out.new ≡
        spec.stmts_marks (stmts (map stmt_view list.now)) (marks_view out.old)) }
{
    let items = list.as_slice();
    for i in 0..items.len() {
        stmt_marks(&items[i], out)?;
    }
    Ok(())
}

#[cycle(statement)]
fn case_marks<'a>(x: &'a Case, out: &mut List<Mark<'a>>) -> Result<(), Memory>
    ensures { OnOk result (marks_view out.new ≡
        spec.case_marks (case_view x.now) (marks_view out.old)) }
{
    match x {
        Case::Values(_, ranges, body) => {
            ranges_marks(ranges, out)?;
            stmt_marks(body, out)
        }
    }
}

#[cycle(statement)]
fn cases_marks<'a>(list: &'a List<Case>, out: &mut List<Mark<'a>>) -> Result<(), Memory>
    ensures { OnOk result (marks_view out.new ≡
        spec.cases_marks (cases (map case_view list.now)) (marks_view out.old)) }
{
    let items = list.as_slice();
    for i in 0..items.len() {
        case_marks(&items[i], out)?;
    }
    Ok(())
}

#[cycle(statement)]
fn other_marks<'a>(x: &'a Option<Box<Stmt>>, out: &mut List<Mark<'a>>) -> Result<(), Memory>
    ensures { OnOk result (marks_view out.new ≡
        spec.other_marks (maybe_stmt (option_map (λ x. stmt_view x.value) x.now))
        (marks_view out.old)) }
{
    match x {
        None => Ok(()),
        Some(x) => stmt_marks(x, out),
    }
}
