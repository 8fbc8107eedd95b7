ghost use Rattle.std.specs.Prelude.{◌≡◌, ◌+◌, map, option_map, sum_by, IfOk};
ghost use Rattle.pawn_tree.specs.Statements.{maybe_stmt};
ghost use Rattle.pawn_tree.specs.View.{case_view, expr_view, first_view, stmt_view, var_view};
ghost use Rattle.types_rules.specs.Counts as spec;

use super::counts::{literals, objects_of_var};
use pawn_base::{List, Memory};
use pawn_tree::{Case, Expr, First, Stmt, Storage, Var};

/// The sum of two counts.
fn sum(left: usize, right: usize) -> Result<usize, Memory>
    ensures { IfOk result (λ both. both ≡ left + right) }
{
    match left.checked_add(right) {
        None => Err(Memory),
        Some(both) => Ok(both),
    }
}

/// Of an expression that may be left out.
fn literals_of(e: &Option<Expr>) -> Result<usize, Memory>
    ensures { IfOk result (λ count. count ≡ spec.literals_of (option_map expr_view e.now)) }
{
    match e {
        None => Ok(0),
        Some(e) => literals(e),
    }
}

/// Of variables that are declared together.
fn objects_of_vars(kind: Storage, vars: &[Var]) -> Result<usize, Memory>
    ensures { IfOk result (λ count. count ≡ spec.objects_of_vars kind (map var_view vars.now)) }
{
    let mut count = 0;
    for i in 0..vars.len() {
        count = sum(count, objects_of_var(kind, &vars[i])?)?;
    }
    Ok(count)
}

/// Of what a `for` does first.
fn objects_first(first: &First) -> Result<usize, Memory>
    ensures { IfOk result (λ count. count ≡ spec.objects_first (first_view first.now)) }
{
    match first {
        First::Nothing => Ok(0),
        First::New(vars) => objects_of_vars(Storage::New, vars.as_slice()),
        First::Value(e) => literals(e),
    }
}

/// How many objects a statement makes (Language Guide, "Declarations"): one for each array, each
/// `static` and each literal.
///
/// # Errors
///
/// `Memory` for more than a usize counts.
#[cycle(objects_in)]
pub fn objects_in(s: &Stmt) -> Result<usize, Memory>
    ensures { IfOk result (λ count. count ≡ spec.objects_in (stmt_view s.now)) }
{
    match s {
        Stmt::Empty(_) => Ok(0),
        Stmt::Do(_, e) => literals(e),
        Stmt::Block(_, list) => objects_in_all(list),
        Stmt::If(_, c, s, other) => {
            sum(literals(c)?, sum(objects_in(s)?, objects_in_other(other)?)?)
        }
        Stmt::While(_, c, s) => sum(literals(c)?, objects_in(s)?),
        Stmt::DoWhile(_, s, c) => sum(objects_in(s)?, literals(c)?),
        Stmt::For(_, first, c, step, s) => sum(
            objects_first(first)?,
            sum(literals_of(c)?, sum(literals_of(step)?, objects_in(s)?)?)?,
        ),
        Stmt::Switch(_, e, list, other) => sum(
            literals(e)?,
            sum(objects_in_cases(list)?, objects_in_other(other)?)?,
        ),
        Stmt::Return(_, e) => literals_of(e),
        Stmt::Exit(_, e) => literals_of(e),
        Stmt::Sleep(_, e) => literals_of(e),
        Stmt::Assert(_, e) => literals(e),
        Stmt::Break(_) => Ok(0),
        Stmt::Continue(_) => Ok(0),
        Stmt::State(_, e, _) => literals_of(e),
        Stmt::Local(_, it) => objects_of_vars(it.storage, it.vars.as_slice()),
        Stmt::Constant(_, _) => Ok(0),
    }
}

/// Of a list of statements.
#[cycle(objects_in)]
fn objects_in_all(list: &List<Stmt>) -> Result<usize, Memory>
    ensures { IfOk result (λ count. count ≡ sum_by spec.objects_in (map stmt_view list.now)) }
{
    let items = list.as_slice();
    let mut count = 0;
    for i in 0..items.len() {
        count = sum(count, objects_in(&items[i])?)?;
    }
    Ok(count)
}

/// Of what stands behind `else` or `default`.
#[cycle(objects_in)]
fn objects_in_other(other: &Option<Box<Stmt>>) -> Result<usize, Memory>
    ensures { IfOk result (λ count. count ≡ spec.objects_in_other
        (maybe_stmt (option_map (λ s. stmt_view s.value) other.now))) }
{
    match other {
        None => Ok(0),
        Some(s) => objects_in(s),
    }
}

/// Of a case, whose values have no literals.
#[cycle(objects_in)]
fn objects_in_case(case: &Case) -> Result<usize, Memory>
    ensures { IfOk result (λ count. count ≡ spec.objects_in_case (case_view case.now)) }
{
    match case {
        Case::Values(_, _, s) => objects_in(s),
    }
}

/// Of the cases of a `switch`.
#[cycle(objects_in)]
fn objects_in_cases(list: &List<Case>) -> Result<usize, Memory>
    ensures { IfOk result (λ count. count ≡ sum_by spec.objects_in_case (map case_view list.now)) }
{
    let items = list.as_slice();
    let mut count = 0;
    for i in 0..items.len() {
        count = sum(count, objects_in_case(&items[i])?)?;
    }
    Ok(count)
}
