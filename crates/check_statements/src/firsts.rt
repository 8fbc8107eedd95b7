ghost use Rattle.std.specs.Prelude.{◌≡◌, [], ◌∷◌, false, IfOk};
ghost use Rattle.pawn_meaning.specs.Program as code;
ghost use Rattle.names_rules.specs.Verdict.{Stands, after};
ghost use Rattle.pawn_tree.specs.View.{expr_view, first_view};
ghost use Rattle.pawn_tree.specs.declared.variable.Storage.TheVariants.{New as OfBody};
ghost use Rattle.types_rules.specs.VariableParts.{judged};
ghost use Rattle.types_rules.specs.Literals.{literals};
ghost use Rattle.types_rules.specs.Points.{beyond};
ghost use Rattle.types_rules.specs.Statements as spec;
ghost use Rattle.types_rules.specs.Stood.{stood};
ghost use Rattle.check_expressions.specs.JudgedView.{judged_view};
ghost use Rattle.check_nodes.specs.TypedView.{typed_view};
ghost use Rattle.check_locals.specs.PointView.{point_view};
ghost use Rattle.check_locals.specs.Tells.{Tells, told as plain_told};
ghost use Rattle.check_locals.specs.StoodView.{jump_view, stood_view};
ghost use Rattle.check_statements.specs.SimpleJudging.{behind_first_in, first_done_in};
ghost use Rattle.check_statements.specs.SimpleJudging.{first_part_in};
ghost use Rattle.check_statements.specs.SimpleJudging.{part_in};

use super::setting::Setting;
use super::values::part;
use check_locals::{Declaring, Jump, Outcome, Point, Stood, in_a_loop, judge_behind, locals};
use check_nodes::{Made, Typed};
use pawn_meaning::Stmt as Code;
use pawn_tree::{At, Expr, First, Storage};
use pawn_verdict::CheckFault;
use std::alloc::Global;

// ---- statements that stand in a loop alone

/// `break` or `continue` (Language Guide, "Statements").
///
/// # Errors
///
/// 63 outside of a loop.
pub fn jump(alloc: Global, at: At, in_loop: bool, s: Jump) -> Outcome
    ensures { Tells stood_view (spec.in_a_loop at in_loop (jump_view s)) result }
{
    Ok(Some(in_a_loop(alloc, at, in_loop, s)?))
}

/// `;`
///
/// # Errors
///
/// Want of memory alone.
pub fn empty(alloc: Global) -> Outcome
    ensures { Tells stood_view (Stands (stood (code.Empty ∷ []) [] [])) result }
{
    Ok(Some(Stood::of(alloc, Code::Empty, Made::nothing(alloc))?))
}

// ---- what a `for` does first

/// The variables that a `for` declares.
fn for_vars<'c>(setting: &Setting<'c>, at: At) -> Declaring<'c>
    ensures cx { result.cx.now ≡ setting.now.cx.now }
    ensures at { result.at ≡ at }
    ensures kind { result.kind ≡ OfBody }
    ensures constant { result.constant ≡ false }
{
    Declaring {
        alloc: setting.alloc,
        cx: setting.cx,
        at,
        kind: Storage::New,
        constant: false,
    }
}

/// The expressions in what a `for` does first, which is declared (Language Guide, "Statements").
///
/// # Errors
///
/// What breaks a rule in one of them.
pub fn judge_first<'a>(
    setting: &Setting,
    point: &mut Point<'a>,
    at: At,
    first: &'a First,
) -> Result<Option<()>, CheckFault>
    ensures tells { Tells judged_view
        (first_part_in setting.now (point_view point.old) at (first_view first.now)) result }
    ensures behind { IfOk result (λ it. point_view point.new ≡
        behind_first_in setting.now (point_view point.old) at (first_view first.now)) }
{
    match first {
        First::Nothing => Ok(Some(())),
        First::New(vars) => {
            let here = for_vars(setting, at);
            judge_behind(&here, point, vars.as_slice())
        }
        First::Value(e) => judge_value(setting, point, e),
    }
}

/// An expression alone.
fn judge_value(setting: &Setting, point: &mut Point, e: &Expr) -> Result<Option<()>, CheckFault>
    ensures tells { Tells judged_view
        (after (part_in setting.now (point_view point.old) (expr_view e.now))
        (λ x. Stands judged)) result }
    ensures behind { IfOk result (λ it. point_view point.new ≡
        beyond (point_view point.old) (literals (expr_view e.now)) 0) }
{
    let it = part(setting, point, e)?;
    Ok(judged_of(it))
}

/// An expression of which nothing is wanted.
fn judged_of(it: Option<Typed>) -> Option<()>
    ensures { plain_told judged_view result ≡
        after (plain_told typed_view it) (λ x. Stands judged) }
{
    match it {
        None => None,
        Some(_) => Some(()),
    }
}

/// What a `for` does first.
///
/// # Errors
///
/// 54 for an array whose value isn't used, and what breaks a rule in a declaration or in its parts.
pub fn first_done<'a>(setting: &Setting, point: &mut Point<'a>, at: At, first: &'a First) -> Outcome
    ensures tells { Tells stood_view
        (first_done_in setting.now (point_view point.old) at (first_view first.now)) result }
    ensures behind { IfOk result (λ it. point_view point.new ≡
        behind_first_in setting.now (point_view point.old) at (first_view first.now)) }
{
    match first {
        First::Nothing => Ok(Some(Stood::nothing(setting.alloc)?)),
        First::New(vars) => {
            let here = for_vars(setting, at);
            locals(&here, point, vars.as_slice())
        }
        First::Value(e) => setting.do_stmt(point, at, e),
    }
}
