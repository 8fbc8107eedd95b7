ghost use Rattle.std.specs.Prelude.{◌≡◌, map, IfOk, OnOk};
ghost use Rattle.names_rules.specs.Verdict.{Stands, after};
ghost use Rattle.pawn_tree.specs.View.{var_view};
ghost use Rattle.pawn_tree.specs.declared.variable.Storage.TheVariants.{Static as OfFile};
ghost use Rattle.types_rules.specs.Rule.{unless_faults};
ghost use Rattle.types_rules.specs.Points as points;
ghost use Rattle.types_rules.specs.Locals as locals;
ghost use Rattle.types_rules.specs.Declarations as spec;
ghost use Rattle.check_nodes.specs.ContextView.{around_view};
ghost use Rattle.check_locals.specs.PointView.{point_view};
ghost use Rattle.check_locals.specs.Tells.{Tells};
ghost use Rattle.check_declarations.specs.DoneView.{done_view};
ghost use Rattle.check_declarations.specs.KnownView.{source_view};

use super::declaration_steps::{objects_of, then_maybe};
use super::done_declarations::Done;
use super::known::Known;
use check_locals::{Declaring, Point, declare_var, judge_vars, local_by};
use check_nodes::Context;
use pawn_base::Memory;
use pawn_tree::{At, Storage, Var, Variables};
use pawn_verdict::CheckFault;
use std::alloc::Global;

/// A variable of the file, which stays declared: its objects.
#[tactic(auto, using(check_locals::proofs::ToldLaws::parts))]
fn global<'a>(
    known: &Known,
    point: &mut Point<'a>,
    at: At,
    constant: bool,
    x: &'a Var,
) -> Result<Option<Done>, CheckFault>
    ensures tells { Tells done_view (after (locals.local_by (around_view known.now.cx.now)
        (point_view point.old) at OfFile constant (var_view x.now) (var_view x.now).dims)
        (λ it. Stands (spec.objects_done it))) result }
    ensures behind { IfOk result (λ done. point_view point.new ≡ points.behind_var
        (around_view known.now.cx.now) (point_view point.old) at OfFile constant
        (var_view x.now)) }
{
    let here = Declaring {
        alloc: known.alloc,
        cx: known.cx,
        at,
        kind: Storage::Static,
        constant,
    };
    let it = local_by(&here, point, x)?;
    declare_var(&here, point, x)?;
    Ok(objects_of(known.alloc, it))
}

/// Variables of the file, each known behind its own value.
fn globals<'a>(
    known: &Known,
    point: &mut Point<'a>,
    at: At,
    constant: bool,
    vars: &'a [Var],
) -> Result<Option<Done>, CheckFault>
    ensures tells { Tells done_view (spec.globals (source_view known.now)
        (around_view known.now.cx.now) (point_view point.old) at constant
        (map var_view vars.now)) result }
    ensures behind { IfOk result (λ done. point_view point.new ≡ points.behind_vars
        (around_view known.now.cx.now) (point_view point.old) at OfFile constant
        (map var_view vars.now)) }
{
    let mut done = Some(Done::nothing(known.alloc));
    for i in 0..vars.len() {
        let it = global(known, point, at, constant, &vars[i])?;
        done = then_maybe(done, it)?;
    }
    Ok(done)
}

/// Variables of the file, which are objects, judged where the expressions in them have no fault
/// (Language Guide, "Declarations"). They stay declared; None where they fall.
///
/// # Errors
///
/// 53, 54, 55, 57 and 68 as sizes and first values, and what breaks a rule in an expression.
#[tactic(auto, using(check_locals::proofs::ToldLaws::parts))]
pub fn variables_rule<'a>(
    known: &Known,
    point: &mut Point<'a>,
    at: At,
    it: &'a Variables,
) -> Result<Option<Done>, CheckFault>
    ensures tells { Tells done_view (unless_faults (locals.vars_parts (around_view known.now.cx.now)
        (point_view point.old) at OfFile it.now.constant (map var_view it.now.vars))
        (spec.globals (source_view known.now) (around_view known.now.cx.now)
        (point_view point.old) at it.now.constant (map var_view it.now.vars))) result }
    ensures behind { IfOk result (λ done. point_view point.new ≡ points.behind_vars
        (around_view known.now.cx.now) (point_view point.old) at OfFile it.now.constant
        (map var_view it.now.vars)) }
{
    let vars = it.vars.as_slice();
    let here = Declaring {
        alloc: known.alloc,
        cx: known.cx,
        at,
        kind: Storage::Static,
        constant: it.constant,
    };
    judge_vars(&here, point, vars)?;
    globals(known, point, at, it.constant, vars)
}

/// Variables of the file are declared, whether they stand or not.
///
/// # Errors
///
/// `Memory` for want of memory, and for more objects than a u32 counts.
pub fn declare_vars<'a>(
    alloc: Global,
    cx: &Context,
    point: &mut Point<'a>,
    at: At,
    constant: bool,
    vars: &'a [Var],
) -> Result<(), Memory>
    ensures { OnOk result (point_view point.new ≡ points.behind_vars (around_view cx.now)
        (point_view point.old) at OfFile constant (map var_view vars.now)) }
{
    for i in 0..vars.len() {
        let here = Declaring {
            alloc,
            cx,
            at,
            kind: Storage::Static,
            constant,
        };
        declare_var(&here, point, &vars[i])?;
    }
    Ok(())
}
