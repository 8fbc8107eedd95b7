ghost use Rattle.std.specs.Prelude.{◌≡◌, map, IfOk};
ghost use Rattle.pawn_tree.specs.View.{decl_view};
ghost use Rattle.types_rules.specs.Declarations as spec;
ghost use Rattle.types_rules.specs.Paths as paths;
ghost use Rattle.check_nodes.specs.PartAnswers.{PartAnswers};
ghost use Rattle.check_nodes.specs.ContextView.{around_view};
ghost use Rattle.check_locals.specs.PointView.{point_view};
ghost use Rattle.check_locals.specs.Tells.{Tells};
ghost use Rattle.check_declarations.specs.DoneView.{done_view};
ghost use Rattle.check_declarations.specs.KnownView.{source_view};

use super::constants::constant_rule;
use super::declaration_steps::then_maybe;
use super::done_declarations::Done;
use super::enumerations::EnumAt;
use super::function_rules::{forward_rule, function_rule, native_rule};
use super::globals::variables_rule;
use super::known::Known;
use check_locals::{Point, answer};
use check_nodes::PartFault;
use pawn_tree::Decl;
use pawn_verdict::CheckFault;

/// What a declaration makes; it stays declared. None where it falls.
fn decl_rule<'a>(
    known: &Known<'a>,
    point: &mut Point<'a>,
    decl: &'a Decl,
) -> Result<Option<Done>, CheckFault>
    ensures tells { Tells done_view (spec.decl_rule (source_view known.now)
        (around_view known.now.cx.now) (point_view point.old) (decl_view decl.now)) result }
    ensures behind { IfOk result (λ it. point_view point.new ≡ paths.behind_decl
        (around_view known.now.cx.now) (point_view point.old) (decl_view decl.now)) }
{
    match decl {
        Decl::Variables(at, it) => variables_rule(known, point, *at, it),
        Decl::Constant(at, it) => constant_rule(known, point, *at, it),
        Decl::Enum(at, name, items) => {
            let it = EnumAt {
                alloc: known.alloc,
                cx: known.cx,
                at: *at,
                name,
                items: items.as_slice(),
            };
            it.judge(point)
        }
        Decl::Native(at, head) => native_rule(known, point, *at, head),
        Decl::Forward(at, _, head) => forward_rule(known, point, *at, head),
        Decl::Function(at, it) => function_rule(known, point, *at, it),
    }
}

/// Declarations, each behind those before it; None where one falls.
fn all_decls<'a>(
    known: &Known<'a>,
    point: &mut Point<'a>,
    decls: &'a [Decl],
) -> Result<Option<Done>, CheckFault>
    ensures { Tells done_view (spec.declarations (source_view known.now)
        (around_view known.now.cx.now) (point_view point.old) (map decl_view decls.now)) result }
{
    let mut done = Some(Done::nothing(known.alloc));
    for i in 0..decls.len() {
        let decl = &decls[i];
        let it = decl_rule(known, point, decl)?;
        done = then_maybe(done, it)?;
    }
    Ok(done)
}

/// The declarations of a source, each behind those before it (Language Guide, "Declarations"): the
/// objects that they make, their bodies, and what they warn of.
///
/// # Errors
///
/// What breaks a rule in one of them, and `Fallen` where one names what doesn't stand.
pub fn declarations<'a>(
    known: &Known<'a>,
    point: &mut Point<'a>,
    decls: &'a [Decl],
) -> Result<Done, PartFault>
    ensures { PartAnswers done_view (spec.declarations (source_view known.now)
        (around_view known.now.cx.now) (point_view point.old) (map decl_view decls.now)) result }
{
    answer(all_decls(known, point, decls))
}
