ghost use Rattle.std.specs.Prelude.{◌≡◌, ◌++◌, [], ◌∷◌, map, option_map, IfOk, OnOk};
ghost use Rattle.pawn_tree.specs.View.{decl_view, head_view as tree_view};
ghost use Rattle.types_rules.specs.Params as params;
ghost use Rattle.types_rules.specs.Paths as spec;
ghost use Rattle.check_nodes.specs.ContextView.{around_view, head_view};
ghost use Rattle.check_locals.specs.PointView.{point_view};

use super::constants::declare_constant;
use super::enumerations::EnumAt;
use super::globals::declare_vars;
use check_heads::head_of;
use check_locals::{Point, objects_in};
use check_nodes::{Context, Head as Typed};
use pawn_base::{List, Memory};
use pawn_tree::{At, Decl, Head};
use std::alloc::Global;

/// What a declaration adds to the path, whether it stands or not.
fn pass_decl<'a>(
    alloc: Global,
    cx: &Context,
    point: &mut Point<'a>,
    decl: &'a Decl,
) -> Result<(), Memory>
    ensures { OnOk result (point_view point.new ≡ spec.behind_decl (around_view cx.now)
        (point_view point.old) (decl_view decl.now)) }
{
    match decl {
        Decl::Variables(at, it) => {
            declare_vars(alloc, cx, point, *at, it.constant, it.vars.as_slice())
        }
        Decl::Constant(at, it) => declare_constant(alloc, cx, point, *at, it),
        Decl::Enum(at, name, items) => {
            let it = EnumAt {
                alloc,
                cx,
                at: *at,
                name,
                items: items.as_slice(),
            };
            it.declare(point)
        }
        Decl::Native(_, _) => Ok(()),
        Decl::Forward(_, _, _) => Ok(()),
        Decl::Function(_, it) => {
            let objects = objects_in(&it.body)?;
            point.pass(objects, 0)
        }
    }
}

/// A head behind others, by the path where it stands.
fn with_head<'a>(
    alloc: Global,
    cx: &Context,
    point: &mut Point<'a>,
    at: At,
    head: &'a Head,
    heads: List<Option<Typed>>,
) -> Result<List<Option<Typed>>, Memory>
    ensures heads { IfOk result (λ all. map (option_map head_view) all
        ≡ map (option_map head_view) heads ++ params.head_of (params.head_rule
        (around_view cx.now) at (point_view point.old).scope (tree_view head.now)) ∷ []) }
    ensures point { OnOk result (point_view point.new ≡ point_view point.old) }
{
    let it = head_of(alloc, cx, &mut point.scopes, at, head)?;
    let mut heads = heads;
    heads.push(it)?;
    Ok(heads)
}

/// The heads of a declaration behind others.
fn with_heads<'a>(
    alloc: Global,
    cx: &Context,
    point: &mut Point<'a>,
    decl: &'a Decl,
    heads: List<Option<Typed>>,
) -> Result<List<Option<Typed>>, Memory>
    ensures heads { IfOk result (λ all. map (option_map head_view) all
        ≡ map (option_map head_view) heads ++ spec.heads_of (around_view cx.now)
        (point_view point.old) (decl_view decl.now)) }
    ensures point { OnOk result (point_view point.new ≡ point_view point.old) }
{
    match decl {
        Decl::Variables(_, _) => Ok(heads),
        Decl::Constant(_, _) => Ok(heads),
        Decl::Enum(_, _, _) => Ok(heads),
        Decl::Native(at, head) => with_head(alloc, cx, point, *at, head, heads),
        Decl::Forward(at, _, head) => with_head(alloc, cx, point, *at, head, heads),
        Decl::Function(at, it) => with_head(alloc, cx, point, *at, &it.head, heads),
    }
}

/// All heads of a source in order, each by the path where it stands, or None where it doesn't
/// stand.
///
/// # Errors
///
/// `Memory` for want of memory, and for more objects than a u32 counts.
pub fn heads<'a>(
    alloc: Global,
    cx: &Context,
    point: &mut Point<'a>,
    decls: &'a [Decl],
) -> Result<List<Option<Typed>>, Memory>
    ensures { IfOk result (λ all. map (option_map head_view) all ≡ spec.heads (around_view cx.now)
        (point_view point.old) (map decl_view decls.now)) }
{
    let mut heads = List::new(alloc);
    for i in 0..decls.len() {
        let decl = &decls[i];
        heads = with_heads(alloc, cx, point, decl, heads)?;
        pass_decl(alloc, cx, point, decl)?;
    }
    Ok(heads)
}
