ghost use Rattle.std.specs.Prelude.{◌≡◌, [], ◌∷◌, map, IfOk, OnOk};
ghost use Rattle.pawn_tree.specs.View.{dim_view, param_view};
ghost use Rattle.types_rules.specs.Scope.{with_entries};
ghost use Rattle.types_rules.specs.Params as spec;
ghost use Rattle.check_nodes.specs.ContextView.{around_view};
ghost use Rattle.check_nodes.specs.MeaningView.{meaning_view};
ghost use Rattle.check_nodes.specs.Scopes.{scope_view, sight_view, without};

use super::reaches::array_reach;
use super::tags::own_tag;
use check_expressions::Here;
use check_nodes::{ArrayAt, CellAt, Context, Meaning, PartFault, Scopes, Sight};
use pawn_base::Memory;
use pawn_tree::{At, Dim, Param};
use std::alloc::Global;

/// A parameter with its number and its tag, apart from its name and its dimensions.
#[derive(Clone, Copy)]
struct Numbered {
    number: u32,
    tag: u32,
    constant: bool,
    reference: bool,
}

/// What a parameter of one cell means.
fn cell_means(it: Numbered) -> Meaning
    ensures { meaning_view result ≡
        spec.cell_param_means it.number it.tag it.constant it.reference }
{
    let place = if it.reference {
        CellAt::Through(it.number)
    } else {
        CellAt::Slot(it.number)
    };
    Meaning::Variable(place, it.tag, it.constant)
}

/// What an array as a parameter means.
#[tactic(auto, using(crate::proofs::MeaningLaws::unknown_array))]
fn array_means(
    alloc: Global,
    cx: &Context,
    scopes: &Scopes,
    at: At,
    it: Numbered,
    dim: &Dim,
    dims: &[Dim],
) -> Result<Sight, Memory>
    ensures { IfOk result (λ sight. sight_view sight ≡
        spec.array_param_means it.number it.tag it.constant
        (spec.reach (around_view cx.now) (scope_view scopes.now) at (dim_view dim.now)
        (map dim_view dims.now))) }
{
    match array_reach(alloc, Here { cx, scopes, at }, dim, dims) {
        Ok(reach) => {
            let place = ArrayAt::Param(it.number, reach.extent.first.is_some());
            let means = Meaning::Array(place, reach.extent, it.tag, it.constant);
            Ok(Sight::Means(means))
        }
        Err(PartFault::Memory) => Err(Memory),
        Err(PartFault::Fallen) => Ok(Sight::Unknown),
        Err(PartFault::Source { .. }) => Ok(Sight::Unknown),
    }
}

/// What a parameter means, by its dimensions.
fn means_by(
    alloc: Global,
    cx: &Context,
    scopes: &Scopes,
    at: At,
    it: Numbered,
    dims: &[Dim],
) -> Result<Sight, Memory>
    ensures { IfOk result (λ sight. sight_view sight ≡ spec.param_by (around_view cx.now) at
        (scope_view scopes.now) it.number it.constant it.reference it.tag
        (map dim_view dims.now)) }
{
    match dims.split_first() {
        None => Ok(Sight::Means(cell_means(it))),
        Some((dim, more)) => array_means(alloc, cx, scopes, at, it, dim, more),
    }
}

/// A name is declared in the innermost block.
///
/// # Errors
///
/// `Memory` for want of memory.
#[tactic(auto, using(crate::proofs::MeaningLaws::declared))]
pub fn declare_sight<'a>(
    scopes: &mut Scopes<'a>,
    name: &'a [u8],
    means: Sight,
) -> Result<(), Memory>
    ensures scope { OnOk result (scope_view scopes.new ≡ with_entries (scope_view scopes.old)
        (record { name = name.now; means = sight_view means } ∷ [])) }
    ensures one { OnOk result (without 1 scopes.new ≡ scopes.old) }
{
    scopes.declare(name, means)
}

/// A parameter with a number is declared.
#[tactic(auto, using(crate::proofs::MeaningLaws::outer_stays))]
pub fn declare_param<'a>(
    alloc: Global,
    cx: &Context,
    scopes: &mut Scopes<'a>,
    at: At,
    number: u32,
    param: &'a Param,
) -> Result<(), Memory>
    ensures scope { OnOk result (scope_view scopes.new ≡ with_entries (scope_view scopes.old)
        (spec.param_entries (around_view cx.now) at (scope_view scopes.old) number
        (param_view param.now))) }
    ensures outer { OnOk result (scopes.new.outer ≡ scopes.old.outer) }
{
    match param {
        Param::Plain {
            constant,
            reference,
            tags,
            name,
            dims,
            value: _,
        } => {
            let it = Numbered {
                number,
                tag: own_tag(cx, tags.as_slice()),
                constant: *constant,
                reference: *reference,
            };
            let means = means_by(alloc, cx, scopes, at, it, dims.as_slice())?;
            declare_sight(scopes, name.bytes.as_slice(), means)
        }
        Param::Rest(_, _) => Ok(()),
    }
}
