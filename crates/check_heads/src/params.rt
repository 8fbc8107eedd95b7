ghost use Rattle.std.specs.Prelude.{◌≡◌, false, map, None, Some, option_map};
ghost use Rattle.pawn_meaning.specs.View.{slot_view};
ghost use Rattle.names_rules.specs.Verdict.{Stands, after};
ghost use Rattle.pawn_tree.specs.View.{dim_view, expr_view, param_view as tree_view};
ghost use Rattle.types_rules.specs.Rule.{also};
ghost use Rattle.types_rules.specs.Around.{NoDefault};
ghost use Rattle.types_rules.specs.Locals as locals;
ghost use Rattle.types_rules.specs.Locals.{fresh_view};
ghost use Rattle.types_rules.specs.Params as spec;
ghost use Rattle.types_rules.specs.ParamDefaults as defaults;
ghost use Rattle.pawn_verdict.specs.Answers.{Answers};
ghost use Rattle.check_nodes.specs.PartAnswers.{PartAnswers};
ghost use Rattle.check_nodes.specs.ContextView.{around_view, default_view};
ghost use Rattle.check_nodes.specs.Scopes.{scope_view};
ghost use Rattle.check_heads.specs.HeadedView.{headed_view};
ghost use Rattle.check_heads.specs.ParamParts as part;

use super::defaults::default_rule;
use super::headed::Headed;
use super::reaches::{array_reach, array_slot};
use super::tags::tag_numbers;
use check_expressions::Here;
use check_nodes::{Context, Param as Typed, ParamDefault, PartFault, Scopes};
use pawn_base::{Bytes, List};
use pawn_meaning::Slot;
use pawn_tree::{At, Dim, Expr, Name, Param};
use pawn_verdict::{CheckFault, broken};
use std::alloc::Global;
use types_rules::{ARGUMENT_KIND, CONSTANT_NEEDED, REDEFINED};

/// A parameter that isn't `...`, apart from its dimensions and its default.
#[derive(Clone, Copy)]
struct Plain<'a> {
    name: &'a Name,
    constant: bool,
    reference: bool,
    tags: &'a [Name],
}

/// A name that the innermost block doesn't have yet.
fn fresh_name(scopes: &Scopes, at: At, name: &[u8]) -> Result<(), CheckFault>
    ensures { Answers fresh_view (locals.fresh_name (scope_view scopes.now) at name.now) result }
{
    match scopes.find_here(name) {
        None => Ok(()),
        Some(_) => Err(broken(REDEFINED, at.place)),
    }
}

// ---- one cell

/// The slot of a parameter of one cell.
fn cell_slot(reference: bool) -> Slot
    ensures { slot_view result ≡ spec.cell_slot reference }
{
    if reference {
        Slot::Reference
    } else {
        Slot::Scalar
    }
}

/// A parameter of one cell.
#[tactic(auto, using(crate::proofs::RuleLaws::afters))]
fn cell_param(
    alloc: Global,
    here: Here,
    plain: Plain,
    value: &Option<Expr>,
) -> Result<Headed, PartFault>
    ensures { PartAnswers headed_view (after (defaults.default_rule (around_view here.entry.cx.now)
        (scope_view here.entry.scopes.now) here.entry.at plain.entry.reference (spec.tag_numbers
        (around_view here.entry.cx.now) plain.entry.tags.now) (option_map expr_view value.now))
        (λ it. Stands (spec.one_param (around_view here.entry.cx.now) here.entry.at
        plain.entry.name.now plain.entry.constant plain.entry.reference (spec.tag_numbers
        (around_view here.entry.cx.now) plain.entry.tags.now) None it.default
        (spec.cell_slot plain.entry.reference) it.warned))) result }
{
    let reference = plain.reference;
    let tags = tag_numbers(alloc, here.cx, plain.tags)?;
    let it = default_rule(alloc, here, reference, tags.as_slice(), value)?;
    let param = Typed {
        name: Bytes::from_slice(alloc, plain.name.bytes.as_slice())?,
        constant: plain.constant,
        reference,
        tags,
        extent: None,
        default: it.default,
    };
    Ok(Headed::one(alloc, param, cell_slot(reference), it.warned)?)
}

// ---- an array

/// An array has no default.
fn no_default(at: At, value: &Option<Expr>) -> Result<ParamDefault, CheckFault>
    ensures { Answers default_view (part.no_default at (option_map expr_view value.now)) result }
{
    match value {
        None => Ok(ParamDefault::Nothing),
        Some(_) => Err(broken(CONSTANT_NEEDED, at.place)),
    }
}

/// An array is no reference.
fn no_reference(at: At, reference: bool) -> Result<bool, CheckFault>
    ensures { Answers (λ it. it) (part.no_reference at reference) result }
{
    if reference {
        Err(broken(ARGUMENT_KIND, at.place))
    } else {
        Ok(false)
    }
}

/// An array as a parameter, apart from what it mustn't have.
#[tactic(auto, using(crate::proofs::RuleLaws::afters))]
fn array_alone(
    alloc: Global,
    here: Here,
    plain: Plain,
    dim: &Dim,
    dims: &[Dim],
) -> Result<Headed, PartFault>
    ensures { PartAnswers headed_view (after (spec.reach (around_view here.entry.cx.now)
        (scope_view here.entry.scopes.now) here.entry.at (dim_view dim.now)
        (map dim_view dims.now)) (λ it. Stands (spec.one_param
        (around_view here.entry.cx.now) here.entry.at plain.entry.name.now plain.entry.constant
        false (spec.tag_numbers (around_view here.entry.cx.now) plain.entry.tags.now)
        (Some it.extent) NoDefault (spec.array_slot it.extent it.extent.first) it.warned))) result }
{
    let it = array_reach(alloc, here, dim, dims)?;
    let tags = tag_numbers(alloc, here.cx, plain.tags)?;
    let slot = array_slot(alloc, it.extent)?;
    let param = Typed {
        name: Bytes::from_slice(alloc, plain.name.bytes.as_slice())?,
        constant: plain.constant,
        reference: false,
        tags,
        extent: Some(it.extent),
        default: ParamDefault::Nothing,
    };
    Ok(Headed::one(alloc, param, slot, it.warned)?)
}

/// An array as a parameter.
#[tactic(auto, using(crate::proofs::RuleLaws::afters))]
fn array_param(
    alloc: Global,
    here: Here,
    plain: Plain,
    dim: &Dim,
    dims: &[Dim],
    value: &Option<Expr>,
) -> Result<Headed, PartFault>
    ensures { PartAnswers headed_view (also (part.no_reference here.entry.at plain.entry.reference)
        (also (part.no_default here.entry.at (option_map expr_view value.now)) (after
        (spec.reach (around_view here.entry.cx.now) (scope_view here.entry.scopes.now)
        here.entry.at (dim_view dim.now) (map dim_view dims.now)) (λ it. Stands
        (spec.one_param (around_view here.entry.cx.now) here.entry.at plain.entry.name.now
        plain.entry.constant false (spec.tag_numbers (around_view here.entry.cx.now)
        plain.entry.tags.now) (Some it.extent) NoDefault (spec.array_slot it.extent
        it.extent.first) it.warned))))) result }
{
    let it = array_alone(alloc, here, plain, dim, dims)?;
    let _default = no_default(here.at, value)?;
    let _reference = no_reference(here.at, plain.reference)?;
    Ok(it)
}

// ---- a parameter

/// A parameter by its dimensions: one cell, or an array.
fn param_of(
    alloc: Global,
    here: Here,
    plain: Plain,
    dims: &[Dim],
    value: &Option<Expr>,
) -> Result<Headed, PartFault>
    ensures { PartAnswers headed_view (spec.param_of (around_view here.entry.cx.now) here.entry.at
        (scope_view here.entry.scopes.now) plain.entry.name.now plain.entry.constant
        plain.entry.reference (spec.tag_numbers (around_view here.entry.cx.now)
        plain.entry.tags.now) (map dim_view dims.now) (option_map expr_view value.now)) result }
{
    match dims.split_first() {
        None => cell_param(alloc, here, plain, value),
        Some((dim, more)) => array_param(alloc, here, plain, dim, more, value),
    }
}

/// A parameter, or the tags of `...` (Language Guide, "Function arguments").
///
/// # Errors
///
/// 51 for a name that the head has, 57 for a default that is no constant or stands at an array, 58
/// for a reference to an array, and those of dimensions.
#[tactic(auto, using(crate::proofs::RuleLaws::afters))]
pub fn param_rule(
    alloc: Global,
    cx: &Context,
    scopes: &Scopes,
    at: At,
    param: &Param,
) -> Result<Headed, PartFault>
    ensures { PartAnswers headed_view (spec.param_rule (around_view cx.now) at
        (scope_view scopes.now) (tree_view param.now)) result }
{
    match param {
        Param::Plain {
            constant,
            reference,
            tags,
            name,
            dims,
            value,
        } => {
            let plain = Plain {
                name,
                constant: *constant,
                reference: *reference,
                tags: tags.as_slice(),
            };
            let here = Here { cx, scopes, at };
            let it = param_of(alloc, here, plain, dims.as_slice(), value)?;
            fresh_name(scopes, at, name.bytes.as_slice())?;
            Ok(it)
        }
        Param::Rest(_, tags) => {
            let tags = tag_numbers(alloc, cx, tags.as_slice())?;
            Ok(Headed {
                params: List::new(alloc),
                slots: List::new(alloc),
                rest: Some(tags),
                warned: List::new(alloc),
            })
        }
    }
}
