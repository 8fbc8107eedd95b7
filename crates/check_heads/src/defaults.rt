ghost use Rattle.std.specs.Prelude.{◌≡◌, option_map};
ghost use Rattle.std.specs.Option.{option_and_then};
ghost use Rattle.names_rules.specs.Verdict.{Stands, after};
ghost use Rattle.pawn_tree.specs.View.{expr_view};
ghost use Rattle.types_rules.specs.Scope.{found};
ghost use Rattle.types_rules.specs.Tests.{unless_passed};
ghost use Rattle.types_rules.specs.Expressions.{expr as expr_rule};
ghost use Rattle.types_rules.specs.ParamDefaults as spec;
ghost use Rattle.pawn_verdict.specs.Answers.{Answers};
ghost use Rattle.check_nodes.specs.PartAnswers.{PartAnswers};
ghost use Rattle.check_nodes.specs.ContextView.{around_view, default_view};
ghost use Rattle.check_nodes.specs.MeaningView.{cell_view, meaning_view, place_view};
ghost use Rattle.check_nodes.specs.TypedView.{typed_view};
ghost use Rattle.check_nodes.specs.Scopes.{scope_view, sight_view};
ghost use Rattle.check_heads.specs.HeadedView.{defaulted_view};

use check_expressions::{Here, expr};
use check_nodes::{
    ArrayAt, CellAt, Context, Meaning, ParamDefault, PartFault, Scopes, Sight, Typed, converter_to,
};
use pawn_base::List;
use pawn_tags::matches;
use pawn_tree::{At, Expr, SizeofOperand, TagofOperand};
use pawn_verdict::{CheckFault, broken};
use std::alloc::Global;
use types_rules::CONSTANT_NEEDED;

/// A default, and what it warns of.
#[derive(Drop)]
pub struct Defaulted {
    pub default: ParamDefault,
    pub warned: List<At>,
}

// ---- which parameter a name means

/// The slot of a cell, which in a head is a parameter's.
fn slot_of_cell(place: CellAt) -> Option<u32>
    ensures { result ≡ spec.param_of_place (cell_view place) }
{
    match place {
        CellAt::Global(_) => None,
        CellAt::Slot(slot) => Some(slot),
        CellAt::Through(slot) => Some(slot),
    }
}

/// The slot of an array that is a parameter.
fn slot_of_array(place: ArrayAt) -> Option<u32>
    ensures { result ≡ spec.param_of_array (place_view place) }
{
    match place {
        ArrayAt::Object(_) => None,
        ArrayAt::Slot(_) => None,
        ArrayAt::Param(slot, _) => Some(slot),
    }
}

/// The parameter that a name means.
fn param_meant(means: Meaning) -> Option<u32>
    ensures { result ≡ spec.param_meant (meaning_view means) }
{
    match means {
        Meaning::Variable(place, _, _) => slot_of_cell(place),
        Meaning::Array(place, _, _, _) => slot_of_array(place),
        Meaning::Constant(..)
        | Meaning::Function(..)
        | Meaning::Native(..)
        | Meaning::Entering(_)
        | Meaning::Taken => None,
    }
}

/// The parameter that a name in sight means.
fn param_named(scopes: &Scopes, name: &[u8]) -> Option<u32>
    ensures { result ≡ option_and_then spec.param_meant (found (scope_view scopes.now) name.now) }
{
    match scopes.find(name) {
        None => None,
        Some(Sight::Unknown) => None,
        Some(Sight::Means(means)) => param_meant(means),
    }
}

// ---- defaults that are computed from an argument

/// `sizeof` of a parameter.
fn size_default(scopes: &Scopes, operand: &SizeofOperand) -> Option<ParamDefault>
    ensures { option_map default_view result
        ≡ spec.size_default (scope_view scopes.now) operand.now }
{
    match operand {
        SizeofOperand::Name(name, 0) => match param_named(scopes, name.bytes.as_slice()) {
            None => None,
            Some(number) => Some(ParamDefault::SizeOf(number)),
        },
        SizeofOperand::Name(_, _) => None,
        SizeofOperand::Text(_, _) => None,
    }
}

/// `tagof` of a parameter.
fn tag_default(scopes: &Scopes, operand: &TagofOperand) -> Option<ParamDefault>
    ensures { option_map default_view result
        ≡ spec.tag_default (scope_view scopes.now) operand.now }
{
    match operand {
        TagofOperand::Name(name) => match param_named(scopes, name.bytes.as_slice()) {
            None => None,
            Some(number) => Some(ParamDefault::TagOf(number)),
        },
        TagofOperand::Tag(_) => None,
    }
}

/// `sizeof p` or `tagof p` and no more, but for parentheses.
fn computed(scopes: &Scopes, e: &Expr) -> Option<ParamDefault>
    ensures { option_map default_view result
        ≡ spec.computed (scope_view scopes.now) (expr_view e.now) }
{
    match e {
        Expr::Paren(_, inner) => computed(scopes, inner),
        Expr::Sizeof(_, operand) => size_default(scopes, operand),
        Expr::Tagof(_, operand) => tag_default(scopes, operand),
        _ => None,
    }
}

// ---- all defaults

/// What is computed, else a constant.
#[tactic(auto, unfolding(types_rules::specs::Constants::constant_rule))]
fn default_by(at: At, x: &Typed, computed: Option<ParamDefault>) -> Result<ParamDefault, CheckFault>
    ensures { Answers default_view
        (spec.default_by at (typed_view x.now) (option_map default_view computed)) result }
{
    match computed {
        Some(it) => Ok(it),
        None => match x.value {
            None => Err(broken(CONSTANT_NEEDED, at.place)),
            Some(value) => Ok(ParamDefault::Always(value, x.tag)),
        },
    }
}

/// Whether a default fits the tags of its parameter. To a plain one a user operator may convert it.
fn default_fits(cx: &Context, reference: bool, tags: &[u32], x: &Typed) -> bool
    ensures { unless_passed result x.now.at ≡ spec.default_tested (around_view cx.now) reference
        tags.now (typed_view x.now) }
{
    if reference {
        return matches(&cx.tags, tags, x.tag);
    }
    match converter_to(cx, tags, x.tag) {
        None => matches(&cx.tags, tags, x.tag),
        Some(_) => true,
    }
}

/// A default that is given.
#[tactic(auto, using(crate::proofs::RuleLaws::afters))]
fn default_given(
    alloc: Global,
    here: Here,
    reference: bool,
    tags: &[u32],
    e: &Expr,
) -> Result<Defaulted, PartFault>
    ensures { PartAnswers defaulted_view (after (expr_rule (around_view here.entry.cx.now)
        (scope_view here.entry.scopes.now) 0 (expr_view e.now)) (λ x. after
        (spec.default_by here.entry.at x (spec.computed (scope_view here.entry.scopes.now)
        (expr_view e.now))) (λ it. Stands (spec.defaulted (around_view here.entry.cx.now) reference
        tags.now x it)))) result }
{
    let mut objects = 0;
    let x = expr(alloc, here.cx, here.scopes, &mut objects, e)?;
    let default = default_by(here.at, &x, computed(here.scopes, e))?;
    let passed = default_fits(here.cx, reference, tags, &x);
    let made = x.made.tested_first(alloc, passed, x.at)?;
    Ok(Defaulted {
        default,
        warned: made.warned,
    })
}

/// The default of a parameter (Language Guide, "Functions", on default values).
///
/// # Errors
///
/// 57 for what is neither a constant nor computed from a parameter before.
pub fn default_rule(
    alloc: Global,
    here: Here,
    reference: bool,
    tags: &[u32],
    value: &Option<Expr>,
) -> Result<Defaulted, PartFault>
    ensures { PartAnswers defaulted_view (spec.default_rule (around_view here.entry.cx.now)
        (scope_view here.entry.scopes.now) here.entry.at reference tags.now
        (option_map expr_view value.now)) result }
{
    match value {
        None => Ok(Defaulted {
            default: ParamDefault::Nothing,
            warned: List::new(alloc),
        }),
        Some(e) => default_given(alloc, here, reference, tags, e),
    }
}
