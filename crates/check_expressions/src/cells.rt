ghost use Rattle.std.specs.Prelude.{option_map, Some};
ghost use Rattle.pawn_tree.specs.View.{init_view};
ghost use Rattle.types_rules.specs.Cells as spec;
ghost use Rattle.pawn_verdict.specs.Answers.{Answers};
ghost use Rattle.check_nodes.specs.PartAnswers.{PartAnswers};
ghost use Rattle.check_nodes.specs.ContextView.{around_view};
ghost use Rattle.check_nodes.specs.TypedView.{typed_view};
ghost use Rattle.check_nodes.specs.Scopes.{scope_view};
ghost use Rattle.check_expressions.specs.ValueViews.{first_view, local_view};

use super::broken_part::part_broken;
use super::constants::{alone, behind, constant_rule};
use super::filling::First;
use super::here::Here;
use check_nodes::{Context, Form, Made, PartFault, Scopes, Typed, cell, send};
use pawn_base::{Cells, List};
use pawn_meaning::Expr;
use pawn_tree::{At, Init};
use pawn_verdict::CheckFault;
use std::alloc::Global;
use types_rules::NOT_AN_ARRAY;

// ---- a global or a static

/// A constant that a cell begins with, which no user operator converts.
#[tactic(auto, unfolding(types_rules::specs::Constants::constant_rule), using(pawn_verdict::proofs::VerdictLaws::verdicts))]
fn static_rule(alloc: Global, cx: &Context, at: At, tag: u32, x: Typed) -> Result<First, CheckFault>
    ensures { Answers first_view
        (spec.static_rule (around_view cx.now) at tag (typed_view x)) result }
{
    let code = cell(alloc, at, x.form)?;
    let value = Typed {
        at: x.at,
        form: Form::Value(code),
        tag: x.tag,
        value: x.value,
        made: x.made,
    };
    let it = constant_rule(at, value)?;
    Ok(First::one(alloc, cx, tag, it)?)
}

#[tactic(auto, using(check_nodes::proofs::PartLaws::parts))]
fn static_given(alloc: Global, here: Here, tag: u32, init: &Init) -> Result<First, PartFault>
    ensures { PartAnswers first_view (spec.static_value (around_view here.entry.cx.now)
        (scope_view here.entry.scopes.now) here.entry.at tag (Some (init_view init.now))) result }
{
    match init {
        Init::Value(e) => {
            let x = alone(alloc, here.cx, here.scopes, e)?;
            Ok(static_rule(alloc, here.cx, here.at, tag, x)?)
        }
        Init::Braces(_, _, _) => Err(part_broken(NOT_AN_ARRAY, here.at)),
    }
}

/// What a global or a static of one cell begins with: 0 where nothing is given.
///
/// # Errors
///
/// 53 for a list, 54 for an array, 57 for what is no constant.
pub fn static_value(
    alloc: Global,
    cx: &Context,
    scopes: &Scopes,
    at: At,
    tag: u32,
    init: &Option<Init>,
) -> Result<First, PartFault>
    ensures { PartAnswers first_view (spec.static_value (around_view cx.now) (scope_view scopes.now)
        at tag (option_map init_view init.now)) result }
{
    match init {
        None => {
            let mut cells = Cells::new(alloc);
            cells.push(0)?;
            Ok(First {
                cells,
                warned: List::new(alloc),
            })
        }
        Some(init) => static_given(alloc, Here { cx, scopes, at }, tag, init),
    }
}

// ---- a local variable

/// What a local variable of one cell begins with.
#[derive(Drop)]
pub struct LocalValue {
    pub code: Box<Expr>,
    pub made: Made,
}

/// Any value, which goes to a local variable as to any target.
#[tactic(auto, using(pawn_verdict::proofs::VerdictLaws::verdicts))]
fn local_rule(
    alloc: Global,
    cx: &Context,
    at: At,
    tag: u32,
    x: Typed,
) -> Result<LocalValue, CheckFault>
    ensures { Answers local_view
        (spec.local_rule (around_view cx.now) at tag (typed_view x)) result }
{
    let code = cell(alloc, at, x.form)?;
    let sent = send(alloc, cx, &[tag], x.tag, code)?;
    let made = x.made.tested_first(alloc, sent.passed, x.at)?;
    Ok(LocalValue {
        code: sent.code,
        made,
    })
}

#[tactic(auto, using(check_nodes::proofs::PartLaws::parts))]
fn local_given(
    alloc: Global,
    here: Here,
    before: u32,
    tag: u32,
    init: &Init,
) -> Result<LocalValue, PartFault>
    ensures { PartAnswers local_view (spec.local_value (around_view here.entry.cx.now)
        (scope_view here.entry.scopes.now) before here.entry.at tag
        (Some (init_view init.now))) result }
{
    match init {
        Init::Value(e) => {
            let x = behind(alloc, here.cx, here.scopes, before, e)?;
            Ok(local_rule(alloc, here.cx, here.at, tag, x)?)
        }
        Init::Braces(_, _, _) => Err(part_broken(NOT_AN_ARRAY, here.at)),
    }
}

/// What a local variable of one cell begins with, behind so many objects: 0 where nothing is given.
///
/// # Errors
///
/// 53 for a list, 54 for an array.
pub fn local_value(
    alloc: Global,
    cx: &Context,
    scopes: &Scopes,
    before: u32,
    at: At,
    tag: u32,
    init: &Option<Init>,
) -> Result<LocalValue, PartFault>
    ensures { PartAnswers local_view (spec.local_value (around_view cx.now) (scope_view scopes.now)
        before at tag (option_map init_view init.now)) result }
{
    match init {
        None => Ok(LocalValue {
            code: Box::new(alloc, Expr::Const(0))?,
            made: Made::nothing(alloc),
        }),
        Some(init) => local_given(alloc, Here { cx, scopes, at }, before, tag, init),
    }
}
