ghost use Rattle.std.specs.Prelude.{◌≡◌, IfOk};
ghost use Rattle.pawn_meaning.specs.Program.{Copy};
ghost use Rattle.pawn_meaning.specs.View.{array_view};
ghost use Rattle.types_rules.specs.Assignments as spec;
ghost use Rattle.pawn_verdict.specs.Answers.{Answers};
ghost use Rattle.check_nodes.specs.CodeView.{code_view};
ghost use Rattle.check_nodes.specs.ContextView.{around_view};
ghost use Rattle.check_nodes.specs.ExtentView.{extent_view};
ghost use Rattle.check_nodes.specs.TypedView.{form_view, typed_view};
ghost use Rattle.check_calls.specs.Held.{held_view};
ghost use Rattle.check_calls.specs.Source.{array_target, copy_rule, is_array_form, source_in};
ghost use Rattle.check_calls.specs.Source.{source_view};

use super::signs::updater_of;
use super::updates::update_by;
use super::wanted_array::Held;
use check_nodes::{Context, Extent, Form, Typed, cell, make_value, send, target};
use pawn_base::Memory;
use pawn_meaning::{Array, Expr};
use pawn_tags::matches;
use pawn_token::Sign;
use pawn_tree::At;
use pawn_verdict::{CheckFault, broken};
use std::alloc::Global;
use types_rules::{ARRAY_NOT_INDEXED, NOT_ASSIGNABLE, SIZES_DIFFER};

// ---- `=`

/// A value to a place: converted where a user operator does that, else tested.
#[tactic(auto, using(pawn_verdict::proofs::VerdictLaws::verdicts))]
fn assign_cell(alloc: Global, cx: &Context, at: At, x: Typed, y: Typed) -> Result<Typed, CheckFault>
    ensures { Answers typed_view
        (spec.assign_cell (around_view cx.now) at (typed_view x) (typed_view y)) result }
{
    let place = target(at, x.form);
    let code = cell(alloc, at, y.form);
    let (place, code) = (place?, code?);
    let sent = send(alloc, cx, &[x.tag], y.tag, code)?;
    let made = x.made.then_behind(alloc, sent.passed, y.at, y.made);
    let code = Box::new(alloc, Expr::Assign(place, sent.code))?;
    Ok(make_value(at, code, x.tag, None, made?))
}

/// The cells of one dimension of a known size.
fn known_line(extent: Extent) -> Option<u32>
    ensures { result ≡ spec.known_line (extent_view extent) }
{
    match extent.second {
        None => extent.first,
        Some(_) => None,
    }
}

/// What is copied to an array, and how many cells of it.
#[derive(Drop)]
pub struct Source {
    pub array: Array,
    pub cells: u32,
}

/// The cells that are copied of an array: as many as the target has.
fn copied_cells(at: At, to: Option<u32>, from: Option<u32>) -> Result<u32, CheckFault>
    ensures { Answers (λ cells. cells) (spec.copied_cells at to from) result }
{
    match (to, from) {
        (Some(to), Some(from)) if to == from => Ok(from),
        _ => Err(broken(SIZES_DIFFER, at.place)),
    }
}

/// The cells that are copied of a literal: all, which are no more than the target has.
fn literal_cells(at: At, to: Option<u32>, cells: u32) -> Result<u32, CheckFault>
    ensures { Answers (λ cells. cells) (spec.literal_cells at to cells) result }
{
    match to {
        Some(to) if cells <= to => Ok(cells),
        _ => Err(broken(SIZES_DIFFER, at.place)),
    }
}

/// What is copied to one dimension of so many cells.
///
/// # Errors
///
/// 54 for a cell, 55 for other sizes.
#[tactic(auto, using(pawn_verdict::proofs::VerdictLaws::verdicts))]
fn copied_from(at: At, to: Option<u32>, form: Form) -> Result<Source, CheckFault>
    ensures { Answers source_view (source_in at to (form_view form)) result }
{
    match form {
        Form::Value(_) => Err(broken(ARRAY_NOT_INDEXED, at.place)),
        Form::Place(..) => Err(broken(ARRAY_NOT_INDEXED, at.place)),
        Form::Whole(array, extent, _) => {
            let cells = copied_cells(at, to, known_line(extent))?;
            Ok(Source { array, cells })
        }
        Form::Literal(object, cells) => {
            let cells = literal_cells(at, to, cells)?;
            Ok(Source {
                array: Array::Object(object),
                cells,
            })
        }
    }
}

/// Whether an expression is an array or a literal.
fn is_array(form: &Form) -> bool
    ensures { result ≡ is_array_form (form_view form.now) }
{
    matches!(form, Form::Whole(..) | Form::Literal(..))
}

/// The array that is written.
///
/// # Errors
///
/// 52 for a constant array, and for what is none.
fn array_written(at: At, form: Form) -> Result<Held, CheckFault>
    ensures { Answers held_view (array_target at (form_view form)) result }
{
    match form {
        Form::Value(_) => Err(broken(NOT_ASSIGNABLE, at.place)),
        Form::Place(..) => Err(broken(NOT_ASSIGNABLE, at.place)),
        Form::Whole(array, extent, constant) => {
            if constant {
                Err(broken(NOT_ASSIGNABLE, at.place))
            } else {
                Ok(Held {
                    array,
                    extent,
                    constant,
                })
            }
        }
        Form::Literal(..) => Err(broken(NOT_ASSIGNABLE, at.place)),
    }
}

/// The copy in the program.
fn copy_code(alloc: Global, to: Array, from: Source) -> Result<Box<Expr>, Memory>
    ensures { IfOk result (λ code. code_view code ≡
        Copy (array_view to) (source_view from).array from.cells) }
{
    let target = Box::new(alloc, to);
    let source = Box::new(alloc, from.array);
    Ok(Box::new(alloc, Expr::Copy(target?, source?, from.cells))?)
}

/// `=` to an array, which is a copy. It is tested and never converted.
///
/// # Errors
///
/// 52 for a constant array or a literal, 54 for a cell, 55 for other sizes.
#[tactic(auto, using(pawn_verdict::proofs::VerdictLaws::verdicts))]
fn copy(alloc: Global, cx: &Context, at: At, x: Typed, y: Typed) -> Result<Typed, CheckFault>
    ensures { Answers typed_view
        (copy_rule (around_view cx.now) at (typed_view x) (typed_view y)) result }
{
    let passed = matches(&cx.tags, &[x.tag], y.tag);
    let made = x.made.then_behind(alloc, passed, y.at, y.made);
    let to = match array_written(at, x.form) {
        Ok(to) => to,
        Err(fault) => {
            // by name, since a `?` would write all their drops out
            drop(y.form);
            drop(made);
            return Err(fault);
        }
    };
    let from = copied_from(at, known_line(to.extent), y.form)?;
    let code = copy_code(alloc, to.array, from)?;
    Ok(make_value(at, code, x.tag, None, made?))
}

/// `=` to a cell, or to an array.
///
/// # Errors
///
/// 52 for a target that can't be written, 54 for an array beside a cell, 55 for other sizes.
fn set(alloc: Global, cx: &Context, at: At, x: Typed, y: Typed) -> Result<Typed, CheckFault>
    ensures { Answers typed_view
        (spec.set_rule (around_view cx.now) at (typed_view x) (typed_view y)) result }
{
    if is_array(&x.form) {
        copy(alloc, cx, at, x, y)
    } else {
        assign_cell(alloc, cx, at, x, y)
    }
}

/// `=`, or an operator with `=`.
///
/// # Errors
///
/// 52 for a target that can't be written, 54 for an array beside a cell, 55 for other sizes, 67 for
/// a built-in division by a constant that is 0.
pub fn assign(
    alloc: Global,
    cx: &Context,
    at: At,
    sign: Sign,
    x: Typed,
    y: Typed,
) -> Result<Typed, CheckFault>
    ensures { Answers typed_view
        (spec.assign_rule (around_view cx.now) at sign (typed_view x) (typed_view y)) result }
{
    match sign {
        Sign::Assign => set(alloc, cx, at, x, y),
        _ => update_by(alloc, cx, at, updater_of(sign), x, y),
    }
}
