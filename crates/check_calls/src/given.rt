ghost use Rattle.std.specs.Prelude.{◌≡◌, ◌++◌, IfOk};
ghost use Rattle.std.specs.Option.{option_to_list};
ghost use Rattle.std.specs.Str.{bytes_eq};
ghost use Rattle.pawn_meaning.specs.View.{scalar_view, array_view, arg_view};
ghost use Rattle.names_rules.specs.Verdict.{Stands};
ghost use Rattle.types_rules.specs.Given as spec;
ghost use Rattle.types_rules.specs.Rule.{also};
ghost use Rattle.types_rules.specs.Tests.{unless_passed};
ghost use Rattle.pawn_verdict.specs.Answers.{Answers};
ghost use Rattle.check_nodes.specs.CodeView.{code_view};
ghost use Rattle.check_nodes.specs.ContextView.{around_view, param_view};
ghost use Rattle.check_nodes.specs.ExtentView.{extent_view};
ghost use Rattle.check_nodes.specs.TypedView.{form_view, typed_view};
ghost use Rattle.check_calls.specs.GivenView.{given_view, passed_view};

use check_nodes::{Context, Extent, Form, Made, Param, Typed, line, send};
use pawn_base::Memory;
use pawn_meaning::{Arg, Array, Expr, Scalar};
use pawn_tags::matches;
use pawn_tree::At;
use pawn_verdict::{CheckFault, broken};
use std::alloc::Global;
use types_rules::{ARGUMENT_KIND, SIZES_DIFFER};

/// An argument in the program, and what `sizeof` and `tagof` of its parameter are with it.
#[derive(Drop)]
pub struct Argued {
    pub code: Box<Arg>,
    pub size: u32,
    pub tag: u32,
}

/// An argument for a parameter, and what was made and found in it.
#[derive(Drop)]
pub struct Given {
    pub argued: Argued,
    pub made: Made,
}

/// An argument of a size and a tag, with a warning before these where its test failed.
fn give_tested(
    alloc: Global,
    arg: Arg,
    size: u32,
    tag: u32,
    made: Made,
    passed: bool,
    at: At,
) -> Result<Given, Memory>
    ensures given { IfOk result (λ it. given_view it ≡ record {
      code = arg_view arg;
      size = size;
      tag = tag;
      warned = unless_passed passed at ++ made.warned;
    }) }
    ensures literals { IfOk result (λ it. it.made.literals ≡ made.literals) }
{
    let made = made.tested_first(alloc, passed, at);
    let code = Box::new(alloc, arg)?;
    Ok(Given {
        argued: Argued { code, size, tag },
        made: made?,
    })
}

// ---- a plain parameter

fn value(alloc: Global, at: At, form: Form) -> Result<Box<Expr>, CheckFault>
    ensures { Answers code_view (spec.value_in at (form_view form)) result }
{
    match form {
        Form::Value(code) => Ok(code),
        Form::Place(place, _) => Ok(Box::new(alloc, Expr::Read(place))?),
        Form::Whole(..) => Err(broken(ARGUMENT_KIND, at.place)),
        Form::Literal(..) => Err(broken(ARGUMENT_KIND, at.place)),
    }
}

// ---- a reference

/// A packed character, which no reference leads to.
fn is_char(place: &Scalar) -> bool
    ensures { result ≡ spec.is_char (scalar_view place.now) }
{
    match place {
        Scalar::Global(_) => false,
        Scalar::Slot(_) => false,
        Scalar::Through(_) => false,
        Scalar::Element(..) => false,
        Scalar::Char(..) => true,
    }
}

/// A constant thing goes only to what is constant too.
fn keeps_constant(at: At, constant: bool, wanted: bool) -> Result<bool, CheckFault>
    ensures { Answers (λ it. it) (spec.keeps_constant at constant wanted) result }
{
    if constant {
        if wanted {
            Ok(wanted)
        } else {
            Err(broken(ARGUMENT_KIND, at.place))
        }
    } else {
        Ok(wanted)
    }
}

/// A variable or an element.
fn cell_of_memory(at: At, place: Scalar) -> Result<Scalar, CheckFault>
    ensures { Answers scalar_view (spec.cell_of_memory at (scalar_view place)) result }
{
    if is_char(&place) {
        Err(broken(ARGUMENT_KIND, at.place))
    } else {
        Ok(place)
    }
}

#[tactic(auto, using(pawn_verdict::proofs::VerdictLaws::verdicts))]
fn place(at: At, wanted: bool, form: Form) -> Result<Scalar, CheckFault>
    ensures { Answers scalar_view (spec.place_in at wanted (form_view form)) result }
{
    match form {
        Form::Place(place, constant) => {
            let place = cell_of_memory(at, place)?;
            match keeps_constant(at, constant, wanted) {
                Ok(_) => Ok(place),
                Err(fault) => {
                    drop(place);
                    Err(fault)
                }
            }
        }
        Form::Value(_) => Err(broken(ARGUMENT_KIND, at.place)),
        Form::Whole(..) => Err(broken(ARGUMENT_KIND, at.place)),
        Form::Literal(..) => Err(broken(ARGUMENT_KIND, at.place)),
    }
}

// ---- an array

/// As many dimensions, and each size that the parameter gives.
fn fits(wanted: Extent, extent: Extent) -> bool
    ensures { result ≡ spec.fits (extent_view wanted) (extent_view extent) }
{
    same_inner(wanted, extent) && first_fits(wanted.first, extent.first)
}

fn first_fits(wanted: Option<u32>, first: Option<u32>) -> bool
    ensures { result ≡ spec.first_fits wanted first }
{
    match (wanted, first) {
        (None, _) => true,
        (Some(_), None) => false,
        (Some(size), Some(first)) => size == first,
    }
}

fn same_inner(x: Extent, y: Extent) -> bool
    ensures { result ≡ bytes_eq (extent_view x).inner (extent_view y).inner }
{
    match (x.second, y.second) {
        (None, None) => true,
        (Some(a), Some(b)) => a == b && same_third(x.third, y.third),
        (None, Some(_)) => false,
        (Some(_), None) => false,
    }
}

fn same_third(x: Option<u32>, y: Option<u32>) -> bool
    ensures { result ≡ bytes_eq (option_to_list x) (option_to_list y) }
{
    match (x, y) {
        (None, None) => true,
        (Some(a), Some(b)) => a == b,
        (None, Some(_)) => false,
        (Some(_), None) => false,
    }
}

/// One dimension of any size.
fn is_open_line(it: Extent) -> bool
    ensures { result ≡ spec.is_open_line (extent_view it).first (extent_view it).inner }
{
    match (it.first, it.second) {
        (None, None) => true,
        (None, Some(_)) => false,
        (Some(_), _) => false,
    }
}

/// The rest of an array from an element on, which any open array of one dimension takes.
fn rest_from(at: At, wanted: Extent, place: Scalar) -> Result<Array, CheckFault>
    ensures { Answers array_view
        (spec.rest_from at (extent_view wanted) (scalar_view place)) result }
{
    match place {
        Scalar::Element(array, index) => {
            if is_open_line(wanted) {
                Ok(Array::From(array, index))
            } else {
                Err(broken(SIZES_DIFFER, at.place))
            }
        }
        Scalar::Global(_) => Err(broken(ARGUMENT_KIND, at.place)),
        Scalar::Slot(_) => Err(broken(ARGUMENT_KIND, at.place)),
        Scalar::Through(_) => Err(broken(ARGUMENT_KIND, at.place)),
        Scalar::Char(..) => Err(broken(ARGUMENT_KIND, at.place)),
    }
}

/// An array with its first size, 0 where that isn't known.
#[derive(Drop)]
pub struct Passed {
    pub array: Array,
    pub size: u32,
}

/// An array of the sizes that a parameter gives.
fn fitting(at: At, wanted: Extent, extent: Extent, array: Array) -> Result<Array, CheckFault>
    ensures { Answers array_view
        (spec.fitting at (extent_view wanted) (extent_view extent) (array_view array)) result }
{
    if fits(wanted, extent) {
        Ok(array)
    } else {
        Err(broken(SIZES_DIFFER, at.place))
    }
}

/// An array with its first size, where one that is constant goes only to what is constant too.
fn kept(at: At, constant: bool, keeps: bool, array: Array, size: u32) -> Result<Passed, CheckFault>
    ensures { Answers passed_view (also (spec.keeps_constant at constant keeps)
        (Stands (record { array = array_view array; size = size }))) result }
{
    match keeps_constant(at, constant, keeps) {
        Ok(_) => Ok(Passed { array, size }),
        Err(fault) => {
            drop(array);
            Err(fault)
        }
    }
}

#[tactic(auto, using(pawn_verdict::proofs::VerdictLaws::verdicts))]
fn array(at: At, keeps: bool, wanted: Extent, form: Form) -> Result<Passed, CheckFault>
    ensures { Answers passed_view
        (spec.array_argument at keeps (extent_view wanted) (form_view form)) result }
{
    match form {
        Form::Value(_) => Err(broken(ARGUMENT_KIND, at.place)),
        Form::Place(place, constant) => {
            let array = rest_from(at, wanted, place)?;
            kept(at, constant, keeps, array, 0)
        }
        Form::Whole(array, extent, constant) => {
            let array = fitting(at, wanted, extent, array)?;
            kept(at, constant, keeps, array, extent.first.unwrap_or(0))
        }
        Form::Literal(object, cells) => {
            let array = fitting(at, wanted, line(cells), Array::Object(object))?;
            Ok(Passed { array, size: cells })
        }
    }
}

#[tactic(auto, unfolding(types_rules::specs::Given::array_given), using(pawn_verdict::proofs::VerdictLaws::verdicts))]
fn array_given(
    alloc: Global,
    cx: &Context,
    at: At,
    param: &Param,
    wanted: Extent,
    x: Typed,
) -> Result<Given, CheckFault>
    ensures verdict { Answers given_view (spec.array_given (around_view cx.now) at
        (param_view param.now) (extent_view wanted) (typed_view x)) result }
    ensures literals { IfOk result (λ it. it.made.literals ≡ x.made.literals) }
{
    let it = array(at, param.constant, wanted, x.form)?;
    let passed = matches(&cx.tags, param.tags.as_slice(), x.tag);
    let arg = Arg::Whole(it.array);
    let given = give_tested(alloc, arg, it.size, x.tag, x.made, passed, x.at)?;
    Ok(given)
}

// ---- all kinds

/// An argument for a parameter (Language Guide, "Functions", "Tag names").
///
/// # Errors
///
/// 58 for an argument of another kind, 55 for an array of other sizes.
#[tactic(auto, unfolding(types_rules::specs::Given::reference_given, types_rules::specs::Given::plain_given), using(pawn_verdict::proofs::VerdictLaws::verdicts))]
pub fn give(
    alloc: Global,
    cx: &Context,
    at: At,
    param: &Param,
    x: Typed,
) -> Result<Given, CheckFault>
    ensures verdict { Answers given_view
        (spec.given_rule (around_view cx.now) at (param_view param.now) (typed_view x)) result }
    ensures literals { IfOk result (λ it. it.made.literals ≡ x.made.literals) }
{
    match param.extent {
        Some(wanted) => array_given(alloc, cx, at, param, wanted, x),
        None => {
            if param.reference {
                let place = place(at, param.constant, x.form)?;
                let passed = matches(&cx.tags, param.tags.as_slice(), x.tag);
                let given = give_tested(alloc, Arg::Ref(place), 1, x.tag, x.made, passed, x.at)?;
                Ok(given)
            } else {
                let code = value(alloc, at, x.form)?;
                let sent = send(alloc, cx, param.tags.as_slice(), x.tag, code)?;
                let arg = Arg::Value(Box::into_inner(sent.code));
                let given = give_tested(alloc, arg, 1, x.tag, x.made, sent.passed, x.at)?;
                Ok(given)
            }
        }
    }
}

// ---- an argument of `...`

fn rest_place(constant: bool, place: Scalar) -> Arg
    ensures { arg_view result ≡ spec.rest_place constant (scalar_view place) }
{
    if constant || is_char(&place) {
        Arg::Temp(Expr::Read(place))
    } else {
        Arg::Ref(place)
    }
}

/// Variables and elements that aren't constant go by reference, and so do arrays; all else goes
/// in a cell of its own.
fn rest_arg(form: Form) -> Arg
    ensures { arg_view result ≡ spec.rest_arg (form_view form) }
{
    match form {
        Form::Value(code) => Arg::Temp(Box::into_inner(code)),
        Form::Place(place, constant) => rest_place(constant, place),
        Form::Whole(array, _, _) => Arg::Whole(array),
        Form::Literal(object, _) => Arg::Whole(Array::Object(object)),
    }
}

/// An argument of `...` with so many tags.
#[tactic(auto, unfolding(types_rules::specs::Given::rest_rule))]
pub fn rest_given(alloc: Global, cx: &Context, tags: &[u32], x: Typed) -> Result<Given, Memory>
    ensures rule { IfOk result (λ it. given_view it
        ≡ spec.rest_rule (around_view cx.now) tags.now (typed_view x)) }
    ensures literals { IfOk result (λ it. it.made.literals ≡ x.made.literals) }
{
    let passed = matches(&cx.tags, tags, x.tag);
    give_tested(alloc, rest_arg(x.form), 1, x.tag, x.made, passed, x.at)
}
