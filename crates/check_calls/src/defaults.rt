ghost use Rattle.std.specs.Prelude.{◌≡◌, [], ◌∷◌, ◌++◌, List, Option, map};
ghost use Rattle.std.specs.Prelude.{option_map, slice_get, IfOk};
ghost use Rattle.pawn_meaning.specs.View.{args_view};
ghost use Rattle.types_rules.specs.Defaults as spec;
ghost use Rattle.pawn_verdict.specs.Answers.{Answers};
ghost use Rattle.check_nodes.specs.ContextView.{around_view, param_view};
ghost use Rattle.check_calls.specs.GivenView.{arg_code};
ghost use Rattle.check_calls.specs.declared.filling.Filled.{Filled as Held};
ghost use Rattle.check_calls.specs.FillingView.{filled_view, slots_view};
ghost use Rattle.check_calls.specs.Shown.{shown_in, size_shown, tag_shown};

use super::filling::Filled;
use check_nodes::{Context, Param, ParamDefault, UNTAGGED, converter_to, first_tag};
use pawn_base::{List, Memory};
use pawn_meaning::{Arg, Expr};
use pawn_tree::At;
use pawn_verdict::{CheckFault, broken};
use std::alloc::Global;
use std::mem;
use types_rules::ARGUMENT_MISSING;

/// What `sizeof` and `tagof` of a parameter are with its argument.
#[derive(Clone, Copy)]
pub struct Shown {
    pub size: u32,
    pub tag: u32,
}

/// What is shown of a slot, where it has an argument.
fn shown_of(slot: &Option<Filled>) -> Option<Shown>
    ensures { result ≡ shown_in slot.now }
{
    match slot {
        None => None,
        Some(Filled::Argument(it)) => Some(Shown {
            size: it.size,
            tag: it.tag,
        }),
        Some(Filled::Default) => None,
    }
}

/// The same of each slot.
fn all_shown(alloc: Global, slots: &[Option<Filled>]) -> Result<Vec<Option<Shown>>, Memory>
    ensures { IfOk result (λ all. all.items ≡ map shown_in slots.now) }
{
    let mut all = Vec::new(alloc);
    for slot in slots {
        all.push(shown_of(slot))?;
    }
    Ok(all)
}

/// The size of what a parameter got: without an argument 1.
fn size_given(shown: &[Option<Shown>], param: u32) -> u32
    ensures { result ≡ size_shown (slice_get shown.now param) }
{
    match shown.get(param as usize) {
        None => 1,
        Some(None) => 1,
        Some(Some(it)) => it.size,
    }
}

/// The tag of the parameter with a number.
fn own_tag(params: &[Param], param: u32) -> u32
    ensures { result ≡ spec.own_tag (map param_view params.now) param }
{
    match params.get(param as usize) {
        None => UNTAGGED,
        Some(param) => first_tag(param.tags.as_slice()),
    }
}

/// The parameters of a head with what is shown of their slots.
#[derive(Clone, Copy)]
struct Seen<'a> {
    params: &'a [Param],
    shown: &'a [Option<Shown>],
}

/// The tag of what a parameter got: without an argument its own.
fn tag_given(seen: Seen, param: u32) -> u32
    ensures { result ≡ tag_shown (spec.own_tag (map param_view seen.entry.params.now) param)
        (slice_get seen.entry.shown.now param) }
{
    match seen.shown.get(param as usize) {
        None => own_tag(seen.params, param),
        Some(None) => own_tag(seen.params, param),
        Some(Some(it)) => it.tag,
    }
}

/// The argument that a value of a tag is: for a reference it stands in a cell of its own, else it
/// goes to the parameter as any value does.
fn default_arg(
    alloc: Global,
    cx: &Context,
    param: &Param,
    value: i32,
    tag: u32,
) -> Result<Box<Arg>, Memory>
    ensures { IfOk result (λ arg. arg_code arg ≡
        spec.default_arg (around_view cx.now) (param_view param.now) value tag) }
{
    let code = Expr::Const(value);
    if param.reference {
        return Ok(Box::new(alloc, Arg::Temp(code))?);
    }
    match converter_to(cx, param.tags.as_slice(), tag) {
        None => Ok(Box::new(alloc, Arg::Value(code))?),
        Some(function) => {
            let code = Expr::OperateOne(function, Box::new(alloc, code)?);
            Ok(Box::new(alloc, Arg::Value(code))?)
        }
    }
}

/// The default of a parameter.
#[tactic(auto, using(crate::proofs::ShownLaws::shown))]
fn default_of(
    alloc: Global,
    cx: &Context,
    at: At,
    seen: Seen,
    param: &Param,
) -> Result<Box<Arg>, CheckFault>
    ensures { (slots : List (Option Held)) → seen.entry.shown.now ≡ map shown_in slots →
        Answers arg_code (spec.default_of (around_view cx.now) at
        (map param_view seen.entry.params.now) (slots_view slots) (param_view param.now)
        (param_view param.now).default) result }
{
    match param.default {
        ParamDefault::Nothing => Err(broken(ARGUMENT_MISSING, at.place)),
        ParamDefault::Always(value, tag) => Ok(default_arg(alloc, cx, param, value, tag)?),
        ParamDefault::SizeOf(number) => match i32::try_from(size_given(seen.shown, number)) {
            Err(_) => Err(CheckFault::Memory),
            Ok(size) => Ok(default_arg(alloc, cx, param, size, UNTAGGED)?),
        },
        ParamDefault::TagOf(number) => {
            let tag = tag_given(seen, number).cast_signed();
            Ok(default_arg(alloc, cx, param, tag, UNTAGGED)?)
        }
    }
}

/// What a parameter got in the end.
fn arg_of(
    alloc: Global,
    cx: &Context,
    at: At,
    seen: Seen,
    param: &Param,
    it: Option<Filled>,
) -> Result<Box<Arg>, CheckFault>
    ensures { (slots : List (Option Held)) → seen.entry.shown.now ≡ map shown_in slots →
        Answers arg_code (spec.arg_of (around_view cx.now) at
        (map param_view seen.entry.params.now) (slots_view slots) (param_view param.now)
        (option_map filled_view it)) result }
{
    match it {
        Some(Filled::Argument(it)) => Ok(it.code),
        None => default_of(alloc, cx, at, seen, param),
        Some(Filled::Default) => default_of(alloc, cx, at, seen, param),
    }
}

/// One more argument.
fn push_boxed(args: &mut List<Arg>, arg: Box<Arg>) -> Result<(), Memory>
    ensures { IfOk result (λ ok. args.new ≡ args.old ++ arg.value ∷ []) }
{
    args.push(Box::into_inner(arg))
}

/// The arguments in the order of the parameters, and behind them others.
///
/// # Errors
///
/// 59 for a parameter without an argument and without a default.
pub fn args(
    alloc: Global,
    cx: &Context,
    at: At,
    params: &[Param],
    slots: Vec<Option<Filled>>,
    others: List<Arg>,
) -> Result<List<Arg>, CheckFault>
    ensures { Answers args_view (spec.args_of (around_view cx.now) at (map param_view params.now)
        (slots_view slots.items) (map param_view params.now) (slots_view slots.items)
        (args_view others)) result }
{
    let all = all_shown(alloc, slots.as_slice())?;
    let shown = all.as_slice();
    let seen = Seen { params, shown };
    let mut slots = slots;
    let mut args = List::new(alloc);
    for i in 0..params.len() {
        let param = &params[i];
        if i >= slots.len() {
            return Err(broken(ARGUMENT_MISSING, at.place));
        }
        let it = mem::replace(&mut slots[i], None);
        let arg = arg_of(alloc, cx, at, seen, param, it)?;
        push_boxed(&mut args, arg)?;
    }
    args.append(others)?;
    Ok(args)
}
