ghost use Rattle.std.specs.Prelude.{◌≡◌, ◌++◌, map, flat_map, option_map, IfOk};
ghost use Rattle.pawn_meaning.specs.View.{args_view, expr_view, object_view};
ghost use Rattle.types_rules.specs.Calls as spec;
ghost use Rattle.pawn_verdict.specs.Answers.{Answers};
ghost use Rattle.check_nodes.specs.ContextView.{around_view, head_view};
ghost use Rattle.check_nodes.specs.MeaningView.{meaning_view};
ghost use Rattle.check_nodes.specs.TypedView.{typed_view};
ghost use Rattle.check_calls.specs.CalleeView.{callee_view};
ghost use Rattle.check_calls.specs.FillingView.{offer_view};

use super::defaults::args;
use super::filling::{Offer, fill};
use check_nodes::{Callable, Context, Form, Head, Made, Meaning, Typed};
use pawn_base::{List, Memory};
use pawn_meaning::{Arg, Expr};
use pawn_tree::At;
use pawn_verdict::{CheckFault, broken};
use std::alloc::Global;
use types_rules::UNDEFINED;

/// What is called: whether it is a native, its number, the tag of what it gives, and its head,
/// unless that isn't known yet.
#[derive(Clone, Copy)]
pub struct Callee<'a> {
    pub is_native: bool,
    pub number: u32,
    pub tag: u32,
    pub head: Option<&'a Head>,
}

/// What a function or a native is called with, where that is known.
fn head_of<'a>(it: &'a Callable) -> Option<&'a Head>
    ensures { option_map (λ head. head_view head.now) result ≡ option_map head_view it.now.head }
{
    match &it.head {
        None => None,
        Some(head) => Some(head),
    }
}

/// What a function or a native is to its call.
fn callee_of<'a>(is_native: bool, it: &'a Callable) -> Callee<'a>
    ensures { callee_view result ≡ record {
      is_native = is_native;
      number = it.now.number;
      tag = it.now.tag;
      head = option_map head_view it.now.head;
    } }
{
    Callee {
        is_native,
        number: it.number,
        tag: it.tag,
        head: head_of(it),
    }
}

/// What a name calls: a function or a native.
///
/// # Errors
///
/// 50 for a name that means neither.
pub fn find_callee<'a>(
    cx: &'a Context,
    at: At,
    means: Option<Meaning>,
) -> Result<Callee<'a>, CheckFault>
    ensures { Answers callee_view
        (spec.callee_rule (around_view cx.now) at (option_map meaning_view means)) result }
{
    match means {
        Some(Meaning::Function(number, _)) => {
            match cx.functions.as_slice().get(number as usize) {
                None => Err(broken(UNDEFINED, at.place)),
                Some(it) => Ok(callee_of(false, it)),
            }
        }
        Some(Meaning::Native(number, _)) => match cx.natives.as_slice().get(number as usize) {
            None => Err(broken(UNDEFINED, at.place)),
            Some(it) => Ok(callee_of(true, it)),
        },
        None
        | Some(
            Meaning::Constant(..)
            | Meaning::Variable(..)
            | Meaning::Array(..)
            | Meaning::Entering(_)
            | Meaning::Taken,
        ) => Err(broken(UNDEFINED, at.place)),
    }
}

/// The call in the program.
fn call_code(is_native: bool, number: u32, args: List<Arg>) -> Expr
    ensures { expr_view result ≡ spec.call_code is_native number (args_view args) }
{
    if is_native {
        Expr::Native(number, args)
    } else {
        Expr::Call(number, args)
    }
}

/// A call by the head of what is called.
#[tactic(auto, using(pawn_verdict::proofs::VerdictLaws::verdicts, crate::proofs::ArgsLaws::args_are))]
fn judged(
    alloc: Global,
    cx: &Context,
    at: At,
    callee: Callee,
    offers: Vec<Offer>,
    head: &Head,
) -> Result<Typed, CheckFault>
    ensures { Answers typed_view (spec.judged (around_view cx.now) at (callee_view callee.entry)
        (map offer_view offers.entry.items) (head_view head.now)) result }
{
    let filling = fill(alloc, cx, at, head, offers)?;
    let args = args(
        alloc,
        cx,
        at,
        head.params.as_slice(),
        filling.slots,
        filling.rest,
    )?;
    let code = Box::new(alloc, call_code(callee.is_native, callee.number, args))?;
    Ok(Typed {
        at,
        form: Form::Value(code),
        tag: callee.tag,
        value: None,
        made: filling.made,
    })
}

/// With what was made and found in one more argument that isn't judged.
fn with_offer(made: Made, it: Offer) -> Result<Made, Memory>
    ensures literals { IfOk result (λ both. map object_view both.literals ≡
        map object_view made.literals ++ spec.offer_literals (offer_view it.entry)) }
    ensures warned { IfOk result (λ both. both.warned ≡
        made.warned ++ spec.offer_warned (offer_view it.entry)) }
{
    match it {
        Offer::Positional(x) => made.then(x.made),
        Offer::Skipped => Ok(made),
        Offer::Named(_, x) => made.then(x.made),
    }
}

/// What was made and found in arguments that aren't judged.
fn made_in(alloc: Global, offers: Vec<Offer>) -> Result<Made, Memory>
    ensures literals { IfOk result (λ made. map object_view made.literals ≡
        flat_map spec.offer_literals (map offer_view offers.entry.items)) }
    ensures warned { IfOk result (λ made. made.warned ≡
        flat_map spec.offer_warned (map offer_view offers.entry.items)) }
{
    let mut made = Made::nothing(alloc);
    for it in offers {
        made = with_offer(made, it)?;
    }
    Ok(made)
}

/// A call with what is offered to it. Arguments for a head that isn't known yet aren't judged.
///
/// # Errors
///
/// 50 for a name that no parameter has, 55 and 58 for an argument that doesn't fit its parameter,
/// 59 for a parameter without an argument, 60 for one that got two, 61 for an argument too many.
#[tactic(auto, unfolding(types_rules::specs::Calls::call_rule))]
pub fn call(
    alloc: Global,
    cx: &Context,
    at: At,
    callee: Callee,
    offers: Vec<Offer>,
) -> Result<Typed, CheckFault>
    ensures { Answers typed_view (spec.call_rule (around_view cx.now) at (callee_view callee.entry)
        (map offer_view offers.entry.items)) result }
{
    match callee.head {
        Some(head) => judged(alloc, cx, at, callee, offers, head),
        None => Ok(Typed {
            at,
            form: Form::Value(Box::new(alloc, Expr::Const(0))?),
            tag: callee.tag,
            value: None,
            made: made_in(alloc, offers)?,
        }),
    }
}
