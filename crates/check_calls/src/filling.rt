ghost use Rattle.std.specs.Prelude.{◌≡◌, ◌+◌, [], ◌∷◌, ◌++◌, map, option_map, position, slice_get};
ghost use Rattle.std.specs.Prelude.{IfOk, IfSome};
ghost use Rattle.std.specs.Str.{bytes_eq};
ghost use Rattle.pawn_meaning.specs.View.{arg_view, object_view};
ghost use Rattle.names_rules.specs.Verdict.{Stands, after};
ghost use Rattle.types_rules.specs.Around.{Param as Plain};
ghost use Rattle.types_rules.specs.Given.{given_rule};
ghost use Rattle.types_rules.specs.Filling as spec;
ghost use Rattle.pawn_verdict.specs.Answers.{Answers};
ghost use Rattle.check_nodes.specs.declared.context.Param.{Param as Held};
ghost use Rattle.check_nodes.specs.ContextView.{around_view, param_view, head_view};
ghost use Rattle.check_nodes.specs.TypedView.{typed_view};
ghost use Rattle.check_calls.specs.Empty.{nothing_for};
ghost use Rattle.check_calls.specs.Numbers.{AreNumbers};
ghost use Rattle.check_calls.specs.declared.numbers.Numbers.{Numbers as Table};
ghost use Rattle.check_calls.specs.GivenView.{arg_code};
ghost use Rattle.check_calls.specs.FillingView.{filled_view, filling_view, offer_view, slots_view};

use super::given::{Argued, Given, give, rest_given};
use super::numbers::{Numbers, numbers_of};
use check_nodes::{Context, Head, Made, Param, Typed};
use pawn_base::{Bytes, List, Memory};
use pawn_meaning::Arg;
use pawn_tree::At;
use pawn_verdict::{CheckFault, broken};
use std::alloc::Global;
use std::mem;
use types_rules::{ARGUMENT_MISSING, ARGUMENT_TWICE, TOO_MANY_ARGUMENTS, UNDEFINED};

/// An argument as it stands in the call.
#[derive(Drop)]
pub enum Offer<'a> {
    Positional(Typed),
    /// `_`
    Skipped,
    /// The argument of the parameter with this name.
    Named(&'a Bytes, Typed),
}

/// What a parameter got.
#[derive(Drop)]
pub enum Filled {
    Argument(Argued),
    /// `_`
    Default,
}

/// The arguments so far: how many were positional, what each parameter got, those of `...`, and
/// what was made and found in them.
#[derive(Drop)]
pub struct Filling {
    pub next: usize,
    pub slots: Vec<Option<Filled>>,
    pub rest: List<Arg>,
    pub made: Made,
}

/// A call: what stands around it, its token, and the head of what it calls.
#[derive(Clone, Copy)]
struct Call<'a> {
    cx: &'a Context,
    at: At,
    head: &'a Head,
}

/// A slot for each parameter, with nothing in it.
fn empty_slots(alloc: Global, params: &[Param]) -> Result<Vec<Option<Filled>>, Memory>
    ensures { IfOk result (λ slots. slots.items ≡ map nothing_for params.now) }
{
    let mut slots = Vec::new(alloc);
    for _param in params {
        slots.push(None)?;
    }
    Ok(slots)
}

/// No parameter got anything.
#[tactic(auto, using(crate::proofs::FillLaws::nothing_seen))]
fn nothing_filled(alloc: Global, head: &Head) -> Result<Filling, Memory>
    ensures { IfOk result (λ it. filling_view it ≡ spec.nothing_filled (head_view head.now)) }
{
    let slots = empty_slots(alloc, head.params.as_slice())?;
    Ok(Filling {
        next: 0,
        slots,
        rest: List::new(alloc),
        made: Made::nothing(alloc),
    })
}

/// The parameter with a number gets something, once.
fn put(
    at: At,
    i: usize,
    it: Filled,
    slots: Vec<Option<Filled>>,
) -> Result<Vec<Option<Filled>>, CheckFault>
    ensures { Answers (λ slots. slots_view slots.items)
        (spec.put at i (filled_view it) (slots_view slots.items)) result }
{
    let mut slots = slots;
    if i >= slots.len() {
        return Err(broken(TOO_MANY_ARGUMENTS, at.place));
    }
    match mem::replace(&mut slots[i], Some(it)) {
        None => Ok(slots),
        Some(_) => Err(broken(ARGUMENT_TWICE, at.place)),
    }
}

/// An argument for the parameter with a number; so many are positional behind it.
#[tactic(auto, using(pawn_verdict::proofs::VerdictLaws::verdicts))]
fn for_param(
    alloc: Global,
    cx: &Context,
    at: At,
    done: Filling,
    i: usize,
    param: &Param,
    x: Typed,
    next: usize,
) -> Result<Filling, CheckFault>
    ensures { Answers filling_view
        (after (given_rule (around_view cx.now) at (param_view param.now) (typed_view x)) (λ it.
        after (spec.put at i (spec.Argument (spec.in_slot it)) (slots_view done.slots.items))
        (λ slots.
        Stands (spec.argued (filling_view done) (typed_view x) it slots next)))) result }
{
    let it = match give(alloc, cx, at, param, x) {
        Ok(it) => it,
        Err(fault) => {
            // by name, since a `?` would write its drop out
            drop(done);
            return Err(fault);
        }
    };
    let made = done.made.then(it.made);
    let slots = put(at, i, Filled::Argument(it.argued), done.slots)?;
    Ok(Filling {
        next,
        slots,
        rest: done.rest,
        made: made?,
    })
}

fn one_more(count: usize) -> Result<usize, Memory>
    ensures { IfOk result (λ more. more ≡ count + 1) }
{
    match count.checked_add(1) {
        None => Err(Memory),
        Some(more) => Ok(more),
    }
}

/// With one more argument of `...`.
fn with_rest(done: Filling, it: Given) -> Result<Filling, Memory>
    ensures { IfOk result (λ all. filling_view all ≡ record {
      next = done.next + 1;
      slots = slots_view done.slots.items;
      rest = map arg_view done.rest ++ arg_code it.argued.code ∷ [];
      literals = map object_view done.made.literals ++ map object_view it.made.literals;
      warned = done.made.warned ++ it.made.warned;
    }) }
{
    let next = one_more(done.next);
    let made = done.made.then(it.made);
    let mut rest = done.rest;
    rest.push(Box::into_inner(it.argued.code))?;
    Ok(Filling {
        next: next?,
        slots: done.slots,
        rest,
        made: made?,
    })
}

/// An argument behind all parameters, which belongs to `...`.
fn for_rest(alloc: Global, call: Call, done: Filling, x: Typed) -> Result<Filling, CheckFault>
    ensures { Answers filling_view (spec.for_rest (around_view call.entry.cx.now) call.entry.at
        (head_view call.entry.head.now) (filling_view done) call.entry.head.now.rest
        (typed_view x)) result }
{
    match &call.head.rest {
        None => {
            // by name, here and below, since the end of a block would write their drops out
            drop(done);
            drop(x);
            Err(broken(TOO_MANY_ARGUMENTS, call.at.place))
        }
        Some(tags) => match rest_given(alloc, call.cx, tags.as_slice(), x) {
            Ok(it) => Ok(with_rest(done, it)?),
            Err(_) => {
                drop(done);
                Err(CheckFault::Memory)
            }
        },
    }
}

/// The parameter with a number.
fn param_at<'a>(head: &'a Head, i: usize) -> Option<&'a Param>
    ensures { option_map (λ param. param_view param.now) result ≡
        slice_get (map param_view head.now.params) i }
{
    match head.params.as_slice().get(i) {
        None => None,
        Some(param) => Some(param),
    }
}

/// An argument in its turn.
fn positional(alloc: Global, call: Call, done: Filling, x: Typed) -> Result<Filling, CheckFault>
    ensures { Answers filling_view (spec.positional (around_view call.entry.cx.now) call.entry.at
        (head_view call.entry.head.now) (filling_view done)
        (slice_get (map param_view call.entry.head.now.params) done.next) (typed_view x)) result }
{
    let i = done.next;
    match param_at(call.head, i) {
        None => for_rest(alloc, call, done, x),
        Some(param) => {
            let next = one_more(i)?;
            for_param(alloc, call.cx, call.at, done, i, param, x, next)
        }
    }
}

/// `_`, which gives a parameter its default. `...` has none.
#[tactic(auto, using(pawn_verdict::proofs::VerdictLaws::verdicts))]
fn skipped(call: Call, done: Filling) -> Result<Filling, CheckFault>
    ensures { Answers filling_view (spec.skipped (around_view call.entry.cx.now) call.entry.at
        (head_view call.entry.head.now) (filling_view done)
        (slice_get (map param_view call.entry.head.now.params) done.next)) result }
{
    match param_at(call.head, done.next) {
        None => {
            drop(done);
            match &call.head.rest {
                None => Err(broken(TOO_MANY_ARGUMENTS, call.at.place)),
                Some(_) => Err(broken(ARGUMENT_MISSING, call.at.place)),
            }
        }
        Some(_) => {
            let slots = put(call.at, done.next, Filled::Default, done.slots)?;
            Ok(Filling {
                next: one_more(done.next)?,
                slots,
                rest: done.rest,
                made: done.made,
            })
        }
    }
}

/// The number of the parameter with a name, looked for among all.
fn number_of_param(head: &Head, name: &Bytes) -> Option<usize>
    ensures { result ≡ position (λ (param : Plain). bytes_eq param.name name.now)
        (map param_view head.now.params) }
{
    let params = head.params.as_slice();
    let name = name.as_slice();
    place_of(params, name)
}

fn place_of(params: &[Param], name: &[u8]) -> Option<usize>
    ensures { result ≡ position (λ (param : Held). bytes_eq param.name name.now) params.now }
{
    params
        .iter()
        .position(|param| param.name.as_slice() == name)
}

/// The same, by the table where there is one.
fn find_param(head: &Head, numbers: &Option<Numbers>, name: &Bytes) -> Option<usize>
    requires { IfSome numbers.now (λ (it : Table). AreNumbers head.now.params it.table.entries) }
    ensures { result ≡ position (λ (param : Plain). bytes_eq param.name name.now)
        (map param_view head.now.params) }
{
    match numbers {
        None => number_of_param(head, name),
        Some(numbers) => numbers.find(name.as_slice()),
    }
}

/// The argument of the parameter with a name.
fn named(
    alloc: Global,
    call: Call,
    numbers: &Option<Numbers>,
    done: Filling,
    name: &Bytes,
    x: Typed,
) -> Result<Filling, CheckFault>
    requires { IfSome numbers.now
        (λ (it : Table). AreNumbers call.head.now.params it.table.entries) }
    ensures { Answers filling_view (spec.named (around_view call.entry.cx.now) call.entry.at
        (head_view call.entry.head.now) (filling_view done)
        (spec.number_of_param (around_view call.entry.cx.now) call.entry.at
        (head_view call.entry.head.now) name.now) (typed_view x)) result }
{
    let next = done.next;
    match find_param(call.head, numbers, name) {
        None => {
            drop(done);
            drop(x);
            Err(broken(UNDEFINED, call.at.place))
        }
        Some(i) => match param_at(call.head, i) {
            None => {
                drop(done);
                drop(x);
                Err(broken(UNDEFINED, call.at.place))
            }
            Some(param) => for_param(alloc, call.cx, call.at, done, i, param, x, next),
        },
    }
}

/// Behind one more argument.
///
/// # Errors
///
/// 50 for a name that no parameter has, 55 and 58 for an argument that doesn't fit its parameter,
/// 59 for `_` behind all parameters, 60 for a parameter that got something, 61 for an argument too
/// many.
fn offered(
    alloc: Global,
    call: Call,
    numbers: &Option<Numbers>,
    done: Filling,
    it: Offer,
) -> Result<Filling, CheckFault>
    requires { IfSome numbers.now
        (λ (it : Table). AreNumbers call.head.now.params it.table.entries) }
    ensures { Answers filling_view (spec.offer_step (around_view call.entry.cx.now) call.entry.at
        (head_view call.entry.head.now) (filling_view done) (offer_view it.entry)) result }
{
    match it {
        Offer::Positional(x) => positional(alloc, call, done, x),
        Offer::Skipped => skipped(call, done),
        Offer::Named(name, x) => named(alloc, call, numbers, done, name, x),
    }
}

/// Whether several arguments are named. They stand behind all others.
fn names_several(offers: &[Offer]) -> bool {
    if offers.len() < 2 {
        return false;
    }
    match &offers[offers.len() - 2] {
        Offer::Positional(_) => false,
        Offer::Skipped => false,
        Offer::Named(..) => true,
    }
}

/// A table of the parameters, where several are looked for by their names: heads have no greatest
/// number of parameters, so that a search for each of many would not be linear.
fn numbers_for<'a>(
    alloc: Global,
    head: &'a Head,
    offers: &[Offer],
) -> Result<Option<Numbers<'a>>, Memory>
    ensures { IfOk result (λ numbers.
        IfSome numbers (λ (it : Table). AreNumbers head.now.params it.table.entries)) }
{
    if !names_several(offers) {
        return Ok(None);
    }
    let numbers = numbers_of(alloc, head.params.as_slice())?;
    Ok(Some(numbers))
}

/// All arguments of a call, each put to its parameter, which a table finds by its name.
fn fill_by(
    alloc: Global,
    cx: &Context,
    at: At,
    head: &Head,
    numbers: &Option<Numbers>,
    offers: Vec<Offer>,
) -> Result<Filling, CheckFault>
    requires { IfSome numbers.now (λ (it : Table). AreNumbers head.now.params it.table.entries) }
    ensures { Answers filling_view (spec.fill (around_view cx.now) at (head_view head.now)
        (map offer_view offers.entry.items)) result }
{
    let call = Call { cx, at, head };
    let nothing = nothing_filled(alloc, head)?;
    let mut done = nothing;
    for it in offers {
        done = offered(alloc, call, numbers, done, it)?;
    }
    Ok(done)
}

/// All arguments of a call, each put to its parameter.
///
/// # Errors
///
/// Those of each argument.
pub fn fill(
    alloc: Global,
    cx: &Context,
    at: At,
    head: &Head,
    offers: Vec<Offer>,
) -> Result<Filling, CheckFault>
    ensures { Answers filling_view (spec.fill (around_view cx.now) at (head_view head.now)
        (map offer_view offers.entry.items)) result }
{
    let numbers = numbers_for(alloc, head, offers.as_slice())?;
    fill_by(alloc, cx, at, head, &numbers, offers)
}
