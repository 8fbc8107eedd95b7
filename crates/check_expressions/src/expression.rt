ghost use Rattle.std.specs.Prelude.{◌≡◌, ◌+◌, map};
ghost use Rattle.pawn_tree.specs.Expressions.{args, links};
ghost use Rattle.pawn_tree.specs.View.{expr_view, arg_view, link_view};
ghost use Rattle.types_rules.specs.Literals.{literals, literals_of_arg, literals_of_link};
ghost use Rattle.types_rules.specs.Literals.{arg_literals, link_literals};
ghost use Rattle.types_rules.specs.Expressions as spec;
ghost use Rattle.check_nodes.specs.PartAnswers.{Judged, PartAnswers};
ghost use Rattle.check_nodes.specs.ContextView.{around_view};
ghost use Rattle.check_nodes.specs.TypedView.{typed_view};
ghost use Rattle.check_nodes.specs.Scopes.{scope_view};
ghost use Rattle.check_nodes.specs.Compared.{compared_view};
ghost use Rattle.check_calls.specs.FillingView.{offer_view};
ghost use Rattle.check_expressions.specs.BoxedView.{boxed_view};
ghost use Rattle.check_expressions.specs.Links.{operand_in};

use super::leaves::{call_of, name_of, number_of, sizeof_rule, tagof_rule, text_of};
use super::lists::{compare, named, positional, sign_of, with_link, with_offer};
use super::nodes::{Double, Single, chained, choose, with_operand, with_operands};
use check_calls::Offer;
use check_nodes::{Compared, Context, PartFault, Scopes, Typed};
use pawn_base::List;
use pawn_tree::{Arg, Expr, Link};
use std::alloc::Global;

/// The typed node of an expression behind so many objects, which go on by its literals (Language
/// Guide, "Operators and expressions").
///
/// # Errors
///
/// A rule that some node in it breaks, at the node's place. `Fallen` where none is broken, but a
/// name means what doesn't stand.
pub fn expr(
    alloc: Global,
    cx: &Context,
    scopes: &Scopes,
    objects: &mut u32,
    e: &Expr,
) -> Result<Typed, PartFault>
    ensures answer { PartAnswers typed_view (spec.expr (around_view cx.now)
        (scope_view scopes.now) objects.old (expr_view e.now)) result }
    ensures behind { Judged result (objects.new ≡ objects.old + literals (expr_view e.now)) }
{
    let x = node(alloc, cx, scopes, objects, e)?;
    Ok(Box::into_inner(x))
}

/// The same in a box, since a tree may be as deep as the parser takes it, and each level keeps what
/// its operands are.
#[cycle(expression)]
fn node(
    alloc: Global,
    cx: &Context,
    scopes: &Scopes,
    objects: &mut u32,
    e: &Expr,
) -> Result<Box<Typed>, PartFault>
    ensures answer { PartAnswers boxed_view (spec.expr (around_view cx.now)
        (scope_view scopes.now) objects.old (expr_view e.now)) result }
    ensures behind { Judged result (objects.new ≡ objects.old + literals (expr_view e.now)) }
{
    match e {
        Expr::Number(at, value) => Ok(number_of(alloc, *at, *value)?),
        Expr::Text(at, bytes, packed) => text_of(alloc, objects, *at, bytes, *packed),
        Expr::Name(at, it) => name_of(alloc, scopes, *at, it),
        Expr::Paren(at, e) => {
            let x = node(alloc, cx, scopes, objects, e);
            with_operand(alloc, cx, *at, Single::Paren, x)
        }
        Expr::Sizeof(at, x) => sizeof_rule(alloc, scopes, *at, x),
        Expr::Tagof(at, x) => tagof_rule(alloc, cx, scopes, *at, x),
        Expr::Prefix(at, sign, e) => {
            let x = node(alloc, cx, scopes, objects, e);
            with_operand(alloc, cx, *at, Single::Prefix(*sign), x)
        }
        Expr::Tagged(at, tag, e) => {
            let x = node(alloc, cx, scopes, objects, e);
            with_operand(alloc, cx, *at, Single::Tagged(tag), x)
        }
        Expr::Postfix(at, sign, e) => {
            let x = node(alloc, cx, scopes, objects, e);
            with_operand(alloc, cx, *at, Single::Postfix(*sign), x)
        }
        Expr::Index(at, a, i) => {
            let x = node(alloc, cx, scopes, objects, a);
            let y = node(alloc, cx, scopes, objects, i);
            with_operands(alloc, cx, *at, Double::Index, x, y)
        }
        Expr::Character(at, a, i) => {
            let x = node(alloc, cx, scopes, objects, a);
            let y = node(alloc, cx, scopes, objects, i);
            with_operands(alloc, cx, *at, Double::Character, x, y)
        }
        Expr::Binary(at, sign, l, r) => {
            let x = node(alloc, cx, scopes, objects, l);
            let y = node(alloc, cx, scopes, objects, r);
            with_operands(alloc, cx, *at, Double::Binary(*sign), x, y)
        }
        Expr::Chain(at, e, list) => {
            let x = node(alloc, cx, scopes, objects, e);
            let links = links_of(alloc, cx, scopes, objects, list);
            chained(alloc, cx, *at, x, links)
        }
        Expr::Choice(at, c, a, b) => {
            let x = node(alloc, cx, scopes, objects, c);
            let y = node(alloc, cx, scopes, objects, a);
            let z = node(alloc, cx, scopes, objects, b);
            choose(alloc, cx, *at, x, y, z)
        }
        Expr::Assign(at, sign, l, r) => {
            let x = node(alloc, cx, scopes, objects, l);
            let y = node(alloc, cx, scopes, objects, r);
            with_operands(alloc, cx, *at, Double::Assign(*sign), x, y)
        }
        Expr::Call(at, it, list, _) => {
            let offers = offers_of(alloc, cx, scopes, objects, list);
            call_of(alloc, cx, scopes, *at, it, offers)
        }
    }
}

/// The operand of a link.
#[cycle(expression)]
fn operand_of(
    alloc: Global,
    cx: &Context,
    scopes: &Scopes,
    objects: &mut u32,
    it: &Link,
) -> Result<Box<Typed>, PartFault>
    ensures answer { PartAnswers boxed_view (spec.expr (around_view cx.now)
        (scope_view scopes.now) objects.old (operand_in (link_view it.now))) result }
    ensures behind { Judged result
        (objects.new ≡ objects.old + literals (operand_in (link_view it.now))) }
{
    match it {
        Link::Compare(_, e) => node(alloc, cx, scopes, objects, e),
    }
}

/// A link of a chain.
#[cycle(expression)]
fn linked(
    alloc: Global,
    cx: &Context,
    scopes: &Scopes,
    objects: &mut u32,
    it: &Link,
) -> Result<Compared, PartFault>
    ensures answer { PartAnswers compared_view (spec.linked (around_view cx.now)
        (scope_view scopes.now) objects.old (link_view it.now)) result }
    ensures behind { Judged result
        (objects.new ≡ objects.old + literals_of_link (link_view it.now)) }
{
    let x = operand_of(alloc, cx, scopes, objects, it);
    compare(sign_of(it), x)
}

/// The links of a chain.
#[cycle(expression)]
fn links_of(
    alloc: Global,
    cx: &Context,
    scopes: &Scopes,
    objects: &mut u32,
    list: &List<Link>,
) -> Result<Vec<Compared>, PartFault>
    ensures answer { PartAnswers (λ all. map compared_view all.items) (spec.chain
        (around_view cx.now) (scope_view scopes.now) objects.old
        (links (map link_view list.now))) result }
    ensures behind { Judged result
        (objects.new ≡ objects.old + link_literals (links (map link_view list.now))) }
{
    let items = list.as_slice();
    let mut all = Ok(Vec::new(alloc));
    for i in 0..items.len() {
        let item = &items[i];
        let it = linked(alloc, cx, scopes, objects, item);
        all = with_link(all, it);
    }
    all
}

/// What a call is offered by an argument.
#[cycle(expression)]
fn offered<'a>(
    alloc: Global,
    cx: &Context,
    scopes: &Scopes,
    objects: &mut u32,
    it: &'a Arg,
) -> Result<Offer<'a>, PartFault>
    ensures answer { PartAnswers offer_view (spec.offer (around_view cx.now)
        (scope_view scopes.now) objects.old (arg_view it.now)) result }
    ensures behind { Judged result
        (objects.new ≡ objects.old + literals_of_arg (arg_view it.now)) }
{
    match it {
        Arg::Default(_) => Ok(Offer::Skipped),
        Arg::Value(e) => {
            let x = node(alloc, cx, scopes, objects, e);
            positional(x)
        }
        Arg::Named(name, e) => {
            let x = node(alloc, cx, scopes, objects, e);
            named(&name.bytes, x)
        }
    }
}

/// What a call is offered.
#[cycle(expression)]
fn offers_of<'a>(
    alloc: Global,
    cx: &Context,
    scopes: &Scopes,
    objects: &mut u32,
    list: &'a List<Arg>,
) -> Result<Vec<Offer<'a>>, PartFault>
    ensures answer { PartAnswers (λ all. map offer_view all.items) (spec.offers
        (around_view cx.now) (scope_view scopes.now) objects.old
        (args (map arg_view list.now))) result }
    ensures behind { Judged result
        (objects.new ≡ objects.old + arg_literals (args (map arg_view list.now))) }
{
    let items = list.as_slice();
    let mut all = Ok(Vec::new(alloc));
    for i in 0..items.len() {
        let item = &items[i];
        let it = offered(alloc, cx, scopes, objects, item);
        all = with_offer(all, it);
    }
    all
}
