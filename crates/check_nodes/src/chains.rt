ghost use Rattle.std.specs.Prelude.{◌≡◌, ◌++◌, map, IfOk};
ghost use Rattle.pawn_meaning.specs.Program.{Chain, no_links, then_link};
ghost use Rattle.pawn_meaning.specs.View.{expr_view, links_view, object_view};
ghost use Rattle.types_rules.specs.Typed.{Value};
ghost use Rattle.types_rules.specs.Chains as spec;
ghost use Rattle.pawn_verdict.specs.Answers.{Answers};
ghost use Rattle.check_nodes.specs.CodeView.{code_view};
ghost use Rattle.check_nodes.specs.ContextView.{around_view};
ghost use Rattle.check_nodes.specs.TypedView.{typed_view};
ghost use Rattle.check_nodes.specs.Compared.{compared_view};
ghost use Rattle.check_nodes.specs.Begun as begun;
ghost use Rattle.check_nodes.specs.Begun.{begun_view, link_step};

use super::context::Context;
use super::made::Made;
use super::tags::{function_tag, takes_either};
use super::typed::{Form, Typed};
use super::wanted_cell::cell;
use pawn_base::{List, Memory};
use pawn_cells::{Cell, Comparison};
use pawn_meaning::{Expr, Link};
use pawn_tags::{Choice, Op, TRUTH_TAG};
use pawn_token::Sign;
use pawn_tree::At;
use pawn_verdict::{CheckFault, LinkSign, broken, link_of};
use std::alloc::Global;
use types_rules::UNDEFINED;

/// A comparison of a chain, under which name a user may define it, and its right operand.
#[derive(Drop)]
pub struct Compared {
    pub sign: Comparison,
    pub user: Op,
    pub operand: Typed,
}

/// A sign of a chain with its right operand.
pub fn link(at: At, sign: Sign, operand: Typed) -> Result<Compared, CheckFault>
    ensures { Answers compared_view (spec.link_rule at sign (typed_view operand)) result }
{
    match link_of(sign) {
        LinkSign::Nothing => Err(broken(UNDEFINED, at.place)),
        LinkSign::Compares(sign, user) => Ok(Compared {
            sign,
            user,
            operand,
        }),
    }
}

/// The user operator of a link, behind an operand of a tag.
fn link_choice(cx: &Context, left: u32, it: &Compared) -> Option<Choice>
    ensures { result ≡ spec.link_choice (around_view cx.now) left (compared_view it.now) }
{
    cx.operators.choose(it.user, left, it.operand.tag)
}

/// What a link gives.
fn link_tag(cx: &Context, by: Option<Choice>) -> u32
    ensures { result ≡ spec.link_tag (around_view cx.now) by }
{
    match by {
        None => TRUTH_TAG,
        Some(by) => function_tag(cx, by.function),
    }
}

/// A chain of one link gives what its operator gives, a longer one a truth value.
fn chain_tag(cx: &Context, left: u32, links: &[Compared]) -> u32
    ensures { result ≡ spec.chain_tag (around_view cx.now) left (map compared_view links.now) }
{
    let count = links.len();
    if count == 1 {
        let only = &links[0];
        link_tag(cx, link_choice(cx, left, only))
    } else {
        TRUTH_TAG
    }
}

/// A chain so far: the tag of its last operand, its links, the last value and whether all links
/// hold, where all is constant, and what was made.
#[derive(Drop)]
pub struct Begun {
    pub left: u32,
    pub links: List<Link>,
    pub value: Option<(i32, bool)>,
    pub made: Made,
}

/// With a warning behind these where the operands of a link fail the test of their tags, which a
/// user operator asks not.
fn test_link(
    cx: &Context,
    made: Made,
    left: u32,
    right: u32,
    at: At,
    by: Option<Choice>,
) -> Result<Made, Memory>
    ensures literals { IfOk result (λ both. both.literals ≡ made.literals) }
    ensures warned { IfOk result (λ both. both.warned ≡
        made.warned ++ begun.link_tests (around_view cx.now) left right at by) }
{
    match by {
        None => made.then_tested(takes_either(cx, left, right), at),
        Some(_) => Ok(made),
    }
}

/// The value with one more link, for which a user operator may stand.
fn value_behind(
    value: Option<(i32, bool)>,
    sign: Comparison,
    operand: Option<i32>,
    by: Option<Choice>,
) -> Option<(i32, bool)>
    ensures { result ≡ begun.value_with value (spec.link_value sign operand by) }
{
    match (value, operand, by) {
        (None, _, _) => None,
        (Some(_), None, _) => None,
        (Some(_), Some(_), Some(_)) => None,
        (Some((left, holds)), Some(right), None) => {
            Some((right, holds && sign.holds(Cell(left), Cell(right))))
        }
    }
}

/// A link with what stands for its operator.
fn make_link(sign: Comparison, operand: Expr, by: Option<Choice>) -> Link
    ensures { then_link result.op (expr_view result.operand) result.function result.swapped no_links
        ≡ spec.link_code sign (expr_view operand) by no_links }
{
    match by {
        None => Link {
            op: sign,
            operand,
            function: None,
            swapped: false,
        },
        Some(by) => Link {
            op: sign,
            operand,
            function: Some(by.function),
            swapped: by.swapped,
        },
    }
}

/// One more link.
#[tactic(auto, using(crate::proofs::LinkLaws::links_more))]
fn push_link(links: List<Link>, it: Link) -> Result<List<Link>, Memory>
    ensures { IfOk result (λ more. links_view more ≡ begun.behind (links_view links)
        (then_link it.op (expr_view it.operand) it.function it.swapped no_links)) }
{
    let mut links = links;
    links.push(it)?;
    Ok(links)
}

/// With one more link.
#[tactic(auto, using(pawn_verdict::proofs::VerdictLaws::verdicts))]
fn with_link(
    alloc: Global,
    cx: &Context,
    at: At,
    done: Begun,
    it: Compared,
) -> Result<Begun, CheckFault>
    ensures { Answers begun_view
        (link_step (around_view cx.now) at (begun_view done) (compared_view it)) result }
{
    let by = link_choice(cx, done.left, &it);
    let x = it.operand;
    let code = cell(alloc, at, x.form)?;
    let tested = test_link(cx, done.made, done.left, x.tag, x.at, by)?;
    let made = tested.then(x.made)?;
    let links = push_link(done.links, make_link(it.sign, Box::into_inner(code), by))?;
    Ok(Begun {
        left: x.tag,
        links,
        value: value_behind(done.value, it.sign, x.value, by),
        made,
    })
}

/// The value of a chain that has no more links.
fn ended_value(value: Option<(i32, bool)>) -> Option<i32>
    ensures { result ≡ begun.ended_value value }
{
    match value {
        None => None,
        Some((_, true)) => Some(1),
        Some((_, false)) => Some(0),
    }
}

/// The first operand's value, where it is constant.
fn holding(value: Option<i32>) -> Option<(i32, bool)>
    ensures { result ≡ begun.holding value }
{
    match value {
        None => None,
        Some(value) => Some((value, true)),
    }
}

/// A chain without a link.
fn first_operand(alloc: Global, tag: u32, value: Option<i32>, made: Made) -> Begun
    ensures { begun_view result ≡ record {
      left = tag;
      links = no_links;
      value = begun.holding value;
      literals = map object_view made.literals;
      warned = made.warned;
    } }
{
    Begun {
        left: tag,
        links: List::new(alloc),
        value: holding(value),
        made,
    }
}

/// A chain that has no more links, as a value.
#[tactic(auto, using(crate::proofs::LinkLaws::chains))]
fn ended(alloc: Global, at: At, first: Box<Expr>, tag: u32, done: Begun) -> Result<Typed, Memory>
    ensures { IfOk result (λ x. typed_view x ≡ record {
      at = at;
      form = Value (Chain (code_view first) (links_view done.links));
      tag = tag;
      value = begun.ended_value done.value;
      literals = map object_view done.made.literals;
      warned = done.made.warned;
    }) }
{
    let value = ended_value(done.value);
    let code = Box::new(alloc, Expr::Chain(first, done.links))?;
    Ok(Typed {
        at,
        form: Form::Value(code),
        tag,
        value,
        made: done.made,
    })
}

/// A chain of comparisons, behind its first operand. Each link chooses its operator by itself.
///
/// # Errors
///
/// 54 for an array.
#[tactic(auto, unfolding(types_rules::specs::Chains::chain_rule), using(pawn_verdict::proofs::VerdictLaws::verdicts))]
pub fn chain(
    alloc: Global,
    cx: &Context,
    at: At,
    x: Typed,
    links: Vec<Compared>,
) -> Result<Typed, CheckFault>
    ensures { Answers typed_view
        (spec.chain_rule (around_view cx.now) at (typed_view x)
        (map compared_view links.items)) result }
{
    let tag = chain_tag(cx, x.tag, links.as_slice());
    let first = cell(alloc, at, x.form)?;
    let mut done = first_operand(alloc, x.tag, x.value, x.made);
    for it in links {
        done = with_link(alloc, cx, at, done, it)?;
    }
    let typed = ended(alloc, at, first, tag, done)?;
    Ok(typed)
}
