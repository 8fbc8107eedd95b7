ghost use Rattle.std.specs.Prelude.{◌≡◌, ◌+◌, ℕ, List, map, option_map, length, pos, IfOk};
ghost use Rattle.pawn_cells.specs.Cells.{cell_of};
ghost use Rattle.pawn_tags.specs.Tags.{untagged};
ghost use Rattle.names_rules.specs.Verdict.{Verdict, Stands, after};
ghost use Rattle.types_rules.specs.NamesAndNumbers as names;
ghost use Rattle.types_rules.specs.Scope.{found};
ghost use Rattle.types_rules.specs.Texts.{text_cells};
ghost use Rattle.types_rules.specs.Calls as calls;
ghost use Rattle.types_rules.specs.Filling.{Offer as PlainOffer};
ghost use Rattle.pawn_verdict.specs.Answers.{Answers};
ghost use Rattle.check_nodes.specs.PartAnswers.{Judged, PartAnswers};
ghost use Rattle.check_nodes.specs.ContextView.{around_view};
ghost use Rattle.check_nodes.specs.TypedView.{typed_view};
ghost use Rattle.check_nodes.specs.Scopes.{scope_view, sight_view};
ghost use Rattle.check_calls.specs.CalleeView.{callee_view};
ghost use Rattle.check_calls.specs.FillingView.{offer_view};
ghost use Rattle.check_expressions.specs.BoxedView.{boxed_view};

use check_calls::{Callee, Offer, call, find_callee, text};
use check_nodes::{
    Context, PartFault, Scopes, Sight, Typed, make_number, name, sizeof_name, sizeof_text,
    tagof_name, tagof_tag,
};
use pawn_base::{Bytes, Memory};
use pawn_tree::{At, SizeofOperand, TagofOperand};
use pawn_verdict::CheckFault;
use std::alloc::Global;

// ---- numbers, texts, names

/// A number or a character.
pub fn number_of(alloc: Global, at: At, value: i32) -> Result<Box<Typed>, Memory>
    ensures { IfOk result (λ x. boxed_view x ≡ names.number_rule at value) }
{
    let number = make_number(alloc, at, value)?;
    Ok(Box::new(alloc, number)?)
}

/// A text, which is the object with this number.
fn text_at(
    alloc: Global,
    object: u32,
    at: At,
    it: &Bytes,
    packed: bool,
) -> Result<Typed, CheckFault>
    ensures { Answers typed_view (names.text_rule object at it.now packed) result }
{
    let bytes = it.as_slice();
    text(alloc, object, at, bytes, packed)
}

/// A text, which is one more object.
#[tactic(auto, using(check_nodes::proofs::PartLaws::parts, crate::proofs::PairLaws::pairs))]
#[inline(never)]
pub fn text_of(
    alloc: Global,
    objects: &mut u32,
    at: At,
    it: &Bytes,
    packed: bool,
) -> Result<Box<Typed>, PartFault>
    ensures answer { PartAnswers boxed_view
        (names.text_rule objects.old at it.now packed) result }
    ensures behind { Judged result (objects.new ≡ objects.old + 1) }
{
    let object = *objects;
    match object.checked_add(1) {
        None => Err(PartFault::Memory),
        Some(behind) => {
            *objects = behind;
            let text = text_at(alloc, object, at, it, packed)?;
            Ok(Box::new(alloc, text)?)
        }
    }
}

/// What a name means here.
fn sight_of(scopes: &Scopes, name: &Bytes) -> Option<Sight>
    ensures { option_map sight_view result ≡ found (scope_view scopes.now) name.now }
{
    let bytes = name.as_slice();
    scopes.find(bytes)
}

/// What is told of a name as an expression.
#[tactic(auto, using(check_nodes::proofs::PartLaws::parts))]
fn name_in_sight(alloc: Global, at: At, sight: Option<Sight>) -> Result<Typed, PartFault>
    ensures { PartAnswers typed_view (names.name_rule at (option_map sight_view sight)) result }
{
    match sight {
        None => Ok(name(alloc, at, None)?),
        Some(Sight::Means(means)) => Ok(name(alloc, at, Some(means))?),
        Some(Sight::Unknown) => Err(PartFault::Fallen),
    }
}

/// What is told of a name by what it means here.
fn name_in_scope(alloc: Global, scopes: &Scopes, at: At, it: &Bytes) -> Result<Typed, PartFault>
    ensures { PartAnswers typed_view
        (names.name_rule at (found (scope_view scopes.now) it.now)) result }
{
    let sight = sight_of(scopes, it);
    name_in_sight(alloc, at, sight)
}

/// A name.
#[tactic(auto, using(check_nodes::proofs::PartLaws::parts))]
#[inline(never)]
pub fn name_of(alloc: Global, scopes: &Scopes, at: At, it: &Bytes) -> Result<Box<Typed>, PartFault>
    ensures { PartAnswers boxed_view
        (names.name_rule at (found (scope_view scopes.now) it.now)) result }
{
    let name = name_in_scope(alloc, scopes, at, it)?;
    Ok(Box::new(alloc, name)?)
}

// ---- `sizeof` and `tagof`

/// What is told of the size of a name.
#[tactic(auto, using(check_nodes::proofs::PartLaws::parts))]
fn size_in_sight(
    alloc: Global,
    at: At,
    dimension: usize,
    sight: Option<Sight>,
) -> Result<Typed, PartFault>
    ensures { PartAnswers typed_view (after
        (names.size_of at dimension (option_map sight_view sight))
        (λ size. Stands (names.constant_value at (pos size) untagged))) result }
{
    match sight {
        None => Ok(sizeof_name(alloc, at, dimension, None)?),
        Some(Sight::Means(means)) => Ok(sizeof_name(alloc, at, dimension, Some(means))?),
        Some(Sight::Unknown) => Err(PartFault::Fallen),
    }
}

fn size_of_name(
    alloc: Global,
    scopes: &Scopes,
    at: At,
    dimension: usize,
    it: &Bytes,
) -> Result<Typed, PartFault>
    ensures { PartAnswers typed_view (after
        (names.size_of at dimension (found (scope_view scopes.now) it.now))
        (λ size. Stands (names.constant_value at (pos size) untagged))) result }
{
    let sight = sight_of(scopes, it);
    size_in_sight(alloc, at, dimension, sight)
}

fn size_of_text(
    alloc: Global,
    at: At,
    dimension: usize,
    it: &Bytes,
    packed: bool,
) -> Result<Typed, CheckFault>
    ensures { Answers typed_view (after
        (names.size_of_text at dimension (length (text_cells packed it.now)))
        (λ size. Stands (names.constant_value at (pos size) untagged))) result }
{
    let bytes = it.as_slice();
    sizeof_text(alloc, at, dimension, bytes, packed)
}

/// `sizeof` with its operand.
#[tactic(auto, unfolding(types_rules::specs::NamesAndNumbers::sizeof_rule), using(check_nodes::proofs::PartLaws::parts))]
fn size_of_operand(
    alloc: Global,
    scopes: &Scopes,
    at: At,
    x: &SizeofOperand,
) -> Result<Typed, PartFault>
    ensures { PartAnswers typed_view (names.sizeof_rule (scope_view scopes.now) at x.now) result }
{
    match x {
        SizeofOperand::Name(it, dimension) => {
            size_of_name(alloc, scopes, at, *dimension, &it.bytes)
        }
        SizeofOperand::Text(it, dimension) => {
            Ok(size_of_text(alloc, at, *dimension, &it.bytes, it.packed)?)
        }
    }
}

/// `sizeof` with its operand, in a box.
#[tactic(auto, using(check_nodes::proofs::PartLaws::parts))]
#[inline(never)]
pub fn sizeof_rule(
    alloc: Global,
    scopes: &Scopes,
    at: At,
    x: &SizeofOperand,
) -> Result<Box<Typed>, PartFault>
    ensures { PartAnswers boxed_view (names.sizeof_rule (scope_view scopes.now) at x.now) result }
{
    let size = size_of_operand(alloc, scopes, at, x)?;
    Ok(Box::new(alloc, size)?)
}

/// What is told of the tag of a name.
#[tactic(auto, using(check_nodes::proofs::PartLaws::parts))]
fn tag_in_sight(alloc: Global, at: At, sight: Option<Sight>) -> Result<Typed, PartFault>
    ensures { PartAnswers typed_view (after (names.tag_of_meaning at (option_map sight_view sight))
        (λ tag. Stands (names.constant_value at (cell_of tag) untagged))) result }
{
    match sight {
        None => Ok(tagof_name(alloc, at, None)?),
        Some(Sight::Means(means)) => Ok(tagof_name(alloc, at, Some(means))?),
        Some(Sight::Unknown) => Err(PartFault::Fallen),
    }
}

fn tag_of_name(alloc: Global, scopes: &Scopes, at: At, it: &Bytes) -> Result<Typed, PartFault>
    ensures { PartAnswers typed_view (after
        (names.tag_of_meaning at (found (scope_view scopes.now) it.now))
        (λ tag. Stands (names.constant_value at (cell_of tag) untagged))) result }
{
    let sight = sight_of(scopes, it);
    tag_in_sight(alloc, at, sight)
}

/// `tagof` with its operand.
#[tactic(auto, unfolding(types_rules::specs::NamesAndNumbers::tagof_rule))]
fn tag_of_operand(
    alloc: Global,
    cx: &Context,
    scopes: &Scopes,
    at: At,
    x: &TagofOperand,
) -> Result<Typed, PartFault>
    ensures { PartAnswers typed_view
        (names.tagof_rule (around_view cx.now) (scope_view scopes.now) at x.now) result }
{
    match x {
        TagofOperand::Name(it) => tag_of_name(alloc, scopes, at, &it.bytes),
        TagofOperand::Tag(it) => Ok(tagof_tag(alloc, cx, at, it.bytes.as_slice())?),
    }
}

/// `tagof` with its operand, in a box.
#[tactic(auto, using(check_nodes::proofs::PartLaws::parts))]
#[inline(never)]
pub fn tagof_rule(
    alloc: Global,
    cx: &Context,
    scopes: &Scopes,
    at: At,
    x: &TagofOperand,
) -> Result<Box<Typed>, PartFault>
    ensures { PartAnswers boxed_view
        (names.tagof_rule (around_view cx.now) (scope_view scopes.now) at x.now) result }
{
    let tag = tag_of_operand(alloc, cx, scopes, at, x)?;
    Ok(Box::new(alloc, tag)?)
}

// ---- calls

/// What is told of a name that is called.
#[tactic(auto, using(check_nodes::proofs::PartLaws::parts))]
fn callee_in_sight<'a>(
    cx: &'a Context,
    at: At,
    sight: Option<Sight>,
) -> Result<Callee<'a>, PartFault>
    ensures { PartAnswers callee_view
        (calls.callee_rule (around_view cx.now) at (option_map sight_view sight)) result }
{
    match sight {
        None => Ok(find_callee(cx, at, None)?),
        Some(Sight::Means(means)) => Ok(find_callee(cx, at, Some(means))?),
        Some(Sight::Unknown) => Err(PartFault::Fallen),
    }
}

fn callee_of<'a>(
    cx: &'a Context,
    scopes: &Scopes,
    at: At,
    it: &Bytes,
) -> Result<Callee<'a>, PartFault>
    ensures { PartAnswers callee_view
        (calls.callee_rule (around_view cx.now) at (found (scope_view scopes.now) it.now)) result }
{
    let sight = sight_of(scopes, it);
    callee_in_sight(cx, at, sight)
}

/// A call by a name with what is offered to it.
#[tactic(auto, using(check_nodes::proofs::PartLaws::parts))]
fn call_with(
    alloc: Global,
    cx: &Context,
    scopes: &Scopes,
    at: At,
    it: &Bytes,
    offers: Vec<Offer>,
) -> Result<Box<Typed>, PartFault>
    ensures { PartAnswers boxed_view (after
        (calls.callee_rule (around_view cx.now) at (found (scope_view scopes.now) it.now))
        (λ callee. calls.call_rule (around_view cx.now) at callee
        (map offer_view offers.entry.items))) result }
{
    let callee = callee_of(cx, scopes, at, it)?;
    let it = call(alloc, cx, at, callee, offers)?;
    Ok(Box::new(alloc, it)?)
}

/// A call by a name.
#[tactic(auto, using(check_nodes::proofs::PartLaws::parts, crate::proofs::PairLaws::pairs))]
#[inline(never)]
pub fn call_of(
    alloc: Global,
    cx: &Context,
    scopes: &Scopes,
    at: At,
    it: &Bytes,
    offers: Result<Vec<Offer>, PartFault>,
) -> Result<Box<Typed>, PartFault>
    ensures answer { (v : Verdict (List PlainOffer)) →
        PartAnswers (λ all. map offer_view all.items) v offers.entry →
        PartAnswers boxed_view (after v (λ offered. after
        (calls.callee_rule (around_view cx.now) at (found (scope_view scopes.now) it.now))
        (λ callee. calls.call_rule (around_view cx.now) at callee offered))) result }
    ensures judged { (m n : ℕ) → Judged offers.entry (m ≡ n) → Judged result (m ≡ n) }
{
    let offers = offers?;
    call_with(alloc, cx, scopes, at, it, offers)
}
