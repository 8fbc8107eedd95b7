ghost use Rattle.std.specs.Prelude.{◌≡◌, ◌&&◌, Some, pos, map, IfSome};
ghost use Rattle.names_rules.specs.Known.{Cells};
ghost use Rattle.names_rules.specs.Verdict.{Stands};
ghost use Rattle.names_rules.specs.Around.{Around as PlainAround, truth_tag};
ghost use Rattle.names_rules.specs.Signs as signs;
ghost use Rattle.names_rules.specs.Worth as spec;
ghost use Rattle.pawn_cells.specs.Cells.{truth};
ghost use Rattle.pawn_cells.specs.Operators as cells;
ghost use Rattle.pawn_cells.specs.declared.place.Place.{Place as PlainPlace};
ghost use Rattle.pawn_verdict.specs.Answers.{Answers};
ghost use Rattle.names_sight.specs.Chosen.{AnswersChosen};
ghost use Rattle.names_sight.specs.Links.{link_sign};
ghost use Rattle.names_sight.specs.Means.{around_view, means_view};
ghost use Rattle.names_sight.specs.Views.{meant_kind_view, size_view};
ghost use Rattle.names_sight.specs.ValuedView.{valued_view};

use super::context::Context;
use super::fault::{BY_ZERO, Fault, UNKNOWN};
use super::known::{MeantKind, Size};
use super::signs::{Before, before_of, is_test};
use super::tag_numbers::tag_number;
use pawn_cells::{Cell, Operator, Place, Prefix};
use pawn_tags::{Op, TRUTH_TAG, UNTAGGED};
use pawn_token::Sign;
use pawn_tree::{Link, SizeofOperand, TagofOperand, Text};
use pawn_verdict::{Between, CheckFault, LinkSign, between_of, broken, link_of};

/// A value and its tag's number.
#[derive(Clone, Copy)]
pub struct Valued {
    pub value: i32,
    pub tag: u32,
}

/// A value with a tag.
pub fn make_valued(value: i32, tag: u32) -> Valued
    ensures { valued_view result ≡ record { value = value; tag = tag } }
{
    Valued { value, tag }
}

// ---- texts

/// A count as a cell; none where a cell doesn't hold it.
pub fn cell_count(count: usize) -> Option<i32>
    ensures { IfSome result (λ cell. cell ≡ pos count) }
{
    match i32::try_from(count) {
        Err(_) => None,
        Ok(cell) => Some(cell),
    }
}

/// The cells of a text, with a zero behind it; none where they are too many to be counted.
pub fn text_cells(bytes: &[u8], packed: bool) -> Option<i32>
    ensures { IfSome result (λ cells. cells ≡ pos (spec.text_cells bytes.now packed)) }
{
    if packed {
        cell_count((bytes.len() + 4) / 4)
    } else {
        cell_count(bytes.len() + 1)
    }
}

// ---- names

/// What a name is worth that occurs at a place, where the node at another wants it.
pub fn name_worth(cx: &Context, place: Place, at: Place, name: &[u8]) -> Result<Valued, CheckFault>
    ensures { Answers valued_view (spec.name_worth (around_view cx.now) place at
        (means_view cx.now name.now)) result }
{
    match cx.means(name) {
        None => Err(broken(UNKNOWN, at)),
        Some(meant) => match meant.kind {
            MeantKind::Worth(value) => Ok(make_valued(value, meant.tag)),
            MeantKind::Cells(_) | MeantKind::Function => Err(Fault::not_constant(place)),
        },
    }
}

// ---- sizes and tags

fn size_worth(size: &Size) -> Result<Valued, CheckFault>
    ensures { (around : PlainAround) (place : PlainPlace) →
        Answers valued_view (spec.size_at around place (Some (size_view size.now))) result }
{
    match size {
        Ok(size) => Ok(make_valued(*size, UNTAGGED)),
        Err(fault) => Err(broken(fault.kind, fault.place)),
    }
}

/// What has no sizes is one cell.
fn one_cell(place: Place, brackets: usize) -> Result<Valued, CheckFault>
    ensures { (around : PlainAround) →
        Answers valued_view (spec.one_cell around place brackets) result }
{
    if brackets == 0 {
        Ok(make_valued(1, UNTAGGED))
    } else {
        Err(Fault::not_constant(place))
    }
}

/// The size behind so many `[]` of what has these sizes.
fn cells_size(place: Place, brackets: usize, sizes: &[Size]) -> Result<Valued, CheckFault>
    ensures { (around : PlainAround) → Answers valued_view (spec.kind_size around place brackets
        (Cells (map size_view sizes.now))) result }
{
    if sizes.len() == 0 {
        return one_cell(place, brackets);
    }
    if brackets < sizes.len() {
        size_worth(&sizes[brackets])
    } else {
        Err(Fault::not_constant(place))
    }
}

fn kind_size(place: Place, brackets: usize, kind: MeantKind) -> Result<Valued, CheckFault>
    ensures { (around : PlainAround) → Answers valued_view (spec.kind_size around place brackets
        (meant_kind_view kind.entry)) result }
{
    match kind {
        MeantKind::Function => Err(Fault::not_constant(place)),
        MeantKind::Worth(_) => one_cell(place, brackets),
        MeantKind::Cells(sizes) => cells_size(place, brackets, sizes),
    }
}

fn text_size(place: Place, text: &Text, brackets: usize) -> Result<Valued, CheckFault>
    ensures { (around : PlainAround) →
        Answers valued_view (spec.text_size around place brackets text.now) result }
{
    if brackets > 0 {
        return Err(Fault::not_constant(place));
    }
    match text_cells(text.bytes.as_slice(), text.packed) {
        None => Err(CheckFault::Memory),
        Some(cells) => Ok(make_valued(cells, UNTAGGED)),
    }
}

pub fn sizeof_worth(
    cx: &Context,
    place: Place,
    at: Place,
    x: &SizeofOperand,
) -> Result<Valued, CheckFault>
    ensures { Answers valued_view (spec.sizeof_worth (around_view cx.now) place
        (means_view cx.now) at x.now) result }
{
    match x {
        SizeofOperand::Text(text, brackets) => text_size(place, text, *brackets),
        SizeofOperand::Name(name, brackets) => match cx.means(name.bytes.as_slice()) {
            None => Err(broken(UNKNOWN, at)),
            Some(meant) => kind_size(place, *brackets, meant.kind),
        },
    }
}

fn tag_worth(number: u32) -> Result<Valued, CheckFault>
    ensures { (around : PlainAround) (place : PlainPlace) →
        Answers valued_view (spec.tag_worth around place number) result }
{
    match cell_count(number as usize) {
        None => Err(CheckFault::Memory),
        Some(number) => Ok(make_valued(number, UNTAGGED)),
    }
}

/// What `tagof` is worth at a place.
pub fn tagof_worth(cx: &Context, at: Place, x: &TagofOperand) -> Result<Valued, CheckFault>
    ensures { (place : PlainPlace) → Answers valued_view (spec.tagof_worth (around_view cx.now)
        place (means_view cx.now) at x.now) result }
{
    match x {
        TagofOperand::Name(name) => match cx.means(name.bytes.as_slice()) {
            None => Err(broken(UNKNOWN, at)),
            Some(meant) => tag_worth(meant.tag),
        },
        TagofOperand::Tag(name) => tag_worth(tag_number(&cx.tags, Some(name))),
    }
}

// ---- operators

/// Nothing where the program defines the operator for these tags.
fn unless_chosen(
    cx: &Context,
    place: Place,
    op: Option<Op>,
    left: u32,
    right: u32,
) -> Result<(), CheckFault>
    ensures { AnswersChosen (spec.is_chosen (around_view cx.now) place op left right) place result }
{
    if cx.is_chosen(op, left, right) {
        Err(Fault::not_constant(place))
    } else {
        Ok(())
    }
}

/// `!` gives a truth value, and the others keep their operand's tag.
fn prefix_tag(prefix: Prefix, tag: u32) -> u32
    ensures { (around : PlainAround) (place : PlainPlace) →
        result ≡ spec.prefix_tag around place prefix tag }
{
    match prefix {
        Prefix::Not => TRUTH_TAG,
        Prefix::Invert | Prefix::Negate => tag,
    }
}

pub fn prefix_worth(cx: &Context, place: Place, sign: Sign, x: Valued) -> Result<Valued, CheckFault>
    ensures { Answers valued_view (spec.prefix_worth (around_view cx.now) place
        (signs.before_of sign) (valued_view x)) result }
{
    match before_of(sign) {
        Before::Steps => Err(Fault::not_constant(place)),
        Before::Applies(prefix, op) => {
            unless_chosen(cx, place, op, x.tag, UNTAGGED)?;
            let Cell(value) = prefix.apply(Cell(x.value));
            Ok(make_valued(value, prefix_tag(prefix, x.tag)))
        }
    }
}

/// `==` and `!=` give truth values, and the others have their left operand's tag.
fn operator_tag(operator: Operator, left: u32) -> u32
    ensures { (around : PlainAround) (place : PlainPlace) →
        result ≡ spec.operator_tag around place operator left }
{
    if is_test(operator) { TRUTH_TAG } else { left }
}

fn operate(at: Place, operator: Operator, x: Valued, y: Valued) -> Result<Valued, CheckFault>
    ensures { (around : PlainAround) (place : PlainPlace) →
        Answers valued_view (spec.operated around place at
        (spec.operator_tag around place operator x.tag)
        (cells.binary operator x.value y.value)) result }
{
    match operator.apply(Cell(x.value), Cell(y.value)) {
        None => Err(broken(BY_ZERO, at)),
        Some(cell) => Ok(make_valued(cell.0, operator_tag(operator, x.tag))),
    }
}

pub fn between_worth(
    cx: &Context,
    place: Place,
    at: Place,
    sign: Sign,
    x: Valued,
    y: Valued,
) -> Result<Valued, CheckFault>
    ensures { Answers valued_view (spec.between_worth (around_view cx.now) place at
        (signs.between_of sign) (valued_view x) (valued_view y)) result }
{
    match between_of(sign) {
        Between::Nothing => Err(Fault::not_constant(place)),
        Between::Takes => Ok(y),
        Between::Decides(logical) => {
            let Cell(value) = logical.apply(Cell(x.value), Cell(y.value));
            Ok(make_valued(value, TRUTH_TAG))
        }
        Between::Operates(operator, op) => {
            unless_chosen(cx, place, op, x.tag, y.tag)?;
            operate(at, operator, x, y)
        }
    }
}

// ---- comparisons, tags and choices

/// The sign of a link.
pub fn sign_of(link: &Link) -> Sign
    ensures { result ≡ link_sign link.now }
{
    match link {
        Link::Compare(sign, _) => *sign,
    }
}

/// Whether a link holds between its operands.
pub fn linked(
    cx: &Context,
    place: Place,
    sign: Sign,
    x: Valued,
    y: Valued,
) -> Result<bool, CheckFault>
    ensures { Answers (λ holds. holds) (spec.linked (around_view cx.now) place
        (signs.link_of sign) (valued_view x) (valued_view y)) result }
{
    match link_of(sign) {
        LinkSign::Nothing => Err(Fault::not_constant(place)),
        LinkSign::Compares(comparison, op) => {
            unless_chosen(cx, place, Some(op), x.tag, y.tag)?;
            Ok(comparison.holds(Cell(x.value), Cell(y.value)))
        }
    }
}

/// A value with a tag before it.
pub fn tagged_worth(cx: &Context, tag: &[u8], x: Valued) -> Valued
    ensures { (place : PlainPlace) → Stands (valued_view result) ≡
        spec.tagged_worth (around_view cx.now) place tag.now (valued_view x) }
{
    make_valued(x.value, cx.tags.number(tag).unwrap_or(UNTAGGED))
}

/// Whether a chain holds, as a value.
pub fn truth_worth(holds: bool) -> Valued
    ensures { Stands (valued_view result) ≡ spec.valued (truth holds) truth_tag }
{
    make_valued(if holds { 1 } else { 0 }, TRUTH_TAG)
}

/// Whether a chain goes on to hold.
pub fn both_hold(first: bool, second: bool) -> bool
    ensures { result ≡ (first && second) }
{
    first && second
}

/// The value that a test chooses.
pub fn choice_worth(test: Valued, y: Valued, z: Valued) -> Valued
    ensures { (around : PlainAround) (place : PlainPlace) → Stands (valued_view result) ≡
        spec.chosen_worth around place (valued_view test) (valued_view y) (valued_view z) }
{
    make_valued(if test.value != 0 { y.value } else { z.value }, y.tag)
}
