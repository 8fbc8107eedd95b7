ghost use Rattle.std.specs.Prelude.{◌≡◌, pos, length, option_map, IfOk};
ghost use Rattle.names_rules.specs.Verdict.{Stands, after};
ghost use Rattle.pawn_cells.specs.Cells.{cell_of};
ghost use Rattle.pawn_tags.specs.Tags.{untagged};
ghost use Rattle.types_rules.specs.Around as around;
ghost use Rattle.types_rules.specs.NamesAndNumbers as spec;
ghost use Rattle.types_rules.specs.Texts.{text_cells};
ghost use Rattle.pawn_verdict.specs.Answers.{Answers};
ghost use Rattle.check_nodes.specs.ContextView.{around_view};
ghost use Rattle.check_nodes.specs.ExtentView.{extent_view};
ghost use Rattle.check_nodes.specs.MeaningView.{meaning_view};
ghost use Rattle.check_nodes.specs.TypedView.{typed_view};

use super::context::Context;
use super::extent::Extent;
use super::meaning::Meaning;
use super::named_values::make_constant;
use super::tags::tag_number;
use super::text_sizes::text_size;
use super::typed::Typed;
use pawn_base::Memory;
use pawn_tags::UNTAGGED;
use pawn_tree::At;
use pawn_verdict::{CheckFault, broken};
use std::alloc::Global;
use types_rules::{NOT_AN_ARRAY, UNDEFINED};

/// The size of a dimension: 0 where the first one isn't known.
#[tactic(auto, using(crate::proofs::SizeLaws::size_beyond))]
fn size_at(extent: Extent, dimension: usize) -> Option<u32>
    ensures { result ≡ spec.size_at (extent_view extent) dimension }
{
    match dimension {
        0 => Some(extent.first.unwrap_or(0)),
        1 => extent.second,
        2 => {
            extent.second?;
            extent.third
        }
        _ => None,
    }
}

/// The size of what a name means, in the dimension that so many `[]` tell.
fn size_of(at: At, dimension: usize, means: Option<Meaning>) -> Result<u32, CheckFault>
    ensures { Answers (λ size. size)
        (spec.size_of at dimension (option_map meaning_view means)) result }
{
    match means {
        Some(Meaning::Array(_, extent, _, _)) => match size_at(extent, dimension) {
            None => Err(broken(NOT_AN_ARRAY, at.place)),
            Some(size) => Ok(size),
        },
        Some(Meaning::Constant(..) | Meaning::Variable(..)) if dimension == 0 => Ok(1),
        None | Some(Meaning::Taken) => Err(broken(UNDEFINED, at.place)),
        Some(_) => Err(broken(NOT_AN_ARRAY, at.place)),
    }
}

/// A size, which a cell has to hold.
fn sized(alloc: Global, at: At, size: usize) -> Result<Typed, CheckFault>
    ensures { Answers typed_view (Stands (spec.constant_value at (pos size) untagged)) result }
{
    match i32::try_from(size) {
        Err(_) => Err(CheckFault::Memory),
        Ok(size) => Ok(make_constant(alloc, at, size, UNTAGGED)?),
    }
}

/// `sizeof` of a name, with so many `[]` behind it.
///
/// # Errors
///
/// 50 for a name that means nothing, 53 where it has no such dimension.
#[tactic(auto, using(pawn_verdict::proofs::VerdictLaws::verdicts))]
pub fn sizeof_name(
    alloc: Global,
    at: At,
    dimension: usize,
    means: Option<Meaning>,
) -> Result<Typed, CheckFault>
    ensures { Answers typed_view (after (spec.size_of at dimension (option_map meaning_view means))
        (λ size. Stands (spec.constant_value at (pos size) untagged))) result }
{
    let size = size_of(at, dimension, means)?;
    sized(alloc, at, size as usize)
}

/// `sizeof` of a text, with so many `[]` behind it. It makes no object.
///
/// # Errors
///
/// 53 where there is a `[]`.
#[tactic(auto, using(pawn_verdict::proofs::VerdictLaws::verdicts))]
pub fn sizeof_text(
    alloc: Global,
    at: At,
    dimension: usize,
    bytes: &[u8],
    packed: bool,
) -> Result<Typed, CheckFault>
    ensures { Answers typed_view (after
        (spec.size_of_text at dimension (length (text_cells packed bytes.now)))
        (λ size. Stands (spec.constant_value at (pos size) untagged))) result }
{
    if dimension > 0 {
        return Err(broken(NOT_AN_ARRAY, at.place));
    }
    sized(alloc, at, text_size(bytes, packed))
}

/// The tag of what a name means, of a function the tag of what it gives.
fn tag_of(at: At, means: Option<Meaning>) -> Result<u32, CheckFault>
    ensures { Answers (λ tag. tag) (spec.tag_of_meaning at (option_map meaning_view means)) result }
{
    match means {
        Some(Meaning::Constant(_, tag) | Meaning::Variable(_, tag, _)) => Ok(tag),
        Some(Meaning::Array(_, _, tag, _) | Meaning::Entering(tag)) => Ok(tag),
        Some(Meaning::Function(_, tag) | Meaning::Native(_, tag)) => Ok(tag),
        None | Some(Meaning::Taken) => Err(broken(UNDEFINED, at.place)),
    }
}

/// `tagof` of a name.
///
/// # Errors
///
/// 50 for a name that means nothing.
#[tactic(auto, using(pawn_verdict::proofs::VerdictLaws::verdicts))]
pub fn tagof_name(alloc: Global, at: At, means: Option<Meaning>) -> Result<Typed, CheckFault>
    ensures { Answers typed_view (after (spec.tag_of_meaning at (option_map meaning_view means))
        (λ tag. Stands (spec.constant_value at (cell_of tag) untagged))) result }
{
    let tag = tag_of(at, means)?;
    Ok(make_constant(alloc, at, tag.cast_signed(), UNTAGGED)?)
}

/// `tagof` of a tag.
pub fn tagof_tag(alloc: Global, cx: &Context, at: At, name: &[u8]) -> Result<Typed, Memory>
    ensures { IfOk result (λ x. typed_view x ≡
        spec.constant_value at (cell_of (around.tag_number (around_view cx.now) name.now))
        untagged) }
{
    make_constant(alloc, at, tag_number(cx, name).cast_signed(), UNTAGGED)
}
