ghost use Rattle.std.specs.Prelude.{◌≡◌, map, option_map, slice_get, IfOk};
ghost use Rattle.std.specs.Option.{option_and_then};
ghost use Rattle.check_nodes.specs.ContextView.{callable_view, head_view};
ghost use Rattle.check_source.specs.HeadingView.{heading_view};
ghost use Rattle.check_source.specs.SourceView.{source_view};
ghost use Rattle.check_functions.specs.HeadsView.{heads_view};
ghost use Rattle.check_functions.specs.Stated as spec;

use super::copies::copied;
use check_nodes::{Callable, Head};
use check_source::{Heading, Source};
use names_sight::{UNTAGGED, tag_number};
use pawn_base::Memory;
use std::alloc::Global;

/// The heading at a place.
fn heading_at<'s, 'a>(headings: &'s [Heading<'a>], place: Option<u32>) -> Option<&'s Heading<'a>>
    ensures { option_map (λ it. heading_view it.now) result ≡
        spec.heading_at (map heading_view headings.now) place }
{
    match place {
        None => None,
        Some(place) => heading_in(headings, place as usize),
    }
}

#[tactic(auto, using(crate::proofs::PlacedLaws::viewed_get))]
fn heading_in<'s, 'a>(headings: &'s [Heading<'a>], place: usize) -> Option<&'s Heading<'a>>
    ensures { option_map (λ it. heading_view it.now) result ≡
        slice_get (map heading_view headings.now) place }
{
    headings.get(place)
}

/// The tag of what a heading gives.
fn tag_of(source: &Source, it: Option<&Heading>) -> u32
    ensures { result ≡ spec.heading_tag (source_view source.now)
        (option_map (λ it. heading_view it.now) it.entry) }
{
    match it {
        None => UNTAGGED,
        Some(it) => tag_number(&source.tags, it.head.tag.as_ref()),
    }
}

/// The tag of what the heading at a place gives.
pub fn tag_at(source: &Source, place: Option<u32>) -> u32
    ensures { result ≡ spec.heading_tag (source_view source.now)
        (spec.heading_at (map heading_view source.now.headings) place) }
{
    tag_of(source, heading_at(source.headings.as_slice(), place))
}

/// A copy of the typed head at a place.
#[tactic(auto, using(crate::proofs::PlacedLaws::head_there, crate::proofs::PlacedLaws::head_past))]
fn head_in(alloc: Global, heads: &[Option<Head>], place: usize) -> Result<Option<Head>, Memory>
    ensures { IfOk result (λ head. option_map head_view head ≡
        spec.head_at (heads_view heads.now) place) }
{
    if place >= heads.len() {
        return Ok(None);
    }
    let copy = copied(alloc, &heads[place])?;
    Ok(copy)
}

/// A copy of the typed head of the heading at a place.
fn head_of(
    alloc: Global,
    headings: &[Heading],
    heads: &[Option<Head>],
    place: usize,
) -> Result<Option<Head>, Memory>
    ensures { IfOk result (λ head. option_map head_view head ≡ option_and_then
        (λ it. spec.head_at (heads_view heads.now) place)
        (slice_get (map heading_view headings.now) place)) }
{
    match heading_in(headings, place) {
        None => Ok(None),
        Some(_) => {
            let head = head_in(alloc, heads, place)?;
            Ok(head)
        }
    }
}

/// The same, where there is a place.
fn stated_head(
    alloc: Global,
    headings: &[Heading],
    heads: &[Option<Head>],
    place: Option<u32>,
) -> Result<Option<Head>, Memory>
    ensures { IfOk result (λ head. option_map head_view head ≡
        spec.stated_head (map heading_view headings.now) (heads_view heads.now) place) }
{
    match place {
        None => Ok(None),
        Some(place) => {
            let head = head_of(alloc, headings, heads, place as usize)?;
            Ok(head)
        }
    }
}

/// What can be called under a number, by the place of its first heading.
pub fn callable_at(
    alloc: Global,
    source: &Source,
    heads: &[Option<Head>],
    number: u32,
    place: Option<u32>,
) -> Result<Callable, Memory>
    ensures { IfOk result (λ it. callable_view it ≡ record {
      number = number;
      tag = spec.heading_tag (source_view source.now)
          (spec.heading_at (map heading_view source.now.headings) place);
      head = spec.stated_head (map heading_view source.now.headings)
          (heads_view heads.now) place;
    }) }
{
    Ok(Callable {
        number,
        tag: tag_at(source, place),
        head: stated_head(alloc, source.headings.as_slice(), heads, place)?,
    })
}
