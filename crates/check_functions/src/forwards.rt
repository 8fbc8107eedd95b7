ghost use Rattle.std.specs.Prelude.{◌≡◌, ◌+◌, true, None, Some, map, option_map, length};
ghost use Rattle.check_nodes.specs.ContextView.{head_view};
ghost use Rattle.check_source.specs.HeadingView.{heading_view};
ghost use Rattle.check_source.specs.SourceView.{source_view};
ghost use Rattle.check_functions.specs.HeadsView.{heads_view};
ghost use Rattle.check_functions.specs.Stated.{head_at};
ghost use Rattle.check_functions.specs.Differ.{stated_at};
ghost use Rattle.check_functions.specs.EntryForwards.{TellOf, are_unlike, is_forward};

use super::against::differs;
use super::firsts::enters_all;
use super::places::{head_in, heading_in};
use check_nodes::Head;
use check_source::{Heading, Source};

/// The places of two forwards of `entry` that tell of all of them: the first one whose head stands,
/// and the first one whose head differs from that. A heading that equals both equals each.
#[derive(Clone, Copy)]
pub struct Forwards {
    pub first: Option<usize>,
    pub other: Option<usize>,
}

/// Whether a heading is a forward of `entry` whose head stands.
fn is_standing(it: &Heading, head: Option<&Head>) -> bool
    ensures { result ≡ is_forward (Some (record {
      heading = heading_view it.now;
      head = option_map (λ head. head_view head.now) head.entry;
    })) }
{
    match head {
        None => false,
        Some(_) => enters_all(it),
    }
}

/// The same of a place.
fn stands_at(source: &Source, heads: &[Option<Head>], place: usize) -> bool
    ensures { result ≡ is_forward
        (stated_at (map heading_view source.now.headings) (heads_view heads.now) place) }
{
    match heading_in(source, place) {
        None => false,
        Some(it) => {
            let head = head_in(heads, place);
            is_standing(it, head)
        }
    }
}

/// Whether a heading with its place differs from the one at another place.
fn unlike_with(
    source: &Source,
    heads: &[Option<Head>],
    x: &Heading,
    first: usize,
    place: usize,
) -> bool
    ensures { result ≡ are_unlike (source_view source.now)
        (Some (record {
          heading = heading_view x.now;
          head = head_at (heads_view heads.now) first;
        }))
        (stated_at (map heading_view source.now.headings) (heads_view heads.now) place) }
{
    match heading_in(source, place) {
        None => false,
        Some(y) => {
            let x_head = head_in(heads, first);
            let y_head = head_in(heads, place);
            differs(source, x, x_head, y, y_head)
        }
    }
}

/// Whether the headings at two places differ.
fn unlike(source: &Source, heads: &[Option<Head>], first: usize, place: usize) -> bool
    ensures { result ≡ are_unlike (source_view source.now)
        (stated_at (map heading_view source.now.headings) (heads_view heads.now) first)
        (stated_at (map heading_view source.now.headings) (heads_view heads.now) place) }
{
    match heading_in(source, first) {
        None => false,
        Some(x) => unlike_with(source, heads, x, first, place),
    }
}

/// With a forward behind others that don't differ from the first one.
fn against_first(source: &Source, heads: &[Option<Head>], first: usize, place: usize) -> Forwards
    ensures { is_forward
        (stated_at (map heading_view source.now.headings) (heads_view heads.now) place) ≡ true
        → TellOf (source_view source.now) (heads_view heads.now) place (Some first) None
        → TellOf (source_view source.now) (heads_view heads.now) (place + 1)
        result.first result.other }
{
    if unlike(source, heads, first, place) {
        return Forwards {
            first: Some(first),
            other: Some(place),
        };
    }
    Forwards {
        first: Some(first),
        other: None,
    }
}

/// With one more forward behind the first one.
fn with_other(
    source: &Source,
    heads: &[Option<Head>],
    first: usize,
    other: Option<usize>,
    place: usize,
) -> Forwards
    ensures { is_forward
        (stated_at (map heading_view source.now.headings) (heads_view heads.now) place) ≡ true
        → TellOf (source_view source.now) (heads_view heads.now) place (Some first) other
        → TellOf (source_view source.now) (heads_view heads.now) (place + 1)
        result.first result.other }
{
    match other {
        Some(_) => Forwards {
            first: Some(first),
            other,
        },
        None => against_first(source, heads, first, place),
    }
}

/// With the heading at a place.
fn with_place(source: &Source, heads: &[Option<Head>], forwards: Forwards, place: usize) -> Forwards
    ensures { TellOf (source_view source.now) (heads_view heads.now) place
        forwards.first forwards.other
        → TellOf (source_view source.now) (heads_view heads.now) (place + 1)
        result.first result.other }
{
    if !stands_at(source, heads, place) {
        return forwards;
    }
    match forwards.first {
        None => Forwards {
            first: Some(place),
            other: None,
        },
        Some(first) => with_other(source, heads, first, forwards.other, place),
    }
}

/// Those of all headings, in one pass.
pub fn find_forwards(source: &Source, heads: &[Option<Head>]) -> Forwards
    ensures { TellOf (source_view source.now) (heads_view heads.now)
        (length (map heading_view source.now.headings)) result.first result.other }
{
    let mut forwards = Forwards {
        first: None,
        other: None,
    };
    for i in 0..source.headings.as_slice().len() {
        forwards = with_place(source, heads, forwards, i);
    }
    forwards
}
