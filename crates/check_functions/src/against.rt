ghost use Rattle.std.specs.Prelude.{◌≡◌, Some, map, option_map};
ghost use Rattle.types_rules.specs.Functions as spec;
ghost use Rattle.types_rules.specs.Sources.{stated};
ghost use Rattle.check_nodes.specs.ContextView.{head_view};
ghost use Rattle.check_source.specs.HeadingView.{heading_view};
ghost use Rattle.check_source.specs.SourceView.{source_view};
ghost use Rattle.check_functions.specs.Finds.{Finds};
ghost use Rattle.check_functions.specs.HeadsView.{heads_view};
ghost use Rattle.check_functions.specs.Stated.{head_at};
ghost use Rattle.check_functions.specs.Differ.{differs_by, differing_by, place_faults, stated_at};

use super::places::{head_in, heading_in};
use super::rules::fault_if;
use super::same_heads::same_head;
use check_nodes::Head;
use check_source::{Heading, Source};
use names_sight::tag_number;
use pawn_verdict::CheckFault;
use types_rules::HEAD_DIFFERS;

/// Whether the heads of two headings differ; one that doesn't stand isn't compared.
pub fn differs(
    source: &Source,
    x: &Heading,
    x_head: Option<&Head>,
    y: &Heading,
    y_head: Option<&Head>,
) -> bool
    ensures { result ≡ differs_by (source_view source.now)
        (heading_view x.now) (option_map (λ it. head_view it.now) x_head.entry)
        (heading_view y.now) (option_map (λ it. head_view it.now) y_head.entry) }
{
    match x_head {
        None => false,
        Some(head) => match y_head {
            None => false,
            Some(other) => {
                let tag = tag_number(&source.tags, x.head.tag.as_ref());
                let other_tag = tag_number(&source.tags, y.head.tag.as_ref());
                !same_head(tag, head, other_tag, other)
            }
        },
    }
}

/// A heading against the first one of its function, each with its head.
fn differing(
    source: &Source,
    x: &Heading,
    x_head: Option<&Head>,
    y: &Heading,
    y_head: Option<&Head>,
) -> Result<(), CheckFault>
    ensures { Finds (spec.differing (source_view source.now)
        (record {
          heading = heading_view x.now;
          head = option_map (λ it. head_view it.now) x_head.entry;
        })
        (record {
          heading = heading_view y.now;
          head = option_map (λ it. head_view it.now) y_head.entry;
        }))
        result }
{
    fault_if(differs(source, x, x_head, y, y_head), HEAD_DIFFERS, y.at)
}

/// A heading with its place against the one at another place.
fn compare_with(
    source: &Source,
    heads: &[Option<Head>],
    x: &Heading,
    first: usize,
    place: usize,
) -> Result<(), CheckFault>
    ensures { Finds (differing_by (source_view source.now)
        (Some (record {
          heading = heading_view x.now;
          head = head_at (heads_view heads.now) first;
        }))
        (stated_at (map heading_view source.now.headings) (heads_view heads.now) place)) result }
{
    match heading_in(source, place) {
        None => Ok(()),
        Some(y) => {
            let x_head = head_in(heads, first);
            let y_head = head_in(heads, place);
            differing(source, x, x_head, y, y_head)
        }
    }
}

/// A heading against another, by their places.
fn compare(
    source: &Source,
    heads: &[Option<Head>],
    first: usize,
    place: usize,
) -> Result<(), CheckFault>
    ensures { Finds (differing_by (source_view source.now)
        (stated_at (map heading_view source.now.headings) (heads_view heads.now) first)
        (stated_at (map heading_view source.now.headings) (heads_view heads.now) place)) result }
{
    match heading_in(source, first) {
        None => Ok(()),
        Some(x) => compare_with(source, heads, x, first, place),
    }
}

/// The heading at a place against the first one of its function, unless it is that.
#[tactic(auto, using(crate::proofs::TellLaws::itself))]
pub fn against(
    source: &Source,
    heads: &[Option<Head>],
    first: Option<u32>,
    place: usize,
) -> Result<(), CheckFault>
    ensures { Finds (place_faults (source_view source.now) (stated (source_view source.now)
        (map heading_view source.now.headings) (heads_view heads.now)) first place) result }
{
    match first {
        None => Ok(()),
        Some(first) => {
            if first as usize == place {
                return Ok(());
            }
            compare(source, heads, first as usize, place)
        }
    }
}
