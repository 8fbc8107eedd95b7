ghost use Rattle.std.specs.Prelude.{◌≡◌, map, option_map, slice_get};
ghost use Rattle.check_nodes.specs.ContextView.{head_view};
ghost use Rattle.check_source.specs.HeadingView.{heading_view};
ghost use Rattle.check_functions.specs.HeadsView.{heads_view};
ghost use Rattle.check_functions.specs.Stated.{head_at};

use check_nodes::Head;
use check_source::{Heading, Source};

/// The heading at a place.
pub fn heading_in<'s, 'a>(source: &'s Source<'a>, place: usize) -> Option<&'s Heading<'a>>
    ensures { option_map (λ it. heading_view it.now) result ≡
        slice_get (map heading_view source.now.headings) place }
{
    heading_at(source.headings.as_slice(), place)
}

#[tactic(auto, using(crate::proofs::PlacedLaws::viewed_get))]
fn heading_at<'s, 'a>(headings: &'s [Heading<'a>], place: usize) -> Option<&'s Heading<'a>>
    ensures { option_map (λ it. heading_view it.now) result ≡
        slice_get (map heading_view headings.now) place }
{
    headings.get(place)
}

/// A head that may be absent.
fn held<'h>(head: &'h Option<Head>) -> Option<&'h Head>
    ensures { option_map (λ it. head_view it.now) result ≡ option_map head_view head.now }
{
    match head {
        None => None,
        Some(head) => Some(head),
    }
}

/// The typed head at a place, where there is one.
#[tactic(auto, using(crate::proofs::PlacedLaws::head_there, crate::proofs::PlacedLaws::head_past))]
pub fn head_in<'h>(heads: &'h [Option<Head>], place: usize) -> Option<&'h Head>
    ensures { option_map (λ it. head_view it.now) result ≡ head_at (heads_view heads.now) place }
{
    if place >= heads.len() {
        return None;
    }
    held(&heads[place])
}
