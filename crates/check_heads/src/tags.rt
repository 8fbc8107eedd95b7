ghost use Rattle.std.specs.Prelude.{◌≡◌, map, IfOk};
ghost use Rattle.pawn_tree.specs.declared.name.Name.{Name as Held};
ghost use Rattle.types_rules.specs.Around.{first_tag, tag_number as number_in};
ghost use Rattle.types_rules.specs.Params as spec;
ghost use Rattle.check_nodes.specs.ContextView.{around_view};

use check_nodes::{Context, UNTAGGED, tag_number};
use pawn_base::{List, Memory};
use pawn_tree::Name;
use std::alloc::Global;

/// The numbers of tags, in their order.
fn numbers_of(alloc: Global, cx: &Context, tags: &[Name]) -> Result<List<u32>, Memory>
    ensures { IfOk result (λ all. all
        ≡ map (λ (it : Held). number_in (around_view cx.now) it.bytes) tags.now) }
{
    let mut all = List::new(alloc);
    for tag in tags {
        all.push(tag_number(cx, tag.bytes.as_slice()))?;
    }
    Ok(all)
}

/// The numbers of a parameter's tags; without one it is that of `_`.
#[tactic(auto, using(crate::proofs::TagLaws::no_tag, crate::proofs::TagLaws::some_tags))]
pub fn tag_numbers(alloc: Global, cx: &Context, tags: &[Name]) -> Result<List<u32>, Memory>
    ensures { IfOk result (λ all. all ≡ spec.tag_numbers (around_view cx.now) tags.now) }
{
    if tags.is_empty() {
        let mut all = List::new(alloc);
        all.push(UNTAGGED)?;
        return Ok(all);
    }
    numbers_of(alloc, cx, tags)
}

/// A parameter's own tag, the first of its tags.
pub fn own_tag(cx: &Context, tags: &[Name]) -> u32
    ensures { result ≡ first_tag (spec.tag_numbers (around_view cx.now) tags.now) }
{
    match tags.first() {
        None => UNTAGGED,
        Some(tag) => tag_number(cx, tag.bytes.as_slice()),
    }
}
