ghost use Rattle.std.specs.Prelude.{◌≡◌, ◌∷◌, List as ListOf, IfOk, OnOk};
ghost use Rattle.names_sight.specs.MarkView.{mark_view, marks_view};
ghost use Rattle.names_rules.specs.Around as spec;
ghost use Rattle.names_rules.specs.Mark as plain;

use names_sight::Mark;
use pawn_base::Memory;
use pawn_tags::TagTable;
use std::alloc::Global;

/// The tags with those of one mark more.
fn mention(alloc: Global, tags: &mut TagTable, mark: &Mark) -> Result<(), Memory>
    ensures { (marks : ListOf plain.Mark) → tags.old ≡ spec.tags_of marks →
        OnOk result (tags.new ≡ spec.tags_of (mark_view mark.now ∷ marks)) }
{
    match mark {
        Mark::Opens | Mark::Closes => Ok(()),
        Mark::Uses(_) => Ok(()),
        Mark::Declares(_) => Ok(()),
        Mark::Mentions(tag) => {
            if tags.len() >= u32::MAX as usize {
                return Err(Memory);
            }
            let _number = tags.mention(alloc, tag.as_slice())?;
            Ok(())
        }
    }
}

/// The tags in the order in which they are first mentioned, `_` and `bool` before all others
/// (Language Guide, "Tag names").
pub fn tags_of(alloc: Global, marks: &[Mark]) -> Result<TagTable, Memory>
    ensures { IfOk result (λ tags. tags ≡ spec.tags_of (marks_view marks.now)) }
{
    let mut tags = TagTable::new(alloc)?;
    for i in 0..marks.len() {
        mention(alloc, &mut tags, &marks[i])?;
    }
    Ok(tags)
}
