ghost use Rattle.std.specs.Prelude.{◌≡◌, ◌∷◌, [], ◌++◌, ◌&&◌, not, nat_eq, List as ListOf, ℕ, map};
ghost use Rattle.std.specs.Prelude.{IfOk, OnOk};
ghost use Rattle.pawn_base.specs.Among.{is_among};
ghost use Rattle.pawn_tags.specs.Tags.{untagged};
ghost use Rattle.pawn_meaning.specs.View.{tag_view};
ghost use Rattle.types_rules.specs.Programs.{mentions, tags_from};
ghost use Rattle.names_sight.specs.MarkView.{mark_view, marks_view};
ghost use Rattle.check_declarations.specs.Mentioned.{mentions_by, tag_by};

use names_sight::Mark;
use pawn_base::{Bytes, List, Memory, Names};
use pawn_meaning::Tag;
use pawn_tags::TagTable;
use std::alloc::Global;

/// With the tag that a mark mentions.
#[tactic(auto, using(crate::proofs::TagLaws::added_is))]
fn add_mention(alloc: Global, names: &mut Names, mark: &Mark) -> Result<(), Memory>
    ensures { OnOk result ((name : ListOf ℕ) → is_among name names.new ≡
        mentions_by (mark_view mark.now) name (is_among name names.old)) }
{
    match mark {
        Mark::Opens | Mark::Closes | Mark::Uses(_) | Mark::Declares(_) => Ok(()),
        Mark::Mentions(tag) => {
            names.add(alloc, tag.as_slice())?;
            Ok(())
        }
    }
}

/// The tags that marks mention.
fn mentioned(alloc: Global, marks: &[Mark]) -> Result<Names, Memory>
    ensures { IfOk result (λ names. (name : ListOf ℕ) →
        is_among name names ≡ mentions (marks_view marks.now) name) }
{
    let mut names = Names::new(alloc);
    for i in 0..marks.len() {
        add_mention(alloc, &mut names, &marks[i])?;
    }
    Ok(names)
}

/// With a tag.
#[tactic(auto, using(crate::proofs::TagLaws::pushed_is))]
fn push_tag(alloc: Global, list: &mut List<Tag>, number: u32, name: &[u8]) -> Result<(), Memory>
    ensures { OnOk result (map tag_view list.new ≡
        map tag_view list.old ++ record { number = number; name = name.now } ∷ []) }
{
    let name = Bytes::from_slice(alloc, name)?;
    list.push(Tag { number, name })?;
    Ok(())
}

/// With the tag of a name, where it is spelled.
fn add_tag(
    alloc: Global,
    list: &mut List<Tag>,
    spelled: bool,
    number: u32,
    name: &[u8],
) -> Result<(), Memory>
    ensures { OnOk result (map tag_view list.new ≡
        map tag_view list.old ++ tag_by spelled number name.now) }
{
    match spelled {
        true => push_tag(alloc, list, number, name),
        false => Ok(()),
    }
}

/// Whether the name with a number is a tag that is spelled: `_` is none.
fn is_spelled(number: u32, names: &Names, name: &[u8]) -> bool
    ensures { result ≡ (not (nat_eq number untagged) && is_among name.now names.now) }
{
    number != 0 && names.contains(name)
}

/// The number of what stands at a place.
fn told(place: usize) -> Result<u32, Memory>
    ensures { IfOk result (λ number. number ≡ place) }
{
    match u32::try_from(place) {
        Ok(number) => Ok(number),
        Err(_) => Err(Memory),
    }
}

/// The tags of a program by number, from the marks of its source and the table of all tags: those
/// that are spelled (Language Guide, "Tag names").
///
/// # Errors
///
/// `Memory` for want of memory.
pub fn program_tags(alloc: Global, marks: &[Mark], tags: &TagTable) -> Result<List<Tag>, Memory>
    ensures { IfOk result (λ list. map tag_view list ≡
        tags_from (marks_view marks.now) 0 tags.now) }
{
    let names = mentioned(alloc, marks)?;
    let mut list = List::new(alloc);
    for place in 0..tags.len() {
        let number = told(place)?;
        let Some(name) = tags.name(number) else {
            unreachable!()
        };
        let spelled = is_spelled(number, &names, name);
        add_tag(alloc, &mut list, spelled, number, name)?;
    }
    Ok(list)
}
