ghost use Rattle.std.specs.Prelude.{◌≡◌, ◌||◌, ◌&&◌, ◌++◌, map, slice_get, Some, IfOk, OnOk};
ghost use Rattle.pawn_meaning.specs.View.{public_view};
ghost use Rattle.types_rules.specs.Headings.{is_enters};
ghost use Rattle.types_rules.specs.Publics as spec;
ghost use Rattle.types_rules.specs.TypedTrees as whole;
ghost use Rattle.check_source.specs.KeyView.{key_view};
ghost use Rattle.check_source.specs.GroupsView.{group_view, groups_view};
ghost use Rattle.check_source.specs.HeadingView.{heading_view};
ghost use Rattle.check_source.specs.SourceView.{source_view};
ghost use Rattle.check_functions.specs.Own.{number_in};
ghost use Rattle.check_declarations.specs.Marked.{AreMarked, flag_at, public_by};

use super::group_names::{begins_with_at, group_name};
use super::public_marks::{Marks, find_marks};
use super::sorting::sort_publics;
use check_source::{Group, Key, Source};
use pawn_base::{Bytes, List, Memory};
use pawn_meaning::Public;
use std::alloc::Global;

/// A function behind others, if it is public.
fn push_if(
    publics: &mut Vec<Public>,
    is_public: bool,
    name: Bytes,
    number: usize,
) -> Result<(), Memory>
    ensures { OnOk result (map public_view publics.new.items ≡
        map public_view publics.old.items ++ public_by is_public name number) }
{
    if is_public {
        let Ok(function) = u32::try_from(number) else {
            return Err(Memory);
        };
        publics.push(Public { name, function })?;
    }
    Ok(())
}

/// Whether a function is public, by its headings and by its name.
fn is_public(source: &Source, marks: &Marks, key: Key, name: &Bytes) -> bool
    ensures { result ≡ (flag_at marks.now.flags.items
        (number_in (groups_view source.now.groups) (Some (key_view key.entry)))
        || (is_enters (key_view key.entry) && marks.now.entry)) || spec.begins_with_at name.now }
{
    if marks.says_public(source, key) {
        true
    } else {
        begins_with_at(name.as_slice())
    }
}

/// A function with a number, if it is public.
fn add_public(
    alloc: Global,
    source: &Source,
    marks: &Marks,
    publics: &mut Vec<Public>,
    group: &Group,
    number: usize,
) -> Result<(), Memory>
    requires marked { AreMarked source.now.tags source.now.fallback.now
        (groups_view source.now.groups) (map heading_view source.now.headings)
        marks.now.flags.items marks.now.entry }
    requires here { slice_get (groups_view source.now.groups) number ≡
        Some (group_view group.now) }
    ensures { OnOk result (map public_view publics.new.items ≡ map public_view publics.old.items
        ++ public_by (spec.is_public (source_view source.now) (group_view group.now))
        (spec.group_name (group_view group.now).bodies) number) }
{
    let name = group_name(alloc, &group.bodies)?;
    let shown = is_public(source, marks, group.key, &name);
    push_if(publics, shown, name, number)?;
    Ok(())
}

/// The public functions of a source by their numbers.
fn numbered(alloc: Global, source: &Source, marks: &Marks) -> Result<Vec<Public>, Memory>
    requires { AreMarked source.now.tags source.now.fallback.now
        (groups_view source.now.groups) (map heading_view source.now.headings)
        marks.now.flags.items marks.now.entry }
    ensures { IfOk result (λ publics. map public_view publics.items ≡
        spec.publics_from (source_view source.now) 0 (groups_view source.now.groups)) }
{
    let groups = source.groups.as_slice();
    let mut publics = Vec::new(alloc);
    for i in 0..groups.len() {
        add_public(alloc, source, marks, &mut publics, &groups[i], i)?;
    }
    Ok(publics)
}

/// The public functions of a source in the order of their names (Language Guide, "Functions", on
/// public functions): those that say so in a forward or a body, and those whose names begin with
/// `@`.
///
/// # Errors
///
/// `Memory` for want of memory, or where there are 2^32 functions.
pub fn publics(alloc: Global, source: &Source) -> Result<List<Public>, Memory>
    ensures { IfOk result (λ list. map public_view list ≡ spec.publics (source_view source.now)) }
{
    let marks = find_marks(alloc, source)?;
    let publics = numbered(alloc, source, &marks)?;
    sort_publics(publics)
}

/// Whether there is `main` or a public function, so that there is something to begin with.
pub fn has_entry(source: &Source, publics: &List<Public>) -> bool
    ensures { result ≡ whole.has_main (source_view source.now)
        || whole.has_some (map public_view publics.now) }
{
    let main: &[u8] = b"main";
    let has_main = source.groups.number_of(Key::Named(main)).is_some();
    has_main || has_some(publics.as_slice())
}

fn has_some(publics: &[Public]) -> bool
    ensures { result ≡ whole.has_some (map public_view publics.now) }
{
    match publics {
        [] => false,
        [_, ..] => true,
    }
}
