ghost use Rattle.std.specs.Prelude.{◌≡◌, map, IfOk};
ghost use Rattle.pawn_tree.specs.View.{tree_view};
ghost use Rattle.names_rules.specs.Around as around;
ghost use Rattle.names_rules.specs.TreeMarks as marks;
ghost use Rattle.types_rules.specs.Sources as spec;
ghost use Rattle.check_source.specs.GroupsView.{groups_view};
ghost use Rattle.check_source.specs.WrittenView.{written_view};
ghost use Rattle.check_source.specs.SourceView.{source_view};
ghost use Rattle.check_functions.specs.Distinct.{IsDistinct};
ghost use Rattle.check_declarations.specs.SourceParts.{AreParts};

use check_source::{
    Source, Written, call_names, entry_fallback, group_bodies, make_headings, source_automata,
    written_bodies,
};
use names_sight::tree_marks;
use pawn_base::{List, Memory};
use pawn_names::tags_of;
use pawn_tags::TagTable;
use pawn_tree::Tree;
use std::alloc::Global;

/// The tags of a source in the order in which they are first mentioned.
///
/// # Errors
///
/// `Memory` for want of memory.
pub fn source_tags(alloc: Global, tree: &Tree) -> Result<TagTable, Memory>
    ensures { IfOk result (λ tags. tags ≡ around.tags_of (marks.tree_marks (tree_view tree.now))) }
{
    let marks = tree_marks(alloc, tree)?;
    let tags = tags_of(alloc, marks.as_slice())?;
    Ok(tags)
}

/// The parts of a source.
fn parts<'a>(
    alloc: Global,
    tree: &'a Tree,
    tags: TagTable,
    bodies: &List<Written<'a>>,
) -> Result<Source<'a>, Memory>
    ensures tags { IfOk result (λ source. source.tags ≡ tags) }
    ensures parts { IfOk result (λ source.
        AreParts (tree_view tree.now) (map written_view bodies.now) (source_view source)) }
{
    let bodies = bodies.as_slice();
    let fallback = entry_fallback(bodies);
    let groups = group_bodies(alloc, &tags, fallback, bodies)?;
    let automata = source_automata(alloc, &tags, fallback, &groups, bodies)?;
    let called = call_names(alloc, bodies)?;
    let headings = make_headings(alloc, tree)?;
    Ok(Source {
        tags,
        fallback,
        groups,
        headings,
        automata,
        called,
    })
}

/// What is known of a source; no two of its functions have one key.
///
/// # Errors
///
/// `Memory` for want of memory.
pub fn read_source<'a>(alloc: Global, tree: &'a Tree) -> Result<Source<'a>, Memory>
    ensures source { IfOk result (λ source. source_view source ≡
        spec.source_of (tree_view tree.now)) }
    ensures distinct { IfOk result (λ source. IsDistinct (groups_view source.groups)) }
{
    let tags = source_tags(alloc, tree)?;
    let bodies = written_bodies(alloc, tree)?;
    let source = parts(alloc, tree, tags, &bodies)?;
    Ok(source)
}
