ghost use Rattle.std.specs.Prelude.{◌≡◌, [], map, IfOk};
ghost use Rattle.pawn_tree.specs.View.{tree_view};
ghost use Rattle.names_rules.specs.TreeMarks as marks;
ghost use Rattle.pawn_meaning.specs.View.{object_view, program_view, public_view, tag_view};
ghost use Rattle.types_rules.specs.Groups as groups;
ghost use Rattle.types_rules.specs.Keys.{Named};
ghost use Rattle.types_rules.specs.Functions.{main_name};
ghost use Rattle.types_rules.specs.Programs as spec;
ghost use Rattle.types_rules.specs.Publics as plain_publics;
ghost use Rattle.types_rules.specs.Sources.{all_stated};
ghost use Rattle.check_source.specs.GroupsView.{groups_view};
ghost use Rattle.check_source.specs.HeadingView.{heading_view};
ghost use Rattle.check_source.specs.SourceView.{source_view};
ghost use Rattle.check_functions.specs.Own.{AreFirsts};
ghost use Rattle.check_declarations.specs.DoneView.{bodied_view};

use super::automata::automata_of;
use super::done_declarations::Bodied;
use super::function_table::functions_of;
use super::natives::natives_of;
use super::tags::program_tags;
use check_functions::Firsts;
use check_source::{Key, Source};
use names_sight::tree_marks;
use pawn_base::{List, Memory};
use pawn_meaning::{Object, Program, Public, Tag};
use pawn_tags::TagTable;
use pawn_tree::Tree;
use std::alloc::Global;

/// The tags that a tree mentions, by number.
fn tags_of(alloc: Global, tree: &Tree, tags: &TagTable) -> Result<List<Tag>, Memory>
    ensures { IfOk result (λ list. map tag_view list ≡
        spec.tags_from (marks.tree_marks (tree_view tree.now)) 0 tags.now) }
{
    let marks = tree_marks(alloc, tree)?;
    let tags = program_tags(alloc, marks.as_slice(), tags)?;
    Ok(tags)
}

/// The number of `main`.
fn entry_of(source: &Source) -> Option<u32>
    ensures { result ≡ groups.number_of (groups_view source.now.groups) (Named main_name) }
{
    source.groups.number_of(Key::Named(b"main"))
}

/// The program of a source whose declarations stand: with the room of heap and stack in cells, the
/// public functions in the order of their names, and what the declarations made, in token order.
///
/// # Errors
///
/// `Memory` for want of memory.
pub fn program_of(
    alloc: Global,
    source: &Source,
    firsts: &Firsts,
    tree: &Tree,
    dynamic: i32,
    publics: List<Public>,
    objects: List<Object>,
    bodies: Vec<Bodied>,
) -> Result<Program, Memory>
    requires firsts { AreFirsts source.now.tags source.now.fallback.now
        (groups_view source.now.groups) (map heading_view source.now.headings)
        firsts.now.own.items firsts.now.entry }
    requires publics { map public_view publics ≡ plain_publics.publics (source_view source.now) }
    ensures { IfOk result (λ it. program_view it ≡ spec.program_of (source_view source.now)
        (all_stated (source_view source.now) (tree_view tree.now))
        (marks.tree_marks (tree_view tree.now)) dynamic
        (record {
          objects = map object_view objects;
          bodies = map bodied_view bodies.items;
          warned = [];
        })) }
{
    let functions = functions_of(alloc, source, firsts, bodies)?;
    let natives = natives_of(alloc, source)?;
    let automata = automata_of(alloc, &source.automata)?;
    let tags = tags_of(alloc, tree, &source.tags)?;
    let entry = entry_of(source);
    Ok(Program {
        objects,
        functions,
        natives,
        automata,
        tags,
        publics,
        entry,
        dynamic,
    })
}
