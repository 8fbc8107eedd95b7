ghost use Rattle.std.specs.Prelude.{◌≡◌, [], ◌∷◌, ◌++◌, map, codes, IfOk, OnOk};
ghost use Rattle.pawn_tree.specs.View.{decl_view, tree_view};
ghost use Rattle.types_rules.specs.Headings as spec;
ghost use Rattle.check_source.specs.KeyView.{key_view};
ghost use Rattle.check_source.specs.HeadingView.{heading_view};

use super::key::{Key, key_of};
use super::states::states_of;
use pawn_base::{List, Memory};
use pawn_tags::TagTable;
use pawn_tree::{At, Decl, Head, StateName, Tree};
use std::alloc::Global;

/// What stands behind a head.
#[derive(Clone, Copy, Debug, PartialEq, Eq)]
pub enum Role {
    Native,
    Forward,
    Body,
}

/// A head with its first token, the classifier behind it, and whether it says that it is public.
#[derive(Clone, Copy)]
pub struct Heading<'a> {
    pub at: At,
    pub role: Role,
    pub is_public: bool,
    pub head: &'a Head,
    pub states: Option<&'a [StateName]>,
}

/// The head of a declaration, where it has one.
#[tactic(auto, using(crate::proofs::GatherLaws::map_push))]
fn add_heading<'a>(list: &mut List<Heading<'a>>, decl: &'a Decl) -> Result<(), Memory>
    ensures { OnOk result (map heading_view list.new ≡
        map heading_view list.old ++ spec.headings (decl_view decl.now ∷ [])) }
{
    match decl {
        Decl::Variables(..) | Decl::Constant(..) | Decl::Enum(..) => Ok(()),
        Decl::Native(at, head) => {
            list.push(Heading {
                at: *at,
                role: Role::Native,
                is_public: false,
                head,
                states: None,
            })?;
            Ok(())
        }
        Decl::Forward(at, is_public, head) => {
            list.push(Heading {
                at: *at,
                role: Role::Forward,
                is_public: *is_public,
                head,
                states: None,
            })?;
            Ok(())
        }
        Decl::Function(at, it) => {
            list.push(Heading {
                at: *at,
                role: Role::Body,
                is_public: it.is_public,
                head: &it.head,
                states: states_of(it),
            })?;
            Ok(())
        }
    }
}

/// The heads of a source in order: those of natives, forwards and bodies.
///
/// # Errors
///
/// `Memory` for want of memory.
pub fn make_headings<'a>(alloc: Global, tree: &'a Tree) -> Result<List<Heading<'a>>, Memory>
    ensures { IfOk result (λ list. map heading_view list ≡ spec.headings (tree_view tree.now)) }
{
    let items = tree.decls.as_slice();
    let mut list = List::new(alloc);
    for i in 0..items.len() {
        add_heading(&mut list, &items[i])?;
    }
    Ok(list)
}

/// The key of a heading.
pub fn heading_key<'a>(tags: &TagTable, fallback: &'a [u8], it: &Heading<'a>) -> Key<'a>
    ensures { key_view result ≡ spec.heading_key tags.now fallback.now (heading_view it.now) }
{
    key_of(tags, fallback, it.head, it.states)
}
