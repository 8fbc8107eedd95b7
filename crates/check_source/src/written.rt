ghost use Rattle.std.specs.Prelude.{◌≡◌, [], ◌∷◌, ◌++◌, map, IfOk, OnOk};
ghost use Rattle.pawn_tree.specs.View.{decl_view, tree_view};
ghost use Rattle.types_rules.specs.Groups as spec;
ghost use Rattle.check_source.specs.WrittenView.{written_view};

use pawn_base::{List, Memory};
use pawn_tree::{At, Decl, Function, Tree};
use std::alloc::Global;

/// A function's body as it is written, with its first token.
#[derive(Clone, Copy)]
pub struct Written<'a> {
    pub at: At,
    pub function: &'a Function,
}

/// The body of a declaration, where it is one.
#[tactic(auto, using(crate::proofs::GatherLaws::map_push))]
fn add_written<'a>(list: &mut List<Written<'a>>, decl: &'a Decl) -> Result<(), Memory>
    ensures { OnOk result (map written_view list.new ≡
        map written_view list.old ++ spec.written (decl_view decl.now ∷ [])) }
{
    match decl {
        Decl::Variables(..) | Decl::Constant(..) | Decl::Enum(..) => Ok(()),
        Decl::Native(..) | Decl::Forward(..) => Ok(()),
        Decl::Function(at, function) => {
            list.push(Written { at: *at, function })?;
            Ok(())
        }
    }
}

/// The bodies of a source, in order.
///
/// # Errors
///
/// `Memory` for want of memory.
pub fn written_bodies<'a>(alloc: Global, tree: &'a Tree) -> Result<List<Written<'a>>, Memory>
    ensures { IfOk result (λ list. map written_view list ≡ spec.written (tree_view tree.now)) }
{
    let items = tree.decls.as_slice();
    let mut list = List::new(alloc);
    for i in 0..items.len() {
        add_written(&mut list, &items[i])?;
    }
    Ok(list)
}
