ghost use Rattle.std.specs.Prelude.{◌≡◌, ℤ, IfOk};
ghost use Rattle.pawn_tree.specs.View.{tree_view};
ghost use Rattle.names_rules.specs.Verdict.{Stands};
ghost use Rattle.types_rules.specs.TypedTrees.{Checked as PlainChecked, typed};
ghost use Rattle.pawn_check.specs.FunctionNames as spec;
ghost use Rattle.pawn_check.specs.FunctionNames.{AreNames};

use check_declarations::{names_by_number, read_source};
use pawn_base::{Bytes, List, Memory};
use pawn_tree::Tree;
use std::alloc::Global;

/// The names of the functions of a tree by number, as they are written; that of an operator is
/// `operator` followed by its sign (Language Guide, "Functions", "User-defined operators"). Several
/// entry functions have the name `entry`, and several operators may have one name. The numbers are
/// those of the program that `check` gives, for any room.
///
/// # Errors
///
/// `Memory` for want of memory.
pub fn function_names(alloc: Global, tree: &Tree) -> Result<List<Bytes>, Memory>
    ensures names { IfOk result (λ list. list ≡ spec.function_names (tree_view tree.now)) }
    ensures program { IfOk result (λ list. (dynamic : ℤ) (it : PlainChecked)
        → typed (tree_view tree.now) dynamic ≡ Stands it → AreNames it.program list) }
{
    let source = read_source(alloc, tree)?;
    names_by_number(alloc, &source)
}
