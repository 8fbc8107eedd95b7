ghost use Rattle.std.specs.Prelude.{◌≡◌};
ghost use Rattle.pawn_tree.specs.View.{tree_view};
ghost use Rattle.names_rules.specs.FileNames.{file_names as plain_names, twice_faults};
ghost use Rattle.check_functions.specs.Finds.{Finds};

use names_sight::file_names;
use pawn_tags::TagTable;
use pawn_tree::Tree;
use pawn_verdict::CheckFault;
use std::alloc::Global;

/// No name is declared twice outside all functions, but by forwards and bodies of one function.
///
/// # Errors
///
/// 51 for such a name, or `Memory`.
#[tactic(auto, using(crate::proofs::NameFaultLaws::name_faults))]
pub fn names_stand(alloc: Global, tags: &TagTable, tree: &Tree) -> Result<(), CheckFault>
    ensures { Finds (twice_faults (plain_names (tree_view tree.now))) result }
{
    let _names = file_names(alloc, tags, tree)?;
    Ok(())
}
