ghost use Rattle.pawn_tree.specs.View.{tree_view};
ghost use Rattle.types_rules.specs.TypedTrees.{typed};
ghost use Rattle.pawn_verdict.specs.Answers.{Answers};
ghost use Rattle.check_source.specs.SourceView.{source_view};
ghost use Rattle.pawn_check.specs.TreeParts.{typed_by};
ghost use Rattle.pawn_check.specs.Reads.{IsRead};
ghost use Rattle.pawn_check.specs.View.{checked_view};

use super::checked::Checked;
use super::declared::{all_declared, all_heads};
use super::source_verdict::{finish, source_stands};
use super::together::stand_together;
use super::tree_reading::{Reading, read};
use check_declarations::publics;
use pawn_tree::Tree;
use pawn_verdict::CheckFault;
use std::alloc::Global;

/// The program of a tree that was read, with its warnings.
#[tactic(auto, using(pawn_verdict::proofs::VerdictLaws::verdicts))]
fn check_read(
    alloc: Global,
    tree: &Tree,
    reading: &Reading,
    dynamic: i32,
) -> Result<Checked, CheckFault>
    requires { IsRead (tree_view tree.now) reading.now }
    ensures { Answers checked_view (typed_by (source_view reading.now.source)
        (tree_view tree.now) dynamic) result }
{
    let publics = publics(alloc, &reading.source)?;
    source_stands(dynamic, &reading.source, &publics)?;
    let heads = all_heads(alloc, tree, reading)?;
    let done = all_declared(alloc, tree, reading, heads.as_slice())?;
    stand_together(
        alloc,
        tree,
        reading,
        heads.as_slice(),
        done.bodies.as_slice(),
    )?;
    finish(alloc, tree, reading, dynamic, publics, done)
}

/// The program of a tree with its warnings, for a room of so many cells for heap and stack.
///
/// # Errors
///
/// `Source` with one of the rules that are broken, from 40 to 71, and the place of the node that
/// breaks it, exactly where there is no program. `Memory` for want of memory.
pub fn check(alloc: Global, tree: &Tree, dynamic: i32) -> Result<Checked, CheckFault>
    ensures { Answers checked_view (typed (tree_view tree.now) dynamic) result }
{
    let reading = read(alloc, tree)?;
    check_read(alloc, tree, &reading, dynamic)
}
