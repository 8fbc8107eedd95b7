ghost use Rattle.std.specs.Prelude.{◌≡◌, IfOk};
ghost use Rattle.pawn_tree.specs.View.{tree_view};
ghost use Rattle.types_rules.specs.Sources.{around_of};
ghost use Rattle.pawn_verdict.specs.Answers.{Answers};
ghost use Rattle.check_nodes.specs.PartAnswers.{part_of};
ghost use Rattle.check_nodes.specs.declared.fault.PartFault.TheVariants.{Fallen};
ghost use Rattle.check_nodes.specs.ContextView.{around_view};
ghost use Rattle.check_source.specs.SourceView.{source_view};
ghost use Rattle.check_functions.specs.HeadsView.{heads_view};
ghost use Rattle.check_declarations.specs.DoneView.{done_view};
ghost use Rattle.pawn_check.specs.TreeParts as spec;
ghost use Rattle.pawn_check.specs.Reads.{IsRead};

use super::tree_reading::{Reading, around, start};
use check_declarations::{Done, Known, PartFault, declarations, heads};
use check_nodes::{Context, Head};
use pawn_base::{List, Memory};
use pawn_tree::Tree;
use pawn_verdict::{CheckFault, broken};
use std::alloc::Global;
use types_laws::faults_are_given;

/// All heads of a tree in order, each by the path where it stands.
pub fn all_heads<'a>(
    alloc: Global,
    tree: &'a Tree,
    reading: &Reading<'a>,
) -> Result<List<Option<Head>>, Memory>
    requires { IsRead (tree_view tree.now) reading.now }
    ensures { IfOk result (λ all. heads_view all ≡
        spec.heads (source_view reading.now.source) (tree_view tree.now)) }
{
    let cx = around(alloc, tree, reading, &[])?;
    let mut point = start(alloc, tree, reading)?;
    heads(alloc, &cx, &mut point, tree.decls.as_slice())
}

/// The fault of a part that doesn't only fall.
fn fault_of(fault: PartFault) -> CheckFault
    requires { fault ≡ Fallen → ⊥ }
    ensures { part_of result ≡ fault }
{
    match fault {
        PartFault::Source { kind, place } => broken(kind, place),
        PartFault::Fallen => unreachable!(),
        PartFault::Memory => CheckFault::Memory,
    }
}

/// What the declarations of a tree make, with what is known around them.
fn declared_around<'a>(
    alloc: Global,
    tree: &'a Tree,
    reading: &'a Reading<'a>,
    cx: &'a Context,
) -> Result<Done, CheckFault>
    requires read { IsRead (tree_view tree.now) reading.now }
    requires cx { around_view cx.now ≡
        around_of (source_view reading.now.source) (tree_view tree.now) }
    ensures { Answers done_view (spec.declared (source_view reading.now.source)
        (tree_view tree.now)) result }
{
    faults_are_given();
    let mut point = start(alloc, tree, reading)?;
    let known = Known {
        alloc,
        cx,
        automata: &reading.source.automata,
        groups: &reading.source.groups,
        fallback: reading.source.fallback,
    };
    match declarations(&known, &mut point, tree.decls.as_slice()) {
        Ok(done) => Ok(done),
        Err(fault) => Err(fault_of(fault)),
    }
}

/// What the declarations of a tree make, with its heads.
///
/// # Errors
///
/// What breaks a rule in one of them, or `Memory`. Declarations that don't stand have a fault.
pub fn all_declared(
    alloc: Global,
    tree: &Tree,
    reading: &Reading,
    heads: &[Option<Head>],
) -> Result<Done, CheckFault>
    requires read { IsRead (tree_view tree.now) reading.now }
    requires heads { heads_view heads.now ≡
        spec.heads (source_view reading.now.source) (tree_view tree.now) }
    ensures { Answers done_view (spec.declared (source_view reading.now.source)
        (tree_view tree.now)) result }
{
    let cx = around(alloc, tree, reading, heads)?;
    declared_around(alloc, tree, reading, &cx)
}
