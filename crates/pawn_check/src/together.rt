ghost use Rattle.std.specs.Prelude.{◌≡◌, map};
ghost use Rattle.pawn_tree.specs.View.{tree_view};
ghost use Rattle.types_rules.specs.TypedTrees as whole;
ghost use Rattle.pawn_verdict.specs.Answers.{Answers};
ghost use Rattle.check_declarations.specs.PassedView.{passed_view};
ghost use Rattle.check_source.specs.SourceView.{source_view};
ghost use Rattle.check_functions.specs.Finds.{Finds};
ghost use Rattle.check_functions.specs.HeadsView.{heads_view};
ghost use Rattle.check_declarations.specs.DoneView.{bodied_view};
ghost use Rattle.pawn_check.specs.TreeParts as spec;
ghost use Rattle.pawn_check.specs.Reads.{IsRead};

use super::distinct_names::names_stand;
use super::tree_reading::Reading;
use check_declarations::{Bodied, returns_stand};
use check_functions::group_faults;
use check_nodes::Head;
use pawn_tree::Tree;
use pawn_verdict::CheckFault;
use std::alloc::Global;

/// Declarations that stand: what was read of their tree, their heads and their bodies.
#[derive(Clone, Copy)]
struct Together<'t, 'a> {
    alloc: Global,
    tree: &'t Tree,
    reading: &'t Reading<'a>,
    heads: &'t [Option<Head>],
    bodies: &'t [Bodied],
}

impl<'t, 'a> Together<'t, 'a> {
    /// What the bodies of each function have to keep together, with the heads of the tree.
    fn functions_stand(&self) -> Result<(), CheckFault>
        requires read { IsRead (tree_view self.now.tree.now) self.now.reading.now }
        requires heads { heads_view self.now.heads.now ≡
            spec.heads (source_view self.now.reading.now.source) (tree_view self.now.tree.now) }
        ensures { Finds (spec.function_faults (source_view self.now.reading.now.source)
            (tree_view self.now.tree.now)) result }
    {
        group_faults(
            self.alloc,
            &self.reading.source,
            &self.reading.firsts,
            self.heads,
        )
    }

    /// What is wrong with them together.
    #[tactic(auto, using(check_functions::proofs::FindsLaws::finds))]
    fn find(&self) -> Result<(), CheckFault>
        requires read { IsRead (tree_view self.now.tree.now) self.now.reading.now }
        requires heads { heads_view self.now.heads.now ≡
            spec.heads (source_view self.now.reading.now.source) (tree_view self.now.tree.now) }
        ensures { Finds (spec.together (source_view self.now.reading.now.source)
            (tree_view self.now.tree.now) (map bodied_view self.now.bodies.now)) result }
    {
        let source = &self.reading.source;
        names_stand(self.alloc, &source.tags, self.tree)?;
        self.functions_stand()?;
        returns_stand(self.alloc, self.bodies, source.groups.as_slice().len())
    }
}

/// Names, functions and returns of declarations that stand, together.
///
/// # Errors
///
/// A name that stands twice (51), a function whose bodies don't stand together (42 to 44, 51, 65),
/// or that returns with and without a value (64); or `Memory`.
#[tactic(auto, using(crate::proofs::TogetherLaws::finds_unless))]
pub fn stand_together(
    alloc: Global,
    tree: &Tree,
    reading: &Reading,
    heads: &[Option<Head>],
    bodies: &[Bodied],
) -> Result<(), CheckFault>
    requires read { IsRead (tree_view tree.now) reading.now }
    requires heads { heads_view heads.now ≡
        spec.heads (source_view reading.now.source) (tree_view tree.now) }
    ensures { Answers passed_view (whole.unless (spec.together (source_view reading.now.source)
        (tree_view tree.now) (map bodied_view bodies.now))) result }
{
    let it = Together {
        alloc,
        tree,
        reading,
        heads,
        bodies,
    };
    it.find()
}
