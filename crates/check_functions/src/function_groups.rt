ghost use Rattle.std.specs.Prelude.{map, flat_map};
ghost use Rattle.types_rules.specs.Functions as functions;
ghost use Rattle.types_rules.specs.Sources.{stated};
ghost use Rattle.check_source.specs.GroupsView.{groups_view};
ghost use Rattle.check_source.specs.HeadingView.{heading_view};
ghost use Rattle.check_source.specs.SourceView.{source_view};
ghost use Rattle.check_functions.specs.Finds.{Finds};
ghost use Rattle.check_functions.specs.HeadsView.{heads_view};
ghost use Rattle.check_functions.specs.Own.{AreFirsts};

use super::firsts::Firsts;
use super::group::all_groups;
use super::heads::head_faults;
use check_nodes::Head;
use check_source::Source;
use pawn_verdict::CheckFault;
use std::alloc::Global;

/// What the bodies of each function have to keep together: their classifiers (42 to 44, 51), that
/// `main` and entry functions have no parameters, and that their heads are equal (65).
///
/// # Errors
///
/// One of these faults, or `Memory`.
pub fn group_faults(
    alloc: Global,
    source: &Source,
    firsts: &Firsts,
    heads: &[Option<Head>],
) -> Result<(), CheckFault>
    requires { AreFirsts source.now.tags source.now.fallback.now
        (groups_view source.now.groups) (map heading_view source.now.headings)
        firsts.now.own.items firsts.now.entry }
    ensures { Finds (flat_map (functions.group_faults (source_view source.now)
        (stated (source_view source.now) (map heading_view source.now.headings)
        (heads_view heads.now))) (groups_view source.now.groups)) result }
{
    all_groups(alloc, source.groups.as_slice())?;
    head_faults(source, firsts, heads)
}
