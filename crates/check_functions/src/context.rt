ghost use Rattle.std.specs.Prelude.{◌≡◌, map, IfOk};
ghost use Rattle.types_rules.specs.Sources as spec;
ghost use Rattle.check_nodes.specs.ContextView.{around_view};
ghost use Rattle.check_source.specs.GroupsView.{groups_view};
ghost use Rattle.check_source.specs.HeadingView.{heading_view};
ghost use Rattle.check_source.specs.SourceView.{source_view};
ghost use Rattle.check_functions.specs.Distinct.{IsDistinct};
ghost use Rattle.check_functions.specs.HeadsView.{heads_view};
ghost use Rattle.check_functions.specs.Own.{AreFirsts};

use super::callables::{functions, natives};
use super::firsts::Firsts;
use super::operators::user_operators;
use check_nodes::{Context, Head};
use check_source::Source;
use pawn_base::Memory;
use pawn_tags::TagTable;
use std::alloc::Global;

/// What is known around each expression of a source, with these heads in the order of its headings;
/// with none before heads are known.
///
/// # Errors
///
/// `Memory` for want of memory.
pub fn make_context(
    alloc: Global,
    tags: TagTable,
    source: &Source,
    firsts: &Firsts,
    heads: &[Option<Head>],
) -> Result<Context, Memory>
    requires tags { tags ≡ source.now.tags }
    requires firsts { AreFirsts source.now.tags source.now.fallback.now
        (groups_view source.now.groups) (map heading_view source.now.headings)
        firsts.now.own.items firsts.now.entry }
    requires distinct { IsDistinct (groups_view source.now.groups) }
    ensures { IfOk result (λ cx. around_view cx ≡ spec.around_with (source_view source.now)
        (spec.stated (source_view source.now) (map heading_view source.now.headings)
        (heads_view heads.now))) }
{
    let operators = user_operators(alloc, source)?;
    let functions = functions(alloc, source, firsts, heads)?;
    let natives = natives(alloc, source, heads)?;
    Ok(Context {
        tags,
        operators,
        functions,
        natives,
    })
}
