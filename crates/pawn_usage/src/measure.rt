ghost use Rattle.std.specs.Prelude.{◌≡◌, IfOk};
ghost use Rattle.pawn_meaning.specs.View.{program_view};
ghost use Rattle.pawn_usage.specs.Chains as chains;
ghost use Rattle.pawn_usage.specs.IsGraph.{IsGraph, plain};
ghost use Rattle.pawn_usage.specs.IsUsage.{HasStart, IsUsage};
ghost use Rattle.pawn_usage.specs.Marks.{IsExplored};

use super::answer::Usage;
use super::expressions::add_perhaps;
use super::graph::Graph;
use super::search::Search;
use pawn_base::{List, Memory};
use pawn_meaning::Program;
use std::alloc::Global;

/// How much stack a program with `main` or a public function needs: the cells of its greatest chain
/// of calls with that chain, where none is recursive, and a recursive one else. It goes once over
/// each function.
///
/// # Errors
///
/// `Memory` for want of memory, or where there are more than 2^32 functions or a need doesn't fit
/// 64 bits.
pub fn usage(alloc: Global, program: &Program) -> Result<Usage, Memory>
    requires { HasStart (program_view program.now) }
    ensures { IfOk result (IsUsage (program_view program.now)) }
{
    let graph = Graph::new(alloc, program);
    let starts = starts(alloc, program);
    match (graph, starts) {
        (Ok(graph), Ok(starts)) => usage_from(alloc, &graph, starts.as_slice()),
        _ => Err(Memory),
    }
}

/// The functions with which chains begin.
fn starts(alloc: Global, program: &Program) -> Result<List<u32>, Memory>
    ensures { IfOk result (λ starts. starts ≡ chains.starts (program_view program.now)) }
{
    let mut starts = List::new(alloc);
    let entry = add_perhaps(program.entry, &mut starts);
    entry?;
    let publics = program.publics.as_slice();
    for i in 0..publics.len() {
        starts.push(publics[i].function)?;
    }
    Ok(starts)
}

/// So from some functions on.
fn usage_from(alloc: Global, graph: &Graph, starts: &[u32]) -> Result<Usage, Memory>
    requires graph { IsGraph graph.now }
    requires starts { starts.now ≡ chains.starts (plain graph.now) }
    requires start { HasStart (plain graph.now) }
    ensures { IfOk result (IsUsage (plain graph.now)) }
{
    let mut search = Search::new(alloc, graph)?;
    match search.explore(graph, starts) {
        Err(Memory) => Err(Memory),
        Ok(true) => Ok(Usage::Recursive {
            chain: search.into_path(),
        }),
        Ok(false) => bound(alloc, graph, &search, starts),
    }
}

/// The bound, where no path came back to one of its functions.
fn bound(alloc: Global, graph: &Graph, search: &Search, starts: &[u32]) -> Result<Usage, Memory>
    requires graph { IsGraph graph.now }
    requires starts { starts.now ≡ chains.starts (plain graph.now) }
    requires start { HasStart (plain graph.now) }
    requires explored { IsExplored (plain graph.now) search.now }
    ensures { IfOk result (IsUsage (plain graph.now)) }
{
    let greatest = search.greatest(starts);
    let chain = search.chain(alloc, graph, greatest)?;
    Ok(Usage::Bound {
        cells: search.cells(greatest),
        chain,
    })
}
