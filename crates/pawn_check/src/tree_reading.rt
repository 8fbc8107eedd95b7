ghost use Rattle.std.specs.Prelude.{◌≡◌, map, IfOk};
ghost use Rattle.pawn_tree.specs.View.{tree_view};
ghost use Rattle.types_rules.specs.Sources as spec;
ghost use Rattle.check_nodes.specs.ContextView.{around_view};
ghost use Rattle.check_source.specs.HeadingView.{heading_view};
ghost use Rattle.check_source.specs.SourceView.{source_view};
ghost use Rattle.check_functions.specs.HeadsView.{heads_view};
ghost use Rattle.check_locals.specs.PointView.{point_view};
ghost use Rattle.pawn_check.specs.Reads.{IsRead};

use check_declarations::{read_source, source_tags};
use check_functions::{Firsts, begin, find_firsts, make_context};
use check_locals::Point;
use check_nodes::{Context, Head};
use check_source::Source;
use pawn_base::Memory;
use pawn_tree::Tree;
use std::alloc::Global;

/// What is known of a tree before its declarations are looked at, with the first heading of each
/// function.
#[derive(Drop)]
pub struct Reading<'a> {
    pub source: Source<'a>,
    pub firsts: Firsts,
}

/// A tree is read.
pub fn read<'a>(alloc: Global, tree: &'a Tree) -> Result<Reading<'a>, Memory>
    ensures { IfOk result (λ it. IsRead (tree_view tree.now) it) }
{
    let source = read_source(alloc, tree)?;
    let firsts = find_firsts(alloc, &source)?;
    Ok(Reading { source, firsts })
}

/// What is known around each expression of a tree, with these heads.
pub fn around(
    alloc: Global,
    tree: &Tree,
    reading: &Reading,
    heads: &[Option<Head>],
) -> Result<Context, Memory>
    requires { IsRead (tree_view tree.now) reading.now }
    ensures { IfOk result (λ cx. around_view cx ≡ spec.around_with
        (source_view reading.now.source) (spec.stated (source_view reading.now.source)
        (map heading_view reading.now.source.headings) (heads_view heads.now))) }
{
    let tags = source_tags(alloc, tree)?;
    make_context(alloc, tags, &reading.source, &reading.firsts, heads)
}

/// Before the first declaration of a tree.
pub fn start<'a>(alloc: Global, tree: &Tree, reading: &Reading<'a>) -> Result<Point<'a>, Memory>
    requires { IsRead (tree_view tree.now) reading.now }
    ensures { IfOk result (λ point. point_view point ≡
        spec.beginning (source_view reading.now.source)) }
{
    let scopes = begin(alloc, &reading.source, &reading.firsts)?;
    Ok(Point {
        scopes,
        objects: 0,
        slots: 0,
    })
}
