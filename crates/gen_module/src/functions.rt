ghost use Rattle.std.specs.Prelude.{◌≡◌, ◌*◌, length, map, IfOk};
ghost use Rattle.pawn_meaning.specs.View.{function_view};
ghost use Rattle.gen_laws.specs.FunctionCode.{function_items};
ghost use Rattle.gen_expr.specs.Built.{with_items};
ghost use Rattle.gen_laws.specs.FileCode.{functions_items, function_begin};
ghost use Rattle.gen_module.specs.Starts.{Finds};
ghost use Rattle.gen_module.specs.Source.{IsSource, program_of};

use super::bodies::single;
use super::routes::routed;
use super::source::Source;
use gen_expr::Builder;
use gen_expr::put::address;
use pawn_base::Memory;
use pawn_meaning::Function;

/// Functions one behind another, with the addresses at which they begin.
pub(crate) fn functions(
    all: &[Function],
    source: &Source<'_>,
    b: Builder,
) -> Result<(Builder, Vec<i32>), Memory>
    requires { IsSource source.now }
    ensures code { IfOk result (λ it. it.0 ≡ with_items (functions_items (program_of source.now)
        (4 * length b.code) (map function_view all.now)) b) }
    ensures entries { IfOk result (λ it. Finds (function_begin (program_of source.now)
        (4 * length b.code) (map function_view all.now)) it.1.items) }
{
    let mut entries = Vec::new(source.alloc);
    let mut grown = b;
    for one in all {
        let begin = address(&grown)?;
        entries.push(begin)?;
        grown = function(one, source, grown)?;
    }
    Ok((grown, entries))
}

/// A function. One without a route has one body.
fn function(function: &Function, source: &Source<'_>, b: Builder) -> Result<Builder, Memory>
    requires { IsSource source.now }
    ensures { IfOk result (λ r. r ≡ with_items (function_items (program_of source.now)
        (4 * length b.code) (function_view function.now)) b) }
{
    match &function.dispatch {
        Some(route) => routed(route, function, source, b),
        None => match function.bodies.as_slice() {
            [] => Ok(b),
            [one, ..] => single(one, function.params.as_slice(), source, b),
        },
    }
}
