ghost use Rattle.std.specs.Prelude.{◌≡◌, ◌<◌, map, length, slice_get, Some};
ghost use Rattle.pawn_meaning.specs.Capped.{capped};
ghost use Rattle.pawn_meaning.specs.Need as spec;
ghost use Rattle.pawn_meaning.specs.View.{body_view, function_view, program_view};

use super::locals::locals;
use super::program::{Body, Function, Program};
use super::stmt_load::stmt_load;
use pawn_base::List;

/// The cells that one call of the function with this number keeps on the stack and the heap at
/// most; the greatest `u64` where there are more. It takes no memory, and is one walk over the
/// function.
pub fn need(program: &Program, function: u32) -> u64
    requires { function < length program.now.functions }
    ensures { slice_get (map (λ it. capped (spec.need it)) (program_view program.now).functions)
        function ≡ Some result }
{
    function_need(&program.functions.as_slice()[function as usize])
}

/// Of a function: its parameters, three cells, its locals, and what its expressions keep.
fn function_need(function: &Function) -> u64
    ensures { result ≡ capped (spec.need (function_view function.now)) }
{
    let params = function.params.len() as u64;
    let locals = greatest_locals(&function.bodies);
    let load = greatest_load(&function.bodies);
    params
        .saturating_add(3)
        .saturating_add(locals)
        .saturating_add(load)
}

/// The greatest sum of local cells in a body.
fn greatest_locals(bodies: &List<Body>) -> u64
    ensures { result ≡ capped (spec.greatest_locals (map body_view bodies.now)) }
{
    let items = bodies.as_slice();
    let mut greatest = 0;
    for i in 0..items.len() {
        greatest = greatest.max(locals(&items[i].stmt, items[i].slots.as_slice()));
    }
    greatest
}

/// The greatest load in a body.
fn greatest_load(bodies: &List<Body>) -> u64
    ensures { result ≡ capped (spec.greatest_load (map body_view bodies.now)) }
{
    let items = bodies.as_slice();
    let mut greatest = 0;
    for i in 0..items.len() {
        greatest = greatest.max(stmt_load(&items[i].stmt));
    }
    greatest
}
