ghost use Rattle.std.specs.Prelude.{◌≡◌, map, option_map, sum_by};
ghost use Rattle.pawn_meaning.specs.Capped.{capped};
ghost use Rattle.pawn_meaning.specs.Weight as spec;
ghost use Rattle.pawn_meaning.specs.View.{route_view, body_view, function_view, program_view};

use super::program::{Body, Function, Program, Route};
use super::program_limits::{PAIR_WEIGHT, ROUTE_WEIGHT};
use super::stmt_weight::stmt_weight;
use pawn_base::List;

/// The weight of a program, which bounds the cells of its code; the greatest `u64` where it is
/// above that. It takes no memory, and is one walk over the program.
pub fn weight(program: &Program) -> u64
    ensures { result ≡ capped (spec.weight (program_view program.now)) }
{
    program_weight(program, false)
}

/// The weight of a program where an expression that folds counts as one node; the greatest `u64`
/// where it is above that. It takes no memory, and is one walk over the program.
pub fn lean(program: &Program) -> u64
    ensures { result ≡ capped (spec.lean (program_view program.now)) }
{
    program_weight(program, true)
}

fn program_weight(program: &Program, lean: bool) -> u64
    ensures { result ≡ capped (spec.weight_by (spec.alone_in lean) (program_view program.now)) }
{
    let items = program.functions.as_slice();
    let mut sum = 0u64;
    for i in 0..items.len() {
        sum = sum.saturating_add(function_weight(&items[i], lean));
    }
    sum
}

/// All bodies of a function, and its route.
fn function_weight(function: &Function, lean: bool) -> u64
    ensures { result ≡
        capped (spec.function_weight (spec.alone_in lean) (function_view function.now)) }
{
    route_weight(&function.dispatch).saturating_add(bodies_weight(&function.bodies, lean))
}

/// A route counts, and each pair of a state and a body.
fn route_weight(route: &Option<Route>) -> u64
    ensures { result ≡ capped (spec.route_weight (option_map route_view route.now)) }
{
    match route {
        Some(route) => (route.cases.len() as u64)
            .saturating_mul(2)
            .saturating_add(10),
        None => 0,
    }
}

fn bodies_weight(bodies: &List<Body>, lean: bool) -> u64
    ensures { result ≡ capped (sum_by
        (λ body. spec.stmt_weight (spec.alone_in lean) body.stmt) (map body_view bodies.now)) }
{
    let items = bodies.as_slice();
    let mut sum = 0u64;
    for i in 0..items.len() {
        sum = sum.saturating_add(stmt_weight(&items[i].stmt, lean));
    }
    sum
}
