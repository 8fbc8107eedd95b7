ghost use Rattle.std.specs.Prelude.{◌≡◌, ◌+◌, ◌*◌, length, map};
ghost use Rattle.pawn_meaning.specs.Capped.{capped};
ghost use Rattle.pawn_meaning.specs.Need as spec;
ghost use Rattle.pawn_meaning.specs.View.{scalar_view, array_view, expr_view};
ghost use Rattle.pawn_meaning.specs.View.{arg_view, perhaps_view};

use super::node::{Arg, Array, Expr, Link, Scalar};
use pawn_base::List;

#[cycle(load)]
fn scalar_load(place: &Scalar) -> u64
    ensures { result ≡ capped (spec.place_load (scalar_view place.now)) }
{
    match place {
        Scalar::Global(_) | Scalar::Slot(_) | Scalar::Through(_) => 0,
        Scalar::Element(array, index) | Scalar::Char(array, index) => {
            array_load(array).max(expr_load(index)).saturating_add(1)
        }
    }
}

#[cycle(load)]
fn array_load(array: &Array) -> u64
    ensures { result ≡ capped (spec.array_load (array_view array.now)) }
{
    match array {
        Array::Object(_) | Array::SlotArray(_) | Array::ParamArray(..) => 0,
        Array::Row(array, index) | Array::From(array, index) => {
            array_load(array).max(expr_load(index)).saturating_add(1)
        }
    }
}

/// The cells that an expression keeps while its parts are evaluated.
#[cycle(load)]
pub fn expr_load(expr: &Expr) -> u64
    ensures { result ≡ capped (spec.load (expr_view expr.now)) }
{
    match expr {
        Expr::Const(_) => 0,
        Expr::Read(place) => scalar_load(place),
        Expr::Unary(_, x) => expr_load(x).saturating_add(1),
        Expr::Binary(_, x, y) => expr_load(x).max(expr_load(y)).saturating_add(1),
        Expr::Chain(x, links) => expr_load(x).max(links_load(links)).saturating_add(2),
        Expr::And(x, y) | Expr::Or(x, y) => expr_load(x).max(expr_load(y)).saturating_add(1),
        Expr::Cond(x, y, z) => {
            expr_load(x)
                .max(expr_load(y).max(expr_load(z)))
                .saturating_add(1)
        }
        Expr::Assign(place, x) => scalar_load(place).max(expr_load(x)).saturating_add(1),
        Expr::Update(place, _, x) => scalar_load(place).max(expr_load(x)).saturating_add(1),
        Expr::UpdateBy(place, _, _, x, _) => {
            scalar_load(place).max(expr_load(x)).saturating_add(5)
        }
        Expr::Step(place, _, _) => scalar_load(place).saturating_add(1),
        Expr::StepBy(place, _, _) => scalar_load(place).saturating_add(3),
        Expr::Copy(to, from, _) => array_load(to).max(array_load(from)).saturating_add(1),
        Expr::Operate(_, x, y, _) => expr_load(x).max(expr_load(y)).saturating_add(5),
        Expr::OperateOne(_, x) => expr_load(x).saturating_add(3),
        Expr::Call(_, args) => call_load(args),
        Expr::Native(_, args) => call_load(args),
        Expr::Seq(x, y) => expr_load(x).max(expr_load(y)).saturating_add(1),
    }
}

#[cycle(load)]
fn arg_load(arg: &Arg) -> u64
    ensures { result ≡ capped (spec.arg_load (arg_view arg.now)) }
{
    match arg {
        Arg::Value(x) | Arg::Temp(x) => expr_load(x),
        Arg::Ref(place) => scalar_load(place),
        Arg::Whole(array) => array_load(array),
    }
}

/// Of a call: two cells for each argument, one, and the greatest load of an argument.
#[cycle(load)]
fn call_load(args: &List<Arg>) -> u64
    ensures { result ≡ capped (2 * length args.now + 1 +
        spec.greatest (map (λ arg. spec.arg_load (arg_view arg)) args.now)) }
{
    let count = args.len() as u64;
    let items = args.as_slice();
    let mut greatest = 0;
    for i in 0..items.len() {
        greatest = greatest.max(arg_load(&items[i]));
    }
    count
        .saturating_mul(2)
        .saturating_add(1)
        .saturating_add(greatest)
}

#[cycle(load)]
fn links_load(links: &List<Link>) -> u64
    ensures { result ≡ capped (spec.greatest
        (map (λ link. spec.load (expr_view link.operand)) links.now)) }
{
    let items = links.as_slice();
    let mut greatest = 0;
    for i in 0..items.len() {
        greatest = greatest.max(expr_load(&items[i].operand));
    }
    greatest
}

/// An absent expression keeps nothing.
pub fn perhaps_load(expr: &Option<Expr>) -> u64
    ensures { result ≡ capped (spec.perhaps_load (perhaps_view expr.now)) }
{
    match expr {
        Some(x) => expr_load(x),
        None => 0,
    }
}
