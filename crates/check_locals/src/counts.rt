ghost use Rattle.std.specs.Prelude.{◌≡◌, ◌+◌, [], map, option_map, sum_by, IfOk};
ghost use Rattle.pawn_tree.specs.View.{arg_view, dim_view, expr_view, init_view, link_view};
ghost use Rattle.pawn_tree.specs.View.{var_view};
ghost use Rattle.types_rules.specs.Literals as spec;
ghost use Rattle.types_rules.specs.Counts as counts;

use pawn_base::{List, Memory};
use pawn_tree::{Arg, Dim, Expr, Init, Link, Storage, Var};

/// The sum of two counts.
fn sum(left: usize, right: usize) -> Result<usize, Memory>
    ensures { IfOk result (λ both. both ≡ left + right) }
{
    match left.checked_add(right) {
        None => Err(Memory),
        Some(both) => Ok(both),
    }
}

/// How many literals stand in an expression.
///
/// # Errors
///
/// `Memory` for more than a usize counts.
#[cycle(literals)]
pub fn literals(x: &Expr) -> Result<usize, Memory>
    ensures { IfOk result (λ count. count ≡ spec.literals (expr_view x.now)) }
{
    match x {
        Expr::Number(_, _) => Ok(0),
        Expr::Text(_, _, _) => Ok(1),
        Expr::Name(_, _) => Ok(0),
        Expr::Paren(_, x) => literals(x),
        Expr::Sizeof(_, _) => Ok(0),
        Expr::Tagof(_, _) => Ok(0),
        Expr::Prefix(_, _, x) => literals(x),
        Expr::Tagged(_, _, x) => literals(x),
        Expr::Postfix(_, _, x) => literals(x),
        Expr::Index(_, x, y) => sum(literals(x)?, literals(y)?),
        Expr::Character(_, x, y) => sum(literals(x)?, literals(y)?),
        Expr::Binary(_, _, x, y) => sum(literals(x)?, literals(y)?),
        Expr::Chain(_, x, links) => sum(literals(x)?, link_literals(links)?),
        Expr::Choice(_, x, y, z) => sum(literals(x)?, sum(literals(y)?, literals(z)?)?),
        Expr::Assign(_, _, x, y) => sum(literals(x)?, literals(y)?),
        Expr::Call(_, _, args, _) => arg_literals(args),
    }
}

/// How many stand in an argument.
#[cycle(literals)]
fn literals_of_arg(x: &Arg) -> Result<usize, Memory>
    ensures { IfOk result (λ count. count ≡ spec.literals_of_arg (arg_view x.now)) }
{
    match x {
        Arg::Value(x) => literals(x),
        Arg::Default(_) => Ok(0),
        Arg::Named(_, x) => literals(x),
    }
}

/// How many stand in the link of a chain.
#[cycle(literals)]
fn literals_of_link(x: &Link) -> Result<usize, Memory>
    ensures { IfOk result (λ count. count ≡ spec.literals_of_link (link_view x.now)) }
{
    match x {
        Link::Compare(_, x) => literals(x),
    }
}

/// How many stand in arguments.
#[cycle(literals)]
fn arg_literals(list: &List<Arg>) -> Result<usize, Memory>
    ensures { IfOk result (λ count. count ≡
        sum_by spec.literals_of_arg (map arg_view list.now)) }
{
    let items = list.as_slice();
    let mut count = 0;
    for i in 0..items.len() {
        count = sum(count, literals_of_arg(&items[i])?)?;
    }
    Ok(count)
}

/// How many stand in the links of a chain.
#[cycle(literals)]
fn link_literals(list: &List<Link>) -> Result<usize, Memory>
    ensures { IfOk result (λ count. count ≡
        sum_by spec.literals_of_link (map link_view list.now)) }
{
    let items = list.as_slice();
    let mut count = 0;
    for i in 0..items.len() {
        count = sum(count, literals_of_link(&items[i])?)?;
    }
    Ok(count)
}

/// How many stand in a first value of one cell.
fn literals_of_init(init: &Option<Init>) -> Result<usize, Memory>
    ensures { IfOk result (λ count. count ≡
        counts.literals_of_init (option_map init_view init.now)) }
{
    match init {
        None => Ok(0),
        Some(Init::Value(x)) => literals(x),
        Some(Init::Braces(_, _, _)) => Ok(0),
    }
}

/// How many slots a variable takes.
pub fn slots_of(kind: Storage) -> usize
    ensures { result ≡ counts.slots_of_storage kind }
{
    match kind {
        Storage::New => 1,
        Storage::Static => 0,
        Storage::Stock => 1,
    }
}

/// How many objects a variable of one cell makes.
fn cell_objects(kind: Storage, init: &Option<Init>) -> Result<usize, Memory>
    ensures { IfOk result (λ count. count ≡
        counts.objects_by kind [] (option_map init_view init.now)) }
{
    match kind {
        Storage::New => literals_of_init(init),
        Storage::Static => Ok(1),
        Storage::Stock => literals_of_init(init),
    }
}

/// How many objects a variable with these dimensions makes.
fn objects_by(kind: Storage, dims: &[Dim], init: &Option<Init>) -> Result<usize, Memory>
    ensures { IfOk result (λ count. count ≡
        counts.objects_by kind (map dim_view dims.now) (option_map init_view init.now)) }
{
    match dims.split_first() {
        None => cell_objects(kind, init),
        Some(_) => Ok(1),
    }
}

/// How many objects a variable makes: itself where it is an array or a `static`, else the literals
/// of its value.
///
/// # Errors
///
/// `Memory` for more than a usize counts.
pub fn objects_of_var(kind: Storage, x: &Var) -> Result<usize, Memory>
    ensures { IfOk result (λ count. count ≡ counts.objects_of_var kind (var_view x.now)) }
{
    objects_by(kind, x.dims.as_slice(), &x.init)
}
