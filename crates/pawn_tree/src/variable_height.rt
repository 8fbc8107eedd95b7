ghost use Rattle.std.specs.Prelude.{◌≡◌, ◌≤◌, map, option_map};
ghost use Rattle.pawn_tree.specs.Height as spec;
ghost use Rattle.pawn_tree.specs.View.{expr_view, dim_view, init_view, var_view};

use super::expression::Expr;
use super::expression_height::expr_height;
use super::variable::{Dim, Init, Var};
use pawn_base::List;

fn dim_height(x: &Dim) -> usize
    requires { spec.dim_height (dim_view x.now) ≤ 1024 }
    ensures { result ≡ spec.dim_height (dim_view x.now) }
{
    match x {
        Dim::Open => 0,
        Dim::Cells(x) | Dim::Chars(x) => expr_height(x),
    }
}

pub fn dims_height(list: &List<Dim>) -> usize
    requires { spec.highest spec.dim_height (map dim_view list.now) ≤ 1024 }
    ensures { result ≡ spec.highest spec.dim_height (map dim_view list.now) }
{
    let items = list.as_slice();
    let mut height = 0;
    for i in 0..items.len() {
        height = height.max(dim_height(&items[i]));
    }
    height
}

#[cycle(init)]
fn init_height(x: &Init) -> usize
    requires { spec.init_height (init_view x.now) ≤ 1024 }
    ensures { result ≡ spec.init_height (init_view x.now) }
{
    match x {
        Init::Value(x) => expr_height(x),
        Init::Braces(_, list, _) => 1 + inits_height(list),
    }
}

#[cycle(init)]
fn inits_height(list: &List<Init>) -> usize
    requires { spec.highest spec.init_height (map init_view list.now) ≤ 1024 }
    ensures { result ≡ spec.highest spec.init_height (map init_view list.now) }
{
    let items = list.as_slice();
    let mut height = 0;
    for i in 0..items.len() {
        height = height.max(init_height(&items[i]));
    }
    height
}

fn maybe_init_height(x: &Option<Init>) -> usize
    requires { spec.height_of spec.init_height (option_map init_view x.now) ≤ 1024 }
    ensures { result ≡ spec.height_of spec.init_height (option_map init_view x.now) }
{
    match x {
        Some(x) => init_height(x),
        None => 0,
    }
}

fn var_height(x: &Var) -> usize
    requires { spec.var_height (var_view x.now) ≤ 1024 }
    ensures { result ≡ spec.var_height (var_view x.now) }
{
    dims_height(&x.dims).max(maybe_init_height(&x.init))
}

pub fn vars_height(list: &List<Var>) -> usize
    requires { spec.highest spec.var_height (map var_view list.now) ≤ 1024 }
    ensures { result ≡ spec.highest spec.var_height (map var_view list.now) }
{
    let items = list.as_slice();
    let mut height = 0;
    for i in 0..items.len() {
        height = height.max(var_height(&items[i]));
    }
    height
}
