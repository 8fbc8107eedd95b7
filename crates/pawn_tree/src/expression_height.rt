ghost use Rattle.std.specs.Prelude.{◌≡◌, ◌≤◌, map, option_map};
ghost use Rattle.pawn_tree.specs.Height as spec;
ghost use Rattle.pawn_tree.specs.View.{expr_view, arg_view, link_view};

use super::expression::{Arg, Expr, Link};
use pawn_base::List;

#[cycle(height)]
pub fn expr_height(x: &Expr) -> usize
    requires { spec.expr_height (expr_view x.now) ≤ 1024 }
    ensures { result ≡ spec.expr_height (expr_view x.now) }
{
    match x {
        Expr::Number(..) | Expr::Text(..) | Expr::Name(..) => 1,
        Expr::Sizeof(..) | Expr::Tagof(..) => 1,
        Expr::Paren(_, x) | Expr::Prefix(_, _, x) => 1 + expr_height(x),
        Expr::Tagged(_, _, x) | Expr::Postfix(_, _, x) => 1 + expr_height(x),
        Expr::Index(_, x, y) | Expr::Character(_, x, y) => 1 + expr_height(x).max(expr_height(y)),
        Expr::Binary(_, _, x, y) => 1 + expr_height(x).max(expr_height(y)),
        Expr::Assign(_, _, x, y) => 1 + expr_height(x).max(expr_height(y)),
        Expr::Chain(_, x, links) => 1 + expr_height(x).max(links_height(links)),
        Expr::Choice(_, x, y, z) => 1 + expr_height(x).max(expr_height(y).max(expr_height(z))),
        Expr::Call(_, _, args, _) => 1 + args_height(args),
    }
}

#[cycle(height)]
fn arg_height(x: &Arg) -> usize
    requires { spec.arg_height (arg_view x.now) ≤ 1024 }
    ensures { result ≡ spec.arg_height (arg_view x.now) }
{
    match x {
        Arg::Value(x) | Arg::Named(_, x) => expr_height(x),
        Arg::Default(_) => 0,
    }
}

#[cycle(height)]
fn link_height(x: &Link) -> usize
    requires { spec.link_height (link_view x.now) ≤ 1024 }
    ensures { result ≡ spec.link_height (link_view x.now) }
{
    match x {
        Link::Compare(_, x) => expr_height(x),
    }
}

#[cycle(height)]
fn args_height(list: &List<Arg>) -> usize
    requires { spec.highest spec.arg_height (map arg_view list.now) ≤ 1024 }
    ensures { result ≡ spec.highest spec.arg_height (map arg_view list.now) }
{
    let items = list.as_slice();
    let mut height = 0;
    for i in 0..items.len() {
        height = height.max(arg_height(&items[i]));
    }
    height
}

#[cycle(height)]
fn links_height(list: &List<Link>) -> usize
    requires { spec.highest spec.link_height (map link_view list.now) ≤ 1024 }
    ensures { result ≡ spec.highest spec.link_height (map link_view list.now) }
{
    let items = list.as_slice();
    let mut height = 0;
    for i in 0..items.len() {
        height = height.max(link_height(&items[i]));
    }
    height
}

pub fn maybe_expr_height(x: &Option<Expr>) -> usize
    requires { spec.height_of spec.expr_height (option_map expr_view x.now) ≤ 1024 }
    ensures { result ≡ spec.height_of spec.expr_height (option_map expr_view x.now) }
{
    match x {
        Some(x) => expr_height(x),
        None => 0,
    }
}
