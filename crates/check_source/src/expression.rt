ghost use Rattle.std.specs.Prelude.{[], ◌∷◌, map, option_map, OnOk};
ghost use Rattle.pawn_tree.specs.Expressions.{args, links};
ghost use Rattle.pawn_tree.specs.View.{expr_view, arg_view, link_view};
ghost use Rattle.types_rules.specs.Called as spec;
ghost use Rattle.types_rules.specs.CalledIn.{called_by};
ghost use Rattle.check_source.specs.Adds.{Adds};

use pawn_base::{Bytes, List, Memory};
use pawn_tree::{Arg, Expr, Link};

/// One name more.
#[tactic(auto, using(crate::proofs::AddLaws::adds_one))]
fn add<'a>(name: &'a Bytes, out: &mut List<&'a [u8]>) -> Result<(), Memory>
    ensures { OnOk result (Adds out.old out.new (name.now ∷ [])) }
{
    out.push(name.as_slice())
}

/// Adds the names that are called in an expression.
#[cycle(expression)]
#[tactic(auto, using(crate::proofs::AddLaws::adds))]
pub fn in_expr<'a>(x: &'a Expr, out: &mut List<&'a [u8]>) -> Result<(), Memory>
    ensures { OnOk result (Adds out.old out.new (spec.called (expr_view x.now))) }
{
    match x {
        Expr::Number(..) | Expr::Text(..) | Expr::Name(..) => Ok(()),
        Expr::Sizeof(..) | Expr::Tagof(..) => Ok(()),
        Expr::Paren(_, x) | Expr::Prefix(_, _, x) | Expr::Postfix(_, _, x) => in_expr(x, out),
        Expr::Tagged(_, _, x) => in_expr(x, out),
        Expr::Index(_, x, y) | Expr::Character(_, x, y) => {
            in_expr(x, out)?;
            in_expr(y, out)
        }
        Expr::Binary(_, _, x, y) | Expr::Assign(_, _, x, y) => {
            in_expr(x, out)?;
            in_expr(y, out)
        }
        Expr::Chain(_, x, links) => {
            in_expr(x, out)?;
            in_links(links, out)
        }
        Expr::Choice(_, x, y, z) => {
            in_expr(x, out)?;
            in_expr(y, out)?;
            in_expr(z, out)
        }
        Expr::Call(_, name, args, _) => {
            add(name, out)?;
            in_args(args, out)
        }
    }
}

#[cycle(expression)]
#[tactic(auto, using(crate::proofs::AddLaws::adds))]
fn in_arg<'a>(x: &'a Arg, out: &mut List<&'a [u8]>) -> Result<(), Memory>
    ensures { OnOk result (Adds out.old out.new (spec.called_by_arg (arg_view x.now))) }
{
    match x {
        Arg::Value(x) | Arg::Named(_, x) => in_expr(x, out),
        Arg::Default(_) => Ok(()),
    }
}

#[cycle(expression)]
#[tactic(auto, using(crate::proofs::AddLaws::adds))]
fn in_link<'a>(x: &'a Link, out: &mut List<&'a [u8]>) -> Result<(), Memory>
    ensures { OnOk result (Adds out.old out.new (spec.called_by_link (link_view x.now))) }
{
    match x {
        Link::Compare(_, x) => in_expr(x, out),
    }
}

#[cycle(expression)]
#[tactic(auto, using(crate::proofs::AddLaws::adds))]
fn in_args<'a>(list: &'a List<Arg>, out: &mut List<&'a [u8]>) -> Result<(), Memory>
    ensures { OnOk result (Adds out.old out.new
        (spec.called_by_args (args (map arg_view list.now)))) }
{
    let items = list.as_slice();
    for i in 0..items.len() {
        in_arg(&items[i], out)?;
    }
    Ok(())
}

#[cycle(expression)]
#[tactic(auto, using(crate::proofs::AddLaws::adds))]
fn in_links<'a>(list: &'a List<Link>, out: &mut List<&'a [u8]>) -> Result<(), Memory>
    ensures { OnOk result (Adds out.old out.new
        (spec.called_by_links (links (map link_view list.now)))) }
{
    let items = list.as_slice();
    for i in 0..items.len() {
        in_link(&items[i], out)?;
    }
    Ok(())
}

/// Adds the names that are called in an expression that may be left out.
#[tactic(auto, using(crate::proofs::AddLaws::adds))]
pub fn in_maybe<'a>(x: &'a Option<Expr>, out: &mut List<&'a [u8]>) -> Result<(), Memory>
    ensures { OnOk result (Adds out.old out.new (called_by (option_map expr_view x.now))) }
{
    match x {
        None => Ok(()),
        Some(x) => in_expr(x, out),
    }
}
