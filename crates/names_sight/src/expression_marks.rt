ghost use Rattle.std.specs.Prelude.{◌≡◌, map, option_map, OnOk};
ghost use Rattle.pawn_tree.specs.Expressions.{args, links};
ghost use Rattle.pawn_tree.specs.View.{expr_view, arg_view, link_view};
ghost use Rattle.names_rules.specs.Lists.{maybe_marks};
ghost use Rattle.names_rules.specs.ExpressionMarks as spec;
ghost use Rattle.names_sight.specs.MarkView.{marks_view};

use super::mark::Mark;
use super::marks::{mentions, uses};
use pawn_base::{List, Memory};
use pawn_tree::{Arg, At, Expr, Link, SizeofOperand, TagofOperand};

fn sizeof_marks<'a>(at: At, x: &'a SizeofOperand, out: &mut List<Mark<'a>>) -> Result<(), Memory>
    ensures { OnOk result (marks_view out.new ≡ spec.sizeof_marks at x.now (marks_view out.old)) }
{
    match x {
        SizeofOperand::Name(name, _) => uses(out, &name.bytes, name.at, at),
        SizeofOperand::Text(_, _) => Ok(()),
    }
}

fn tagof_marks<'a>(at: At, x: &'a TagofOperand, out: &mut List<Mark<'a>>) -> Result<(), Memory>
    ensures { OnOk result (marks_view out.new ≡ spec.tagof_marks at x.now (marks_view out.old)) }
{
    match x {
        TagofOperand::Name(name) => uses(out, &name.bytes, name.at, at),
        TagofOperand::Tag(name) => mentions(out, &name.bytes),
    }
}

/// The marks of an expression.
#[cycle(expression)]
pub fn expr_marks<'a>(x: &'a Expr, out: &mut List<Mark<'a>>) -> Result<(), Memory>
    ensures { OnOk result (marks_view out.new ≡
        spec.expr_marks (expr_view x.now) (marks_view out.old)) }
{
    match x {
        Expr::Number(..) | Expr::Text(..) => Ok(()),
        Expr::Name(at, name) => uses(out, name, *at, *at),
        Expr::Sizeof(at, x) => sizeof_marks(*at, x, out),
        Expr::Tagof(at, x) => tagof_marks(*at, x, out),
        Expr::Paren(_, x) | Expr::Prefix(_, _, x) | Expr::Postfix(_, _, x) => expr_marks(x, out),
        Expr::Tagged(_, tag, x) => {
            mentions(out, tag)?;
            expr_marks(x, out)
        }
        Expr::Index(_, x, y) | Expr::Character(_, x, y) => {
            expr_marks(x, out)?;
            expr_marks(y, out)
        }
        Expr::Binary(_, _, x, y) | Expr::Assign(_, _, x, y) => {
            expr_marks(x, out)?;
            expr_marks(y, out)
        }
        Expr::Chain(_, x, links) => {
            expr_marks(x, out)?;
            links_marks(links, out)
        }
        Expr::Choice(_, x, y, z) => {
            expr_marks(x, out)?;
            expr_marks(y, out)?;
            expr_marks(z, out)
        }
        Expr::Call(at, name, args, _) => {
            uses(out, name, *at, *at)?;
            args_marks(args, out)
        }
    }
}

#[cycle(expression)]
fn arg_marks<'a>(x: &'a Arg, out: &mut List<Mark<'a>>) -> Result<(), Memory>
    ensures { OnOk result (marks_view out.new ≡
        spec.arg_marks (arg_view x.now) (marks_view out.old)) }
{
    match x {
        Arg::Value(x) | Arg::Named(_, x) => expr_marks(x, out),
        Arg::Default(_) => Ok(()),
    }
}

#[cycle(expression)]
fn link_marks<'a>(x: &'a Link, out: &mut List<Mark<'a>>) -> Result<(), Memory>
    ensures { OnOk result (marks_view out.new ≡
        spec.link_marks (link_view x.now) (marks_view out.old)) }
{
    match x {
        Link::Compare(_, x) => expr_marks(x, out),
    }
}

#[cycle(expression)]
fn args_marks<'a>(list: &'a List<Arg>, out: &mut List<Mark<'a>>) -> Result<(), Memory>
    ensures { OnOk result (marks_view out.new ≡
        spec.args_marks (args (map arg_view list.now)) (marks_view out.old)) }
{
    let items = list.as_slice();
    for i in 0..items.len() {
        arg_marks(&items[i], out)?;
    }
    Ok(())
}

#[cycle(expression)]
fn links_marks<'a>(list: &'a List<Link>, out: &mut List<Mark<'a>>) -> Result<(), Memory>
    ensures { OnOk result (marks_view out.new ≡
        spec.links_marks (links (map link_view list.now)) (marks_view out.old)) }
{
    let items = list.as_slice();
    for i in 0..items.len() {
        link_marks(&items[i], out)?;
    }
    Ok(())
}

/// The marks of an expression that may be left out.
pub fn maybe_expr_marks<'a>(x: &'a Option<Expr>, out: &mut List<Mark<'a>>) -> Result<(), Memory>
    ensures { OnOk result (marks_view out.new ≡
        maybe_marks spec.expr_marks (option_map expr_view x.now) (marks_view out.old)) }
{
    match x {
        None => Ok(()),
        Some(x) => expr_marks(x, out),
    }
}
