ghost use Rattle.std.specs.Prelude.{[], ◌∷◌, ◌++◌, OnOk};
ghost use Rattle.pawn_meaning.specs.View.{scalar_view, array_view, expr_view, arg_view};
ghost use Rattle.pawn_meaning.specs.View.{args_view, links_view, perhaps_view};
ghost use Rattle.pawn_usage.specs.Adds.{Adds};
ghost use Rattle.pawn_usage.specs.Called as spec;

use pawn_base::{List, Memory};
use pawn_meaning::{Arg, Array, Expr, Link, Scalar};

/// Adds a function.
#[tactic(auto, using(crate::proofs::AddLaws::adds_one))]
pub fn add(function: u32, out: &mut List<u32>) -> Result<(), Memory>
    ensures { OnOk result (Adds out.old out.new (function ∷ [])) }
{
    out.push(function)
}

/// Adds a function that may be absent.
#[tactic(auto, using(crate::proofs::AddLaws::adds))]
pub fn add_perhaps(function: Option<u32>, out: &mut List<u32>) -> Result<(), Memory>
    ensures { OnOk result (Adds out.old out.new (spec.at_most_one function)) }
{
    match function {
        None => Ok(()),
        Some(function) => add(function, out),
    }
}

/// Adds a user's operator, and what converts its value.
#[tactic(auto, using(crate::proofs::AddLaws::adds))]
fn add_update(function: u32, convert: Option<u32>, out: &mut List<u32>) -> Result<(), Memory>
    ensures { OnOk result
        (Adds out.old out.new (spec.at_most_one convert ++ function ∷ [])) }
{
    add_perhaps(convert, out)?;
    add(function, out)
}

#[cycle(expression)]
#[tactic(auto, using(crate::proofs::AddLaws::adds))]
fn in_place(x: &Scalar, out: &mut List<u32>) -> Result<(), Memory>
    ensures { OnOk result (Adds out.old out.new (spec.called_in_place (scalar_view x.now))) }
{
    match x {
        Scalar::Global(_) | Scalar::Slot(_) | Scalar::Through(_) => Ok(()),
        Scalar::Element(array, index) | Scalar::Char(array, index) => {
            in_array(array, out)?;
            in_expr(index, out)
        }
    }
}

#[cycle(expression)]
#[tactic(auto, using(crate::proofs::AddLaws::adds))]
fn in_array(x: &Array, out: &mut List<u32>) -> Result<(), Memory>
    ensures { OnOk result (Adds out.old out.new (spec.called_in_array (array_view x.now))) }
{
    match x {
        Array::Object(_) | Array::SlotArray(_) | Array::ParamArray(..) => Ok(()),
        Array::Row(array, index) | Array::From(array, index) => {
            in_array(array, out)?;
            in_expr(index, out)
        }
    }
}

/// Adds the functions that an expression calls, user operators among them.
#[cycle(expression)]
#[tactic(auto, using(crate::proofs::AddLaws::adds))]
pub fn in_expr(x: &Expr, out: &mut List<u32>) -> Result<(), Memory>
    ensures { OnOk result (Adds out.old out.new (spec.called (expr_view x.now))) }
{
    match x {
        Expr::Const(_) => Ok(()),
        Expr::Read(place) | Expr::Step(place, _, _) => in_place(place, out),
        Expr::Unary(_, x) => in_expr(x, out),
        Expr::Binary(_, x, y) | Expr::And(x, y) | Expr::Or(x, y) | Expr::Seq(x, y) => {
            in_expr(x, out)?;
            in_expr(y, out)
        }
        Expr::Chain(x, links) => {
            in_expr(x, out)?;
            in_links(links, out)
        }
        Expr::Cond(x, y, z) => {
            in_expr(x, out)?;
            in_expr(y, out)?;
            in_expr(z, out)
        }
        Expr::Assign(place, x) | Expr::Update(place, _, x) => {
            in_place(place, out)?;
            in_expr(x, out)
        }
        Expr::UpdateBy(place, function, _, x, convert) => {
            in_place(place, out)?;
            in_expr(x, out)?;
            add_update(*function, *convert, out)
        }
        Expr::StepBy(place, function, _) => {
            in_place(place, out)?;
            add(*function, out)
        }
        Expr::Copy(to, from, _) => {
            in_array(to, out)?;
            in_array(from, out)
        }
        Expr::Operate(function, x, y, _) => {
            in_expr(x, out)?;
            in_expr(y, out)?;
            add(*function, out)
        }
        Expr::OperateOne(function, x) => {
            in_expr(x, out)?;
            add(*function, out)
        }
        Expr::Call(function, args) => {
            in_args(args, out)?;
            add(*function, out)
        }
        Expr::Native(_, args) => in_args(args, out),
    }
}

#[cycle(expression)]
#[tactic(auto, using(crate::proofs::AddLaws::adds))]
fn in_arg(x: &Arg, out: &mut List<u32>) -> Result<(), Memory>
    ensures { OnOk result (Adds out.old out.new (spec.called_in_arg (arg_view x.now))) }
{
    match x {
        Arg::Value(x) | Arg::Temp(x) => in_expr(x, out),
        Arg::Ref(place) => in_place(place, out),
        Arg::Whole(array) => in_array(array, out),
    }
}

#[cycle(expression)]
#[tactic(auto, using(crate::proofs::AddLaws::adds))]
fn in_link(x: &Link, out: &mut List<u32>) -> Result<(), Memory>
    ensures { OnOk result (Adds out.old out.new (spec.called (expr_view x.now.operand) ++
        spec.at_most_one x.now.function)) }
{
    in_expr(&x.operand, out)?;
    add_perhaps(x.function, out)
}

#[cycle(expression)]
#[tactic(auto, using(crate::proofs::AddLaws::adds))]
fn in_args(list: &List<Arg>, out: &mut List<u32>) -> Result<(), Memory>
    ensures { OnOk result (Adds out.old out.new (spec.called_in_args (args_view list.now))) }
{
    let items = list.as_slice();
    for i in 0..items.len() {
        in_arg(&items[i], out)?;
    }
    Ok(())
}

#[cycle(expression)]
#[tactic(auto, using(crate::proofs::AddLaws::adds))]
fn in_links(list: &List<Link>, out: &mut List<u32>) -> Result<(), Memory>
    ensures { OnOk result (Adds out.old out.new (spec.called_in_links (links_view list.now))) }
{
    let items = list.as_slice();
    for i in 0..items.len() {
        in_link(&items[i], out)?;
    }
    Ok(())
}

/// Adds the functions that an expression calls, if there is one.
#[tactic(auto, using(crate::proofs::AddLaws::adds))]
pub fn in_perhaps(x: &Option<Expr>, out: &mut List<u32>) -> Result<(), Memory>
    ensures { OnOk result (Adds out.old out.new (spec.called_perhaps (perhaps_view x.now))) }
{
    match x {
        None => Ok(()),
        Some(x) => in_expr(x, out),
    }
}
