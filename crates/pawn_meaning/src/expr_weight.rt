ghost use Rattle.std.specs.Prelude.{◌≡◌, sum_by};
ghost use Rattle.pawn_cells.specs.Operators.{cell_in};
ghost use Rattle.pawn_meaning.specs.Capped.{capped};
ghost use Rattle.pawn_meaning.specs.Fold as folded;
ghost use Rattle.pawn_meaning.specs.Weight as spec;
ghost use Rattle.pawn_meaning.specs.View.{scalar_view, array_view, expr_view};
ghost use Rattle.pawn_meaning.specs.View.{arg_view, links_view, perhaps_view};

use super::folding::{
    Share, Weighed, after_link, and_value, behind_last, binary_value, chain_value, choice_value,
    link_value, node, or_value, prefix_value,
};
use super::node::{Arg, Array, Expr, Link, Scalar};
use super::program_limits::NODE_WEIGHT;
use pawn_base::List;
use pawn_cells::Cell;

/// The value of an expression that is built of constants and built-in operators alone, where its
/// meaning gives one. It takes no memory, and is one walk over the expression.
pub fn fold(expr: &Expr) -> Option<i32>
    ensures { result ≡ folded.fold (expr_view expr.now) }
{
    let found = weigh(expr, true);
    if !found.share.constant {
        return None;
    }
    match found.value {
        Some(value) => Some(value.0),
        None => None,
    }
}

/// The weight of an expression and what it folds to at once, so that no part is walked over twice.
#[cycle(weight)]
pub fn weigh(expr: &Expr, lean: bool) -> Weighed
    ensures constant { result.share.constant ≡ folded.is_constant (expr_view expr.now) }
    ensures value { cell_in result.value ≡ folded.constant_value (expr_view expr.now) }
    ensures weight { result.share.weight ≡
        capped (spec.expr_weight (spec.alone_in lean) (expr_view expr.now)) }
{
    match expr {
        Expr::Const(value) => {
            let share = Share {
                constant: true,
                weight: NODE_WEIGHT,
            };
            Weighed {
                share,
                value: Some(Cell(*value)),
            }
        }
        Expr::Read(place) => Weighed::open(scalar_weight(place, lean)),
        Expr::Unary(op, x) => {
            let x = weigh(x, lean);
            Weighed::built(x.share, prefix_value(*op, x.value), lean)
        }
        Expr::Binary(op, x, y) => {
            let (x, y) = (weigh(x, lean), weigh(y, lean));
            let value = binary_value(*op, x.value, y.value);
            Weighed::built(x.share.with(y.share), value, lean)
        }
        Expr::Chain(x, links) => {
            let x = weigh(x, lean);
            let behind = weigh_links(links, x.value, lean);
            let value = chain_value(x.value, links.is_empty(), behind.holds);
            Weighed::built(x.share.with(behind.share), value, lean)
        }
        Expr::And(x, y) => {
            let (x, y) = (weigh(x, lean), weigh(y, lean));
            Weighed::built(x.share.with(y.share), and_value(x.value, y.value), lean)
        }
        Expr::Or(x, y) => {
            let (x, y) = (weigh(x, lean), weigh(y, lean));
            Weighed::built(x.share.with(y.share), or_value(x.value, y.value), lean)
        }
        Expr::Cond(x, y, z) => {
            let (x, y, z) = (weigh(x, lean), weigh(y, lean), weigh(z, lean));
            let value = choice_value(x.value, y.value, z.value);
            Weighed::built(x.share.with(y.share.with(z.share)), value, lean)
        }
        Expr::Assign(place, x) => {
            Weighed::open(scalar_weight(place, lean).saturating_add(weigh(x, lean).share.weight))
        }
        Expr::Update(place, _, x) => {
            Weighed::open(scalar_weight(place, lean).saturating_add(weigh(x, lean).share.weight))
        }
        Expr::UpdateBy(place, _, _, x, _) => {
            Weighed::open(scalar_weight(place, lean).saturating_add(weigh(x, lean).share.weight))
        }
        Expr::Step(place, _, _) | Expr::StepBy(place, _, _) => {
            Weighed::open(scalar_weight(place, lean))
        }
        Expr::Copy(to, from, _) => {
            Weighed::open(array_weight(to, lean).saturating_add(array_weight(from, lean)))
        }
        Expr::Operate(_, x, y, _) | Expr::Seq(x, y) => {
            Weighed::open(
                weigh(x, lean)
                    .share
                    .weight
                    .saturating_add(weigh(y, lean).share.weight),
            )
        }
        Expr::OperateOne(_, x) => Weighed::open(weigh(x, lean).share.weight),
        Expr::Call(_, args) => Weighed::open(args_weight(args, lean)),
        Expr::Native(_, args) => Weighed::open(args_weight(args, lean)),
    }
}

/// What a walk over the links of a chain finds, behind its first operand.
#[derive(Drop)]
struct Behind {
    share: Share,
    /// All links hold, as far as their operands have values.
    holds: Option<bool>,
}

#[cycle(weight)]
fn weigh_links(links: &List<Link>, first: Option<Cell>, lean: bool) -> Behind
    ensures constant { result.share.constant ≡ folded.are_constant (links_view links.now) }
    ensures holds { result.holds ≡
        folded.chain_value (cell_in first) (links_view links.now) }
    ensures weight { result.share.weight ≡
        capped (spec.links_weight (spec.alone_in lean) (links_view links.now)) }
{
    let items = links.as_slice();
    let mut constant = true;
    let mut holds = Some(true);
    let mut left = first;
    let mut weight = 0u64;
    for i in 0..items.len() {
        let right = weigh(&items[i].operand, lean);
        constant = constant && items[i].function.is_none() && right.share.constant;
        holds = after_link(holds, link_value(items[i].op, left, right.value));
        left = right.value;
        weight = weight.saturating_add(right.share.weight);
    }
    Behind {
        share: Share { constant, weight },
        holds: after_link(holds, behind_last(left)),
    }
}

#[cycle(weight)]
fn scalar_weight(place: &Scalar, lean: bool) -> u64
    ensures { result ≡
        capped (spec.scalar_weight (spec.alone_in lean) (scalar_view place.now)) }
{
    match place {
        Scalar::Global(_) | Scalar::Slot(_) | Scalar::Through(_) => NODE_WEIGHT,
        Scalar::Element(array, index) | Scalar::Char(array, index) => {
            node(array_weight(array, lean).saturating_add(weigh(index, lean).share.weight))
        }
    }
}

#[cycle(weight)]
fn array_weight(array: &Array, lean: bool) -> u64
    ensures { result ≡
        capped (spec.array_weight (spec.alone_in lean) (array_view array.now)) }
{
    match array {
        Array::Object(_) | Array::SlotArray(_) | Array::ParamArray(..) => NODE_WEIGHT,
        Array::Row(array, index) | Array::From(array, index) => {
            node(array_weight(array, lean).saturating_add(weigh(index, lean).share.weight))
        }
    }
}

#[cycle(weight)]
fn arg_weight(arg: &Arg, lean: bool) -> u64
    ensures { result ≡ capped (spec.arg_weight (spec.alone_in lean) (arg_view arg.now)) }
{
    match arg {
        Arg::Value(x) | Arg::Temp(x) => node(weigh(x, lean).share.weight),
        Arg::Ref(place) => node(scalar_weight(place, lean)),
        Arg::Whole(array) => node(array_weight(array, lean)),
    }
}

#[cycle(weight)]
fn args_weight(args: &List<Arg>, lean: bool) -> u64
    ensures { result ≡ capped
        (sum_by (λ arg. spec.arg_weight (spec.alone_in lean) (arg_view arg)) args.now) }
{
    let items = args.as_slice();
    let mut sum = 0u64;
    for i in 0..items.len() {
        sum = sum.saturating_add(arg_weight(&items[i], lean));
    }
    sum
}

/// An absent expression weighs nothing.
pub fn perhaps_weight(expr: &Option<Expr>, lean: bool) -> u64
    ensures { result ≡
        capped (spec.perhaps_weight (spec.alone_in lean) (perhaps_view expr.now)) }
{
    match expr {
        Some(x) => weigh(x, lean).share.weight,
        None => 0,
    }
}
