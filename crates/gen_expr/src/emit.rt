ghost use Rattle.std.specs.Prelude.{◌≡◌, ◌+◌, ◌*◌, ◌++◌, [], ◌∷◌, pos, length, None, IfOk};
ghost use Rattle.pawn_meaning.specs.Scope.{extent};
ghost use Rattle.pawn_meaning.specs.View.{scalar_view, array_view, expr_view};
ghost use Rattle.pawn_meaning.specs.Fold.{fold};
ghost use Rattle.gen_sim.specs.SimpleCode.{alone, const_code};
ghost use Rattle.gen_sim.specs.JumpCode.{jump_to, choice_code, truth_code, other_at};
ghost use Rattle.gen_sim.specs.DirectCode.{direct_of, read_by};
ghost use Rattle.gen_sim.specs.OperandCode.{Waiting, right_of, operate_by};
ghost use Rattle.gen_sim.specs.PushCode.{value_push, left_by};
ghost use Rattle.gen_laws.specs.ExprCode.{place_items, array_items, value_items, index_items};
ghost use Rattle.gen_sim.specs.BaseCode.{base_of};
ghost use Rattle.gen_expr.specs.Built.{with_items};
ghost use Rattle.gen_expr.specs.Standing.{scope_of, Serves, extent_of};
ghost use Rattle.gen_expr.specs.DirectView.{perhaps_direct};
ghost use Rattle.gen_expr.specs.RightView.{right_view};
ghost use Rattle.gen_expr.specs.BaseView.{perhaps_base, array_part};
ghost use Rattle.gen_expr.specs.TargetCode.{address_part, value_part, beside_part, operand_part};

mod arguments;
mod links;
mod nodes;

use super::access::{address, fetch};
use super::base::{Indexed, base_of, reach_of};
use super::builder::Builder;
use super::direct::direct_of;
use super::ends::{character, element, row};
use super::frame::{Frame, object, object_reach, param_reach, slot, slot_reach, through};
use super::jumps::{land, last_cell, truth, turn};
use super::operators::operator;
use super::push::value_push;
use super::put::constant;
use super::reach::{Reach, characters_of, rest_of, row_of, size_of};
use super::right::{
    Right, folded, move_constant, move_placed, operate_known, operate_placed, right_of,
};
use super::target::{Target, Valued};
use amx_ops::Op;
pub(crate) use arguments::push_value;
use arguments::{called, native_called};
pub(crate) use links::bring;
use links::chain;
use nodes::{
    UserOperator, array_copy, assignment, binary, choice, conjunction, disjunction, one_step,
    sequence, unary, updating, user_operator, user_prefix, user_step, user_update,
};
use pawn_base::Memory;
use pawn_cells::Operator;
use pawn_meaning::{Array, Expr, Scalar};

/// An array before its index: its address waits, where no instruction sets it by itself.
#[cycle(emit)]
fn start_array(a: &Array, frame: &Frame<'_>, b: Builder) -> Result<Indexed, Memory>
    requires { Serves frame.now }
    ensures code { IfOk result (λ r. let scope = scope_of frame.now in
        r.code ≡ with_items (array_part (base_of scope (array_view a.now))
        (array_items scope (4 * length b.code) (array_view a.now))) b) }
    ensures base { IfOk result (λ r.
        perhaps_base r.base ≡ base_of (scope_of frame.now) (array_view a.now)) }
    ensures reach { IfOk result (λ r.
        extent_of r.reach ≡ extent (scope_of frame.now) (array_view a.now)) }
{
    match base_of(a, frame)? {
        None => {
            let (first, reach) = array(a, frame, b)?;
            let code = first.put(Op::PushPri, 0)?;
            Ok(Indexed {
                code,
                base: None,
                reach,
            })
        }
        Some(base) => {
            let reach = reach_of(a, frame)?;
            Ok(Indexed {
                code: b,
                base: Some(base),
                reach,
            })
        }
    }
}

/// A place, up to where its index leads.
#[cycle(emit)]
fn index(p: &Scalar, frame: &Frame<'_>, b: Builder) -> Result<Builder, Memory>
    requires { Serves frame.now }
    ensures { IfOk result (λ r. r ≡ with_items
        (index_items (scope_of frame.now) (4 * length b.code) (scalar_view p.now)) b) }
{
    match p {
        Scalar::Global(o) => object(*o, frame, b),
        Scalar::Slot(s) => slot(*s, frame, b),
        Scalar::Through(s) => through(*s, b),
        Scalar::Element(a, e) => {
            let Indexed { code, base, reach } = start_array(a, frame, b)?;
            let behind = value(e, frame, code)?;
            element(size_of(reach), base, behind)
        }
        Scalar::Char(a, e) => {
            let Indexed { code, base, reach } = start_array(a, frame, b)?;
            let behind = value(e, frame, code)?;
            character(characters_of(reach), base, behind)
        }
    }
}

/// The address of a place, to PRI.
#[cycle(emit)]
fn place(p: &Scalar, frame: &Frame<'_>, b: Builder) -> Result<Builder, Memory>
    requires { Serves frame.now }
    ensures { IfOk result (λ r. r ≡ with_items
        (place_items (scope_of frame.now) (4 * length b.code) (scalar_view p.now)) b) }
{
    let led = index(p, frame, b)?;
    address(p, led)
}

/// What stands at a place, to PRI.
#[cycle(emit)]
fn read(p: &Scalar, frame: &Frame<'_>, b: Builder) -> Result<Builder, Memory>
    requires { Serves frame.now }
    ensures { IfOk result (λ r. let scope = scope_of frame.now in
        r ≡ with_items (read_by (direct_of scope (scalar_view p.now)) (scalar_view p.now)
        (index_items scope (4 * length b.code) (scalar_view p.now))) b) }
{
    match direct_of(p, frame)? {
        None => {
            let led = index(p, frame, b)?;
            fetch(p, led)
        }
        Some(d) => d.load(b),
    }
}

/// The address of an array, to PRI, and how far it reaches.
#[cycle(emit)]
fn array(a: &Array, frame: &Frame<'_>, b: Builder) -> Result<(Builder, Reach), Memory>
    requires { Serves frame.now }
    ensures code { IfOk result (λ r. r.0 ≡ with_items
        (array_items (scope_of frame.now) (4 * length b.code) (array_view a.now)) b) }
    ensures reach { IfOk result (λ r.
        extent_of r.1 ≡ extent (scope_of frame.now) (array_view a.now)) }
{
    match a {
        Array::Object(o) => Ok((object(*o, frame, b)?, object_reach(*o, frame))),
        Array::SlotArray(s) => Ok((slot(*s, frame, b)?, slot_reach(*s, frame))),
        Array::ParamArray(s, known) => {
            let reach = param_reach(*s, *known, frame)?;
            Ok((through(*s, b)?, reach))
        }
        Array::Row(a, e) => {
            let Indexed { code, base, reach } = start_array(a, frame, b)?;
            let behind = value(e, frame, code)?;
            let led = element(size_of(reach), base, behind)?;
            let done = row(led)?;
            Ok((done, row_of(reach)))
        }
        Array::From(a, e) => {
            let Indexed { code, base, reach } = start_array(a, frame, b)?;
            let behind = value(e, frame, code)?;
            let led = element(size_of(reach), base, behind)?;
            let done = led.put(Op::Idxaddr, 0)?;
            Ok((done, rest_of(reach)))
        }
    }
}

/// A second value, while the first one waits.
#[cycle(emit)]
fn beside(e: &Expr, frame: &Frame<'_>, b: Builder) -> Result<Builder, Memory>
    requires { Serves frame.now }
    ensures { IfOk result (λ r. r ≡ with_items (alone Op.PushPri ∷
        value_items (scope_of frame.now) (4 * length b.code + 4) (expr_view e.now)) b) }
{
    let waits = b.put(Op::PushPri, 0)?;
    let both = value(e, frame, waits)?;
    Ok(both)
}

/// A second array, while the address of the first one waits.
#[cycle(emit)]
fn array_beside(a: &Array, frame: &Frame<'_>, b: Builder) -> Result<Builder, Memory>
    requires { Serves frame.now }
    ensures { IfOk result (λ r. r ≡ with_items (alone Op.PushPri ∷
        array_items (scope_of frame.now) (4 * length b.code + 4) (array_view a.now)) b) }
{
    let waits = b.put(Op::PushPri, 0)?;
    let (both, _) = array(a, frame, waits)?;
    Ok(both)
}

/// A left operand, by how the right one comes: it waits on the stack, or is in PRI.
#[cycle(emit)]
fn left(e: &Expr, how: Right, frame: &Frame<'_>, b: Builder) -> Result<Builder, Memory>
    requires { Serves frame.now }
    ensures { IfOk result (λ r. let scope = scope_of frame.now in
        r ≡ with_items (left_by (right_view how) (value_push scope (expr_view e.now))
        (value_items scope (4 * length b.code) (expr_view e.now))) b) }
{
    match how {
        Right::Known(_) | Right::Placed(_) => value(e, frame, b),
        Right::Waiting => push_value(e, frame, b),
    }
}

/// An operator behind its left operand, by how the right one comes.
#[cycle(emit)]
fn operate(
    o: Operator,
    e: &Expr,
    how: Right,
    frame: &Frame<'_>,
    b: Builder,
) -> Result<Builder, Memory>
    requires { Serves frame.now }
    ensures { IfOk result (λ r. r ≡ with_items (operate_by o (right_view how)
        (value_items (scope_of frame.now) (4 * length b.code) (expr_view e.now))) b) }
{
    match how {
        Right::Known(v) => operate_known(o, v, b),
        Right::Placed(d) => operate_placed(o, d, b),
        Right::Waiting => {
            let right = value(e, frame, b)?;
            let moved = right.put(Op::PopAlt, 0)?;
            operator(o, moved)
        }
    }
}

/// A place that is to be read or written: its address, to PRI, where it isn't direct.
#[cycle(emit)]
pub(crate) fn target(p: &Scalar, frame: &Frame<'_>, b: Builder) -> Result<Target, Memory>
    requires { Serves frame.now }
    ensures code { IfOk result (λ r. let scope = scope_of frame.now in
        r.code ≡ with_items (address_part (direct_of scope (scalar_view p.now))
        (place_items scope (4 * length b.code) (scalar_view p.now))) b) }
    ensures direct { IfOk result (λ r.
        perhaps_direct r.direct ≡ direct_of (scope_of frame.now) (scalar_view p.now)) }
{
    match direct_of(p, frame)? {
        None => {
            let code = place(p, frame, b)?;
            Ok(Target { code, direct: None })
        }
        Some(d) => Ok(Target {
            code: b,
            direct: Some(d),
        }),
    }
}

/// A value beside the address in PRI, which waits in ALT where the value is quiet, and else on the
/// stack.
#[cycle(emit)]
fn beside_address(e: &Expr, how: Right, frame: &Frame<'_>, b: Builder) -> Result<Builder, Memory>
    requires { Serves frame.now }
    ensures { IfOk result (λ r. r ≡ with_items (beside_part (right_view how)
        (value_items (scope_of frame.now) (4 * length b.code + 4) (expr_view e.now))) b) }
{
    match how {
        Right::Known(v) => move_constant(v, b),
        Right::Placed(d) => move_placed(d, b),
        Right::Waiting => beside(e, frame, b),
    }
}

/// A value for a place, to PRI.
#[cycle(emit)]
fn operand(e: &Expr, frame: &Frame<'_>, at: Target) -> Result<Valued, Memory>
    requires { Serves frame.now }
    ensures code { IfOk result (λ r. r.code ≡ with_items
        (value_part (perhaps_direct at.direct) (right_view r.how) (4 * length at.code.code)
        (λ q. value_items (scope_of frame.now) q (expr_view e.now))) at.code) }
    ensures direct { IfOk result (λ r. r.direct ≡ at.direct) }
    ensures how { IfOk result (λ r.
        right_view r.how ≡ right_of (scope_of frame.now) (expr_view e.now)) }
{
    let Target { code, direct } = at;
    let how = right_of(e, frame)?;
    match direct {
        None => {
            let code = beside_address(e, how, frame, code)?;
            Ok(Valued {
                code,
                direct: None,
                how,
            })
        }
        Some(d) => {
            let code = value(e, frame, code)?;
            Ok(Valued {
                code,
                direct: Some(d),
                how,
            })
        }
    }
}

/// An operand of an update, to PRI, where it isn't quiet; the place's address waits where it has
/// one.
#[cycle(emit)]
fn waiting_operand(e: &Expr, frame: &Frame<'_>, at: Target) -> Result<Builder, Memory>
    requires { Serves frame.now }
    ensures { IfOk result (λ r. r ≡ with_items
        (operand_part (perhaps_direct at.direct) Waiting (4 * length at.code.code)
        (λ q. value_items (scope_of frame.now) q (expr_view e.now))) at.code) }
{
    let Target { code, direct } = at;
    match direct {
        None => beside(e, frame, code),
        Some(_) => value(e, frame, code),
    }
}

/// An update's operand, and how it comes.
#[cycle(emit)]
fn update_operand(e: &Expr, frame: &Frame<'_>, at: Target) -> Result<Valued, Memory>
    requires { Serves frame.now }
    ensures code { IfOk result (λ r. r.code ≡ with_items
        (operand_part (perhaps_direct at.direct) (right_view r.how) (4 * length at.code.code)
        (λ q. value_items (scope_of frame.now) q (expr_view e.now))) at.code) }
    ensures direct { IfOk result (λ r. r.direct ≡ at.direct) }
    ensures how { IfOk result (λ r.
        right_view r.how ≡ right_of (scope_of frame.now) (expr_view e.now)) }
{
    let direct = at.direct;
    match right_of(e, frame)? {
        Right::Waiting => {
            let code = waiting_operand(e, frame, at)?;
            Ok(Valued {
                code,
                direct,
                how: Right::Waiting,
            })
        }
        how => Ok(Valued {
            code: at.code,
            direct,
            how,
        }),
    }
}

/// The value of an expression, to PRI: a constant, where it folds.
#[cycle(emit)]
pub(crate) fn value(e: &Expr, frame: &Frame<'_>, b: Builder) -> Result<Builder, Memory>
    requires { Serves frame.now }
    ensures { IfOk result (λ r. r ≡ with_items
        (value_items (scope_of frame.now) (4 * length b.code) (expr_view e.now)) b) }
{
    match folded(e) {
        Some(v) => constant(v, b),
        None => node(e, frame, b),
    }
}

/// The value of an expression that doesn't fold, to PRI.
#[cycle(emit)]
fn node(e: &Expr, frame: &Frame<'_>, b: Builder) -> Result<Builder, Memory>
    requires serves { Serves frame.now }
    requires open { fold (expr_view e.now) ≡ None }
    ensures { IfOk result (λ r. r ≡ with_items
        (value_items (scope_of frame.now) (4 * length b.code) (expr_view e.now)) b) }
{
    match e {
        Expr::Const(v) => constant(*v, b),
        Expr::Read(p) => read(p, frame, b),
        Expr::Unary(o, x) => unary(*o, x, frame, b),
        Expr::Binary(o, x, y) => binary(*o, x, y, frame, b),
        Expr::Chain(x, links) => chain(links, frame, value(x, frame, b)?),
        Expr::And(x, y) => conjunction(x, y, frame, b),
        Expr::Or(x, y) => disjunction(x, y, frame, b),
        Expr::Cond(c, x, y) => choice(c, x, y, frame, b),
        Expr::Assign(p, x) => assignment(p, x, frame, b),
        Expr::Update(p, o, x) => updating(p, *o, x, frame, b),
        Expr::UpdateBy(p, f, swapped, x, convert) => {
            let by = UserOperator {
                function: *f,
                swapped: *swapped,
                convert: *convert,
            };
            user_update(p, by, x, frame, b)
        }
        Expr::Step(p, delta, first) => one_step(p, *delta, *first, frame, b),
        Expr::StepBy(p, f, first) => user_step(p, *f, *first, frame, b),
        Expr::Copy(to, from, n) => array_copy(to, from, *n, frame, b),
        Expr::Operate(f, x, y, swapped) => user_operator(*f, *swapped, x, y, frame, b),
        Expr::OperateOne(f, x) => user_prefix(*f, x, frame, b),
        Expr::Call(f, args) => called(*f, args, frame, b),
        Expr::Native(n, args) => native_called(*n, args, frame, b),
        Expr::Seq(x, y) => sequence(x, y, frame, b),
    }
}

/// What is done where a condition holds. Its end, where the jump that comes last is to lead, isn't
/// known yet.
#[cycle(emit)]
fn first_part(x: &Expr, frame: &Frame<'_>, b: Builder) -> Result<Builder, Memory>
    requires { Serves frame.now }
    ensures { IfOk result (λ r.
        let p = 4 * length b.code in
        let part = value_items (scope_of frame.now) (p + 8) (expr_view x.now) in
        r ≡ with_items (jump_to Op.Jzer (other_at p part) ∷ (part ++ jump_to Op.Jump 0 ∷ [])) b) }
{
    let tested = b.put(Op::Jzer, 0)?;
    let other = last_cell(&tested)?;
    let first = value(x, frame, tested)?;
    let opened = turn(other, first)?;
    Ok(opened)
}

/// The second operand of `&&`, where the first one isn't 0.
#[cycle(emit)]
fn and_then(y: &Expr, frame: &Frame<'_>, b: Builder) -> Result<Builder, Memory>
    requires { Serves frame.now }
    ensures { IfOk result (λ r.
        let p = 4 * length b.code in
        let part = value_items (scope_of frame.now) (p + 8) (expr_view y.now) in
        r ≡ with_items (choice_code p (part ++ truth_code) (const_code (pos 0))) b) }
{
    let tested = b.put(Op::Jzer, 0)?;
    let other = last_cell(&tested)?;
    let part = value(y, frame, tested)?;
    let first = truth(part)?;
    let opened = turn(other, first)?;
    let end = last_cell(&opened)?;
    let second = opened.put(Op::ZeroPri, 0)?;
    let done = land(end, second)?;
    Ok(done)
}

/// The second operand of `||`, where the first one is 0.
#[cycle(emit)]
fn or_else(y: &Expr, frame: &Frame<'_>, b: Builder) -> Result<Builder, Memory>
    requires { Serves frame.now }
    ensures { IfOk result (λ r.
        let p = 4 * length b.code in
        let one = const_code (pos 1) in
        let part = value_items (scope_of frame.now) (other_at p one) (expr_view y.now) in
        r ≡ with_items (choice_code p one (part ++ truth_code)) b) }
{
    let tested = b.put(Op::Jzer, 0)?;
    let other = last_cell(&tested)?;
    let first = tested.put(Op::ConstPri, 1)?;
    let opened = turn(other, first)?;
    let end = last_cell(&opened)?;
    let part = value(y, frame, opened)?;
    let second = truth(part)?;
    let done = land(end, second)?;
    Ok(done)
}
