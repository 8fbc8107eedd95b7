ghost use Rattle.std.specs.Prelude.{◌≡◌, ◌*◌, length, None, IfOk};
ghost use Rattle.pawn_meaning.specs.View.{scalar_view, array_view, expr_view};
ghost use Rattle.pawn_meaning.specs.View.{arg_view, args_view};
ghost use Rattle.pawn_meaning.specs.Need as need;
ghost use Rattle.gen_sim.specs.Results.{temporaries_in};
ghost use Rattle.gen_sim.specs.CallCode.{call_code, native_code};
ghost use Rattle.gen_sim.specs.PushCode.{value_push, place_push, array_push, pushed_by};
ghost use Rattle.gen_laws.specs.ExprCode.{place_items, array_items, value_items};
ghost use Rattle.gen_laws.specs.ExprCode.{arg_items, args_items};
ghost use Rattle.gen_expr.specs.Built.{with_items};
ghost use Rattle.gen_expr.specs.Standing.{scope_of, Serves};

use super::{array, place, value};
use crate::access::address;
use crate::arguments::{counted, give_back, native, temporary};
use crate::builder::Builder;
use crate::counts::temporaries;
use crate::frame::Frame;
use crate::push::{array_push, place_push, value_push};
use crate::put::count_of;
use amx_ops::Op;
use pawn_base::{List, Memory};
use pawn_meaning::{Arg, Array, Expr, Scalar};

/// The value of an expression is pushed.
#[cycle(emit)]
pub(crate) fn push_value(e: &Expr, frame: &Frame<'_>, b: Builder) -> Result<Builder, Memory>
    requires { Serves frame.now }
    ensures { IfOk result (λ r. let scope = scope_of frame.now in
        r ≡ with_items (pushed_by (value_push scope (expr_view e.now))
        (value_items scope (4 * length b.code) (expr_view e.now))) b) }
{
    match value_push(e, frame)? {
        Some(push) => push.append(b),
        None => {
            let part = value(e, frame, b)?;
            part.put(Op::PushPri, 0)
        }
    }
}

/// The address of a place is pushed.
#[cycle(emit)]
pub(super) fn push_place(p: &Scalar, frame: &Frame<'_>, b: Builder) -> Result<Builder, Memory>
    requires { Serves frame.now }
    ensures { IfOk result (λ r. let scope = scope_of frame.now in
        r ≡ with_items (pushed_by (place_push scope (scalar_view p.now))
        (place_items scope (4 * length b.code) (scalar_view p.now))) b) }
{
    match place_push(p, frame)? {
        Some(push) => push.append(b),
        None => {
            let part = place(p, frame, b)?;
            part.put(Op::PushPri, 0)
        }
    }
}

/// The address of an array is pushed.
#[cycle(emit)]
pub(super) fn push_array(a: &Array, frame: &Frame<'_>, b: Builder) -> Result<Builder, Memory>
    requires { Serves frame.now }
    ensures { IfOk result (λ r. let scope = scope_of frame.now in
        r ≡ with_items (pushed_by (array_push scope (array_view a.now))
        (array_items scope (4 * length b.code) (array_view a.now))) b) }
{
    match array_push(a, frame)? {
        Some(push) => push.append(b),
        None => {
            let (part, _) = array(a, frame, b)?;
            part.put(Op::PushPri, 0)
        }
    }
}

/// An argument, which is pushed.
#[cycle(emit)]
pub(super) fn argument(a: &Arg, frame: &Frame<'_>, b: Builder) -> Result<Builder, Memory>
    requires { Serves frame.now }
    ensures { IfOk result (λ r. r ≡ with_items
        (arg_items (scope_of frame.now) (4 * length b.code) (arg_view a.now)) b) }
{
    match a {
        Arg::Value(e) => push_value(e, frame, b),
        Arg::Ref(p) => push_place(p, frame, b),
        Arg::Whole(a) => push_array(a, frame, b),
        Arg::Temp(e) => temporary(value(e, frame, b)?),
    }
}

/// Arguments, from the last to the first.
#[cycle(emit)]
pub(super) fn arguments(args: &List<Arg>, frame: &Frame<'_>, b: Builder) -> Result<Builder, Memory>
    requires { Serves frame.now }
    ensures { IfOk result (λ r. r ≡ with_items
        (args_items (scope_of frame.now) (4 * length b.code) (args_view args.now)) b) }
{
    let items = args.as_slice();
    let mut grown = b;
    for passed in 0..items.len() {
        let at = items.len() - 1 - passed;
        let next = argument(&items[at], frame, grown)?;
        grown = next;
    }
    Ok(grown)
}

/// A call: its arguments, and what stands behind them.
#[cycle(emit)]
pub(super) fn called(
    f: u32,
    args: &List<Arg>,
    frame: &Frame<'_>,
    b: Builder,
) -> Result<Builder, Memory>
    requires { Serves frame.now }
    ensures { IfOk result (λ r. let all = args_view args.now in
        r ≡ with_items (call_code f (need.count_of all) (temporaries_in all)
        (args_items (scope_of frame.now) (4 * length b.code) all)) b) }
{
    let count = count_of(args.len())?;
    let cells = temporaries(args.as_slice())?;
    let pushed = arguments(args, frame, b)?;
    let done = counted(f, count, pushed)?;
    let cleared = give_back(cells, done)?;
    Ok(cleared)
}

/// A call of a native.
#[cycle(emit)]
pub(super) fn native_called(
    n: u32,
    args: &List<Arg>,
    frame: &Frame<'_>,
    b: Builder,
) -> Result<Builder, Memory>
    requires { Serves frame.now }
    ensures { IfOk result (λ r. let all = args_view args.now in
        r ≡ with_items (native_code n (need.count_of all) (temporaries_in all)
        (args_items (scope_of frame.now) (4 * length b.code) all)) b) }
{
    let count = count_of(args.len())?;
    let cells = temporaries(args.as_slice())?;
    let pushed = arguments(args, frame, b)?;
    let done = native(n, count, pushed)?;
    let cleared = give_back(cells, done)?;
    Ok(cleared)
}
