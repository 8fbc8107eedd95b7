ghost use Rattle.std.specs.Prelude.{◌≡◌, ◌+◌, ◌*◌, [], length, None, IfOk};
ghost use Rattle.pawn_meaning.specs.View.{expr_view};
ghost use Rattle.pawn_meaning.specs.View.{links_view};
ghost use Rattle.gen_sim.specs.ChainCode.{link_code, last_link_by, middle_link_code};
ghost use Rattle.gen_sim.specs.OperandCode.{Waiting, right_of, bring_code};
ghost use Rattle.gen_laws.specs.ExprCode.{value_items};
ghost use Rattle.gen_expr.specs.Built.{with_items};
ghost use Rattle.gen_expr.specs.Standing.{scope_of, Serves};
ghost use Rattle.gen_expr.specs.ChainItems.{chain_items};
ghost use Rattle.gen_expr.specs.RightView.{right_view};

use super::beside;
use crate::builder::Builder;
use crate::calls::{one, two_by};
use crate::chain::{compared, ended};
use crate::frame::Frame;
use crate::jumps::cell_before_last;
use crate::operators::two;
use crate::right::{Right, compare_by, right_of};
use amx_ops::Op;
use pawn_base::{List, Memory};
use pawn_meaning::{Expr, Link};

/// A link with others behind it. Where it leads if it doesn't hold isn't known yet.
#[cycle(emit)]
pub(super) fn middle(link: &Link, frame: &Frame<'_>, b: Builder) -> Result<Builder, Memory>
    requires { Serves frame.now }
    ensures { IfOk result (λ r. r ≡ with_items (middle_link_code 0
        (value_items (scope_of frame.now) (4 * length b.code + 4) (expr_view link.now.operand))
        (link_code link.now.op link.now.function link.now.swapped) []) b) }
{
    let both = beside(&link.operand, frame, b)?;
    let waits = two(Op::PopAlt, Op::PushPri, both)?;
    let tested = compared(link, waits)?;
    let jumped = tested.put(Op::Jzer, 0)?;
    let done = jumped.put(Op::PopPri, 0)?;
    Ok(done)
}

/// The last link.
#[cycle(emit)]
pub(super) fn last(link: &Link, frame: &Frame<'_>, b: Builder) -> Result<Builder, Memory>
    requires { Serves frame.now }
    ensures { IfOk result (λ r.
        let scope = scope_of frame.now in
        let e = expr_view link.now.operand in
        r ≡ with_items (last_link_by link.now.op link.now.function link.now.swapped
        (right_of scope e) (value_items scope (4 * length b.code + 4) e)) b) }
{
    match link.function {
        None => {
            let how = right_of(&link.operand, frame)?;
            let brought = bring(&link.operand, how, frame, b)?;
            compare_by(how, link.op, brought)
        }
        Some(f) => {
            let both = beside(&link.operand, frame, b)?;
            let waits = both.put(Op::PopAlt, 0)?;
            two_by(f, link.swapped, waits)
        }
    }
}

/// Brings a right operand, while the left one is in PRI.
#[cycle(emit)]
pub(crate) fn bring(e: &Expr, how: Right, frame: &Frame<'_>, b: Builder) -> Result<Builder, Memory>
    requires { Serves frame.now }
    ensures { IfOk result (λ r. r ≡ with_items (bring_code (right_view how)
        (value_items (scope_of frame.now) (4 * length b.code + 4) (expr_view e.now))) b) }
{
    match how {
        Right::Known(v) => b.put(Op::ConstAlt, v),
        Right::Placed(d) => d.load_alt(b),
        Right::Waiting => {
            let both = beside(e, frame, b)?;
            both.put(Op::PopAlt, 0)
        }
    }
}

/// The links of a chain, behind its first operand, and what stands behind several of them.
#[cycle(emit)]
pub(super) fn chain(links: &List<Link>, frame: &Frame<'_>, b: Builder) -> Result<Builder, Memory>
    requires { Serves frame.now }
    ensures { IfOk result (λ r. r ≡ with_items
        (chain_items (scope_of frame.now) (4 * length b.code) (links_view links.now)) b) }
{
    let items = links.as_slice();
    if items.is_empty() {
        return Ok(b);
    }
    let mut holes = List::new(frame.alloc);
    let mut grown = b;
    let end = items.len() - 1;
    for i in 0..end {
        let next = middle(&items[i], frame, grown)?;
        let hole = cell_before_last(&next)?;
        holes.push(hole)?;
        grown = next;
    }
    let linked = last(&items[end], frame, grown)?;
    ended(holes.as_slice(), linked)
}
