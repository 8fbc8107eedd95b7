ghost use Rattle.std.specs.Prelude.{◌≡◌, ◌+◌, ◌*◌, [], ◌∷◌, pos, length, IfOk};
ghost use Rattle.gen_sim.specs.SimpleCode.{alone, taking};
ghost use Rattle.gen_sim.specs.ChainCode.{link_code};
ghost use Rattle.gen_expr.specs.Built.{with_items};
ghost use Rattle.gen_expr.specs.Holes.{all_filled, ended_by, AreIn};

use super::builder::Builder;
use super::calls::two_by;
use super::jumps::{lead, truth};
use super::operators::compare;
use super::put::cell_of;
use amx_ops::Op;
use pawn_base::Memory;
use pawn_meaning::Link;

/// A comparison of a chain, by the machine or by a user's operator.
pub(crate) fn compared(link: &Link, b: Builder) -> Result<Builder, Memory>
    ensures { IfOk result (λ r. r ≡ with_items
        (link_code link.now.op link.now.function link.now.swapped) b) }
{
    match link.function {
        None => compare(link.op, b),
        Some(f) => two_by(f, link.swapped, b),
    }
}

/// What stands behind the links, where some of them have jumps: 1 or 0 of the last one, and 0 where
/// the jumps lead.
pub(crate) fn ended(holes: &[u32], b: Builder) -> Result<Builder, Memory>
    requires { AreIn (length b.code) holes.now }
    ensures { IfOk result (λ r. r ≡ ended_by holes.now b) }
{
    if holes.is_empty() {
        return Ok(b);
    }
    let links = 4 * b.code().len() as u64;
    let fail = cell_of(links + 16)?;
    let end = cell_of(links + 20)?;
    let made = truth(b)?;
    let jumped = made.put(Op::Jump, end)?;
    let failed = jumped.put(Op::PopAlt, 0)?;
    Ok(lead_all(holes, fail, failed))
}

/// The jumps whose operands are these cells lead to an address.
#[tactic(auto, using(crate::proofs::HoleLaws::fill_more, crate::proofs::HoleLaws::none_filled, crate::proofs::HoleLaws::in_more))]
fn lead_all(holes: &[u32], to: i32, b: Builder) -> Builder
    requires { AreIn (length b.code) holes.now }
    ensures { result ≡ all_filled holes.now to b }
{
    let mut led = b;
    for at in holes {
        led = lead(*at, to, led);
    }
    led
}
