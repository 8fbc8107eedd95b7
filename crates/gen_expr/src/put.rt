ghost use Rattle.std.specs.Prelude.{◌≡◌, ◌*◌, [], ◌∷◌, pos, length, IfOk};
ghost use Rattle.gen_sim.specs.Items.{CallOf};
ghost use Rattle.gen_sim.specs.SimpleCode.{const_code, alt_code};
ghost use Rattle.gen_expr.specs.Built.{with_items};

use super::builder::Builder;
use amx_ops::Op;
use pawn_base::Memory;

/// A number as a cell. Where it is too large, no memory holds what it counts.
pub fn cell_of(n: u64) -> Result<i32, Memory>
    ensures { IfOk result (λ x. x ≡ pos n) }
{
    if n < 2_147_483_648 {
        Ok(n as i32)
    } else {
        Err(Memory)
    }
}

/// A cell that is known, to PRI.
pub fn constant(v: i32, b: Builder) -> Result<Builder, Memory>
    ensures { IfOk result (λ r. r ≡ with_items (const_code v) b) }
{
    if v == 0 {
        b.put(Op::ZeroPri, 0)
    } else {
        b.put(Op::ConstPri, v)
    }
}

/// A cell that is known, to ALT.
pub fn constant_alt(v: i32, b: Builder) -> Result<Builder, Memory>
    ensures { IfOk result (λ r. r ≡ with_items (alt_code v) b) }
{
    if v == 0 {
        b.put(Op::ZeroAlt, 0)
    } else {
        b.put(Op::ConstAlt, v)
    }
}

/// A number of elements. Where it is too large, no memory holds them.
pub fn count_of(n: usize) -> Result<u32, Memory>
    ensures { IfOk result (λ count. count ≡ n) }
{
    if n < 4_294_967_296 {
        Ok(n as u32)
    } else {
        Err(Memory)
    }
}

/// The address at which what is appended next begins.
pub fn address(b: &Builder) -> Result<i32, Memory>
    ensures { IfOk result (λ x. x ≡ pos (4 * length b.now.code)) }
{
    cell_of(4 * b.code().len() as u64)
}

/// Calls a function.
pub fn call(f: u32, b: Builder) -> Result<Builder, Memory>
    ensures { IfOk result (λ r. r ≡ with_items (CallOf f ∷ []) b) }
{
    if b.code().len() >= 4_294_967_294 {
        return Err(Memory);
    }
    b.call(f)
}
