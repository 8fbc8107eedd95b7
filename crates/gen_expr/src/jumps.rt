ghost use Rattle.std.specs.Prelude.{◌≡◌, ◌<◌, ◌+◌, ◌*◌, [], ◌∷◌, pos, length, IfOk};
ghost use Rattle.gen_sim.specs.JumpCode.{jump_to, truth_code};
ghost use Rattle.gen_expr.specs.Built.{with_items};
ghost use Rattle.gen_expr.specs.Filled.{filled};

use super::builder::Builder;
use super::operators::two;
use super::put::{address, cell_of};
use amx_ops::Op;
use pawn_base::Memory;

/// The last cell, which is the operand of a jump that was appended last.
pub fn last_cell(b: &Builder) -> Result<u32, Memory>
    ensures { IfOk result (λ at. at + 1 ≡ length b.now.code) }
{
    let cells = b.code().len();
    if cells > 0 && cells < 4_294_967_296 {
        Ok(cells as u32 - 1)
    } else {
        Err(Memory)
    }
}

/// The cell before the last one.
pub fn cell_before_last(b: &Builder) -> Result<u32, Memory>
    ensures { IfOk result (λ at. at + 2 ≡ length b.now.code) }
{
    let cells = b.code().len();
    if cells > 1 && cells < 4_294_967_296 {
        Ok(cells as u32 - 2)
    } else {
        Err(Memory)
    }
}

/// The jump whose operand is that cell leads to an address.
pub fn lead(hole: u32, to: i32, b: Builder) -> Builder
    requires { hole < length b.code }
    ensures { result ≡ filled hole to b }
{
    let mut led = b;
    led.fill(hole, to);
    led
}

/// The jump whose operand is that cell leads to what is appended next.
pub fn land(hole: u32, b: Builder) -> Result<Builder, Memory>
    requires { hole < length b.code }
    ensures { IfOk result (λ r. r ≡ filled hole (pos (4 * length b.code)) b) }
{
    let to = address(&b)?;
    Ok(lead(hole, to, b))
}

/// Behind the first of two parts: the jump whose operand is that cell leads to the second one,
/// which is appended next, and a jump over it leads nowhere yet.
pub fn turn(hole: u32, b: Builder) -> Result<Builder, Memory>
    requires { hole < length b.code }
    ensures { IfOk result (λ r. r ≡
        with_items (jump_to Op.Jump 0 ∷ []) (filled hole (pos (4 * length b.code + 8)) b)) }
{
    let to = cell_of(4 * b.code().len() as u64 + 8)?;
    let led = lead(hole, to, b);
    led.put(Op::Jump, 0)
}

/// 1 or 0 of the value in PRI.
pub fn truth(b: Builder) -> Result<Builder, Memory>
    ensures { IfOk result (λ r. r ≡ with_items truth_code b) }
{
    two(Op::Not, Op::Not, b)
}
