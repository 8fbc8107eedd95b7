ghost use Rattle.std.specs.Prelude.{◌≡◌, ◌*◌, ◌<◌, ◌^◌, ◌++◌, [], ◌∷◌, pos, IfOk, replicate};
ghost use Rattle.gen_laws.specs.SwitchCode.{table_item};
ghost use Rattle.gen_expr.specs.Built.{with_items};

use amx_ops::Op;
use gen_expr::Builder;
use pawn_base::Memory;

/// Appends so many cells 0.
fn zeros(count: u32, b: Builder) -> Result<Builder, Memory>
    ensures { IfOk result (λ r. r ≡ record b { code = b.code ++ replicate count (pos 0) }) }
{
    let mut grown = b;
    for i in 0..count {
        grown = grown.cell(0)?;
    }
    Ok(grown)
}

/// Appends a case table of so many pairs, whose cells are 0 until they are written.
pub fn table(count: u32, b: Builder) -> Result<Builder, Memory>
    requires { count < 2 ^ 28 }
    ensures { IfOk result (λ r.
        r ≡ with_items (table_item count 0 (replicate (2 * count) (pos 0)) ∷ []) b) }
{
    let opened = b.cell(i32::from(Op::Casetbl.number()))?;
    let counted = opened.cell(count as i32)?;
    let default = counted.cell(0)?;
    let done = zeros(2 * count, default)?;
    Ok(done)
}
