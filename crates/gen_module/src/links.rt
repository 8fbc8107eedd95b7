ghost use Rattle.std.specs.Prelude.{◌≡◌, ℕ, List, length, IfOk};
ghost use Rattle.gen_sim.specs.Items.{Item, cells_with};
ghost use Rattle.gen_expr.specs.Built.{with_items};
ghost use Rattle.gen_module.specs.Starts.{Finds};
ghost use Rattle.gen_module.specs.Linked.{linked_with, AreIn, nothing};

use super::starts::start_at;
use gen_expr::Builder;
use pawn_base::{Cells, Memory};
use std::alloc::Global;

/// The code that was appended, with its calls led to their functions.
pub(crate) fn linked(alloc: Global, b: &Builder, entries: &[i32]) -> Result<Cells, Memory>
    requires { (items : List Item) × (b.now ≡ with_items items nothing) }
    ensures { (items : List Item) (entry : ℕ → ℕ) → b.now ≡ with_items items nothing →
        Finds entry entries.now → IfOk result (λ it. it ≡ cells_with entry items) }
{
    let code = Cells::from_slice(alloc, b.code())?;
    let all = led(code, b.waits(), entries)?;
    Ok(all)
}

/// Code with the address of its function in each cell that waits for one.
fn led(code: Cells, waits: &[(u32, u32)], entries: &[i32]) -> Result<Cells, Memory>
    requires { AreIn (length code) waits.now }
    ensures { (entry : ℕ → ℕ) → Finds entry entries.now →
        IfOk result (λ it. it ≡ linked_with entry waits.now code) }
{
    let mut all = code;
    for wait in waits {
        let (at, f) = *wait;
        let address = start_at(f, entries)?;
        all.set(at as usize, address);
    }
    Ok(all)
}
