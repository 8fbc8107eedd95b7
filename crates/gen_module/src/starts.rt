ghost use Rattle.std.specs.Prelude.{◌≡◌, ℕ, pos, IfOk};
ghost use Rattle.gen_module.specs.Starts.{Finds};

use pawn_base::Memory;

/// The address of a part of code, by its number. Where the list has none, no part has the number.
pub fn start_at(part: u32, starts: &[i32]) -> Result<i32, Memory>
    ensures { (address : ℕ → ℕ) → Finds address starts.now →
        IfOk result (λ x. x ≡ pos (address part)) }
{
    match starts.get(part as usize) {
        Some(address) => Ok(*address),
        None => Err(Memory),
    }
}
