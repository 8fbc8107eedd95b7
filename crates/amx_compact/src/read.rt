ghost use Rattle.std.specs.Prelude.{◌≡◌, ◌≢◌, ◌<◌, ◌≤◌, ◌++◌, ◌↔◌, ℕ, ℤ, List, [], Result, length};
ghost use Rattle.std.specs.Prelude.{IfOk, IfErr, IsTrue};
ghost use Rattle.amx_compact.specs.Causes.{Answers, HasNoCell};
ghost use Rattle.amx_compact.specs.Fits.{Fits};
ghost use Rattle.amx_compact.specs.Spelled.{Spelled, SpelledAll, ShortestAll};
ghost use Rattle.amx_compact.specs.declared.fault.CompactFault.{CompactFault};

use super::fault::CompactFault;
use pawn_base::Cells;
use std::alloc::Global;

/// Reads this many cells, which are all of the bytes. Longer spellings than the shortest are good.
pub fn read_cells(alloc: Global, bytes: &[u8], count: u32) -> Result<Cells, CompactFault>
    ensures answer { Answers bytes.now count result }

    // There is no other answer, but want of memory.
    ensures only { (answer : Result (List ℤ) CompactFault) → Answers bytes.now count answer →
        answer ≢ Err CompactFault.Memory → result ≢ Err CompactFault.Memory → result ≡ answer }

    // So what was written is read back.
    ensures written { (cells : List ℤ) → ShortestAll cells bytes.now → length cells ≡ count →
        result ≢ Err CompactFault.Memory → result ≡ Ok cells }
{
    let mut cells = Cells::new(alloc);
    let mut rest = bytes;
    for _ in 0..count {
        let (cell, after) = read_cell(rest)?;
        cells.push(cell)?;
        rest = after;
    }
    if !rest.is_empty() {
        return Err(CompactFault::TooMany);
    }
    Ok(cells)
}

/// Whether the spellings of the first cells take at most four bytes each, however many cells they
/// are. Such cells can be expanded from the end in the room that they take in the end.
pub fn fits(bytes: &[u8], count: u32) -> bool
    requires { (cells : List ℤ) × SpelledAll cells bytes.now × (length cells ≡ count) }
    ensures { IsTrue result ↔ Fits bytes.now }
{
    let mut rest = bytes;
    for index in 0..count {
        match read_cell(rest) {
            Ok((_, after)) => rest = after,
            Err(_) => unreachable!(),
        }
        if bytes.len() - rest.len() > 4 * (index as usize + 1) {
            return false;
        }
    }
    true
}

/// Reads the cell at the front, and gives the bytes behind it.
fn read_cell(bytes: &[u8]) -> Result<(i32, &[u8]), CompactFault>
    ensures found { IfOk result (λ read. (front : List ℕ) × Spelled read.0 front
        × (bytes.now ≡ front ++ read.1.now)) }
    ensures fault { IfErr result (HasNoCell bytes.now) }
{
    let sign = match bytes.first() {
        Some(first) => first / 64 % 2,
        None => return Err(CompactFault::Short),
    };
    let mut sum = -i32::from(sign);
    for (index, byte) in bytes.iter().enumerate() {
        if index == 5 {
            return Err(CompactFault::GroupTooLong);
        }
        sum = sum.wrapping_mul(128).wrapping_add(i32::from(byte % 128));
        if *byte < 128 {
            return Ok((sum, &bytes[index + 1..]));
        }
    }
    Err(CompactFault::OpenGroup)
}
