ghost use Rattle.std.specs.Prelude.{◌≡◌, ◌≤◌, ◌+◌, ◌*◌, ◌/◌, All, length, take};
ghost use Rattle.pawn_cells.specs.Cells.{IsCell};
ghost use Rattle.sha2.specs.Sha256.{sha256};
ghost use Rattle.amx_machine.specs.declared.mode.Mode.TheVariants as mode;
ghost use Rattle.amx_image.specs.declared.version.Version.TheVariants as kind;
ghost use Rattle.amx_image.specs.Image.{IsImage};
ghost use Rattle.amx_image.specs.Spelled.{row_of, before_cells};

use super::buffer::{ImageBuffer, cells_of};
use super::place::{CELLS, MAGIC};
use super::version::LIVE;
use amx_machine::{Machine, Registers};
use sha2::{Digest, Sha256};

/// The SHA-256 of bytes, which ties an image to its file.
pub fn digest(bytes: &[u8]) -> [u8; 32]
    ensures { result ≡ sha256 bytes.now }
{
    Sha256::digest(bytes)
}

/// Writes the image of a machine at a sleep, in version 2: its registers and its live cells, with
/// the script's position and the digest of the file. It takes no memory.
pub fn save_into(machine: &Machine, at: u32, digest: &[u8; 32], out: &mut ImageBuffer)
    requires asleep { machine.now.mode ≡ mode.Asleep }
    requires room { CELLS + 4 * length machine.now.state.cells ≤ out.old.room }
    ensures image { IsImage kind.Live machine.now.state at digest.now out.new.bytes }
    ensures room { out.new.room ≡ out.old.room }
{
    let registers = machine.registers();
    let heap = heap_of(machine);
    let stack = machine.live_from(registers.stk);
    put_front(out, at, registers, cells_of(machine), digest);
    out.put_cells(heap);
    out.put_cells(stack);
}

/// Writes what stands in front of the cells.
fn put_front(out: &mut ImageBuffer, at: u32, registers: Registers, count: u32, digest: &[u8; 32])
    requires { CELLS ≤ out.old.room }
    ensures bytes { out.new ≡ record out.old {
      bytes = before_cells registers at count digest.now;
    } }
    ensures size { length out.new.bytes ≡ CELLS }
    ensures fits { All IsCell (row_of registers) }
{
    out.clear();
    out.put(&MAGIC);
    out.put_half(LIVE);
    out.put_half(0);
    out.put(digest);
    out.put_word(at);
    out.put_cells(&[
        registers.pri,
        registers.alt,
        registers.frm,
        registers.cip,
        registers.stk,
        registers.hea,
    ]);
    out.put_word(count);
}

/// The cells below HEA.
fn heap_of(machine: &Machine) -> &[i32]
    ensures { result.now ≡ take (machine.now.state.hea / 4) machine.now.state.cells }
{
    let count = machine.registers().hea.cast_unsigned() / 4;
    &machine.live_from(0)[..count as usize]
}
