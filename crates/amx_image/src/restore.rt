ghost use Rattle.std.specs.Prelude.{◌≡◌, ◌+◌, ◌*◌, ◌≤◌, ◌++◌, drop, length};
ghost use Rattle.amx_format.specs.Numbers.{cells_at};
ghost use Rattle.amx_image.specs.Examined as examined;
ghost use Rattle.amx_image.specs.Restored.{Restores};
ghost use Rattle.amx_image.specs.Rows.{IsLiveRow, with_row};

use super::buffer::cells_of;
use super::examine::examine;
use super::fault::ImageFault;
use super::number::{read_cell, read_registers, read_word};
use super::place::{CELLS, POSITION};
use super::version::Version;
use amx_machine::Machine;

/// Sets a machine to the state of an image of its file, at a sleep, and tells the script's position
/// there; or tells why the bytes are no such image, and changes nothing. Images with all cells and
/// those with the live ones are read, the digest is that of the file, and no memory is taken.
pub fn restore_into(
    machine: &mut Machine,
    digest: &[u8; 32],
    bytes: &[u8],
) -> Result<u32, ImageFault>
    ensures { Restores machine.old digest.now bytes.now result machine.new }
{
    let count = cells_of(machine);
    let version = examine(machine.verified(), count, digest, bytes)?;
    let registers = read_registers(bytes);
    let hea = registers.hea.cast_unsigned();
    let stk = registers.stk.cast_unsigned();
    machine.set_asleep(registers);
    put_row(machine, 0, bytes, CELLS, hea / 4);
    let place = stack_place(version, hea, stk);
    put_row(machine, stk, bytes, place, count - stk / 4);
    Ok(read_word(bytes, POSITION))
}

/// Where an image has the cells of the stack.
fn stack_place(version: Version, hea: u32, stk: u32) -> usize
    ensures { result ≡ examined.stack_place version hea stk }
{
    match version {
        Version::Whole => CELLS + stk as usize,
        Version::Live => CELLS + hea as usize,
    }
}

/// Writes so many live cells from an address on, as they stand in an image from a place on.
fn put_row(machine: &mut Machine, at: u32, bytes: &[u8], place: usize, count: u32)
    requires live { IsLiveRow machine.old.state at count }
    requires long { place + 4 * count ≤ length bytes.now }
    ensures { machine.new ≡ record machine.old {
      state = with_row machine.old.state at (cells_at bytes.now place count);
    } }
{
    // For the prover alone: by its clauses the registers are in order.
    let _ = machine.registers();
    put_cells(
        machine.live_from_mut(at.cast_signed()),
        bytes,
        place,
        count as usize,
    );
}

/// Puts so many cells, as they stand in an image from a place on, in the place of a row's first.
fn put_cells(row: &mut [i32], bytes: &[u8], place: usize, count: usize)
    requires room { count ≤ length row.old }
    requires long { place + 4 * count ≤ length bytes.now }
    ensures { row.new ≡ cells_at bytes.now place count ++ drop count row.old }
{
    for index in 0..count {
        row[index] = read_cell(bytes, place + 4 * index);
    }
}
