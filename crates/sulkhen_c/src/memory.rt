ghost use Rattle.std.specs.Prelude.{◌≡◌, ◌++◌, drop, length, take};
ghost use Rattle.pawn_cells.specs.Cells.{bits_of};
ghost use Rattle.amx_ops.specs.Moves.{live_from};
ghost use Rattle.sulkhen_c.specs.Cells.{PlacesFor, TextFor, WritesFor, WritesTextFor};

use host_embed::{Refusal, Sulkhen, code_of};

/// Copies as many of the live cells from an address on as there is room for, and tells how many
/// there are.
#[unsafe(no_mangle)]
pub extern "C" fn sulkhen_read(handle: &mut Sulkhen, at: i32, out: &mut [i32]) -> usize
    ensures count { result ≡ length (live_from handle.old.value.machine.state (bits_of at)) }
    ensures cells { let live = live_from handle.old.value.machine.state (bits_of at) in
        out.new ≡ take (length out.old) live ++ drop (length live) out.old }
    ensures kept { handle.new.value ≡ handle.old.value }
{
    handle.held_mut().read(at, out)
}

/// Copies as many characters of the text at an address as there is room for, packed or not, and
/// tells how many it has.
#[unsafe(no_mangle)]
pub extern "C" fn sulkhen_text(
    handle: &mut Sulkhen,
    at: i32,
    out: &mut [i32],
    size: &mut usize,
) -> i32
    ensures text { TextFor handle.old.value at result out.old out.new size.old size.new }
    ensures kept { handle.new.value ≡ handle.old.value }
{
    match handle.held_mut().read_text(at, out) {
        Ok(count) => {
            *size = count;
            0
        }
        Err(refusal) => refusal.code(),
    }
}

/// Writes cells from an address on, where so many are live.
#[unsafe(no_mangle)]
pub extern "C" fn sulkhen_write(handle: &mut Sulkhen, at: i32, cells: &[i32]) -> i32
    ensures { WritesFor handle.old.value at cells.now result handle.new.value }
{
    code_of(handle.held_mut().write(at, cells))
}

/// Writes the cells of a text from an address on, packed or not, with a zero behind its bytes,
/// where so many are live.
#[unsafe(no_mangle)]
pub extern "C" fn sulkhen_write_text(
    handle: &mut Sulkhen,
    at: i32,
    text: &[u8],
    packed: bool,
) -> i32
    ensures { WritesTextFor handle.old.value at packed text.now result handle.new.value }
{
    code_of(handle.held_mut().write_text(at, text, packed))
}

/// The address at which the last so many cells of a start stand, or 3 where there is no room.
#[unsafe(no_mangle)]
pub extern "C" fn sulkhen_place(handle: &mut Sulkhen, count: u32, out: &mut i32) -> i32
    ensures { PlacesFor handle.old.value count result out.old out.new handle.new.value }
{
    match handle.held_mut().place(count) {
        Some(place) => {
            *out = place;
            0
        }
        None => Refusal::Stack.code(),
    }
}
