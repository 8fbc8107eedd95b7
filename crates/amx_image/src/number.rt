ghost use Rattle.std.specs.Prelude.{◌≡◌, ◌+◌, ◌^◌, ◌<◌, ◌≤◌, length};
ghost use Rattle.amx_format.specs.Numbers.{half_at, word_at, cell_at};
ghost use Rattle.amx_image.specs.Image.{registers_at};

use super::place;
use super::place::CELLS;
use amx_machine::Registers;
use byteorder::{ByteOrder, LittleEndian};

#[tactic(auto, unfolding(amx_format::specs::Numbers::half_at))]
pub fn read_half(bytes: &[u8], place: usize) -> u16
    requires { place + 2 ≤ length bytes.now }
    ensures { result ≡ half_at bytes.now place }
{
    LittleEndian::read_u16(&bytes[place..])
}

#[tactic(auto, unfolding(amx_format::specs::Numbers::word_at))]
pub fn read_word(bytes: &[u8], place: usize) -> u32
    requires { place + 4 ≤ length bytes.now }
    ensures word { result ≡ word_at bytes.now place }
    ensures fits { word_at bytes.now place < 2 ^ 32 }
{
    LittleEndian::read_u32(&bytes[place..])
}

/// A number with a sign.
pub fn read_cell(bytes: &[u8], place: usize) -> i32
    requires { place + 4 ≤ length bytes.now }
    ensures { result ≡ cell_at bytes.now place }
{
    read_word(bytes, place).cast_signed()
}

/// The registers in an image.
pub fn read_registers(bytes: &[u8]) -> Registers
    requires { CELLS ≤ length bytes.now }
    ensures { result ≡ registers_at bytes.now }
{
    Registers {
        pri: read_cell(bytes, place::PRI),
        alt: read_cell(bytes, place::ALT),
        frm: read_cell(bytes, place::FRM),
        cip: read_cell(bytes, place::CIP),
        stk: read_cell(bytes, place::STK),
        hea: read_cell(bytes, place::HEA),
    }
}
