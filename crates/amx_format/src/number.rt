ghost use Rattle.std.specs.Prelude.{◌≡◌, ◌+◌, ◌≤◌, length, FitsSigned};
ghost use Rattle.std.specs.Int.{w32};
ghost use Rattle.amx_format.specs.Numbers.{half_at, word_at, cell_at};

use byteorder::{ByteOrder, LittleEndian};

#[tactic(auto, unfolding(crate::specs::Numbers::half_at))]
pub fn read_half(bytes: &[u8], place: usize) -> u16
    requires { place + 2 ≤ length bytes.now }
    ensures { result ≡ half_at bytes.now place }
{
    LittleEndian::read_u16(&bytes[place..])
}

#[tactic(auto, unfolding(crate::specs::Numbers::word_at))]
pub fn read_word(bytes: &[u8], place: usize) -> u32
    requires { place + 4 ≤ length bytes.now }
    ensures { result ≡ word_at bytes.now place }
{
    LittleEndian::read_u32(&bytes[place..])
}

/// A number with a sign.
pub fn read_cell(bytes: &[u8], place: usize) -> i32
    requires { place + 4 ≤ length bytes.now }
    ensures cell { result ≡ cell_at bytes.now place }
    ensures fits { FitsSigned w32 result }
{
    read_word(bytes, place).cast_signed()
}
