ghost use Rattle.std.specs.Prelude.{◌≡◌, ◌%◌, ◌≤◌, ◌++◌, ℕ, List, OnOk, OnErr};
ghost use Rattle.amx_compact.specs.Spelled.{Appends, Shortest};
ghost use Rattle.amx_compact.specs.Range.{magnitude_of, InGroups};

use pawn_base::{Bytes, Memory};

/// Puts the shortest spelling of a cell at the end.
pub fn write_cell(cell: i32, out: &mut Bytes) -> Result<(), Memory>
    ensures ok { OnOk result (Appends cell out.old out.new) }

    // A cell has only one.
    ensures one { (bytes : List ℕ) → Shortest cell bytes →
        OnOk result (out.new ≡ out.old ++ bytes) }

    ensures err { OnErr result (out.new ≡ out.old) }
{
    let bits = cell.cast_unsigned();
    let groups = [
        128 + low_group(bits >> 28),
        128 + low_group(bits >> 21),
        128 + low_group(bits >> 14),
        128 + low_group(bits >> 7),
        low_group(bits),
    ];
    out.append(&groups[5 - group_count(cell)..])
}

/// The seven lowest bits.
fn low_group(bits: u32) -> u8
    ensures { result ≡ bits % 128 }
{
    (bits % 128) as u8
}

/// How many groups a cell needs, with its sign.
fn group_count(cell: i32) -> usize
    ensures enough { InGroups result cell }
    ensures least { (fewer : ℕ) → InGroups fewer cell → result ≤ fewer }
    ensures bound { result ≤ 5 }
{
    let size = magnitude(cell);
    if size < 0x40 {
        1
    } else if size < 0x2000 {
        2
    } else if size < 0x10_0000 {
        3
    } else if size < 0x800_0000 {
        4
    } else {
        5
    }
}

/// What the groups spell but for the sign: of a number below 0 its complement.
fn magnitude(cell: i32) -> u32
    ensures { result ≡ magnitude_of cell }
{
    if cell < 0 { !cell as u32 } else { cell as u32 }
}
