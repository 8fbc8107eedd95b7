ghost use Rattle.std.specs.Prelude.{◌≡◌, ◌≤◌, ◌<◌, ◌*◌, ◌++◌, drop, length, option_map, pos, take};
ghost use Rattle.std.specs.Prelude.{IfSome, ◌^◌};
ghost use Rattle.std.specs.List.{flat_map, slice_index_or};
ghost use Rattle.host_script.specs.Script.{before_zero, bytes_of, characters};
ghost use Rattle.host_script.specs.Characters.{is_packed};
ghost use Rattle.host_embed.specs.Texts.{IsCopied, spread};

/// Copies as many characters of the text at the front of cells as there is room for, packed or not,
/// and tells how many it has. None, and nothing copied, where no zero ends it.
pub fn copy_text(cells: &[i32], out: &mut [i32]) -> Option<usize>
    requires { length cells.now < 2 ^ 60 }
    ensures { IsCopied (characters cells.now) out.old result out.new }
{
    let packed = is_packed(cells);
    let count = zero_place(cells, packed)?;
    copy_characters(cells, packed, count, out);
    Some(count)
}

/// Whether four characters stand in a cell.
fn is_packed(cells: &[i32]) -> bool
    ensures { result ≡ is_packed cells.now }
{
    match cells.first() {
        Some(cell) => cell.cast_unsigned() > 0x00FF_FFFF,
        None => false,
    }
}

/// The number of the first character that is 0.
fn zero_place(cells: &[i32], packed: bool) -> Option<usize>
    requires { length cells.now < 2 ^ 60 }
    ensures place { option_map (λ n. take n (spread packed cells.now)) result
        ≡ before_zero (spread packed cells.now) }
    ensures within { IfSome result (λ n. n ≤ length (spread packed cells.now)) }
{
    for index in 0..count_of(cells, packed) {
        if character_at(cells, packed, index) == 0 {
            return Some(index);
        }
    }
    None
}

/// How many characters cells have room for.
fn count_of(cells: &[i32], packed: bool) -> usize
    requires { length cells.now < 2 ^ 60 }
    ensures { result ≡ length (spread packed cells.now) }
{
    if packed { 4 * cells.len() } else { cells.len() }
}

/// A character by its number.
fn character_at(cells: &[i32], packed: bool, index: usize) -> i32
    requires { index < length (spread packed cells.now) }
    ensures { result ≡ slice_index_or (spread packed cells.now) index (pos 0) }
{
    if packed {
        byte_at(cells, index)
    } else {
        cells[index]
    }
}

/// A byte by its number, the most significant of a cell first.
fn byte_at(cells: &[i32], index: usize) -> i32
    requires { index < length (flat_map bytes_of cells.now) }
    ensures { result ≡ slice_index_or (flat_map bytes_of cells.now) index (pos 0) }
{
    let bytes = cells[index / 4].to_be_bytes();
    i32::from(bytes[index % 4])
}

/// Copies the first so many characters, or as many as there is room for.
fn copy_characters(cells: &[i32], packed: bool, count: usize, out: &mut [i32])
    requires { count ≤ length (spread packed cells.now) }
    ensures { out.new ≡ take (length out.old) (take count (spread packed cells.now))
        ++ drop count out.old }
{
    for index in 0..count.min(out.len()) {
        out[index] = character_at(cells, packed, index);
    }
}
