ghost use Rattle.std.specs.Prelude.{◌≡◌, ◌≤◌, ◌<◌, ◌*◌, ◌^◌, ◌∷◌, [], length, true};
ghost use Rattle.std.specs.List.{slice_index_or};
ghost use Rattle.host_embed.specs.Written.{AreBytesFrom, IsSpelled, per_cell, text_cells};

/// How many cells a text takes, with a zero behind it.
pub fn text_cells(text: &[u8], packed: bool) -> usize
    ensures { result ≡ text_cells packed (length text.now) }
{
    if packed {
        text.len() / 4 + 1
    } else {
        text.len() + 1
    }
}

/// Puts the cells of a text in the place of a part's first.
pub fn spell(part: &mut [i32], text: &[u8], packed: bool)
    requires { text_cells packed (length text.now) ≤ length part.old }
    ensures { IsSpelled packed text.now part.old part.new }
{
    for index in 0..text_cells(text, packed) {
        part[index] = cell_at(text, packed, index);
    }
}

/// A cell of a text by its number.
fn cell_at(text: &[u8], packed: bool, index: usize) -> i32
    requires { index < text_cells packed (length text.now) }
    ensures { AreBytesFrom packed text.now (per_cell packed * index) (result ∷ []) }
{
    if packed {
        four_bytes(text, 4 * index)
    } else {
        i32::from(byte_at(text, index))
    }
}

/// The cell of four bytes, the most significant first.
fn four_bytes(text: &[u8], at: usize) -> i32
    requires { at ≤ length text.now }
    ensures { AreBytesFrom true text.now at (result ∷ []) }
{
    let bytes = [
        byte_at(text, at),
        byte_at(text, at + 1),
        byte_at(text, at + 2),
        byte_at(text, at + 3),
    ];
    u32::from_be_bytes(bytes).cast_signed()
}

/// A byte by its number: 0 behind the last.
fn byte_at(text: &[u8], at: usize) -> u8
    ensures { result ≡ slice_index_or text.now at 0 }
{
    match text.get(at) {
        Some(byte) => *byte,
        None => 0,
    }
}
