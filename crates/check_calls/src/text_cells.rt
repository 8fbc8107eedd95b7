ghost use Rattle.std.specs.Prelude.{◌≡◌, ◌<◌, ◌≤◌, ◌+◌, ◌*◌, ◌/◌, [], ◌∷◌, true, false, drop};
ghost use Rattle.std.specs.Prelude.{length, IfOk};
ghost use Rattle.pawn_meaning.specs.View.{object_view};
ghost use Rattle.types_rules.specs.NamesAndNumbers as spec;
ghost use Rattle.types_rules.specs.Texts.{packed_cell, packed_cells, text_cells, text_object};
ghost use Rattle.pawn_verdict.specs.Answers.{Answers};
ghost use Rattle.check_nodes.specs.TypedView.{typed_view};

use check_nodes::{Form, Made, Typed, UNTAGGED, text_size};
use pawn_arrays::CELL_LIMIT;
use pawn_base::{Cells, List, Memory};
use pawn_meaning::{Object, Shape};
use pawn_tree::At;
use pawn_verdict::{CheckFault, broken};
use std::alloc::Global;
use types_rules::LIMIT_ARRAY;

/// How many characters stand in a packed cell.
const CHARACTERS: usize = 4;

/// A cell of four characters, the first one in the most significant byte.
fn cell_of_four(a: u8, b: u8, c: u8, d: u8) -> i32
    ensures { result ≡ packed_cell a b c d }
{
    let bits = ((u32::from(a) * 256 + u32::from(b)) * 256 + u32::from(c)) * 256 + u32::from(d);
    bits.cast_signed()
}

/// The first cell of a text of four characters or more.
#[tactic(auto, using(crate::proofs::PackedTextLaws::packed_four))]
fn first_cell(rest: &[u8]) -> i32
    requires { 4 ≤ length rest.now }
    ensures { packed_cells rest.now ≡ result ∷ packed_cells (drop 4 rest.now) }
{
    let (a, b, c, d) = (rest[0], rest[1], rest[2], rest[3]);
    cell_of_four(a, b, c, d)
}

/// The last cell, of fewer than four characters.
#[tactic(auto, unfolding(types_rules::specs::Texts::packed_cells))]
fn last_cell(rest: &[u8]) -> i32
    requires { length rest.now < 4 }
    ensures { packed_cells rest.now ≡ result ∷ [] }
{
    match rest {
        [] => 0,
        [a] => cell_of_four(*a, 0, 0, 0),
        [a, b] => cell_of_four(*a, *b, 0, 0),
        [a, b, c] => cell_of_four(*a, *b, *c, 0),
        [_, _, _, _, ..] => unreachable!(),
    }
}

/// The cell behind so many cells of four characters.
fn whole_cell(bytes: &[u8], i: usize) -> i32
    requires { i < length bytes.now / 4 }
    ensures { packed_cells (drop (4 * i) bytes.now)
        ≡ result ∷ packed_cells (drop (4 * (i + 1)) bytes.now) }
{
    first_cell(&bytes[CHARACTERS * i..])
}

fn packed_text(alloc: Global, bytes: &[u8]) -> Result<Cells, Memory>
    ensures { IfOk result (λ cells. cells ≡ text_cells true bytes.now) }
{
    let mut cells = Cells::new(alloc);
    let whole = bytes.len() / CHARACTERS;
    for i in 0..whole {
        let cell = whole_cell(bytes, i);
        cells.push(cell)?;
    }
    let rest = &bytes[CHARACTERS * whole..];
    cells.push(last_cell(rest))?;
    Ok(cells)
}

fn plain_text(alloc: Global, bytes: &[u8]) -> Result<Cells, Memory>
    ensures { IfOk result (λ cells. cells ≡ text_cells false bytes.now) }
{
    let mut cells = Cells::new(alloc);
    for byte in bytes {
        cells.push(i32::from(*byte))?;
    }
    cells.push(0)?;
    Ok(cells)
}

/// The object that a text is, which has so many cells.
pub fn make_object(alloc: Global, bytes: &[u8], packed: bool, size: u32) -> Result<Object, Memory>
    requires { size ≡ length (text_cells packed bytes.now) }
    ensures { IfOk result (λ object. object_view object ≡ text_object packed bytes.now) }
{
    let first = if packed {
        packed_text(alloc, bytes)?
    } else {
        plain_text(alloc, bytes)?
    };
    Ok(Object {
        shape: Shape {
            first: size,
            second: None,
            third: None,
        },
        constant: false,
        first,
    })
}

/// A text, which is the object with this number.
///
/// # Errors
///
/// 68 for more cells than any array has.
#[tactic(auto, unfolding(types_rules::specs::NamesAndNumbers::text_rule))]
pub fn text(
    alloc: Global,
    object: u32,
    at: At,
    bytes: &[u8],
    packed: bool,
) -> Result<Typed, CheckFault>
    ensures { Answers typed_view (spec.text_rule object at bytes.now packed) result }
{
    let size = text_size(bytes, packed);
    if size > CELL_LIMIT as usize {
        return Err(broken(LIMIT_ARRAY, at.place));
    }
    let size = size as u32;
    let mut made = Made::nothing(alloc);
    made.literals
        .push(make_object(alloc, bytes, packed, size)?)?;
    Ok(Typed {
        at,
        form: Form::Literal(object, size),
        tag: UNTAGGED,
        value: None,
        made,
    })
}
