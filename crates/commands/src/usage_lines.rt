ghost use Rattle.std.specs.Prelude.{◌≡◌, ◌+◌, ◌++◌, codes, unwrap_or, slice_get, []};
ghost use Rattle.std.specs.List.{flat_map};
ghost use Rattle.pawn_outside.specs.Said.{Said};
ghost use Rattle.pawn_usage.specs.SpareCells.{spare_cells};
ghost use Rattle.commands.specs.UsageText.{chain_line, name_text, stack_line, usage_text};

use itoa::Buffer;
use pawn_base::Bytes;
use pawn_outside::{Sink, SinkFault, say};
use pawn_usage::Usage;

/// The cells that a machine's room has above the need of the calls that are alive.
const SPARE_CELLS: u128 = 16;

/// Writes the room that a program runs in without a lack of stack, and the chain of calls that
/// needs the most of it; or a chain that comes back to one of its functions.
pub fn say_usage<S: Sink>(names: &[Bytes], usage: &Usage, out: &mut S) -> Result<(), SinkFault>
    ensures { Said S.taken S.faults S.has_room out.old out.new (usage_text names.now usage.now)
        result }
{
    match usage {
        Usage::Bound { cells, chain } => say_bound(*cells, names, chain.as_slice(), out),
        Usage::Recursive { chain } => say_chain(b"recursive", names, chain.as_slice(), out),
    }
}

/// Writes the room for so many cells, and the chain that needs them.
fn say_bound<S: Sink>(
    cells: u64,
    names: &[Bytes],
    chain: &[u32],
    out: &mut S,
) -> Result<(), SinkFault>
    ensures { let text = stack_line cells ++ chain_line (codes "chain") names.now chain.now in
        Said S.taken S.faults S.has_room out.old out.new text result }
{
    say_stack(cells, out)?;
    say_chain(b"chain", names, chain, out)
}

/// Writes the room for so many cells.
fn say_stack<S: Sink>(cells: u64, out: &mut S) -> Result<(), SinkFault>
    ensures { Said S.taken S.faults S.has_room out.old out.new (stack_line cells) result }
{
    let mut digits = Buffer::new();
    let room = digits.format(room_for(cells)).as_bytes();
    say(out, &[b"stack ", room, b"\n"])
}

/// The room in which calls that need so many cells never lack stack.
fn room_for(cells: u64) -> u128
    ensures { result ≡ cells + spare_cells }
{
    u128::from(cells) + SPARE_CELLS
}

/// Writes a line with the names of a chain's functions.
fn say_chain<S: Sink>(
    front: &[u8],
    names: &[Bytes],
    chain: &[u32],
    out: &mut S,
) -> Result<(), SinkFault>
    ensures { Said S.taken S.faults S.has_room out.old out.new
        (chain_line front.now names.now chain.now) result }
{
    say(out, &[front])?;
    say_names(names, chain, out)?;
    say(out, &[b"\n"])
}

/// Writes the name of each function behind a blank.
fn say_names<S: Sink>(names: &[Bytes], chain: &[u32], out: &mut S) -> Result<(), SinkFault>
    ensures { Said S.taken S.faults S.has_room out.old out.new
        (flat_map (name_text names.now) chain.now) result }
{
    for function in chain {
        say_name(names, *function, out)?;
    }
    Ok(())
}

/// Writes the name of a function by its number behind a blank.
fn say_name<S: Sink>(names: &[Bytes], function: u32, out: &mut S) -> Result<(), SinkFault>
    ensures { Said S.taken S.faults S.has_room out.old out.new (name_text names.now function)
        result }
{
    say(out, &[b" ", name_of(names, function)])
}

/// The name of a function by its number.
fn name_of(names: &[Bytes], function: u32) -> &[u8]
    ensures { result.now ≡ unwrap_or (slice_get names.now function) [] }
{
    match names.get(function as usize) {
        Some(name) => name.as_slice(),
        None => b"",
    }
}
