ghost use Rattle.std.specs.Prelude.{◌≡◌, ◌+◌, ◌*◌, ◌<◌, ◌≤◌, ◌^◌, ◌++◌, ℕ, length, codes};
ghost use Rattle.pawn_outside.specs.Answers.{IsWrite};
ghost use Rattle.pawn_outside.specs.Rose.{risen};
ghost use Rattle.pawn_outside.specs.Said.{Said};
ghost use Rattle.amx_text.specs.Listing.{header_line, record_lines, table_lines, code_lines};
ghost use Rattle.amx_text.specs.Listing.{data_from, listing};
ghost use Rattle.amx_ops.specs.Writable.{cells_limit};

use super::line::{say_data, say_instruction, say_record};
use amx_ops::{Amx, Record, decode};
use itoa::Buffer;
use pawn_outside::{Sink, SinkFault, WriteAnswer, say};

/// How many cells stand in a line of the data.
pub const WIDTH: usize = 8;

/// Writes the listing of a file whose code is valid: its header, a line for each record of its
/// tables, for each instruction, and for every eight cells of its data. It takes no memory, and
/// answers as one write of the whole text would.
pub fn list<S: Sink>(amx: &Amx, out: &mut S) -> WriteAnswer
    requires { length amx.now.code + length amx.now.store + amx.now.room ≤ cells_limit }
    ensures answer { IsWrite (S.taken out.old) (listing amx.now) result (S.taken out.new) }

    // As of all sinks.
    ensures steady { result ≡ WriteAnswer.Taken → S.faults out.new ≡ S.faults out.old }
    ensures cause { result ≡ WriteAnswer.Failed → S.faults out.new ≡ risen (S.faults out.old) }
    ensures unfailing { (rest : ℕ) → S.has_room out.old (length (listing amx.now) + rest) →
        S.has_room out.new rest × (result ≡ WriteAnswer.Taken) }
{
    match say_listing(out, amx) {
        Ok(()) => WriteAnswer::Taken,
        Err(SinkFault) => WriteAnswer::Failed,
    }
}

fn say_listing<S: Sink>(out: &mut S, amx: &Amx) -> Result<(), SinkFault>
    requires code { length amx.now.code ≤ cells_limit }
    requires store { length amx.now.store ≤ cells_limit }
    ensures { Said S.taken S.faults S.has_room out.old out.new (listing amx.now) result }
{
    say_header(out, amx)?;
    say_tables(out, amx)?;
    say(out, &[b"code\n"])?;
    say_code(out, amx.code.as_slice())?;
    say(out, &[b"data\n"])?;
    say_store(out, amx.store.as_slice())?;
    say(out, &[b"end\n"])
}

fn say_header<S: Sink>(out: &mut S, amx: &Amx) -> Result<(), SinkFault>
    ensures { Said S.taken S.faults S.has_room out.old out.new (header_line amx.now) result }
{
    let (mut flags, mut version, mut code) = (Buffer::new(), Buffer::new(), Buffer::new());
    let (mut store, mut room, mut entry) = (Buffer::new(), Buffer::new(), Buffer::new());
    say(
        out,
        &[
            b"amx flags ",
            flags.format(amx.flags).as_bytes(),
            b" version ",
            version.format(amx.version).as_bytes(),
            b" code ",
            code.format(amx.code.len()).as_bytes(),
            b" data ",
            store.format(amx.store.len()).as_bytes(),
            b" room ",
            room.format(amx.room).as_bytes(),
            b" entry ",
            entry.format(amx.entry).as_bytes(),
            b"\n",
        ],
    )
}

fn say_tables<S: Sink>(out: &mut S, amx: &Amx) -> Result<(), SinkFault>
    ensures { Said S.taken S.faults S.has_room out.old out.new (table_lines amx.now) result }
{
    say_records(out, b"public", amx.publics.as_slice())?;
    say_records(out, b"native", amx.natives.as_slice())?;
    say_records(out, b"library", amx.libraries.as_slice())?;
    say_records(out, b"variable", amx.variables.as_slice())?;
    say_records(out, b"tag", amx.tags.as_slice())
}

fn say_records<S: Sink>(out: &mut S, kind: &[u8], records: &[Record]) -> Result<(), SinkFault>
    ensures { let lines = record_lines kind.now records.now in
        Said S.taken S.faults S.has_room out.old out.new lines result }
{
    for entry in records {
        say_record(out, kind, entry)?;
    }
    Ok(())
}

/// Writes a line for each instruction, as far as each is whole.
fn say_code<S: Sink>(out: &mut S, code: &[i32]) -> Result<(), SinkFault>
    requires { length code.now ≤ cells_limit }
    ensures { Said S.taken S.faults S.has_room out.old out.new (code_lines code.now) result }
{
    let mut place = 0;
    while place < code.len() {
        let rest = code.split_at(place).1;
        match decode(rest, 0) {
            None => return Ok(()),
            Some(instruction) => {
                let size = instruction.cells as usize;
                say_instruction(out, 4 * place as u32, instruction.op, &rest[1..size])?;
                place += size;
            }
        }
    }
    Ok(())
}

/// Writes the cells of the data, eight in a line.
fn say_store<S: Sink>(out: &mut S, store: &[i32]) -> Result<(), SinkFault>
    requires { length store.now ≤ cells_limit }
    ensures { Said S.taken S.faults S.has_room out.old out.new (data_from 0 0 store.now) result }
{
    let mut place = 0;
    while place < store.len() {
        let past = (place + WIDTH).min(store.len());
        say_data(out, 4 * place as u32, &store[place..past])?;
        place += WIDTH;
    }
    Ok(())
}
