ghost use Rattle.std.specs.Prelude.{◌≡◌, ◌⊎◌, ◌≢◌, ◌+◌, ◌-◌, ◌*◌, ◌/◌, ◌≤◌, ◌<◌, ◌^◌, ℕ, Result};
ghost use Rattle.std.specs.Prelude.{length, drop, IfOk, IfErr, MatchOption};
ghost use Rattle.amx_ops.specs.declared.amx.Amx.{Amx};
ghost use Rattle.amx_format.specs.declared.fault.FormatFault.{FormatFault};
ghost use Rattle.amx_format.specs.Header.{header_of, code_cells, store_cells, HasOrder, HasSize};
ghost use Rattle.amx_format.specs.Numbers.{word_at, cell_at, cells_at};
ghost use Rattle.amx_format.specs.Records.{record_at, records_at, table_at};
ghost use Rattle.amx_format.specs.NameText.{HasNames};
ghost use Rattle.amx_format.specs.Faults.{HasCellFault, row_of};
ghost use Rattle.amx_format.specs.File.{HasCells, IsFile, Answers};
ghost use Rattle.amx_format.specs.Limits.{IsWithinLimits};

use super::check::check;
use super::fault::FormatFault;
use super::header::Header;
use super::names::{NameText, read_names};
use super::number::{read_cell, read_word};
use amx_compact::read_cells;
use amx_ops::{Amx, Record};
use pawn_base::{Cells, List, Memory};
use std::alloc::Global;

/// So many plain cells from a place on.
fn read_plain(alloc: Global, bytes: &[u8], place: usize, count: usize) -> Result<Cells, Memory>
    requires { place + 4 * count ≤ length bytes.now }
    ensures { IfOk result (λ row. row ≡ cells_at bytes.now place count) }
{
    let mut row = Cells::new(alloc);
    for index in 0..count {
        row.push(read_cell(bytes, place + 4 * index))?;
    }
    Ok(row)
}

/// Code and data.
#[derive(Drop)]
struct Parts {
    code: Cells,
    store: Cells,
}

fn read_parts(alloc: Global, bytes: &[u8], header: &Header) -> Result<Parts, FormatFault>
    requires header { header.now ≡ header_of bytes.now }
    requires order { HasOrder header.now }
    requires size { HasSize header.now (length bytes.now) }
    ensures cells { IfOk result (λ parts. HasCells bytes.now parts.code parts.store) }
    ensures fault { IfErr result (λ fault. HasCellFault bytes.now fault
        ⊎ (fault ≡ FormatFault.Memory)) }
{
    let code = (header.dat - header.cod) as usize / 4;
    let store = (header.hea - header.dat) as usize / 4;
    if !header.is_compact() {
        return Ok(Parts {
            code: read_plain(alloc, bytes, header.cod as usize, code)?,
            store: read_plain(alloc, bytes, header.dat as usize, store)?,
        });
    }
    let row = &bytes[header.cod as usize..header.size as usize];
    let cells = read_cells(alloc, row, (code + store) as u32)?;
    Ok(Parts {
        code: Cells::from_slice(alloc, &cells.as_slice()[..code])?,
        store: Cells::from_slice(alloc, &cells.as_slice()[code..])?,
    })
}

/// The record at a place. `Memory` says that its name isn't among the names.
fn read_record(bytes: &[u8], names: &NameText, place: usize) -> Result<Record, Memory>
    requires place { place + 8 ≤ length bytes.now }
    requires names { HasNames bytes.now names.now.text.value names.now.first }
    ensures { IfOk result (λ it. it ≡ record_at bytes.now place) }
{
    Ok(Record {
        address: read_cell(bytes, place),
        name: names.name(read_word(bytes, place + 4))?,
    })
}

/// The table from a place to another.
fn read_table(
    alloc: Global,
    bytes: &[u8],
    names: &NameText,
    first: u32,
    past: u32,
) -> Result<List<Record>, Memory>
    requires past { past ≤ length bytes.now }
    requires names { HasNames bytes.now names.now.text.value names.now.first }
    ensures { IfOk result (λ records. records ≡ table_at bytes.now first past) }
{
    let mut records = List::new(alloc);
    for index in 0..(past.saturating_sub(first) / 8) as usize {
        let record = read_record(bytes, names, first as usize + 8 * index)?;
        records.push(record)?;
    }
    Ok(records)
}

fn read_file(alloc: Global, bytes: &[u8]) -> Result<Amx, FormatFault>
    ensures { Answers bytes.now result }
{
    let header = check(bytes)?;
    let parts = read_parts(alloc, bytes, &header)?;
    let names = read_names(alloc, bytes, &header)?;
    Ok(Amx {
        flags: header.kept_flags(),
        version: header.version,
        code: parts.code,
        store: parts.store,
        room: (header.stp - header.hea) / 4,
        entry: header.cip,
        publics: read_table(alloc, bytes, &names, header.publics, header.natives)?,
        natives: read_table(alloc, bytes, &names, header.natives, header.libraries)?,
        libraries: read_table(alloc, bytes, &names, header.libraries, header.variables)?,
        variables: read_table(alloc, bytes, &names, header.variables, header.tags)?,
        tags: read_table(alloc, bytes, &names, header.tags, header.names)?,
    })
}

/// The Amx of a file (Implementer's Guide, "File format"). A refusal is the first fault of the
/// bytes. Names share the bytes of the name table, which are copied once.
#[tactic(auto, using(crate::proofs::Determines::one_answer))]
pub fn read(alloc: Global, bytes: &[u8]) -> Result<Amx, FormatFault>
    ensures answer { Answers bytes.now result }

    // There is no other answer, but want of memory.
    ensures only { (answer : Result Amx FormatFault) → Answers bytes.now answer →
        answer ≢ Err FormatFault.Memory → result ≢ Err FormatFault.Memory → result ≡ answer }

    // It can be verified, and fits a machine.
    ensures limits { IfOk result IsWithinLimits }
{
    read_file(alloc, bytes)
}
