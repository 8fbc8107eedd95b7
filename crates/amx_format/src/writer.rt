ghost use Rattle.std.specs.Prelude.{◌≡◌, ◌+◌, ◌*◌, ◌/◌, ◌%◌, ◌^◌, ◌<◌, ◌≤◌, ◌++◌, ℕ};
ghost use Rattle.std.specs.Prelude.{List as ListOf, length, IfOk, OnOk, FitsSigned};
ghost use Rattle.std.specs.Int.{w32};
ghost use Rattle.pawn_base.specs.Cells.{AreCells};
ghost use Rattle.amx_compact.specs.Spelled.{ShortestAll};
ghost use Rattle.amx_ops.specs.Writable.{IsWritable, stored_cells, table_size, names_size};
ghost use Rattle.amx_ops.specs.Writable.{over_tables};
ghost use Rattle.amx_format.specs.Layout.{half, word, words, cells, table, names, zeros, flag_of};
ghost use Rattle.amx_format.specs.Layout.{all_records, header_bytes, layout_header, layout};
ghost use Rattle.amx_format.specs.Layout.{IsRow, IsLayout};
ghost use Rattle.amx_format.specs.Ranges.{AddressesFit, HasRanges};
ghost use Rattle.amx_format.specs.Sorts.{Sorts, IsWritableSorted, with_publics};
ghost use Rattle.amx_format.specs.Written.{IsWritten};

use super::encoding::Encoding;
use super::header::{COMPACT, FILE_VERSION, HEADER, Header, MAGIC, RECORD};
use super::sort::sorted;
use amx_compact::write_cell;
use amx_ops::{Amx, Record};
use pawn_base::{Bytes, Memory};
use std::alloc::Global;

/// The greatest length of a name that the name table states.
pub const NAME_LENGTH: u16 = 31;

#[tactic(auto, unfolding(crate::specs::Layout::half))]
fn put_half(out: &mut Bytes, number: u16) -> Result<(), Memory>
    ensures { OnOk result (out.new ≡ out.old ++ half number) }
{
    out.append(&number.to_le_bytes())
}

#[tactic(auto, unfolding(crate::specs::Layout::word))]
fn put_word(out: &mut Bytes, number: u32) -> Result<(), Memory>
    ensures { OnOk result (out.new ≡ out.old ++ word number) }
{
    out.append(&number.to_le_bytes())
}

fn put_words(out: &mut Bytes, numbers: &[u32]) -> Result<(), Memory>
    ensures { OnOk result (out.new ≡ out.old ++ words numbers.now) }
{
    for number in numbers {
        put_word(out, *number)?;
    }
    Ok(())
}

fn put_plain(out: &mut Bytes, row: &[i32]) -> Result<(), Memory>
    ensures { OnOk result (out.new ≡ out.old ++ cells row.now) }
{
    for cell in row {
        put_word(out, cell.cast_unsigned())?;
    }
    Ok(())
}

fn put_compact(out: &mut Bytes, row: &[i32]) -> Result<(), Memory>
    ensures { OnOk result ((bytes : ListOf ℕ) × ShortestAll row.now bytes
        × (out.new ≡ out.old ++ bytes)) }
{
    for cell in row {
        write_cell(*cell, out)?;
    }
    Ok(())
}

/// The bytes of code and data.
fn row_of(alloc: Global, amx: &Amx, encoding: Encoding) -> Result<Bytes, Memory>
    ensures row { IfOk result (λ row. IsRow encoding (amx.now.code ++ amx.now.store) row) }
    ensures fits { OnOk result (AreCells (amx.now.code ++ amx.now.store)) }
{
    match encoding {
        Encoding::Plain => plain_row(alloc, amx),
        Encoding::Compact => compact_row(alloc, amx),
    }
}

fn plain_row(alloc: Global, amx: &Amx) -> Result<Bytes, Memory>
    ensures row { IfOk result (λ row. row ≡ cells (amx.now.code ++ amx.now.store)) }
    ensures fits { OnOk result (AreCells (amx.now.code ++ amx.now.store)) }
{
    let mut row = Bytes::new(alloc);
    put_plain(&mut row, amx.code.as_slice())?;
    put_plain(&mut row, amx.store.as_slice())?;
    Ok(row)
}

fn compact_row(alloc: Global, amx: &Amx) -> Result<Bytes, Memory>
    ensures row { IfOk result (λ row. ShortestAll (amx.now.code ++ amx.now.store) row) }
    ensures fits { OnOk result (AreCells (amx.now.code ++ amx.now.store)) }
{
    let mut row = Bytes::new(alloc);
    put_compact(&mut row, amx.code.as_slice())?;
    put_compact(&mut row, amx.store.as_slice())?;
    Ok(row)
}

/// A table whose names begin at a place, and the place behind them.
fn put_table(out: &mut Bytes, records: &[Record], first: u32) -> Result<u32, Memory>
    requires { first + names_size records.now < 2 ^ 31 }
    ensures out { OnOk result (out.new ≡ out.old ++ table first records.now) }
    ensures past { IfOk result (λ past. past ≡ first + names_size records.now) }
    ensures fits { OnOk result (AddressesFit records.now) }
{
    let mut place = first;
    for record in records {
        put_word(out, record.address.cast_unsigned())?;
        put_word(out, place)?;
        place += record.name.len() as u32 + 1;
    }
    Ok(place)
}

fn put_names(out: &mut Bytes, records: &[Record]) -> Result<(), Memory>
    ensures { OnOk result (out.new ≡ out.old ++ names records.now) }
{
    for record in records {
        out.append(record.name.as_slice())?;
        out.push(0)?;
    }
    Ok(())
}

fn put_zeros(out: &mut Bytes, count: u32) -> Result<(), Memory>
    ensures { OnOk result (out.new ≡ out.old ++ zeros count) }
{
    for _ in 0..count {
        out.push(0)?;
    }
    Ok(())
}

fn put_header(out: &mut Bytes, header: Header) -> Result<(), Memory>
    ensures out { OnOk result (out.new ≡ out.old ++ header_bytes header) }
    ensures flags { header.flags < 2 ^ 16 }
    ensures entry { FitsSigned w32 header.cip }
{
    put_word(out, header.size)?;
    put_half(out, header.magic)?;
    out.append(&[header.file_version, header.version])?;
    put_half(out, header.flags)?;
    put_half(out, header.record_size)?;
    put_words(
        out,
        &[
            header.cod,
            header.dat,
            header.hea,
            header.stp,
            header.cip.cast_unsigned(),
            header.publics,
            header.natives,
            header.libraries,
            header.variables,
            header.tags,
            header.names,
        ],
    )
}

/// The bytes of a table.
fn table_size_of(records: &[Record]) -> u32
    requires { table_size records.now < 2 ^ 31 }
    ensures { result ≡ table_size records.now }
{
    8 * records.len() as u32
}

/// The bytes of the names of a table, each with its zero.
fn names_size_of(records: &[Record]) -> u32
    requires { names_size records.now < 2 ^ 31 }
    ensures { result ≡ names_size records.now }
{
    let mut size: u32 = 0;
    for record in records {
        size += record.name.len() as u32 + 1;
    }
    size
}

/// Flags that say nothing of the file's form, with that of an encoding.
fn flags_for(flags: u16, encoding: Encoding) -> u16
    requires { flags / 2 % 4 ≡ 0 }
    ensures { result ≡ flags + flag_of encoding }
{
    match encoding {
        Encoding::Plain => flags,
        Encoding::Compact => flags + COMPACT,
    }
}

/// The header of a file whose code and data take so many bytes.
fn header_for(publics: &[Record], amx: &Amx, encoding: Encoding, row: u32) -> Header
    requires writable { IsWritable (with_publics amx.now publics.now) }
    requires row { row ≤ 5 * stored_cells amx.now }
    ensures { result ≡ layout_header encoding (with_publics amx.now publics.now) row }
{
    let natives = HEADER + table_size_of(publics);
    let libraries = natives + table_size_of(amx.natives.as_slice());
    let variables = libraries + table_size_of(amx.libraries.as_slice());
    let tags = variables + table_size_of(amx.variables.as_slice());
    let names = tags + table_size_of(amx.tags.as_slice());
    let cod = (names_end_of(publics, amx, names) + 3) / 4 * 4;
    let dat = cod + 4 * amx.code.len() as u32;
    let hea = dat + 4 * amx.store.len() as u32;
    Header {
        size: cod + row,
        magic: MAGIC,
        file_version: FILE_VERSION,
        version: amx.version,
        flags: flags_for(amx.flags, encoding),
        record_size: RECORD,
        cod,
        dat,
        hea,
        stp: hea + 4 * amx.room,
        cip: amx.entry,
        publics: HEADER,
        natives,
        libraries,
        variables,
        tags,
        names,
    }
}

/// Where the names end.
fn names_end_of(publics: &[Record], amx: &Amx, first: u32) -> u32
    requires { first + 2 + over_tables names_size (with_publics amx.now publics.now) < 2 ^ 31 }
    ensures { result ≡ first + 2 + over_tables names_size (with_publics amx.now publics.now) }
{
    first
        + 2
        + names_size_of(publics)
        + names_size_of(amx.natives.as_slice())
        + names_size_of(amx.libraries.as_slice())
        + names_size_of(amx.variables.as_slice())
        + names_size_of(amx.tags.as_slice())
}

/// The five tables, whose names begin at a place.
fn put_tables(out: &mut Bytes, publics: &[Record], amx: &Amx, first: u32) -> Result<(), Memory>
    requires { first + over_tables names_size (with_publics amx.now publics.now) < 2 ^ 31 }
    ensures out { OnOk result (out.new ≡ out.old
        ++ table first (all_records (with_publics amx.now publics.now))) }
    ensures fits { OnOk result (AddressesFit (all_records (with_publics amx.now publics.now))) }
{
    let natives = put_table(out, publics, first)?;
    let libraries = put_table(out, amx.natives.as_slice(), natives)?;
    let variables = put_table(out, amx.libraries.as_slice(), libraries)?;
    let tags = put_table(out, amx.variables.as_slice(), variables)?;
    put_table(out, amx.tags.as_slice(), tags)?;
    Ok(())
}

/// The names of all tables.
fn put_all_names(out: &mut Bytes, publics: &[Record], amx: &Amx) -> Result<(), Memory>
    ensures { OnOk result (out.new ≡ out.old
        ++ names (all_records (with_publics amx.now publics.now))) }
{
    put_names(out, publics)?;
    put_names(out, amx.natives.as_slice())?;
    put_names(out, amx.libraries.as_slice())?;
    put_names(out, amx.variables.as_slice())?;
    put_names(out, amx.tags.as_slice())?;
    Ok(())
}

fn write_layout(
    alloc: Global,
    publics: &[Record],
    amx: &Amx,
    encoding: Encoding,
) -> Result<Bytes, Memory>
    requires { IsWritable (with_publics amx.now publics.now) }
    ensures layout { IfOk result (IsLayout encoding (with_publics amx.now publics.now)) }
    ensures ranges { OnOk result (HasRanges (with_publics amx.now publics.now)) }
{
    let row = row_of(alloc, amx, encoding)?;
    let header = header_for(publics, amx, encoding, row.len() as u32);
    let names_end = names_end_of(publics, amx, header.names);
    let mut out = Bytes::new(alloc);
    put_header(&mut out, header)?;
    put_tables(&mut out, publics, amx, header.names + 2)?;
    put_half(&mut out, NAME_LENGTH)?;
    put_all_names(&mut out, publics, amx)?;
    put_zeros(&mut out, header.cod - names_end)?;
    out.append(row.as_slice())?;
    Ok(out)
}

/// The bytes of a file (Implementer's Guide, "File format"), whose publics are sorted by name.
pub fn write(alloc: Global, amx: &Amx, encoding: Encoding) -> Result<Bytes, Memory>
    requires { IsWritableSorted amx.now }
    ensures { IfOk result (IsWritten encoding amx.now) }
{
    let publics = sorted(alloc, amx.publics.as_slice())?;
    write_layout(alloc, publics.as_slice(), amx, encoding)
}
