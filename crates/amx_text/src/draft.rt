ghost use Rattle.std.specs.Prelude.{◌≡◌, ◌+◌, ◌<◌, ◌^◌, ◌↔◌, [], length, drop, IsTrue, OnOk};
ghost use Rattle.amx_text.specs.Drafts.{empty_draft, empty_amx, Takes, TakesMore, follows};
ghost use Rattle.amx_text.specs.Drafts.{is_header, is_record, is_instruction, is_row};
ghost use Rattle.amx_text.specs.Drafts.{with_record, placed_draft, ended, row_last};
ghost use Rattle.amx_text.specs.Readers.{names_of};
ghost use Rattle.amx_text.specs.declared.last.Last.TheVariants as last;

use super::header_line::header_at;
use super::instruction::{has_operands, operation_at};
use super::kind::Kind;
use super::last::Last;
use super::listing::WIDTH;
use super::reader::{address_at, after_word, read_cells};
use super::record::{kind_at, record_at};
use amx_ops::{Amx, Record};
use pawn_base::{Cells, List, Memory, Names};
use std::alloc::Global;

/// What stands behind a line that was taken, or nothing where none was, or want of memory.
pub type Taken<'t> = Result<Option<&'t [u8]>, Memory>;

/// What was read of a text so far, line by line.
#[derive(Debug, Drop)]
pub struct Draft {
    /// The file that the lines say.
    pub amx: Amx,
    /// So many cells of code and of data the header says.
    pub code: u32,
    pub store: u32,
    /// The address with which each instruction's line begins.
    pub starts: List<u32>,
    /// So many lines, and so many before those that begin the code and the data.
    pub lines: usize,
    pub code_mark: usize,
    pub data_mark: usize,
    /// So many before the first with another address than four times the cells before it.
    pub misplaced: Option<usize>,
    pub last: Last,
}

impl Draft {
    /// Before any line.
    pub fn new(alloc: Global) -> Draft
        ensures { result ≡ empty_draft }
    {
        Draft {
            amx: empty_file(alloc),
            code: 0,
            store: 0,
            starts: List::new(alloc),
            lines: 0,
            code_mark: 0,
            data_mark: 0,
            misplaced: None,
            last: Last::Nothing,
        }
    }

    /// Takes the line with which a text begins, and tells what stands behind it; or nothing, where
    /// no line begins it that may follow the last one.
    pub fn take<'t>(&mut self, alloc: Global, names: &Names, text: &'t [u8]) -> Taken<'t>
        requires names { names.now ≡ names_of }
        requires room { self.old.lines + 1 < 2 ^ 63 }
        ensures line { Takes (follows self.old.last) text.now self.old self.new result }

        // Behind the last line of all it stays as it is.
        ensures kept { self.old.last ≡ last.End → self.new ≡ self.old }
    {
        match self.last {
            Last::Nothing => Ok(self.take_header(text)),
            Last::Tables(from) => self.take_table_line(alloc, from, text),
            Last::Code => self.take_code_line(names, text),
            Last::Data => self.take_data_line(text),
            Last::ShortRow => Ok(self.take_end(text)),
            Last::End => Ok(None),
        }
    }

    fn take_header<'t>(&mut self, text: &'t [u8]) -> Option<&'t [u8]>
        requires { self.old.lines + 1 < 2 ^ 63 }
        ensures { TakesMore is_header text.now self.old self.new result }
    {
        let (header, rest) = header_at(text)?;
        self.amx.flags = header.flags;
        self.amx.version = header.version;
        self.amx.room = header.room;
        self.amx.entry = header.entry;
        self.code = header.code;
        self.store = header.store;
        self.end_line(Last::Tables(Kind::Public));
        Some(rest)
    }

    /// The line before the code, or a record of this table or of a later one.
    fn take_table_line<'t>(&mut self, alloc: Global, from: Kind, text: &'t [u8]) -> Taken<'t>
        requires { self.old.lines + 1 < 2 ^ 63 }
        ensures { Takes (follows (last.Tables from)) text.now self.old self.new result }
    {
        if let Some(rest) = after_word(text, b"code\n") {
            self.code_mark = self.lines;
            self.end_line(Last::Code);
            return Ok(Some(rest));
        }
        self.take_record(alloc, from, text)
    }

    fn take_record<'t>(&mut self, alloc: Global, from: Kind, text: &'t [u8]) -> Taken<'t>
        requires { self.old.lines + 1 < 2 ^ 63 }
        ensures { Takes (is_record from) text.now self.old self.new result }
    {
        let Some((kind, rest)) = kind_at(from, text) else {
            return Ok(None);
        };
        let Some((entry, rest)) = record_at(alloc, rest)? else {
            return Ok(None);
        };
        self.put_record(kind, entry)?;
        self.end_line(Last::Tables(kind));
        Ok(Some(rest))
    }

    fn put_record(&mut self, kind: Kind, entry: Record) -> Result<(), Memory>
        ensures { OnOk result (self.new ≡ with_record kind entry self.old) }
    {
        match kind {
            Kind::Public => self.amx.publics.push(entry),
            Kind::Native => self.amx.natives.push(entry),
            Kind::Library => self.amx.libraries.push(entry),
            Kind::Variable => self.amx.variables.push(entry),
            Kind::Tag => self.amx.tags.push(entry),
        }
    }

    /// The line before the data, or an instruction.
    fn take_code_line<'t>(&mut self, names: &Names, text: &'t [u8]) -> Taken<'t>
        requires names { names.now ≡ names_of }
        requires room { self.old.lines + 1 < 2 ^ 63 }
        ensures { Takes (follows last.Code) text.now self.old self.new result }
    {
        if let Some(rest) = after_word(text, b"data\n") {
            self.data_mark = self.lines;
            self.end_line(Last::Data);
            return Ok(Some(rest));
        }
        self.take_instruction(names, text)
    }

    fn take_instruction<'t>(&mut self, names: &Names, text: &'t [u8]) -> Taken<'t>
        requires names { names.now ≡ names_of }
        requires room { self.old.lines + 1 < 2 ^ 63 }
        ensures { Takes is_instruction text.now self.old self.new result }
    {
        let Some((address, rest)) = address_at(text) else {
            return Ok(None);
        };
        let Some(((number, operand), rest)) = operation_at(names, rest) else {
            return Ok(None);
        };
        let before = self.amx.code.len();
        self.amx.code.push(i32::from(number))?;
        let Some(rest) = read_cells(&mut self.amx.code, rest)? else {
            return Ok(None);
        };
        if !has_operands(operand, cells_behind(self.amx.code.as_slice(), before)) {
            return Ok(None);
        }
        self.starts.push(address)?;
        self.place(address, before);
        self.end_line(Last::Code);
        Ok(Some(rest))
    }

    /// The last line, or a row of cells.
    fn take_data_line<'t>(&mut self, text: &'t [u8]) -> Taken<'t>
        requires { self.old.lines + 1 < 2 ^ 63 }
        ensures { Takes (follows last.Data) text.now self.old self.new result }
    {
        if let Some(rest) = after_word(text, b"end\n") {
            self.end_line(Last::End);
            return Ok(Some(rest));
        }
        self.take_row(text)
    }

    fn take_row<'t>(&mut self, text: &'t [u8]) -> Taken<'t>
        requires { self.old.lines + 1 < 2 ^ 63 }
        ensures { Takes is_row text.now self.old self.new result }
    {
        let Some((address, rest)) = address_at(text) else {
            return Ok(None);
        };
        let before = self.amx.store.len();
        let Some(rest) = read_cells(&mut self.amx.store, rest)? else {
            return Ok(None);
        };
        let count = self.amx.store.len() - before;
        if count == 0 || WIDTH < count {
            return Ok(None);
        }
        self.place(address, before);
        self.end_line(row_last(count));
        Ok(Some(rest))
    }

    fn take_end<'t>(&mut self, text: &'t [u8]) -> Option<&'t [u8]>
        requires { self.old.lines + 1 < 2 ^ 63 }
        ensures { TakesMore (follows last.ShortRow) text.now self.old self.new result }
    {
        let rest = after_word(text, b"end\n")?;
        self.end_line(Last::End);
        Some(rest)
    }

    /// Notes a line whose address isn't four times the cells before it, if it is the first.
    fn place(&mut self, address: u32, before: usize)
        ensures { self.new ≡ placed_draft address before self.old }
    {
        let stands = address % 4 == 0 && (address / 4) as usize == before;
        if self.misplaced.is_none() && !stands {
            self.misplaced = Some(self.lines);
        }
    }

    /// Whether the last line was the end, and nothing stands behind it.
    pub fn is_whole(&self, rest: &[u8]) -> bool
        ensures { IsTrue result ↔ (self.now.last ≡ last.End) × (rest.now ≡ []) }
    {
        matches!(self.last, Last::End) && rest.is_empty()
    }

    /// Counts a line, which is such a one.
    fn end_line(&mut self, last: Last)
        requires { self.old.lines + 1 < 2 ^ 63 }
        ensures { self.new ≡ ended last self.old }
    {
        self.lines += 1;
        self.last = last;
    }
}

fn empty_file(alloc: Global) -> Amx
    ensures { result ≡ empty_amx }
{
    Amx {
        flags: 0,
        version: 0,
        code: Cells::new(alloc),
        store: Cells::new(alloc),
        room: 0,
        entry: 0,
        publics: List::new(alloc),
        natives: List::new(alloc),
        libraries: List::new(alloc),
        variables: List::new(alloc),
        tags: List::new(alloc),
    }
}

/// The cells behind one of the code.
fn cells_behind(code: &[i32], place: usize) -> &[i32]
    requires { place < length code.now }
    ensures { result.now ≡ drop (place + 1) code.now }
{
    &code[place + 1..]
}

/// What a row of so many cells leaves.
fn row_last(count: usize) -> Last
    ensures { result ≡ row_last count }
{
    if count == WIDTH {
        Last::Data
    } else {
        Last::ShortRow
    }
}
