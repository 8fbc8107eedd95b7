ghost use Rattle.std.specs.Prelude.{◌≡◌, ◌==◌, ◌+◌, ◌*◌, ◌<◌, ◌≤◌, ◌-◌, ◌^◌, length, min};
ghost use Rattle.std.specs.Prelude.{position};
ghost use Rattle.std.specs.List.{position_or_len};
ghost use Rattle.amx_ops.specs.Writable.{code_place, cells_limit, table_size, names_size};
ghost use Rattle.amx_text.specs.Drafts.{Finishes, IsSmall, header_by, lines_fault_by};
ghost use Rattle.amx_text.specs.Drafts.{Verifies, IsTold, entry_line};
ghost use Rattle.amx_text.specs.Faults.{is_within};

use super::draft::Draft;
use super::fault::AsmFault;
use amx_format::{HEADER, MEMORY_LIMIT, RECORD};
use amx_ops::{Amx, Record};
use amx_verify::{VerifyFault, verify};
use std::alloc::Global;

/// The most bytes of code, data, heap and stack.
const MOST_BYTES: u64 = MEMORY_LIMIT as u64;

/// Below it lie a file's size and its stack's top.
const PAST_FILE: u64 = 0x8000_0000;

/// The bytes of a file's header, and of the number before its names.
const HEADER_BYTES: u64 = HEADER as u64 + 2;

/// The bytes of a record, and of the zero behind its name.
const RECORD_BYTES: u64 = RECORD as u64 + 1;

impl Draft {
    /// The file, if it is within the limits, stands where its lines say, has as many cells as its
    /// header says, and is valid; else the first cause why not.
    pub fn finish(self, alloc: Global) -> Result<Amx, AsmFault>
        requires { IsSmall self }
        ensures { Finishes self result }
    {
        match self.find_fault() {
            Some(fault) => Err(fault),
            None => self.verify_file(alloc),
        }
    }

    /// The first cause before the verifier's.
    fn find_fault(&self) -> Option<AsmFault>
        requires { IsSmall self.now }
        ensures { result ≡ lines_fault_by self.now }
    {
        if !self.is_within() {
            return Some(AsmFault::Limit);
        }
        if let Some(before) = self.misplaced {
            return Some(AsmFault::Address(before as u32 + 1));
        }
        if self.amx.code.len() as u64 != u64::from(self.code) {
            return Some(AsmFault::Count(self.data_mark as u32 + 1));
        }
        if self.amx.store.len() as u64 != u64::from(self.store) {
            return Some(AsmFault::Count(self.lines as u32));
        }
        None
    }

    /// Whether a file with as many cells as the header says is within the limits.
    fn is_within(&self) -> bool
        ensures { result ≡ is_within (header_by self.now) self.now.amx }
    {
        let cells = u64::from(self.code) + u64::from(self.store);
        let memory = memory_bytes(cells, self.amx.room);
        let past = code_place(&self.amx).saturating_add(memory.max(5 * cells));
        memory <= MOST_BYTES && past < PAST_FILE
    }

    /// The file, if it is valid.
    fn verify_file(self, alloc: Global) -> Result<Amx, AsmFault>
        requires small { self.code_mark + length self.starts + 2 < 2 ^ 32 }
        requires memory { length self.amx.code + length self.amx.store + self.amx.room
            ≤ cells_limit }
        requires tables { (length self.amx.publics < 2 ^ 31) × (length self.amx.natives < 2 ^ 31) }
        ensures { Verifies self result }
    {
        let Draft {
            amx,
            starts,
            code_mark,
            ..
        } = self;
        match verify(alloc, amx) {
            Ok(verified) => Ok(verified.into_amx()),
            Err(fault) => Err(tell_fault(&fault, starts.as_slice(), code_mark)),
        }
    }
}

/// What the verifier refuses, with its line: that of the instruction, or of the public's record
/// behind the header, or of the header for main.
fn tell_fault(fault: &VerifyFault, starts: &[u32], code_mark: usize) -> AsmFault
    requires { code_mark + length starts.now + 2 < 2 ^ 32 }
    ensures { IsTold fault.now starts.now code_mark result }
{
    match fault {
        VerifyFault::Opcode(at)
        | VerifyFault::Cut(at)
        | VerifyFault::Target(at)
        | VerifyFault::CaseTable(at)
        | VerifyFault::Native(at)
        | VerifyFault::Register(at)
        | VerifyFault::ByteCount(at) => {
            AsmFault::Invalid((code_mark + 2 + place_of(starts, *at)) as u32)
        }
        VerifyFault::Entry(number) => AsmFault::Invalid(entry_line(*number)),
        VerifyFault::Memory => AsmFault::Memory,
    }
}

/// The line of an entry, by its public's number, or -1 for main.
fn entry_line(number: i32) -> u32
    ensures { result ≡ entry_line number }
{
    if number < 0 {
        1
    } else {
        number.cast_unsigned() + 2
    }
}

/// The place of an address among those of the instructions.
fn place_of(starts: &[u32], at: u32) -> usize
    ensures { result ≡ position_or_len (λ start. start == at) starts.now }
{
    start_at(starts, at).unwrap_or(starts.len())
}

fn start_at(starts: &[u32], at: u32) -> Option<usize>
    ensures { result ≡ position (λ start. start == at) starts.now }
{
    starts.iter().position(|start| *start == at)
}

/// The bytes of so many cells of code and data with their room.
fn memory_bytes(cells: u64, room: u32) -> u64
    requires { cells < 2 ^ 33 }
    ensures { result ≡ 4 * (cells + room) }
{
    4 * (cells + u64::from(room))
}

/// Where the code of a file begins, behind its header, its tables and its names.
fn code_place(amx: &Amx) -> u64
    ensures exact { result < 2 ^ 31 → code_place amx.now ≡ result }
    ensures large { 2 ^ 31 ≤ result → 2 ^ 31 ≤ code_place amx.now }
{
    let publics = records_size(amx.publics.as_slice());
    let natives = records_size(amx.natives.as_slice());
    let libraries = records_size(amx.libraries.as_slice());
    let variables = records_size(amx.variables.as_slice());
    let tags = records_size(amx.tags.as_slice());
    let records = publics
        .saturating_add(natives)
        .saturating_add(libraries)
        .saturating_add(variables)
        .saturating_add(tags);
    (HEADER_BYTES + 3).saturating_add(records) / 4 * 4
}

/// The bytes of records with their names, each with a zero behind it.
fn records_size(records: &[Record]) -> u64
    ensures { result ≡ min (table_size records.now + names_size records.now) (2 ^ 64 - 1) }
{
    let mut size: u64 = 0;
    for record in records {
        size = size
            .saturating_add(RECORD_BYTES)
            .saturating_add(record.name.len() as u64);
    }
    size
}
