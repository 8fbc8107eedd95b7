ghost use Rattle.std.specs.Prelude.{◌≡◌, ◌≤◌, length, IfOk};
ghost use Rattle.pawn_pre.specs.File.{file_of};

use super::clean::clean_line;
use super::cut::cut_rows;
use super::row::Row;
use pawn_base::Memory;
use std::alloc::Global;
use std::collections::VecDeque;

/// The most bytes of a file.
pub const FILE_LIMIT: u64 = 16_777_216;

/// A file as its lines with their comments blanked. One with a comment open at its end has lost
/// its last row.
#[derive(Debug, Drop)]
pub struct File {
    pub rows: VecDeque<Row>,
    /// The number of the last row, that one included, or 1 where there was none.
    pub last: u32,
    /// Whether a comment is open at the end.
    pub unclosed: bool,
}

/// The rows of a file: lines are cut at byte 10, those that end in `\` are joined with the next,
/// and each comment becomes one blank (Language Guide, "Comments" and "Preprocessor"). It takes at
/// most 16,777,216 bytes, so that every number fits.
///
/// # Errors
///
/// `Memory` for want of memory.
#[tactic(auto, unfolding(crate::specs::File::blanked, crate::specs::File::file_of), using(crate::proofs::FileLaws::blanked_more))]
pub fn read_rows(alloc: Global, bytes: &[u8]) -> Result<File, Memory>
    requires { length bytes.now ≤ 16777216 }
    ensures rows { IfOk result (λ file. file.rows.items ≡ (file_of bytes.now).rows) }
    ensures last { IfOk result (λ file. file.last ≡ (file_of bytes.now).last) }
    ensures unclosed { IfOk result (λ file. file.unclosed ≡ (file_of bytes.now).unclosed) }
    ensures few { IfOk result (λ file. length file.rows.items ≤ length bytes.now) }
{
    let mut joined = cut_rows(alloc, bytes)?;
    let mut rows = VecDeque::new(alloc);
    let mut last = 1;
    let mut unclosed = false;
    while let Some(row) = joined.pop_front() {
        let (bytes, goes_on) = clean_line(alloc, unclosed, row.bytes.as_slice())?;
        last = row.number;
        unclosed = goes_on;
        rows.push_back(Row {
            number: last,
            bytes,
        })?;
    }
    if unclosed {
        let _last = rows.pop_back();
    }
    Ok(File {
        rows,
        last,
        unclosed,
    })
}
