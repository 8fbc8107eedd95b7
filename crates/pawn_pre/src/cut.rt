ghost use Rattle.std.specs.Prelude.{◌≡◌, ◌+◌, ◌<◌, ◌≤◌, ◌∷◌, ◌==◌, ◌↔◌, IsTrue, length, position};
ghost use Rattle.std.specs.Prelude.{IfOk};
ghost use Rattle.std.specs.Str.Lines.{lines, strip_carriage_return};
ghost use Rattle.pawn_pre.specs.declared.file.TheConstants.{FILE_LIMIT};
ghost use Rattle.pawn_pre.specs.Joined.{goes_on, rows_of};

use super::row::Row;
use pawn_base::{Bytes, Memory};
use std::alloc::Global;
use std::collections::VecDeque;

/// The lines of a file, those that end in `\` joined with the next.
pub fn cut_rows(alloc: Global, bytes: &[u8]) -> Result<VecDeque<Row>, Memory>
    requires { length bytes.now ≤ FILE_LIMIT }
    ensures { IfOk result (λ rows. rows.items ≡ rows_of bytes.now) }
{
    let mut rows = VecDeque::new(alloc);
    let mut rest = bytes;
    let mut number: u32 = 1;
    let mut start: u32 = 1;
    let mut front = Bytes::new(alloc);
    while !rest.is_empty() {
        let (line, behind) = next_line(rest);
        rest = behind;
        number += 1;
        if is_continued(line) && !rest.is_empty() {
            front.append(line.split_at(line.len() - 1).0)?;
            continue;
        }
        front.append(line)?;
        rows.push_back(Row {
            number: start,
            bytes: front,
        })?;
        front = Bytes::new(alloc);
        start = number;
    }
    Ok(rows)
}

/// Where the first line ends.
fn line_end(bytes: &[u8]) -> Option<usize>
    ensures { result ≡ position (λ b. b == 10) bytes.now }
{
    bytes.iter().position(|b| *b == b'\n')
}

/// A line without the one carriage return before its end.
fn without_return(line: &[u8]) -> &[u8]
    ensures { result.now ≡ strip_carriage_return line.now }
{
    if line.is_empty() || line[line.len() - 1] != b'\r' {
        return line;
    }
    let (front, _end) = line.split_at(line.len() - 1);
    front
}

/// The first line, and what stands behind it.
#[tactic(auto, using(crate::proofs::JoinedLaws::first_line, crate::proofs::JoinedLaws::last_line))]
fn next_line(bytes: &[u8]) -> (&[u8], &[u8])
    requires { 0 < length bytes.now }
    ensures lines { lines bytes.now ≡ result.0.now ∷ lines result.1.now }
    ensures shorter { length result.1.now < length bytes.now }
{
    let Some(end) = line_end(bytes) else {
        return (bytes, &[]);
    };
    let (line, behind) = bytes.split_at(end);
    let (_end, rest) = behind.split_at(1);
    (without_return(line), rest)
}

/// Whether a line's last byte is `\`.
fn is_continued(line: &[u8]) -> bool
    ensures { result ≡ goes_on line.now }
{
    !line.is_empty() && line[line.len() - 1] == b'\\'
}
