ghost use Rattle.std.specs.Prelude.{◌++◌, codes, map};
ghost use Rattle.std.specs.Fmt.{signed_decimal};
ghost use Rattle.pawn_outside.specs.Said.{Said};
ghost use Rattle.host_script.specs.Text.{event_text, end_text, arguments_text};

use super::event::{End, Event, Seen};
use itoa::Buffer;
use pawn_outside::{Sink, SinkFault, say};

/// Writes the line of a native that saw its arguments as cells. Like the other lines it takes no
/// memory, and stops at the first write that fails.
pub fn say_native<S: Sink>(
    out: &mut S,
    name: &[u8],
    cells: &[i32],
    answer: i32,
) -> Result<(), SinkFault>
    ensures { let line = event_text (Event.Native name.now (map Seen.Cell cells.now) answer) in
        Said S.taken S.faults S.has_room out.old out.new line result }
{
    say(out, &[b"native ", name])?;
    say_plain(out, cells)?;
    say_answer(out, answer)
}

/// Writes the beginning of a native's line.
pub fn say_name<S: Sink>(out: &mut S, name: &[u8]) -> Result<(), SinkFault>
    ensures { let text = codes "native " ++ name.now in
        Said S.taken S.faults S.has_room out.old out.new text result }
{
    say(out, &[b"native ", name])
}

/// Writes the line of a sleep.
pub fn say_slept<S: Sink>(out: &mut S, value: i32, tag: i32) -> Result<(), SinkFault>
    ensures { let line = event_text (Event.Slept value tag) in
        Said S.taken S.faults S.has_room out.old out.new line result }
{
    let (mut digits, mut tag_digits) = (Buffer::new(), Buffer::new());
    say(
        out,
        &[
            b"sleep ",
            digits.format(value).as_bytes(),
            b" tag ",
            tag_digits.format(tag).as_bytes(),
            b"\n",
        ],
    )
}

/// Writes the line of an end. A stray access has none.
pub fn say_end<S: Sink>(out: &mut S, end: End) -> Result<(), SinkFault>
    ensures { Said S.taken S.faults S.has_room out.old out.new (end_text end) result }
{
    let mut digits = Buffer::new();
    match end {
        End::Done(value) => say(out, &[b"done ", digits.format(value).as_bytes(), b"\n"]),
        End::Exit { value, tag } => {
            let mut tag_digits = Buffer::new();
            say(
                out,
                &[
                    b"exit ",
                    digits.format(value).as_bytes(),
                    b" tag ",
                    tag_digits.format(tag).as_bytes(),
                    b"\n",
                ],
            )
        }
        End::Error(code) => say(out, &[b"error ", digits.format(code).as_bytes(), b"\n"]),
        End::Stray => say(out, &[]),
    }
}

/// Writes each cell after one blank.
pub(crate) fn say_plain<S: Sink>(out: &mut S, cells: &[i32]) -> Result<(), SinkFault>
    ensures { let text = arguments_text (map Seen.Cell cells.now) in
        Said S.taken S.faults S.has_room out.old out.new text result }
{
    for cell in cells {
        let mut digits = Buffer::new();
        say(out, &[b" ", digits.format(*cell).as_bytes()])?;
    }
    Ok(())
}

/// Writes the end of a native's line.
pub fn say_answer<S: Sink>(out: &mut S, answer: i32) -> Result<(), SinkFault>
    ensures { let text = codes " -> " ++ (signed_decimal answer ++ codes "\n") in
        Said S.taken S.faults S.has_room out.old out.new text result }
{
    let mut digits = Buffer::new();
    say(out, &[b" -> ", digits.format(answer).as_bytes(), b"\n"])
}
