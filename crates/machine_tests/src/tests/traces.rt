use super::base::is_front;
use host_script::{
    End, has_text, plain_script, say_answer, say_cell, say_cells, say_end, say_name, say_native,
    say_reference, say_slept, say_text,
};
use pawn_outside::{MemorySink, Sink, SinkFault};
use std::alloc::Global;
use std::test::Fail;

/// Calls of natives, sleeps and ends.
fn say_lines<S: Sink>(out: &mut S) -> Result<(), SinkFault> {
    say_native(out, b"p", &[2], 0)?;
    say_native(out, b"p", &[-2147483648], 9)?;
    say_native(out, b"pressed", &[], 1)?;
    say_native(out, b"w", &[3, -7], -1)?;
    say_slept(out, 30, 0)?;
    say_slept(out, -1, 2)?;
    say_end(out, End::Done(420))?;
    say_end(out, End::Exit { value: 5, tag: 1 })?;
    say_end(out, End::Error(11))?;
    say_end(out, End::Stray)
}

/// Those lines.
const LINES: &str =
    "native p 2 -> 0\nnative p -2147483648 -> 9\nnative pressed -> 1\nnative w 3 -7 -> -1\n\
    sleep 30 tag 0\nsleep -1 tag 2\ndone 420\nexit 5 tag 1\nerror 11\n";

/// Whether those lines are said so.
fn lines_are_said(alloc: Global) -> bool {
    let Ok(mut out) = MemorySink::new(alloc, 1000, &[]) else {
        return false;
    };
    say_lines(&mut out).is_ok() && out.bytes() == LINES.as_bytes()
}

#[test]
fn lines_of_a_trace(rt: HostRuntime) {
    assert!(rt; lines_are_said(rt.alloc()));
}

/// A line with an argument of each form.
fn say_forms<S: Sink>(out: &mut S) -> Result<(), SinkFault> {
    say_name(out, b"n")?;
    say_cell(out, -5)?;
    say_reference(out, 7)?;
    say_cells(out, &[])?;
    say_cells(out, &[1])?;
    say_cells(out, &[1, -2, 3])?;
    say_text(out, &[72, 105, 0, 9])?;
    say_text(out, &[0x4869_2100])?;
    say_answer(out, 4)
}

/// That line.
const FORMS: &str = "native n -5 &7 [] [1] [1 -2 3] \"Hi\" \"Hi!\" -> 4\n";

/// Whether a sink of some room takes that line; none where what it took is no front of the line, or
/// not the whole line where all was taken.
fn takes_forms(alloc: Global, room: u32) -> Option<bool> {
    let mut out = MemorySink::new(alloc, room, &[]).ok()?;
    let is_taken = say_forms(&mut out).is_ok();
    is_front(out.bytes(), FORMS.as_bytes(), is_taken).then_some(is_taken)
}

#[test]
fn a_sink_of_each_room(rt: HostRuntime) {
    let length = FORMS.len();
    for room in 0..length + 1 {
        assert!(rt;
            takes_forms(rt.alloc(), room as u32) == Some(room == length),
            "{room}"
        );
    }
    assert!(rt; takes_forms(rt.alloc(), 1000) == Some(true));
}

/// Cells with the text that they have.
const TEXTS: [(&[i32], Option<&str>); 13] = [
    (&[], None),
    (&[0], Some(" \"\"")),
    (&[65], None),
    (&[65, 0], Some(" \"A\"")),
    (&[-5, 0], Some(" \"\\255;\\255;\\255;\\251;\"")),
    (&[65, -5, 0], Some(" \"A\\-5;\"")),
    (&[34, 92, 31, 127, 0], Some(" \"\\34;\\92;\\31;\\127;\"")),
    (&[0x00FF_FFFF, 0], Some(" \"\\16777215;\"")),
    (&[0x0100_0000], Some(" \"\\1;\"")),
    (&[0x4142_4344], None),
    (&[0x4142_4344, 0x4500_4646], Some(" \"ABCDE\"")),
    (
        &[-1, 0x2200_0000],
        Some(" \"\\255;\\255;\\255;\\255;\\34;\""),
    ),
    (&[0x0041_4243, 0], Some(" \"\\4276803;\"")),
];

/// Whether cells are said with this text.
fn is_said(alloc: Global, cells: &[i32], text: &str) -> bool {
    let Ok(mut out) = MemorySink::new(alloc, 1000, &[]) else {
        return false;
    };
    say_text(&mut out, cells).is_ok() && out.bytes() == text.as_bytes()
}

/// Whether cells have this text, or none.
fn text_is(alloc: Global, cells: &[i32], wanted: Option<&str>) -> bool {
    match wanted {
        Some(text) => has_text(cells) && is_said(alloc, cells, text),
        None => !has_text(cells),
    }
}

#[test]
fn texts_packed_and_unpacked(rt: HostRuntime) {
    for (cells, wanted) in TEXTS {
        assert!(rt; text_is(rt.alloc(), cells, wanted));
    }
}

#[test]
fn the_plain_script(rt: HostRuntime) -> Result<(), Fail> {
    let script = plain_script(rt.alloc())?;
    let is_empty = script.natives.is_empty() && script.answers.is_empty();
    assert!(rt; script.others && is_empty);
    Ok(())
}
