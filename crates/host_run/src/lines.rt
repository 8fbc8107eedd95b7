ghost use Rattle.std.specs.Prelude.{◌≡◌, ◌++◌, codes, length, option_map, Some, true};
ghost use Rattle.std.specs.Fmt.{signed_decimal};
ghost use Rattle.pawn_outside.specs.Said.{Said};
ghost use Rattle.pawn_outside.specs.Taken.{joined};
ghost use Rattle.host_script.specs.Text.{argument_text, arguments_text, end_text, event_text};
ghost use Rattle.host_script.specs.declared.event.Event.TheVariants as event;
ghost use Rattle.amx_ops.specs.Moves.{arguments, look};
ghost use Rattle.host_run.specs.Sights.{is_sight, sought_in, seen_by, sees_all};

use super::guest::Guest;
use amx_machine::Machine;
use host_script::{
    End, Form, say_answer, say_cell, say_cells, say_end, say_name, say_reference, say_slept,
    say_text,
};
use pawn_outside::{Sink, SinkFault, say};

/// What a native's line tells besides what it sees, and the front of that line in pieces.
#[derive(Clone, Copy, Debug)]
pub struct Call<'s> {
    pub front: &'s [&'s [u8]],
    pub name: &'s [u8],
    /// How many arguments it has.
    pub count: u32,
    pub answer: i32,
}

/// Writes the line of a native that sees its arguments and answers a result, behind its front.
pub fn say_call<S: Sink>(
    out: &mut S,
    machine: &Machine,
    guest: &Guest<'_>,
    call: Call<'_>,
) -> Result<(), SinkFault>
    requires counted { option_map length (arguments machine.now.state) ≡ Some call.count }
    requires visible { sees_all machine.now.state guest.now ≡ true }
    ensures { let seen = seen_by machine.now.state guest.now in
        Said S.taken S.faults S.has_room out.old out.new
        (joined call.entry.front.now ++ event_text (event.Native call.entry.name.now seen call.entry.answer)) result }
{
    say_begin(out, call.front, call.name)?;
    say_arguments(out, machine, guest, call.count)?;
    say_answer(out, call.answer)
}

/// Writes the front of a native's line and the line's beginning.
fn say_begin<S: Sink>(out: &mut S, front: &[&[u8]], name: &[u8]) -> Result<(), SinkFault>
    ensures { Said S.taken S.faults S.has_room out.old out.new
        (joined front.now ++ (codes "native " ++ name.now)) result }
{
    say(out, front)?;
    say_name(out, name)
}

/// Writes the line of a sleep behind its front.
pub fn say_sleep<S: Sink>(
    out: &mut S,
    front: &[&[u8]],
    value: i32,
    tag: i32,
) -> Result<(), SinkFault>
    ensures { Said S.taken S.faults S.has_room out.old out.new
        (joined front.now ++ event_text (event.Slept value tag)) result }
{
    say(out, front)?;
    say_slept(out, value, tag)
}

/// Writes the line of an end behind its front.
pub fn say_last<S: Sink>(out: &mut S, front: &[&[u8]], end: End) -> Result<(), SinkFault>
    ensures { Said S.taken S.faults S.has_room out.old out.new
        (joined front.now ++ end_text end) result }
{
    say(out, front)?;
    say_end(out, end)
}

/// Writes each argument after one blank.
fn say_arguments<S: Sink>(
    out: &mut S,
    machine: &Machine,
    guest: &Guest<'_>,
    count: u32,
) -> Result<(), SinkFault>
    requires counted { option_map length (arguments machine.now.state) ≡ Some count }
    requires visible { sees_all machine.now.state guest.now ≡ true }
    ensures { let text = arguments_text (seen_by machine.now.state guest.now) in
        Said S.taken S.faults S.has_room out.old out.new text result }
{
    for index in 0..count {
        say_argument(out, machine, guest.form(index), machine.native_arg(index))?;
    }
    Ok(())
}

/// Writes an argument as a native sees it.
fn say_argument<S: Sink>(
    out: &mut S,
    machine: &Machine,
    form: Form,
    value: i32,
) -> Result<(), SinkFault>
    requires { is_sight (look machine.now.state value form) ≡ true }
    ensures { let text = argument_text (sought_in (look machine.now.state value form)).seen in
        Said S.taken S.faults S.has_room out.old out.new text result }
{
    match form {
        Form::Cell => say_cell(out, value),
        Form::Ref => say_reference(out, machine.live_from(value)[0]),
        Form::Text => say_text(out, machine.live_from(value)),
        Form::Cells(count) => say_cells(out, &machine.live_from(value)[..count as usize]),
    }
}
