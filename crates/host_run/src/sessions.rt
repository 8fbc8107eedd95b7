ghost use Rattle.std.specs.Prelude.{◌≡◌, ◌++◌, ℕ, List as ListOf, [], Some, pos};
ghost use Rattle.pawn_outside.specs.Said.{Said};
ghost use Rattle.pawn_outside.specs.Taken.{joined};
ghost use Rattle.host_script.specs.Ranges.{IsScript};
ghost use Rattle.host_script.specs.Text.{event_text, end_text};
ghost use Rattle.host_script.specs.declared.event.Event.TheVariants as event;
ghost use Rattle.amx_ops.specs.Moves.{name_of};
ghost use Rattle.amx_machine.specs.declared.mode.Mode.TheVariants as mode;
ghost use Rattle.host_run.specs.Bound.{bound_of, entry_of};
ghost use Rattle.host_run.specs.Segments.{Place, segment_of, text_behind, text_of};
ghost use Rattle.host_run.specs.Stands.{IsAwake};
ghost use Rattle.host_run.specs.Session.{Sessions, SessionsBehind, told};
ghost use Rattle.host_run.specs.Advance.{Advanced, call_by, move_by, told_of};
ghost use Rattle.host_run.specs.Advance.{EndsBy, IsBehind, IsGuest, IsOver, IsSleep};

use super::bound::Bound;
use super::calls::reply_to;
use super::end::SessionEnd;
use super::guest::Guest;
use super::lines::{Call, say_call, say_last, say_sleep};
use amx_machine::{Event, Machine};
use host_script::{End, Form, Native, Script};
use pawn_outside::{Sink, SinkFault};

/// Runs a machine that is running or at a sleep, for so many steps at most, up to a sleep or an end
/// or a line that the sink doesn't take. Natives answer by the script, from a position of its
/// answers on, and the trace is written line by line. Tells how many steps were done. It takes no
/// memory.
pub fn session<S: Sink>(
    machine: &mut Machine,
    bound: &mut Bound,
    script: &Script,
    at: &mut u32,
    steps: u64,
    out: &mut S,
) -> (u64, SessionEnd)
    requires awake { IsAwake machine.old.mode }
    requires script { IsScript script.now }
    requires bound { bound.old ≡ bound_of script.now machine.old.amx.natives }
    ensures text { let place : Place = record { machine = machine.old; position = at.old } in
        Said S.taken S.faults S.has_room out.old out.new
        (text_of (segment_of script.now place steps)) (told result.1) }
    ensures answer { let place : Place = record { machine = machine.old; position = at.old } in
        Sessions (segment_of script.now place) (S.taken out.old) (S.taken out.new) steps
        place result.0 result.1 (record { machine = machine.new; position = at.new }) }
    ensures bound { bound.new ≡ bound.old }
{
    let part = Part { script, front: &[] };
    session_behind(machine, bound, part, at, steps, out)
}

/// The script of a machine, and what stands in front of each line of its run, in pieces.
#[derive(Clone, Copy, Debug)]
pub struct Part<'s> {
    pub script: &'s Script,
    pub front: &'s [&'s [u8]],
}

/// A [`session`] of which each line stands behind the same front.
pub fn session_behind<S: Sink>(
    machine: &mut Machine,
    bound: &mut Bound,
    part: Part<'_>,
    at: &mut u32,
    steps: u64,
    out: &mut S,
) -> (u64, SessionEnd)
    requires awake { IsAwake machine.old.mode }
    requires script { IsScript part.script.now }
    requires bound { bound.old ≡ bound_of part.script.now machine.old.amx.natives }
    ensures text { let place : Place = record { machine = machine.old; position = at.old } in
        Said S.taken S.faults S.has_room out.old out.new
        (text_behind (joined part.entry.front.now) (segment_of part.entry.script.now place steps))
        (told result.1) }
    ensures answer { let place : Place = record { machine = machine.old; position = at.old } in
        SessionsBehind (joined part.entry.front.now) (segment_of part.entry.script.now place)
        (S.taken out.old) (S.taken out.new) steps
        place result.0 result.1 (record { machine = machine.new; position = at.new }) }
    ensures bound { bound.new ≡ bound.old }
{
    let mut done = 0;
    while done < steps {
        let (count, event) = machine.run(steps - done);
        done += count;
        if let Some(end) = advance(machine, bound, part, at, event, out) {
            return (done, end);
        }
    }
    (done, SessionEnd::Steps)
}

/// Does what an event asks for, and tells where it ends the session.
fn advance<S: Sink>(
    machine: &mut Machine,
    bound: &mut Bound,
    part: Part<'_>,
    at: &mut u32,
    event: Event,
    out: &mut S,
) -> Option<SessionEnd>
    requires behind { IsBehind event machine.old }
    requires script { IsScript part.script.now }
    requires bound { bound.old ≡ bound_of part.script.now machine.old.amx.natives }
    ensures file { machine.new.amx ≡ machine.old.amx }
    ensures bound { bound.new ≡ bound.old }
    ensures going { event ≡ Event.Going → result ≡ None }
    ensures advances { Advanced (joined part.entry.front.now)
        (move_by machine.old.amx part.entry.script.now event
        (record { machine = machine.old; position = at.old }))
        (record { machine = machine.new; position = at.new }) result
        (λ text. Said S.taken S.faults S.has_room out.old out.new text (told_of result)) }
{
    match event {
        Event::Going => None,
        Event::Native(number) => call(machine, bound, part, number, at, out),
        Event::Halt { code, pri, alt } => match end_of(code, pri, alt) {
            Some(end) => Some(over(end, part.front, out)),
            None => Some(asleep(pri, alt, part.front, out)),
        },
        Event::Error(code) => Some(over(End::Error(code), part.front, out)),
    }
}

/// Answers a native, and writes its line. Where the sink fails, the native is answered all the
/// same.
fn call<S: Sink>(
    machine: &mut Machine,
    bound: &mut Bound,
    part: Part<'_>,
    number: u32,
    at: &mut u32,
    out: &mut S,
) -> Option<SessionEnd>
    requires waits { machine.old.mode ≡ mode.Waiting }
    requires script { IsScript part.script.now }
    requires bound { bound.old ≡ bound_of part.script.now machine.old.amx.natives }
    ensures file { machine.new.amx ≡ machine.old.amx }
    ensures bound { bound.new ≡ bound.old }
    ensures advances { Advanced (joined part.entry.front.now)
        (call_by part.entry.script.now (name_of machine.old.amx.natives number)
        (record { machine = machine.old; position = at.old }))
        (record { machine = machine.new; position = at.new }) result
        (λ text. Said S.taken S.faults S.has_room out.old out.new text (told_of result)) }
{
    let guest = guest_at(part.script, bound.entry(number));
    match reply_to(machine, &guest, part.script, at) {
        Err(code) => {
            machine.fail(code);
            Some(over(End::Error(code), part.front, out))
        }
        Ok(reply) => {
            // It shows what was seen, so it is written before the answer's writes are done.
            let call = Call {
                front: part.front,
                name: bound.name(number),
                count: reply.count,
                answer: reply.result,
            };
            let said = say_call(out, machine, &guest, call);
            bound.write_all(machine, reply.writes);
            machine.answer(reply.result);
            match said {
                Ok(()) => None,
                Err(SinkFault) => Some(SessionEnd::SinkFault),
            }
        }
    }
}

/// The end that a halt is; none for a sleep.
fn end_of(code: i32, pri: i32, alt: i32) -> Option<End>
    ensures { EndsBy code pri alt result }
{
    if code == 0 {
        Some(End::Done(pri))
    } else if code == 1 {
        Some(End::Exit {
            value: pri,
            tag: alt,
        })
    } else if code == 12 {
        None
    } else {
        Some(End::Error(code))
    }
}

/// Writes the line of a sleep.
fn asleep<S: Sink>(pri: i32, alt: i32, front: &[&[u8]], out: &mut S) -> SessionEnd
    ensures answer { IsSleep pri alt result }
    ensures text { Said S.taken S.faults S.has_room out.old out.new
        (joined front.now ++ event_text (event.Slept pri alt)) (told result) }
{
    match say_sleep(out, front, pri, alt) {
        Ok(()) => SessionEnd::Asleep {
            value: pri,
            tag: alt,
        },
        Err(SinkFault) => SessionEnd::SinkFault,
    }
}

/// Writes the line of an end.
fn over<S: Sink>(end: End, front: &[&[u8]], out: &mut S) -> SessionEnd
    ensures answer { IsOver end result }
    ensures text { Said S.taken S.faults S.has_room out.old out.new
        (joined front.now ++ end_text end) (told result) }
{
    match say_last(out, front, end) {
        Ok(()) => match end {
            End::Done(value) => SessionEnd::Done(value),
            End::Exit { value, tag } => SessionEnd::Exit { value, tag },
            End::Error(code) => SessionEnd::Error(code),
            End::Stray => SessionEnd::Steps,
        },
        Err(SinkFault) => SessionEnd::SinkFault,
    }
}

/// What a script says of the native with an entry: one that isn't listed sees cells and answers 0.
#[tactic(auto, using(crate::proofs::GuestLaws::guests))]
fn guest_at(script: &Script, entry: Option<usize>) -> Guest<'_>
    ensures { (name : ListOf ℕ) → entry ≡ entry_of script.now name →
        IsGuest script.now name result }
{
    match entry {
        None => unlisted(),
        Some(place) => match script.natives.as_slice().get(place) {
            None => unlisted(),
            Some(native) => listed(native),
        },
    }
}

fn unlisted() -> Guest<'static>
    ensures forms { result.forms.now ≡ [] }
    ensures rest { result.rest ≡ Some Form.Cell }
    ensures answer { result.result ≡ Some (pos 0) }
{
    Guest {
        forms: &[],
        rest: Some(Form::Cell),
        result: Some(0),
    }
}

fn listed(native: &Native) -> Guest<'_>
    ensures forms { result.forms.now ≡ native.now.forms }
    ensures rest { result.rest ≡ native.now.rest }
    ensures answer { result.result ≡ native.now.result }
{
    Guest {
        forms: native.forms.as_slice(),
        rest: native.rest,
        result: native.result,
    }
}
