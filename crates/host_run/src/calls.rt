ghost use Rattle.std.specs.Prelude.{◌≡◌, ◌≤◌, ℕ, List as ListOf, length, option_map, Some, nat_le};
ghost use Rattle.std.specs.Prelude.{IfOk};
ghost use Rattle.std.specs.List.{list_all};
ghost use Rattle.host_script.specs.Script.{turn_by};
ghost use Rattle.host_script.specs.declared.script.TheConstants.{ANSWER_LIMIT};
ghost use Rattle.pawn_cells.specs.Cells.{bits_of};
ghost use Rattle.amx_ops.specs.Moves.{arguments, look, live_from};
ghost use Rattle.host_run.specs.Guest.{form_at};
ghost use Rattle.host_run.specs.Sights.{arguments_of, is_sight, all_seen, is_allowed};
ghost use Rattle.host_run.specs.Bound.{most_writes};
ghost use Rattle.host_run.specs.Called.{called_of};
ghost use Rattle.host_run.specs.Reply.{Replies, IsTaken};

use super::guest::Guest;
use amx_machine::Machine;
use host_script::{Answer, Form, Script, Write, has_text};

/// AMX error 10: the native.
const NATIVE: i32 = 10;

/// What a native answers to a call.
#[derive(Clone, Copy, Debug)]
pub struct Reply<'s> {
    /// How many arguments it has.
    pub count: u32,
    pub result: i32,
    pub writes: &'s [Write],
}

/// Finds what a native answers, or the AMX error of its call: its arguments are counted and seen,
/// then its answer is taken, whose writes are tested. Nothing is written yet.
pub fn reply_to<'s>(
    machine: &Machine,
    guest: &Guest<'_>,
    script: &'s Script,
    at: &mut u32,
) -> Result<Reply<'s>, i32>
    requires { length script.now.answers ≤ ANSWER_LIMIT }
    ensures replies { (name : ListOf ℕ) → let it = guest.now in
        Replies name it machine.now.state
        (called_of script.now it.forms.now it.rest it.result name machine.now.state at.old)
        at.new result }
    ensures few { IfOk result (λ reply.
        length reply.writes.now ≤ most_writes script.now.answers) }
{
    let Some(count) = machine.native_args() else {
        return Err(NATIVE);
    };
    if !guest.takes(count) {
        return Err(NATIVE);
    }
    if !are_seen(machine, guest, count) {
        return Err(NATIVE);
    }
    match take_answer(guest, script, at) {
        Err(code) => Err(code),
        Ok((result, writes)) => {
            if !may_write(guest, count, writes) {
                return Err(NATIVE);
            }
            Ok(Reply {
                count,
                result,
                writes,
            })
        }
    }
}

/// Takes a native's answer or its error: its own, or the script's next, or 0 behind the last.
fn take_answer<'s>(
    guest: &Guest<'_>,
    script: &'s Script,
    at: &mut u32,
) -> Result<(i32, &'s [Write]), i32>
    requires { length script.now.answers ≤ ANSWER_LIMIT }
    ensures position { at.new ≡ (turn_by guest.now.result script.now at.old).position }
    ensures answer { IsTaken (turn_by guest.now.result script.now at.old).answer result }
{
    if let Some(result) = guest.result {
        return Ok((result, &[]));
    }
    let Some(answer) = script.answers.as_slice().get(*at as usize) else {
        return Ok((0, &[]));
    };
    *at += 1;
    match answer {
        Answer::Given { result, writes } => Ok((*result, writes.as_slice())),
        Answer::Error(code) => Err(*code),
    }
}

/// Whether each argument is seen.
fn are_seen(machine: &Machine, guest: &Guest<'_>, count: u32) -> bool
    requires { option_map length (arguments machine.now.state) ≡ Some count }
    ensures { result ≡ all_seen machine.now.state (form_at guest.now.forms.now guest.now.rest) 0
        (arguments_of machine.now.state) }
{
    for index in 0..count {
        if !is_seen(machine, guest.form(index), machine.native_arg(index)) {
            return false;
        }
    }
    true
}

/// Whether an argument is live as far as its form reaches, and a text has its end.
#[tactic(auto, using(crate::proofs::SightLaws::sight_if, crate::proofs::SightLaws::sight_text))]
fn is_seen(machine: &Machine, form: Form, value: i32) -> bool
    ensures { result ≡ is_sight (look machine.now.state value form) }
{
    match form {
        Form::Cell => true,
        Form::Ref => reaches(machine, value, 1),
        Form::Text => has_text(machine.live_from(value)),
        Form::Cells(count) => reaches(machine, value, count),
    }
}

/// Whether so many cells are live from an address on.
fn reaches(machine: &Machine, address: i32, count: u32) -> bool
    ensures { result ≡ nat_le count (length (live_from machine.now.state (bits_of address))) }
{
    count as usize <= machine.live_from(address).len()
}

/// Whether each write goes to an argument that is there and takes so many cells.
fn may_write(guest: &Guest<'_>, count: u32, writes: &[Write]) -> bool
    ensures { result ≡ list_all (is_allowed (form_at guest.now.forms.now guest.now.rest) count)
        writes.now }
{
    for write in writes {
        if !is_allowed(guest, count, write) {
            return false;
        }
    }
    true
}

fn is_allowed(guest: &Guest<'_>, count: u32, write: &Write) -> bool
    ensures { result ≡ is_allowed (form_at guest.now.forms.now guest.now.rest) count write.now }
{
    let size = write.cells.len();
    write.arg < count
        && match guest.form(write.arg) {
            Form::Cell | Form::Text => false,
            Form::Ref => size <= 1,
            Form::Cells(room) => size <= room as usize,
        }
}
