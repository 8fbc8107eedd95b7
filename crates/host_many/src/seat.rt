ghost use Rattle.std.specs.Prelude.{◌≡◌, ◌++◌, ◌<◌, ◌^◌, List as ListOf, ℕ, [], length};
ghost use Rattle.pawn_outside.specs.Said.{Said};
ghost use Rattle.pawn_outside.specs.Taken.{joined};
ghost use Rattle.host_script.specs.Text.{end_text};
ghost use Rattle.host_script.specs.declared.event.End.TheVariants as end;
ghost use Rattle.host_script.specs.declared.script.Script.{Script as ScriptOf};
ghost use Rattle.amx_machine.specs.Machine.{IsIdle};
ghost use Rattle.host_run.specs.Session.{told};
ghost use Rattle.host_many.specs.Guests.{guest_of};
ghost use Rattle.host_many.specs.Own.{gone, started, turned};
ghost use Rattle.host_many.specs.TurnsSo.{TurnsSo, rows_text};
ghost use Rattle.host_many.specs.declared.turn.Turn.TheVariants as turn;

use super::standing::{Standing, standing_of};
use super::turn::Turn;
use amx_machine::Machine;
use host_run::{Bound, Part, SessionEnd, entry_of, session_behind};
use host_script::{End, Script, say_end};
use pawn_outside::{Sink, SinkFault, say};
use std::marker::Model;

/// A machine of a host: its natives are bound to its script, which stands at a position.
#[derive(Drop)]
pub struct Seat {
    pub(crate) machine: Machine,
    pub(crate) bound: Bound,
    pub(crate) script: Script,
    pub(crate) at: u32,
}

impl Model for Seat {
    ghost use Rattle.host_many.specs.Own.{Guest};
    ghost use Rattle.host_many.specs.Guests.{guest_of, IsGuest};

    ghost Value = { Guest };

    ghost view = { λ s. guest_of s.machine s.script s.at };

    ghost invariant = { λ s. IsGuest s.machine s.script s.bound };
}

impl Seat {
    /// Does an event, each line behind the front.
    pub fn serve<S: Sink>(
        &mut self,
        turn: &Turn,
        front: &[&[u8]],
        out: &mut S,
    ) -> Result<(), SinkFault>
        ensures text { Said S.taken S.faults S.has_room out.old out.new
            (rows_text (joined front.now) (turned turn.now self.old).lines) result }
        ensures guest { TurnsSo (joined front.now) turn.now self.old (S.taken out.old)
            (S.taken out.new) result self.new }
    {
        match turn {
            Turn::Start { name, .. } => self.start(name.as_slice(), front, out),
            Turn::Go { steps, .. } => self.go(*steps, front, out),
        }
    }

    /// Starts it where it is idle.
    fn start<S: Sink>(&mut self, name: &[u8], front: &[&[u8]], out: &mut S) -> Result<(), SinkFault>
        ensures text { Said S.taken S.faults S.has_room out.old out.new
            (rows_text (joined front.now) (started name.now self.old.standing self.old).lines)
            result }
        ensures guest { (machine : ℕ) → TurnsSo (joined front.now) (turn.Start machine name.now)
            self.old (S.taken out.old) (S.taken out.new) result self.new }
    {
        match standing_of(self.machine.mode()) {
            Standing::Idle => start_at(&mut self.machine, name, front, out),
            Standing::Runs => say_row(out, front, b"busy\n"),
            Standing::Over => say_row(out, front, b"over\n"),
        }
    }

    /// Gives it steps where it was started.
    fn go<S: Sink>(&mut self, steps: u64, front: &[&[u8]], out: &mut S) -> Result<(), SinkFault>
        ensures text { Said S.taken S.faults S.has_room out.old out.new
            (rows_text (joined front.now) (gone steps self.old.standing self.old).lines) result }
        ensures guest { (machine : ℕ) → TurnsSo (joined front.now) (turn.Go machine steps)
            self.old (S.taken out.old) (S.taken out.new) result self.new }
    {
        match standing_of(self.machine.mode()) {
            Standing::Runs => {
                let part = Part {
                    script: &self.script,
                    front,
                };
                let (machine, bound) = (&mut self.machine, &mut self.bound);
                told(session_behind(machine, bound, part, &mut self.at, steps, out).1)
            }
            Standing::Idle | Standing::Over => Ok(()),
        }
    }
}

/// Starts an idle machine at an entry by its name, without arguments.
fn start_at<S: Sink>(
    machine: &mut Machine,
    name: &[u8],
    front: &[&[u8]],
    out: &mut S,
) -> Result<(), SinkFault>
    requires idle { IsIdle machine.old.mode }
    requires publics { length machine.old.amx.publics < 2 ^ 31 }
    ensures file { machine.new.amx ≡ machine.old.amx }
    ensures text { (script : ScriptOf) → (position : ℕ) →
        let guest = guest_of machine.old script position in
        Said S.taken S.faults S.has_room out.old out.new
        (rows_text (joined front.now) (started name.now guest.standing guest).lines) result }
    ensures guest { (script : ScriptOf) → (position number : ℕ) →
        TurnsSo (joined front.now) (turn.Start number name.now)
        (guest_of machine.old script position) (S.taken out.old) (S.taken out.new) result
        (guest_of machine.new script position) }
{
    match entry_of(machine.verified().amx(), name) {
        None => say_row(out, front, b"no entry\n"),
        Some(entry) => match machine.start(entry, &[]) {
            Ok(()) => Ok(()),
            Err(fault) => say_error(out, front, fault.code()),
        },
    }
}

/// Whether a session's sink took all lines.
fn told(end: SessionEnd) -> Result<(), SinkFault>
    ensures { result ≡ told end }
{
    match end {
        SessionEnd::SinkFault => Err(SinkFault),
        SessionEnd::Done(_)
        | SessionEnd::Exit { .. }
        | SessionEnd::Error(_)
        | SessionEnd::Asleep { .. }
        | SessionEnd::Steps => Ok(()),
    }
}

/// Writes a line behind its front.
fn say_row<S: Sink>(out: &mut S, front: &[&[u8]], line: &[u8]) -> Result<(), SinkFault>
    ensures { Said S.taken S.faults S.has_room out.old out.new (joined front.now ++ line.now)
        result }
{
    say(out, front)?;
    say(out, &[line])
}

/// Writes the line of an error behind its front.
fn say_error<S: Sink>(out: &mut S, front: &[&[u8]], code: i32) -> Result<(), SinkFault>
    ensures { Said S.taken S.faults S.has_room out.old out.new
        (joined front.now ++ end_text (end.Error code)) result }
{
    say(out, front)?;
    say_end(out, End::Error(code))
}
