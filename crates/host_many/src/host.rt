ghost use Rattle.std.specs.Prelude.{◌≡◌, ◌+◌, ◌<◌, ◌^◌, ◌++◌, ◌∷◌, [], IfOk, length};
ghost use Rattle.host_script.specs.Ranges.{IsScript};
ghost use Rattle.pawn_outside.specs.Said.{Said};
ghost use Rattle.host_many.specs.Adds.{Adds, IsGuestOf};
ghost use Rattle.host_many.specs.Serves.{HasMachines, Serves, served_text};
ghost use Rattle.host_many.specs.TurnsSo.{told_of};

use super::seat::Seat;
use super::served::Served;
use super::turn::Turn;
use amx_machine::Machine;
use amx_verify::Verified;
use host_run::{BindFault, bind};
use host_script::Script;
use itoa::Buffer;
use pawn_base::Memory;
use pawn_outside::{Sink, SinkFault};
use std::alloc::Global;
use std::marker::Model;
use thiserror::Error;

/// Several machines, each with its script. Contracts see a list that has each of them: its file, its
/// script, its state, the script's position, and how it stands.
#[derive(Drop)]
pub struct Host {
    seats: Vec<Seat>,
}

impl Model for Host {
    ghost use Rattle.std.specs.Prelude.{List};
    ghost use Rattle.host_many.specs.Own.{Guest};

    ghost Value = { List Guest };

    ghost view = { λ host. host.seats.items };
}

/// Why a machine isn't added.
#[derive(Clone, Copy, Debug, PartialEq, Eq, Error)]
pub enum AddFault {
    /// The native with this number isn't listed, and the script serves no others.
    #[error("native {0} isn't listed")]
    Unregistered(u32),
    #[error("no memory")]
    Memory,
}

impl From<Memory> for AddFault {
    ghost use Rattle.std.specs.Prelude.{◌≡◌};
    ghost use Rattle.host_many.specs.declared.host.AddFault.TheVariants as variants;

    ghost from_gives = { λ _ fault. fault ≡ variants.Memory };

    fn from(_: Memory) -> AddFault {
        AddFault::Memory
    }
}

impl Host {
    /// A host without machines.
    pub fn new(alloc: Global) -> Host
        ensures { result ≡ [] }
    {
        Host {
            seats: Vec::new(alloc),
        }
    }

    /// Adds a machine of a file under a script, idle in the file's first state, at the script's
    /// first answer, and answers its number, counted from 0. A refusal leaves the host as it was.
    pub fn add(
        &mut self,
        alloc: Global,
        verified: Verified,
        script: Script,
    ) -> Result<u32, AddFault>
        requires few { length self.old + 1 < 2 ^ 32 }
        requires script { IsScript script }

        // As the verifier asks of a file.
        requires natives { length verified.natives < 2 ^ 31 }
        requires publics { length verified.publics < 2 ^ 31 }
        ensures { Adds verified script self.old result self.new }
    {
        let number = self.seats.len() as u32;
        let seat = seat_of(alloc, verified, script)?;
        match self.seats.push(seat) {
            Ok(()) => Ok(number),
            Err(_) => Err(AddFault::Memory),
        }
    }

    /// Does events in their order, and prints the lines of their machines, each behind the number
    /// of its machine. It stops at the first line that the sink doesn't take. It takes no memory.
    pub fn serve_many<S: Sink>(&mut self, events: &[Turn], out: &mut S) -> Served
        requires { HasMachines (length self.old) events.now }
        ensures text { Said S.taken S.faults S.has_room out.old out.new
            (served_text self.old events.now) (told_of result) }
        ensures machines { Serves self.old events.now (S.taken out.old) (S.taken out.new) result
            self.new }
        ensures count { length self.new ≡ length self.old }
    {
        serve_all(self.seats.as_mut_slice(), events, out)
    }
}

/// Loads a machine, and binds its natives.
fn seat_of(alloc: Global, verified: Verified, script: Script) -> Result<Seat, AddFault>
    requires script { IsScript script }
    requires natives { length verified.natives < 2 ^ 31 }
    requires publics { length verified.publics < 2 ^ 31 }
    ensures { IsGuestOf verified script result }
{
    match bind(alloc, &verified, &script) {
        Err(BindFault::Unregistered(number)) => Err(AddFault::Unregistered(number)),
        Err(BindFault::Memory) => Err(AddFault::Memory),
        Ok(bound) => {
            let machine = Machine::load(alloc, verified)?;
            Ok(Seat {
                machine,
                bound,
                script,
                at: 0,
            })
        }
    }
}

/// Does events in their order.
fn serve_all<S: Sink>(seats: &mut [Seat], events: &[Turn], out: &mut S) -> Served
    requires { HasMachines (length seats.old) events.now }
    ensures text { Said S.taken S.faults S.has_room out.old out.new
        (served_text seats.old events.now) (told_of result) }
    ensures machines { Serves seats.old events.now (S.taken out.old) (S.taken out.new) result
        seats.new }
    ensures count { length seats.new ≡ length seats.old }
{
    for turn in events {
        let mut digits = Buffer::new();
        let number = turn.machine();
        let front: [&[u8]; 2] = [digits.format(number).as_bytes(), b": "];
        let seat = &mut seats[number as usize];
        match seat.serve(turn, &front, out) {
            Ok(()) => {}
            Err(SinkFault) => return Served::SinkFault,
        }
    }
    Served::Done
}
