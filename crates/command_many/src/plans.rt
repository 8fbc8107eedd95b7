ghost use Rattle.std.specs.Prelude.{◌≡◌, Err, length};
ghost use Rattle.pawn_outside.specs.OnlyRead.{OnlyRead};
ghost use Rattle.pawn_outside.specs.Said.{Said};
ghost use Rattle.command_parts.specs.Calls.{CommandCalls};
ghost use Rattle.command_parts.specs.Told.{with_faults};
ghost use Rattle.host_many.specs.Serves.{HasMachines};
ghost use Rattle.command_many.specs.Many.{IsPlanOf, IsReady, ServesPlan, TellsEvents};

use super::machines::make_machines;
use command_parts::{SOURCE_LIMIT, Status, Stop, read_bytes, tell_stop};
use host_many::{Host, Served, Turn};
use host_plan::{Plan, PlanFault, read_plan};
use pawn_base::List;
use pawn_outside::{Files, Sink};
use std::alloc::Global;

/// The most bytes of a plan.
pub const PLAN_LIMIT: u64 = SOURCE_LIMIT;

/// The machines of a plan, and its events for them.
#[derive(Drop)]
struct ReadyPlan {
    host: Host,
    events: List<Turn>,
}

/// Reads a plan, makes its machines, does its events, and writes the lines of the machines.
pub fn many<F: Files, S: Sink>(alloc: Global, plan: &str, files: &mut F, out: &mut S) -> Status
    ensures answer { ServesPlan (with_faults (Said S.taken S.faults S.has_room)) plan.now
        (F.held files.old) (F.held files.new) (out.old, F.faults files.old)
        (out.new, F.faults files.new) result }
    ensures calls { CommandCalls F.faults F.never_fails files.old files.new result }
{
    match make_ready(alloc, plan, files) {
        Ok(ready) => serve(ready, out),
        Err(stop) => tell_stop(stop, out),
    }
}

/// Reads a plan, and makes its machines.
fn make_ready<F: Files>(alloc: Global, plan: &str, files: &mut F) -> Result<ReadyPlan, Stop>
    ensures calls { OnlyRead F.held F.faults F.never_fails files.old files.new
        (result ≡ Err Stop.FileFault) }
    ensures answer { IsReady (F.held files.old) plan.now result }
{
    let bytes = read_bytes(alloc, plan, PLAN_LIMIT, files)?;
    let plan = plan_of(alloc, bytes.as_slice())?;
    let Plan { machines, events } = plan;
    let host = make_machines(alloc, machines.as_slice(), files)?;
    Ok(ReadyPlan { host, events })
}

/// The plan that bytes are.
fn plan_of(alloc: Global, bytes: &[u8]) -> Result<Plan, Stop>
    ensures { IsPlanOf bytes.now result }
{
    match read_plan(alloc, bytes) {
        Ok(plan) => Ok(plan),
        Err(PlanFault::Line(line)) => Err(Stop::BadPlan(line)),
        Err(PlanFault::Memory) => Err(Stop::NoMemory),
    }
}

/// Does the events of a plan.
fn serve<S: Sink>(ready: ReadyPlan, out: &mut S) -> Status
    requires { HasMachines (length ready.host) ready.events }
    ensures { TellsEvents ready.host ready.events (Said S.taken S.faults S.has_room) out.old
        out.new result }
{
    let ReadyPlan { mut host, events } = ready;
    match host.serve_many(events.as_slice(), out) {
        Served::Done => Status::Ok,
        Served::SinkFault => Status::SinkFault,
    }
}
