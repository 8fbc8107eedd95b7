ghost use Rattle.std.specs.Prelude.{◌≡◌};
ghost use Rattle.pawn_outside.specs.Said.{Said};
ghost use Rattle.host_script.specs.Ranges.{IsScript};
ghost use Rattle.host_run.specs.Bound.{bound_of};
ghost use Rattle.host_run.specs.Session.{told};
ghost use Rattle.host_run.specs.Stands.{IsAwake};
ghost use Rattle.host_run.specs.Trace.{StopsAs, told_text, trace_on};
ghost use Rattle.host_run.specs.Last.{unless_asleep};
ghost use Rattle.host_run.specs.Leaves.{Leaves};

use super::bound::Bound;
use super::end::{SessionEnd, TraceEnd};
use super::sessions::session;
use amx_machine::Machine;
use host_script::Script;
use pawn_outside::Sink;

/// Runs a machine that is running or at a sleep, from the script's first answer on, and goes on
/// behind each of so many sleeps, for so many steps at most in each segment. The trace is written
/// line by line. Tells how many steps were done, the script's position, and how the last session
/// ended. It takes no memory.
pub fn run_segments<S: Sink>(
    machine: &mut Machine,
    bound: &mut Bound,
    script: &Script,
    steps: u64,
    sleeps: u32,
    out: &mut S,
) -> TraceEnd
    requires awake { IsAwake machine.old.mode }
    requires script { IsScript script.now }
    requires bound { bound.old ≡ bound_of script.now machine.old.amx.natives }
    ensures text { Said S.taken S.faults S.has_room out.old out.new
        (told_text (trace_on script.now machine.old steps sleeps)) (told result.end) }
    ensures answer { StopsAs (trace_on script.now machine.old steps sleeps).stop result.end }
    ensures leaves { Leaves script.now machine.old steps sleeps result.steps result.end
        (record { machine = machine.new; position = result.at }) }
    ensures bound { bound.new ≡ bound.old }
{
    let mut at = 0;
    let mut done: u128 = 0;
    for _ in 0..sleeps {
        let (count, end) = session(machine, bound, script, &mut at, steps, out);
        done += u128::from(count);
        if let Some(last) = unless_asleep(end) {
            return TraceEnd {
                steps: done,
                at,
                end: last,
            };
        }
    }
    let (count, end) = session(machine, bound, script, &mut at, steps, out);
    done += u128::from(count);
    TraceEnd {
        steps: done,
        at,
        end,
    }
}

/// The end of a session that can't go on.
fn unless_asleep(end: SessionEnd) -> Option<SessionEnd>
    ensures { result ≡ unless_asleep end }
{
    match end {
        SessionEnd::Done(value) => Some(SessionEnd::Done(value)),
        SessionEnd::Exit { value, tag } => Some(SessionEnd::Exit { value, tag }),
        SessionEnd::Error(code) => Some(SessionEnd::Error(code)),
        SessionEnd::Asleep { .. } => None,
        SessionEnd::Steps => Some(SessionEnd::Steps),
        SessionEnd::SinkFault => Some(SessionEnd::SinkFault),
    }
}
