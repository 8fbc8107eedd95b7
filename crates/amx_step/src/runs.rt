ghost use Rattle.std.specs.Prelude.{◌≡◌};
ghost use Rattle.amx_step.specs.Runs as spec;

use super::registers::Core;
use super::turn::Turn;
use super::turns::step;

/// Does so many instructions, up to one that doesn't go on, and tells how many were done.
#[inline(never)]
pub fn run(machine: &mut Core, count: u64) -> (u64, Turn)
    ensures { record { steps = result.0; turn = result.1; machine = machine.new }
        ≡ spec.runs count 0 machine.old }
{
    for done in 0..count {
        match step(machine) {
            Turn::Goes => {}
            Turn::Errs(code) => return (done + 1, Turn::Errs(code)),
            Turn::Halts(code) => return (done + 1, Turn::Halts(code)),
            Turn::Asks(native) => return (done + 1, Turn::Asks(native)),
        }
    }
    (count, Turn::Goes)
}
