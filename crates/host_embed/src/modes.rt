ghost use Rattle.std.specs.Prelude.{◌≡◌, ◌↔◌, IsTrue};
ghost use Rattle.amx_machine.specs.Machine.{IsIdle, IsSteady};
ghost use Rattle.amx_machine.specs.declared.mode.Mode.TheVariants as mode;
ghost use Rattle.host_embed.specs.Modes as modes;

use amx_machine::Mode;

/// Whether a machine may be started.
pub fn is_idle(now: Mode) -> bool
    ensures { IsTrue result ↔ IsIdle now }
{
    match now {
        Mode::Loaded => true,
        Mode::Halted(code) => code == 0,
        Mode::Running | Mode::Asleep | Mode::Waiting | Mode::Failed(_) => false,
    }
}

/// Whether it may be run.
pub fn is_steady(now: Mode) -> bool
    ensures { IsTrue result ↔ IsSteady now }
{
    match now {
        Mode::Running | Mode::Asleep | Mode::Halted(_) | Mode::Failed(_) => true,
        Mode::Loaded | Mode::Waiting => false,
    }
}

/// Whether it waits for a native.
pub fn is_waiting(now: Mode) -> bool
    ensures { IsTrue result ↔ (now ≡ mode.Waiting) }
{
    match now {
        Mode::Waiting => true,
        Mode::Loaded | Mode::Running | Mode::Asleep | Mode::Halted(_) | Mode::Failed(_) => false,
    }
}

/// Whether it is at a sleep.
pub fn is_asleep(now: Mode) -> bool
    ensures { IsTrue result ↔ (now ≡ mode.Asleep) }
{
    match now {
        Mode::Asleep => true,
        Mode::Loaded | Mode::Running | Mode::Waiting | Mode::Halted(_) | Mode::Failed(_) => false,
    }
}

/// The number by which C sees a mode.
pub fn number_of(now: Mode) -> i32
    ensures { result ≡ modes.number_of now }
{
    match now {
        Mode::Loaded => 0,
        Mode::Running => 1,
        Mode::Asleep => 2,
        Mode::Waiting => 3,
        Mode::Halted(_) => 4,
        Mode::Failed(_) => 5,
    }
}
