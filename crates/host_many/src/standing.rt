ghost use Rattle.std.specs.Prelude.{◌≡◌};
ghost use Rattle.host_many.specs.Guests.{standing_of};

use amx_machine::Mode;

/// What can be done with a machine.
#[derive(Clone, Copy, Debug, PartialEq, Eq)]
pub enum Standing {
    /// It was loaded, or it is done: it can be started.
    Idle,
    /// It was started, and can be given steps.
    Runs,
    /// It ended by an exit or an error.
    Over,
}

/// By a machine's mode.
pub fn standing_of(mode: Mode) -> Standing
    ensures { result ≡ standing_of mode }
{
    match mode {
        Mode::Loaded | Mode::Halted(0) => Standing::Idle,
        Mode::Running | Mode::Asleep => Standing::Runs,
        Mode::Waiting | Mode::Halted(_) | Mode::Failed(_) => Standing::Over,
    }
}
