use thiserror::Error;

/// Why a machine doesn't start.
#[derive(Clone, Copy, Debug, PartialEq, Eq, Error)]
pub enum StartFault {
    /// The file has no such entry.
    #[error("no such entry")]
    Index,
    /// The arguments find no room.
    #[error("no room for the arguments")]
    Stack,
}

impl StartFault {
    ghost use Rattle.std.specs.Prelude.{◌≡◌};
    ghost use Rattle.amx_machine.specs.Starts.{error_of};

    /// The AMX error (Implementer's Guide, "Error codes").
    pub fn code(self) -> i32
        ensures { result ≡ error_of self }
    {
        match self {
            StartFault::Index => 20,
            StartFault::Stack => 3,
        }
    }
}
