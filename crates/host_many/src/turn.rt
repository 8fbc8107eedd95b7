use pawn_base::Bytes;

/// An event for one machine of a host, by its number.
#[derive(Debug, Drop)]
pub enum Turn {
    /// It is started at `main`, or at a public by its name, without arguments.
    Start { machine: u32, name: Bytes },
    /// It is given so many steps at most.
    Go { machine: u32, steps: u64 },
}

impl Turn {
    ghost use Rattle.std.specs.Prelude.{◌≡◌};
    ghost use Rattle.host_many.specs.Serves.{machine_of};

    /// The number of its machine.
    pub fn machine(&self) -> u32
        ensures { result ≡ machine_of self.now }
    {
        match self {
            Turn::Start { machine, .. } | Turn::Go { machine, .. } => *machine,
        }
    }
}
