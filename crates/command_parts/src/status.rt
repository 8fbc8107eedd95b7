ghost use Rattle.std.specs.Prelude.{◌≡◌};
ghost use Rattle.command_parts.specs.Status.{status_number};

/// How a command ended. The program ends with its number.
#[derive(Clone, Copy, Debug, PartialEq, Eq)]
pub enum Status {
    /// Compiled, valid, listed, done or exited.
    Ok,
    /// The source or the text was refused.
    Refused,
    /// The words are no command.
    BadWords,
    NoFile,
    /// A file is longer than its limit.
    TooLarge,
    FileFault,
    SinkFault,
    /// The bytes are no valid file.
    Invalid,
    BadScript,
    /// The bytes are no image of a sleep of the file.
    BadImage,
    NoEntry,
    /// A native isn't listed, and the script serves no others.
    Unregistered,
    /// The run ended in an error.
    Ended,
    /// A segment did all its steps.
    Steps,
    /// The run sleeps, and isn't continued.
    Asleep,
    NoMemory,
    /// The bytes are no plan of machines and events.
    BadPlan,
}

impl Status {
    pub fn number(self) -> u8
        ensures { result ≡ status_number self }
    {
        match self {
            Status::Ok => 0,
            Status::Refused => 1,
            Status::BadWords => 2,
            Status::NoFile => 3,
            Status::TooLarge => 4,
            Status::FileFault => 5,
            Status::SinkFault => 6,
            Status::Invalid => 7,
            Status::BadScript => 8,
            Status::BadImage => 9,
            Status::NoEntry => 10,
            Status::Unregistered => 11,
            Status::Ended => 12,
            Status::Steps => 13,
            Status::Asleep => 14,
            Status::NoMemory => 15,
            Status::BadPlan => 16,
        }
    }
}
