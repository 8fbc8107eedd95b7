use thiserror::Error;

/// The number of HEA in [`ImageFault::Register`].
pub const HEA: u8 = 5;

/// The number of STK.
pub const STK: u8 = 4;

/// The number of CIP.
pub const CIP: u8 = 3;

/// Why bytes are no image of a state that a file's machine can be set to at a sleep: the first
/// cause in this order.
#[derive(Clone, Copy, Debug, PartialEq, Eq, Error)]
pub enum ImageFault {
    /// There are fewer than 72 bytes.
    #[error("too short")]
    Short,
    /// They begin with other bytes.
    #[error("no image")]
    Magic,
    #[error("another version")]
    Version,
    /// It is of another file.
    #[error("of another file")]
    Digest,
    /// It is of another number of cells, or in version 1 of another length.
    #[error("another number of cells")]
    Length,
    /// HEA, STK or CIP, as 5, 4 or 3, has no place in the file's memory or code.
    #[error("register {0}")]
    Register(u8),
    /// A cell between heap and stack isn't 0.
    #[error("a dead cell that isn't 0")]
    DeadCell,
    /// In version 2 it is of another length.
    #[error("another number of live cells")]
    LiveLength,
}

impl ImageFault {
    ghost use Rattle.std.specs.Prelude.{◌≡◌};
    ghost use Rattle.amx_image.specs.Faults.{number_of};

    /// The number of the refusal, from 120 to 127.
    pub fn number(&self) -> u8
        ensures { result ≡ number_of self.now }
    {
        match self {
            ImageFault::Short => 120,
            ImageFault::Magic => 121,
            ImageFault::Version => 122,
            ImageFault::Digest => 123,
            ImageFault::Length => 124,
            ImageFault::Register(_) => 125,
            ImageFault::DeadCell => 126,
            ImageFault::LiveLength => 127,
        }
    }
}
