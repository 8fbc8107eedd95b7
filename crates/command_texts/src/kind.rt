ghost use Rattle.std.specs.Prelude.{◌≡◌};
ghost use Rattle.command_texts.specs.Explained.{word_of};

/// What a number stands behind, where it is printed.
#[derive(Clone, Copy, Debug, PartialEq, Eq)]
pub enum Kind {
    /// With this number the program ends.
    Status,
    /// A source, or a text of `assemble`, is refused.
    Refused,
    Warning,
    /// A run ended in an error.
    Error,
    /// A file is no valid one.
    Invalid,
    BadImage,
    BadScript,
}

impl Kind {
    /// The words before its number.
    pub fn words(self) -> &'static [u8]
        ensures { result.now ≡ word_of self }
    {
        match self {
            Kind::Status => b"status",
            Kind::Refused => b"refused",
            Kind::Warning => b"warning",
            Kind::Error => b"error",
            Kind::Invalid => b"invalid",
            Kind::BadImage => b"bad image",
            Kind::BadScript => b"bad script",
        }
    }
}
