ghost use Rattle.std.specs.Prelude.{◌≡◌};
ghost use Rattle.amx_text.specs.Forms.{place_of};
ghost use Rattle.amx_text.specs.Lines.{word_of};

/// The tables of a file, in their order there.
#[derive(Clone, Copy, Debug, PartialEq, Eq)]
pub enum Kind {
    Public,
    Native,
    Library,
    Variable,
    Tag,
}

impl Kind {
    /// The word that begins the line of each of its records.
    pub fn word(self) -> &'static [u8]
        ensures { result.now ≡ word_of self }
    {
        match self {
            Kind::Public => b"public",
            Kind::Native => b"native",
            Kind::Library => b"library",
            Kind::Variable => b"variable",
            Kind::Tag => b"tag",
        }
    }

    /// Its place among them, from 0.
    pub fn place(self) -> u8
        ensures { result ≡ place_of self }
    {
        match self {
            Kind::Public => 0,
            Kind::Native => 1,
            Kind::Library => 2,
            Kind::Variable => 3,
            Kind::Tag => 4,
        }
    }
}
