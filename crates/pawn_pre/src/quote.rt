ghost use Rattle.std.specs.Prelude.{◌≡◌};
ghost use Rattle.pawn_pre.specs.Quote as spec;

/// Where a byte of a line stands: in a literal or not (Language Guide, "Constants").
#[derive(Clone, Copy, Debug, PartialEq, Eq)]
pub enum Quote {
    Outside,
    /// In a literal that this quote ends.
    Within(u8),
    /// In such a literal, behind the control character.
    Escaped(u8),
}

/// `"` or `'`.
pub fn is_quote_mark(byte: u8) -> bool
    ensures { result ≡ spec.is_quote_mark byte }
{
    byte == b'"' || byte == b'\''
}

impl Quote {
    /// Where the byte behind this one stands.
    #[tactic(auto, unfolding(crate::specs::Quote::quote_after))]
    pub fn after(self, control: u8, byte: u8) -> Quote
        ensures { result ≡ spec.quote_after control self byte }
    {
        match self {
            Quote::Outside if is_quote_mark(byte) => Quote::Within(byte),
            Quote::Outside => Quote::Outside,
            Quote::Within(quote) if byte == control => Quote::Escaped(quote),
            Quote::Within(quote) if byte == quote => Quote::Outside,
            Quote::Within(quote) | Quote::Escaped(quote) => Quote::Within(quote),
        }
    }

    /// In no literal.
    pub fn is_outside(self) -> bool
        ensures { result ≡ spec.is_outside self }
    {
        match self {
            Quote::Outside => true,
            Quote::Within(_) | Quote::Escaped(_) => false,
        }
    }
}
