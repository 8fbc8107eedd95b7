ghost use Rattle.std.specs.Prelude.{◌≡◌};
ghost use Rattle.pawn_token.specs.Signs.{sign_spelling};

/// The signs.
#[derive(Clone, Copy, Debug, PartialEq, Eq)]
pub enum Sign {
    /// `>>>=`
    ShiftUnsignedAssign,
    /// `>>>`
    ShiftUnsigned,
    /// `>>=`
    ShiftRightAssign,
    /// `<<=`
    ShiftLeftAssign,
    /// `...`
    Ellipsis,
    /// `>>`
    ShiftRight,
    /// `<<`
    ShiftLeft,
    /// `>=`
    GreaterEqual,
    /// `<=`
    LessEqual,
    /// `==`
    Equal,
    /// `!=`
    NotEqual,
    /// `&&`
    LogicalAnd,
    /// `||`
    LogicalOr,
    /// `+=`
    AddAssign,
    /// `-=`
    SubtractAssign,
    /// `*=`
    MultiplyAssign,
    /// `/=`
    DivideAssign,
    /// `%=`
    RemainderAssign,
    /// `&=`
    AndAssign,
    /// `|=`
    OrAssign,
    /// `^=`
    XorAssign,
    /// `++`
    Increment,
    /// `--`
    Decrement,
    /// `..`
    DotDot,
    /// `(`
    OpenParenthesis,
    /// `)`
    CloseParenthesis,
    /// `[`
    OpenBracket,
    /// `]`
    CloseBracket,
    /// `{`
    OpenBrace,
    /// `}`
    CloseBrace,
    /// `;`
    Semicolon,
    /// `,`
    Comma,
    /// `.`
    Dot,
    /// `:`
    Colon,
    /// `?`
    Question,
    /// `=`
    Assign,
    /// `<`
    Less,
    /// `>`
    Greater,
    /// `+`
    Plus,
    /// `-`
    Minus,
    /// `*`
    Star,
    /// `/`
    Slash,
    /// `%`
    Percent,
    /// `&`
    Ampersand,
    /// `|`
    Bar,
    /// `^`
    Caret,
    /// `!`
    Exclamation,
    /// `~`
    Tilde,
}

/// All signs, a longer one before each shorter one.
pub const SIGNS: [Sign; 48] = [
    Sign::ShiftUnsignedAssign,
    Sign::ShiftUnsigned,
    Sign::ShiftRightAssign,
    Sign::ShiftLeftAssign,
    Sign::Ellipsis,
    Sign::ShiftRight,
    Sign::ShiftLeft,
    Sign::GreaterEqual,
    Sign::LessEqual,
    Sign::Equal,
    Sign::NotEqual,
    Sign::LogicalAnd,
    Sign::LogicalOr,
    Sign::AddAssign,
    Sign::SubtractAssign,
    Sign::MultiplyAssign,
    Sign::DivideAssign,
    Sign::RemainderAssign,
    Sign::AndAssign,
    Sign::OrAssign,
    Sign::XorAssign,
    Sign::Increment,
    Sign::Decrement,
    Sign::DotDot,
    Sign::OpenParenthesis,
    Sign::CloseParenthesis,
    Sign::OpenBracket,
    Sign::CloseBracket,
    Sign::OpenBrace,
    Sign::CloseBrace,
    Sign::Semicolon,
    Sign::Comma,
    Sign::Dot,
    Sign::Colon,
    Sign::Question,
    Sign::Assign,
    Sign::Less,
    Sign::Greater,
    Sign::Plus,
    Sign::Minus,
    Sign::Star,
    Sign::Slash,
    Sign::Percent,
    Sign::Ampersand,
    Sign::Bar,
    Sign::Caret,
    Sign::Exclamation,
    Sign::Tilde,
];

impl Sign {
    #[tactic(auto, unfolding(crate::specs::Signs::sign_spelling))]
    pub fn spelling(self) -> &'static [u8]
        ensures { result.now ≡ sign_spelling self }
    {
        match self {
            Sign::ShiftUnsignedAssign => b">>>=",
            Sign::ShiftUnsigned => b">>>",
            Sign::ShiftRightAssign => b">>=",
            Sign::ShiftLeftAssign => b"<<=",
            Sign::Ellipsis => b"...",
            Sign::ShiftRight => b">>",
            Sign::ShiftLeft => b"<<",
            Sign::GreaterEqual => b">=",
            Sign::LessEqual => b"<=",
            Sign::Equal => b"==",
            Sign::NotEqual => b"!=",
            Sign::LogicalAnd => b"&&",
            Sign::LogicalOr => b"||",
            Sign::AddAssign => b"+=",
            Sign::SubtractAssign => b"-=",
            Sign::MultiplyAssign => b"*=",
            Sign::DivideAssign => b"/=",
            Sign::RemainderAssign => b"%=",
            Sign::AndAssign => b"&=",
            Sign::OrAssign => b"|=",
            Sign::XorAssign => b"^=",
            Sign::Increment => b"++",
            Sign::Decrement => b"--",
            Sign::DotDot => b"..",
            Sign::OpenParenthesis => b"(",
            Sign::CloseParenthesis => b")",
            Sign::OpenBracket => b"[",
            Sign::CloseBracket => b"]",
            Sign::OpenBrace => b"{",
            Sign::CloseBrace => b"}",
            Sign::Semicolon => b";",
            Sign::Comma => b",",
            Sign::Dot => b".",
            Sign::Colon => b":",
            Sign::Question => b"?",
            Sign::Assign => b"=",
            Sign::Less => b"<",
            Sign::Greater => b">",
            Sign::Plus => b"+",
            Sign::Minus => b"-",
            Sign::Star => b"*",
            Sign::Slash => b"/",
            Sign::Percent => b"%",
            Sign::Ampersand => b"&",
            Sign::Bar => b"|",
            Sign::Caret => b"^",
            Sign::Exclamation => b"!",
            Sign::Tilde => b"~",
        }
    }
}
