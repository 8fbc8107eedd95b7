ghost use Rattle.std.specs.Prelude.{◌≡◌};
ghost use Rattle.pawn_token.specs.Keys.{key_spelling};

/// The key words. None is a name.
#[derive(Clone, Copy, Debug, PartialEq, Eq)]
pub enum Key {
    Assert,
    Break,
    Case,
    Char,
    Const,
    Continue,
    Default,
    Defined,
    Do,
    Else,
    Enum,
    Exit,
    For,
    Forward,
    Goto,
    If,
    Native,
    New,
    Operator,
    Public,
    Return,
    Sizeof,
    Sleep,
    State,
    Static,
    Stock,
    Switch,
    Tagof,
    While,
}

/// All key words.
pub const KEYS: [Key; 29] = [
    Key::Assert,
    Key::Break,
    Key::Case,
    Key::Char,
    Key::Const,
    Key::Continue,
    Key::Default,
    Key::Defined,
    Key::Do,
    Key::Else,
    Key::Enum,
    Key::Exit,
    Key::For,
    Key::Forward,
    Key::Goto,
    Key::If,
    Key::Native,
    Key::New,
    Key::Operator,
    Key::Public,
    Key::Return,
    Key::Sizeof,
    Key::Sleep,
    Key::State,
    Key::Static,
    Key::Stock,
    Key::Switch,
    Key::Tagof,
    Key::While,
];

impl Key {
    #[tactic(auto, unfolding(crate::specs::Keys::key_spelling))]
    pub fn spelling(self) -> &'static [u8]
        ensures { result.now ≡ key_spelling self }
    {
        match self {
            Key::Assert => b"assert",
            Key::Break => b"break",
            Key::Case => b"case",
            Key::Char => b"char",
            Key::Const => b"const",
            Key::Continue => b"continue",
            Key::Default => b"default",
            Key::Defined => b"defined",
            Key::Do => b"do",
            Key::Else => b"else",
            Key::Enum => b"enum",
            Key::Exit => b"exit",
            Key::For => b"for",
            Key::Forward => b"forward",
            Key::Goto => b"goto",
            Key::If => b"if",
            Key::Native => b"native",
            Key::New => b"new",
            Key::Operator => b"operator",
            Key::Public => b"public",
            Key::Return => b"return",
            Key::Sizeof => b"sizeof",
            Key::Sleep => b"sleep",
            Key::State => b"state",
            Key::Static => b"static",
            Key::Stock => b"stock",
            Key::Switch => b"switch",
            Key::Tagof => b"tagof",
            Key::While => b"while",
        }
    }
}
