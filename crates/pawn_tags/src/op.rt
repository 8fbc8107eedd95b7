ghost use Rattle.std.specs.Prelude.{◌≡◌};
ghost use Rattle.pawn_tags.specs.Overloads as overloads;

/// The operators that a program may define (Language Guide, "User-defined operators").
#[derive(Clone, Copy, Debug, PartialEq, Eq, Hash)]
pub enum Op {
    /// `+`
    Add,
    /// `-` between two operands
    Sub,
    /// `*`
    Mul,
    /// `/`
    Div,
    /// `%`
    Rem,
    /// `++`
    Inc,
    /// `--`
    Dec,
    /// `==`
    Eq,
    /// `!=`
    Neq,
    /// `<`
    Less,
    /// `>`
    Greater,
    /// `<=`
    LessEq,
    /// `>=`
    GreaterEq,
    /// `!`
    Not,
    /// `-` before one operand
    Neg,
    /// `=`, from the tag of a value to that of its target
    Assign,
}

/// What a user operator is known by: its sign, and the tags of its operands. An operator of one
/// operand has the right tag 0; that of an assignment has the value's tag left and the result's
/// right.
#[derive(Clone, Copy, Debug, PartialEq, Eq, Hash)]
pub struct Signature {
    pub op: Op,
    pub left: u32,
    pub right: u32,
}

impl Op {
    /// Whether the operands may be exchanged.
    pub fn commutes(self) -> bool
        ensures { result ≡ overloads.commutes self }
    {
        matches!(self, Op::Add | Op::Mul | Op::Eq | Op::Neq)
    }
}
