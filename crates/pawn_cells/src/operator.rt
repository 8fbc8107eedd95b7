ghost use Rattle.std.specs.Prelude.{◌≡◌, ◌↔◌, IsNone, IfSome, Some, None, pos};
ghost use Rattle.pawn_cells.specs.Cells as cells;
ghost use Rattle.pawn_cells.specs.Operators as spec;

use super::cell::Cell;

/// The level of comparisons, of which a row is one chain. A level says how tightly an operator
/// binds: the lower, the tighter (Language Guide, "Operator precedence").
pub const COMPARISON_LEVEL: u32 = 9;

/// The level of `? :`.
pub const CHOICE_LEVEL: u32 = 13;

/// An operator before its operand.
#[derive(Clone, Copy, Debug, PartialEq, Eq)]
pub enum Prefix {
    /// `!`
    Not,
    /// `~`
    Invert,
    /// `-`
    Negate,
}

impl Prefix {
    /// What it makes of its operand.
    pub fn apply(self, operand: Cell) -> Cell
        ensures { result.0 ≡ spec.prefix self operand.0 }
    {
        match self {
            Prefix::Not => operand.not(),
            Prefix::Invert => operand.invert(),
            Prefix::Negate => operand.neg(),
        }
    }
}

/// An operator between two operands, of which it always needs both. Those of one level group to
/// the left.
#[derive(Clone, Copy, Debug, PartialEq, Eq)]
pub enum Operator {
    /// `*`
    Multiply,
    /// `/`, which rounds down.
    Divide,
    /// `%`, whose remainder has the divisor's sign.
    Remainder,
    /// `+`
    Add,
    /// `-`
    Subtract,
    /// `<<`
    ShiftLeft,
    /// `>>`, which keeps the sign.
    ShiftRight,
    /// `>>>`, which brings zeros.
    ShiftUnsigned,
    /// `&`
    And,
    /// `^`
    Xor,
    /// `|`
    Or,
    /// `==`
    Equal,
    /// `!=`
    NotEqual,
}

impl Operator {
    /// How tightly it binds, from 3 for `*` to 10 for `==`.
    pub fn level(self) -> u32
        ensures { result ≡ spec.level self }
    {
        match self {
            Operator::Multiply | Operator::Divide | Operator::Remainder => 3,
            Operator::Add | Operator::Subtract => 4,
            Operator::ShiftLeft | Operator::ShiftRight | Operator::ShiftUnsigned => 5,
            Operator::And => 6,
            Operator::Xor => 7,
            Operator::Or => 8,
            Operator::Equal | Operator::NotEqual => 10,
        }
    }

    /// What it makes of its operands, or nothing where it divides by zero.
    #[tactic(auto, unfolding(crate::specs::Operators::binary))]
    pub fn apply(self, left: Cell, right: Cell) -> Option<Cell>
        ensures { spec.cell_in result ≡ spec.binary self left.0 right.0 }
    {
        match self {
            Operator::Multiply => Some(left.mul(right)),
            Operator::Divide => left.floor_div(right),
            Operator::Remainder => left.floor_rem(right),
            Operator::Add => Some(left.add(right)),
            Operator::Subtract => Some(left.sub(right)),
            Operator::ShiftLeft => Some(left.shl(right)),
            Operator::ShiftRight => Some(left.shr(right)),
            Operator::ShiftUnsigned => Some(left.ushr(right)),
            Operator::And => Some(left.and(right)),
            Operator::Xor => Some(left.xor(right)),
            Operator::Or => Some(left.or(right)),
            Operator::Equal => Some(truth(left.equal(right))),
            Operator::NotEqual => Some(truth(!left.equal(right))),
        }
    }
}

/// A comparison. `a < b <= c` is one chain, which means that both hold.
#[derive(Clone, Copy, Debug, PartialEq, Eq)]
pub enum Comparison {
    /// `<`
    Less,
    /// `<=`
    LessEqual,
    /// `>`
    Greater,
    /// `>=`
    GreaterEqual,
}

impl Comparison {
    /// Whether it holds, as numbers with their signs.
    pub fn holds(self, left: Cell, right: Cell) -> bool
        ensures { result ≡ spec.compare self left.0 right.0 }
    {
        match self {
            Comparison::Less => left.less(right),
            Comparison::LessEqual => left.less_eq(right),
            Comparison::Greater => right.less(left),
            Comparison::GreaterEqual => right.less_eq(left),
        }
    }
}

/// An operator that needs its right operand only where the left one doesn't decide.
#[derive(Clone, Copy, Debug, PartialEq, Eq)]
pub enum Logical {
    /// `&&`
    And,
    /// `||`
    Or,
}

impl Logical {
    /// How tightly it binds: 11 or 12.
    pub fn level(self) -> u32
        ensures { result ≡ spec.logical_level self }
    {
        match self {
            Logical::And => 11,
            Logical::Or => 12,
        }
    }

    /// 1 or 0 by the truth of both operands.
    pub fn apply(self, left: Cell, right: Cell) -> Cell
        ensures { result.0 ≡ spec.logical self left.0 right.0 }
    {
        let (first, second) = (left.0 != 0, right.0 != 0);
        truth(match self {
            Logical::And => first && second,
            Logical::Or => first || second,
        })
    }
}

/// 1 for true, 0 for false.
fn truth(holds: bool) -> Cell
    ensures { result.0 ≡ cells.truth holds }
{
    Cell(i32::from(holds))
}
