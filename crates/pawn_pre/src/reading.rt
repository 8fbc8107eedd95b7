ghost use Rattle.std.specs.Prelude.{◌≡◌, Some};
ghost use Rattle.pawn_cells.specs.Operators as operators;
ghost use Rattle.pawn_pre.specs.Expression.{on_two, chosen};
ghost use Rattle.pawn_pre.specs.Nested as spec;

use super::part::Infix;
use pawn_cells::{Cell, Comparison, Logical, Operator, Prefix};

/// What an operand comes to. A value is none where a divisor in it is zero.
#[derive(Clone, Copy, Debug, PartialEq, Eq)]
pub struct Reading {
    pub value: Option<i32>,
    /// Of a comparison: the operand that the chain's next one takes up.
    pub last: Option<i32>,
    /// Of a comparison: whether all of its chain so far hold.
    pub holds: bool,
}

impl Reading {
    /// An operand that no comparison is open for.
    pub fn plain(value: Option<i32>) -> Reading
        ensures { result ≡ spec.plain value }
    {
        Reading {
            value,
            last: value,
            holds: true,
        }
    }

    /// The same in parentheses.
    pub fn grouped(self) -> Reading
        ensures { result ≡ spec.grouped self }
    {
        Reading::plain(self.value)
    }

    pub fn before(self, sign: Prefix) -> Reading
        ensures { result ≡ spec.before_value sign self }
    {
        match self.value {
            Some(value) => Reading::plain(Some(sign.apply(Cell(value)).0)),
            None => Reading::plain(None),
        }
    }

    /// Both choices are evaluated.
    pub fn choose(self, first: Reading, second: Reading) -> Reading
        ensures { result ≡ spec.choice self first second }
    {
        Reading::plain(choose(self.value, first.value, second.value))
    }

    /// An operator between two operands.
    #[tactic(auto, unfolding(crate::specs::Nested::applied))]
    pub fn apply(self, sign: Infix, second: Reading) -> Reading
        ensures { result ≡ spec.applied sign self second }
    {
        match sign {
            Infix::Cells(operator) => Reading::plain(operate(operator, self.value, second.value)),
            Infix::Compare(comparison) => self.compare(comparison, second),
            Infix::Logic(operator) => Reading::plain(decide(operator, self.value, second.value)),
        }
    }

    /// A comparison behind others takes up their last operand.
    fn compare(self, comparison: Comparison, second: Reading) -> Reading
        ensures { result ≡ spec.compared comparison self second }
    {
        let holds = self.holds && holds(comparison, self.last, second.value);
        let value = match (self.value, second.value) {
            (Some(_), Some(_)) => Some(i32::from(holds)),
            (Some(_), None) | (None, _) => None,
        };
        Reading {
            value,
            last: second.value,
            holds,
        }
    }
}

fn choose(condition: Option<i32>, first: Option<i32>, second: Option<i32>) -> Option<i32>
    ensures { result ≡ chosen condition first second }
{
    let (condition, first, second) = (condition?, first?, second?);
    Some(if condition == 0 { second } else { first })
}

/// Whether a comparison of two values that there are holds.
fn holds(comparison: Comparison, left: Option<i32>, right: Option<i32>) -> bool
    ensures { result ≡ spec.holds_of comparison left right }
{
    match (left, right) {
        (Some(left), Some(right)) => comparison.holds(Cell(left), Cell(right)),
        (Some(_), None) | (None, _) => false,
    }
}

fn operate(operator: Operator, left: Option<i32>, right: Option<i32>) -> Option<i32>
    ensures { result ≡ on_two (operators.binary operator) left right }
{
    let (left, right) = (left?, right?);
    match operator.apply(Cell(left), Cell(right)) {
        Some(cell) => Some(cell.0),
        None => None,
    }
}

fn decide(operator: Logical, left: Option<i32>, right: Option<i32>) -> Option<i32>
    ensures { result ≡ on_two (λ x y. Some (operators.logical operator x y)) left right }
{
    let (left, right) = (left?, right?);
    Some(operator.apply(Cell(left), Cell(right)).0)
}
