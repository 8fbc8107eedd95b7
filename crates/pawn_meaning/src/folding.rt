ghost use Rattle.std.specs.Prelude.{◌≡◌, ◌+◌, ◌&&◌, None, false, if◌then◌else◌};
ghost use Rattle.std.specs.Prelude.{option_map, option_and_then, is_some};
ghost use Rattle.pawn_cells.specs.Cells.{truth};
ghost use Rattle.pawn_cells.specs.Operators.{cell_in, prefix};
ghost use Rattle.pawn_meaning.specs.Capped.{capped};
ghost use Rattle.pawn_meaning.specs.Fold as spec;
ghost use Rattle.pawn_meaning.specs.declared.program_limits.TheConstants.{NODE_WEIGHT};
ghost use Rattle.pawn_meaning.specs.Program.{no_links};

use super::program_limits::NODE_WEIGHT;
use pawn_cells::{Cell, Comparison, Logical, Operator, Prefix};

/// The weight of a node with parts.
pub fn node(parts: u64) -> u64
    ensures { result ≡ capped (NODE_WEIGHT + parts) }
{
    parts.saturating_add(NODE_WEIGHT)
}

/// What nodes bring into the one above them.
#[derive(Clone, Copy)]
pub struct Share {
    /// They are built of constants and built-in operators alone.
    pub constant: bool,
    pub weight: u64,
}

impl Share {
    /// Those of one share and of another.
    pub fn with(self, other: Share) -> Share
        ensures constant { result.constant ≡ (self.constant && other.constant) }
        ensures weight { result.weight ≡ capped (self.weight + other.weight) }
    {
        Share {
            constant: self.constant && other.constant,
            weight: self.weight.saturating_add(other.weight),
        }
    }
}

/// What a walk over an expression finds.
#[derive(Drop)]
pub struct Weighed {
    pub share: Share,
    /// Its value, as far as it is built of constants and built-in operators.
    pub value: Option<Cell>,
}

impl Weighed {
    /// An expression that is no constant, with the weight of its parts.
    pub fn open(parts: u64) -> Weighed
        ensures constant { result.share.constant ≡ false }
        ensures value { result.value ≡ None }
        ensures weight { result.share.weight ≡ capped (NODE_WEIGHT + parts) }
    {
        let share = Share {
            constant: false,
            weight: node(parts),
        };
        Weighed { share, value: None }
    }

    /// An expression of a built-in operator. It counts alone where that is asked for and it folds.
    pub fn built(parts: Share, value: Option<Cell>, lean: bool) -> Weighed
        ensures constant { result.share.constant ≡ parts.constant }
        ensures value { result.value ≡ value }
        ensures weight { result.share.weight ≡
            (if lean && (parts.constant && is_some value) then NODE_WEIGHT
            else capped (NODE_WEIGHT + parts.weight)) }
    {
        let constant = parts.constant;
        let weight = if lean && constant && value.is_some() {
            NODE_WEIGHT
        } else {
            node(parts.weight)
        };
        let share = Share { constant, weight };
        Weighed { share, value }
    }
}

/// The value of an operator before its operand.
pub fn prefix_value(op: Prefix, operand: Option<Cell>) -> Option<Cell>
    ensures { cell_in result ≡ option_map (λ v. prefix op v) (cell_in operand) }
{
    match operand {
        Some(operand) => Some(op.apply(operand)),
        None => None,
    }
}

/// The value of an operator between two operands.
pub fn binary_value(op: Operator, left: Option<Cell>, right: Option<Cell>) -> Option<Cell>
    ensures { cell_in result ≡ spec.binary_value op (cell_in left) (cell_in right) }
{
    match (left, right) {
        (Some(left), Some(right)) => op.apply(left, right),
        _ => None,
    }
}

/// The value of `&&`, which needs its right operand only where the left one isn't 0.
pub fn and_value(left: Option<Cell>, right: Option<Cell>) -> Option<Cell>
    ensures { cell_in result ≡ spec.and_value (cell_in left) (cell_in right) }
{
    match (left, right) {
        (None, _) => None,
        (Some(Cell(0)), _) => Some(Cell(0)),
        (Some(left), Some(right)) => Some(Logical::And.apply(left, right)),
        (Some(_), None) => None,
    }
}

/// The value of `||`, which needs its right operand only where the left one is 0.
pub fn or_value(left: Option<Cell>, right: Option<Cell>) -> Option<Cell>
    ensures { cell_in result ≡ spec.or_value (cell_in left) (cell_in right) }
{
    match (left, right) {
        (None, _) => None,
        (Some(Cell(0)), Some(right)) => Some(Logical::Or.apply(Cell(0), right)),
        (Some(Cell(0)), None) => None,
        (Some(_), _) => Some(Cell(1)),
    }
}

/// The value of `? :`, which needs one of its two last operands.
pub fn choice_value(test: Option<Cell>, yes: Option<Cell>, no: Option<Cell>) -> Option<Cell>
    ensures { cell_in result ≡
        spec.choice_value (cell_in test) (cell_in yes) (cell_in no) }
{
    match test {
        None => None,
        Some(Cell(0)) => no,
        Some(_) => yes,
    }
}

/// Whether a link of a chain holds.
pub fn link_value(op: Comparison, left: Option<Cell>, right: Option<Cell>) -> Option<bool>
    ensures { result ≡
        option_and_then (λ v. spec.link_value op v (cell_in right)) (cell_in left) }
{
    match (left, right) {
        (Some(left), Some(right)) => Some(op.holds(left, right)),
        _ => None,
    }
}

/// Links one behind another: those behind one that doesn't hold aren't needed.
pub fn after_link(first: Option<bool>, others: Option<bool>) -> Option<bool>
    ensures { result ≡ spec.after_link first others }
{
    match first {
        Some(true) => others,
        _ => first,
    }
}

/// Behind the last link there is none that could fail.
pub fn behind_last(operand: Option<Cell>) -> Option<bool>
    ensures { result ≡ spec.chain_value (cell_in operand) no_links }
{
    match operand {
        Some(_) => Some(true),
        None => None,
    }
}

/// The value of a chain, by that of its first operand and whether all links behind it hold.
pub fn chain_value(first: Option<Cell>, alone: bool, holds: Option<bool>) -> Option<Cell>
    ensures { cell_in result ≡
        (if alone then cell_in first else option_map truth holds) }
{
    match holds {
        _ if alone => first,
        Some(holds) => Some(Cell(i32::from(holds))),
        None => None,
    }
}
