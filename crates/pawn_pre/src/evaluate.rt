ghost use Rattle.std.specs.Prelude.{◌≡◌, List, ◌∷◌, None, IfOk, MatchOption};
ghost use Rattle.pawn_pre.specs.declared.part.Part.{Part as APart};
ghost use Rattle.pawn_pre.specs.ConditionMachine as machine;
ghost use Rattle.pawn_pre.specs.Nested as spec;

use super::part::{Infix, Part};
use super::reading::Reading;
use pawn_base::Memory;
use pawn_cells::{CHOICE_LEVEL, COMPARISON_LEVEL, Operator, Prefix};
use std::alloc::Global;
use std::collections::VecDeque;

/// What waits for an operand.
#[derive(Clone, Copy, Debug, PartialEq, Eq)]
pub enum Wait {
    /// An open bracket.
    Mark,
    Pre(Prefix),
    /// An operator with its first operand.
    Left(Infix, Reading),
    /// A condition with its `?`.
    Chooses(Reading),
    /// A condition with its first choice.
    Second(Reading, Reading),
}

/// The value of the expression that parts spell, or nothing where they spell none or a divisor is
/// zero.
#[tactic(auto, unfolding(crate::specs::ConditionMachine::value_of_parts, crate::specs::ConditionMachine::operator, crate::specs::ConditionMachine::operand))]
pub fn evaluate(alloc: Global, parts: &[Part]) -> Result<Option<i32>, Memory>
    ensures { IfOk result (λ value. value ≡ machine.value_of_parts parts.now) }
{
    let mut waits = VecDeque::new(alloc);
    let mut held: Option<Reading> = None;
    for part in parts {
        match held {
            None => match before_operand(&mut waits, *part)? {
                Some(next) => {
                    held = next;
                    continue;
                }
                None => return Ok(None),
            },
            Some(first) => match behind_operand(&mut waits, *part, first)? {
                Some(next) => {
                    held = next;
                    continue;
                }
                None => return Ok(None),
            },
        }
    }
    let Some(last) = held else {
        return Ok(None);
    };
    let whole = settle(&mut waits, CHOICE_LEVEL, last);
    if !waits.is_empty() {
        return Ok(None);
    }
    Ok(whole.value)
}

/// How tightly an operator binds.
fn level(sign: Infix) -> u32
    ensures { result ≡ spec.level sign }
{
    match sign {
        Infix::Cells(operator) => operator.level(),
        Infix::Compare(_) => COMPARISON_LEVEL,
        Infix::Logic(operator) => operator.level(),
    }
}

/// What an operand becomes where what waits takes it, if that binds so tightly.
fn taken(most: u32, wait: Wait, operand: Reading) -> Option<Reading>
    ensures { result ≡ machine.takes most wait operand }
{
    match wait {
        Wait::Mark | Wait::Chooses(_) => None,
        Wait::Pre(sign) => Some(operand.before(sign)),
        Wait::Left(sign, first) if level(sign) <= most => Some(first.apply(sign, operand)),
        Wait::Left(_, _) => None,
        Wait::Second(condition, first) if CHOICE_LEVEL <= most => Some(condition.choose(
            first, operand,
        )),
        Wait::Second(_, _) => None,
    }
}

/// Gives the operand to all that binds so tightly.
#[tactic(auto, unfolding(crate::specs::ConditionMachine::settle))]
fn settle(waits: &mut VecDeque<Wait>, most: u32, operand: Reading) -> Reading
    ensures operand { result ≡ (machine.settle most waits.old.items operand).operand }
    ensures waits { waits.new.items ≡ (machine.settle most waits.old.items operand).waits }
{
    let mut held = operand;
    while let Some(wait) = waits.front() {
        match taken(most, *wait, held) {
            Some(next) => {
                held = next;
                let _taken = waits.pop_front();
                continue;
            }
            None => return held,
        }
    }
    held
}

/// Takes a part where an operand is wanted: what is held then, or nothing where none fits.
#[tactic(auto, unfolding(crate::specs::ConditionMachine::operand))]
fn before_operand(waits: &mut VecDeque<Wait>, part: Part) -> Result<Option<Option<Reading>>, Memory>
    ensures { IfOk result (λ step. MatchOption step
        ((rest : List APart) → machine.operand (part ∷ rest) waits.old.items ≡ None)
        (λ held. (rest : List APart) →
        machine.from held rest waits.new.items ≡
        machine.operand (part ∷ rest) waits.old.items)) }
{
    match part {
        Part::Value(value) => return Ok(Some(Some(Reading::plain(Some(value))))),
        Part::Open => waits.push_front(Wait::Mark)?,
        Part::Not => waits.push_front(Wait::Pre(Prefix::Not))?,
        Part::Invert => waits.push_front(Wait::Pre(Prefix::Invert))?,
        Part::Two(Infix::Cells(Operator::Subtract)) => waits.push_front(Wait::Pre(Prefix::Negate))?,
        Part::Two(_) | Part::Question | Part::Colon | Part::Close => return Ok(None),
    }
    Ok(Some(None))
}

/// Takes a part behind an operand.
#[tactic(auto, unfolding(crate::specs::ConditionMachine::operator))]
fn behind_operand(
    waits: &mut VecDeque<Wait>,
    part: Part,
    first: Reading,
) -> Result<Option<Option<Reading>>, Memory>
    ensures { IfOk result (λ step. MatchOption step
        ((rest : List APart) → machine.operator (part ∷ rest) waits.old.items first ≡ None)
        (λ held. (rest : List APart) → machine.from held rest waits.new.items ≡
        machine.operator (part ∷ rest) waits.old.items first)) }
{
    match part {
        Part::Two(sign) => {
            let operand = settle(waits, level(sign), first);
            waits.push_front(Wait::Left(sign, operand))?;
            Ok(Some(None))
        }
        Part::Question => {
            let condition = settle(waits, CHOICE_LEVEL - 1, first);
            waits.push_front(Wait::Chooses(condition))?;
            Ok(Some(None))
        }
        Part::Colon => {
            let choice = settle(waits, CHOICE_LEVEL, first);
            match waits.pop_front() {
                Some(Wait::Chooses(condition)) => {
                    waits.push_front(Wait::Second(condition, choice))?;
                    Ok(Some(None))
                }
                _ => Ok(None),
            }
        }
        Part::Close => {
            let inner = settle(waits, CHOICE_LEVEL, first);
            match waits.pop_front() {
                Some(Wait::Mark) => Ok(Some(Some(inner.grouped()))),
                _ => Ok(None),
            }
        }
        Part::Value(_) | Part::Not | Part::Invert | Part::Open => Ok(None),
    }
}
