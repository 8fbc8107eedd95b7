use pawn_tags::{Choice, Op, Operators, TagTable, matches};
use std::alloc::Global;

/// The number of a name, in a table with room for it.
fn mention(alloc: Global, table: &mut TagTable, name: &[u8]) -> Option<u32> {
    if table.len() >= u32::MAX as usize {
        return None;
    }
    table.mention(alloc, name).ok()
}

/// A function that is chosen for an operator.
fn chosen(function: u32, swapped: bool) -> Option<Choice> {
    Some(Choice { function, swapped })
}

/// Names with their numbers, and whether they are strong.
const NAMES: [(&str, u32, bool); 5] = [
    ("_", 0, false),
    ("bool", 1, false),
    ("Fixed", 2, true),
    ("Fixed", 2, true),
    ("fixed", 3, false),
];

/// Whether a name has this number once it is mentioned.
fn is_numbered(alloc: Global, table: &mut TagTable, name: &[u8], number: u32) -> bool {
    mention(alloc, table, name) == Some(number)
        && table.number(name) == Some(number)
        && table.name(number) == Some(name)
}

fn names_hold(alloc: Global, table: &mut TagTable) -> bool {
    for (name, number, strong) in NAMES {
        if !is_numbered(alloc, table, name.as_bytes(), number) || table.strong(number) != strong {
            return false;
        }
    }
    table.len() == 4 && table.number(b"Fix").is_none() && table.name(4).is_none()
}

fn are_numbered(alloc: Global) -> bool {
    match TagTable::new(alloc) {
        Ok(mut table) => names_hold(alloc, &mut table),
        Err(_) => false,
    }
}

#[test]
fn names_are_numbered(rt: HostRuntime) {
    assert!(rt; are_numbered(rt.alloc()));
}

/// Formal tags, and which of five actual ones they take.
const MATCHES: [([u32; 2], [bool; 5]); 4] = [
    ([0, 0], [true, true, false, false, true]),
    ([1, 1], [false, true, false, false, false]),
    ([2, 2], [false, false, true, false, false]),
    ([2, 0], [true, true, true, false, true]),
];

fn takes(table: &TagTable, formal: &[u32], wanted: &[bool]) -> bool {
    let mut actual = 0u32;
    for is_taken in wanted {
        if matches(table, formal, actual) != *is_taken {
            return false;
        }
        actual = actual.wrapping_add(1);
    }
    true
}

fn all_take(table: &TagTable) -> bool {
    for (formal, wanted) in MATCHES {
        if !takes(table, &formal, &wanted) {
            return false;
        }
    }
    !matches(table, &[], 0)
}

/// A table with three names more.
fn three(alloc: Global) -> Option<TagTable> {
    let mut table = TagTable::new(alloc).ok()?;
    for name in ["Fixed", "Float", "fixed"] {
        mention(alloc, &mut table, name.as_bytes())?;
    }
    Some(table)
}

fn rows_match(alloc: Global) -> bool {
    match three(alloc) {
        Some(table) => all_take(&table),
        None => false,
    }
}

#[test]
fn rows_of_matching(rt: HostRuntime) {
    assert!(rt; rows_match(rt.alloc()));
}

/// Operators with tags and a function, and whether they are new.
const DEFINED: [(Op, u32, u32, u32, bool); 5] = [
    (Op::Add, 2, 0, 6, true),
    (Op::Add, 2, 0, 9, false),
    (Op::Sub, 2, 0, 7, true),
    (Op::Mul, 2, 3, 8, true),
    (Op::Mul, 3, 2, 5, true),
];

fn defines(operators: &mut Operators) -> bool {
    for (op, left, right, function, is_new) in DEFINED {
        if operators.define(op, left, right, function) != Ok(is_new) {
            return false;
        }
    }
    true
}

fn chooses(operators: &Operators) -> bool {
    operators.choose(Op::Add, 2, 0) == chosen(6, false)
        && operators.choose(Op::Add, 0, 2) == chosen(6, true)
        && operators.choose(Op::Sub, 2, 0) == chosen(7, false)
        && operators.choose(Op::Sub, 0, 2).is_none()
        && operators.choose(Op::Mul, 2, 3) == chosen(8, false)
        && operators.choose(Op::Mul, 3, 2) == chosen(5, false)
        && operators.choose(Op::Neg, 2, 0).is_none()
}

fn are_chosen(alloc: Global) -> bool {
    match Operators::new(alloc) {
        Ok(mut operators) => defines(&mut operators) && chooses(&operators),
        Err(_) => false,
    }
}

#[test]
fn operators_are_chosen(rt: HostRuntime) {
    assert!(rt; are_chosen(rt.alloc()));
}

/// Operators of tags 2 and 0 with function 6, and whether it serves exchanged operands.
const EXCHANGED: [(Op, bool); 9] = [
    (Op::Add, true),
    (Op::Mul, true),
    (Op::Eq, true),
    (Op::Neq, true),
    (Op::Div, false),
    (Op::Rem, false),
    (Op::Less, false),
    (Op::GreaterEq, false),
    (Op::Assign, false),
];

fn exchanges(operators: &mut Operators) -> bool {
    for (op, is_exchanged) in EXCHANGED {
        let wanted = if is_exchanged { chosen(6, true) } else { None };
        if operators.define(op, 2, 0, 6) != Ok(true) || operators.choose(op, 0, 2) != wanted {
            return false;
        }
    }
    true
}

fn are_exchanged(alloc: Global) -> bool {
    match Operators::new(alloc) {
        Ok(mut operators) => exchanges(&mut operators),
        Err(_) => false,
    }
}

#[test]
fn operators_exchanged(rt: HostRuntime) {
    assert!(rt; are_exchanged(rt.alloc()));
}

/// Whether the names of 20,000 numbers have those numbers.
fn numbers_hold(alloc: Global, table: &mut TagTable) -> bool {
    for number in 2..20_000_u32 {
        if mention(alloc, table, &number.to_le_bytes()) != Some(number) {
            return false;
        }
    }
    true
}

fn many_are_numbered(alloc: Global) -> bool {
    match TagTable::new(alloc) {
        Ok(mut table) => numbers_hold(alloc, &mut table) && numbers_hold(alloc, &mut table),
        Err(_) => false,
    }
}

#[test]
fn many_names(rt: HostRuntime) {
    assert!(rt; many_are_numbered(rt.alloc()));
}

fn defines_many(operators: &mut Operators) -> bool {
    for tag in 1..20_000_u32 {
        if operators.define(Op::Add, tag, 0, tag) != Ok(true) {
            return false;
        }
    }
    true
}

fn chooses_many(operators: &Operators) -> bool {
    for tag in 1..20_000_u32 {
        if operators.choose(Op::Add, 0, tag) != chosen(tag, true) {
            return false;
        }
    }
    true
}

fn many_are_chosen(alloc: Global) -> bool {
    match Operators::new(alloc) {
        Ok(mut operators) => defines_many(&mut operators) && chooses_many(&operators),
        Err(_) => false,
    }
}

#[test]
fn many_operators(rt: HostRuntime) {
    assert!(rt; many_are_chosen(rt.alloc()));
}
