use pawn_cells::{Cell, Comparison, Logical, Operator, Place, Prefix, predefined};

const LEAST: i32 = i32::MIN;

const GREATEST: i32 = i32::MAX;

/// Operators with two operands, and what they give.
const OPERATIONS: [(Operator, i32, i32, Option<i32>); 38] = [
    (Operator::Add, GREATEST, 1, Some(LEAST)),
    (Operator::Add, LEAST, LEAST, Some(0)),
    (Operator::Subtract, LEAST, 1, Some(GREATEST)),
    (Operator::Subtract, -7, 2, Some(-9)),
    (Operator::Multiply, 65536, 65536, Some(0)),
    (Operator::Multiply, LEAST, -1, Some(LEAST)),
    (Operator::Divide, -7, 2, Some(-4)),
    (Operator::Divide, 7, -2, Some(-4)),
    (Operator::Divide, -7, -2, Some(3)),
    (Operator::Divide, 1, LEAST, Some(-1)),
    (Operator::Divide, LEAST, -1, Some(LEAST)),
    (Operator::Divide, LEAST, GREATEST, Some(-2)),
    (Operator::Divide, 1, 0, None),
    (Operator::Remainder, -7, 2, Some(1)),
    (Operator::Remainder, 7, -2, Some(-1)),
    (Operator::Remainder, -7, -2, Some(-1)),
    (Operator::Remainder, 1, LEAST, Some(LEAST + 1)),
    (Operator::Remainder, LEAST, -1, Some(0)),
    (Operator::Remainder, LEAST, GREATEST, Some(GREATEST - 1)),
    (Operator::Remainder, 0, 0, None),
    (Operator::ShiftLeft, 1, 31, Some(LEAST)),
    (Operator::ShiftLeft, 1, 33, Some(2)),
    (Operator::ShiftLeft, 1, -1, Some(LEAST)),
    (Operator::ShiftRight, -5, 1, Some(-3)),
    (Operator::ShiftRight, -1, 32, Some(-1)),
    (Operator::ShiftRight, LEAST, 4, Some(LEAST / 16)),
    (Operator::ShiftUnsigned, -5, 1, Some(0x7FFF_FFFD)),
    (Operator::ShiftUnsigned, -1, 33, Some(GREATEST)),
    (Operator::ShiftUnsigned, -1, -1, Some(1)),
    (Operator::And, 0x0F0F, 0x00FF, Some(0x000F)),
    (Operator::And, -1, LEAST, Some(LEAST)),
    (Operator::Or, 0x0F0F, 0x00FF, Some(0x0FFF)),
    (Operator::Xor, 0x0F0F, 0x00FF, Some(0x0FF0)),
    (Operator::Xor, -1, LEAST, Some(GREATEST)),
    (Operator::Equal, LEAST, LEAST, Some(1)),
    (Operator::Equal, -1, 1, Some(0)),
    (Operator::NotEqual, LEAST, LEAST, Some(0)),
    (Operator::NotEqual, -1, 1, Some(1)),
];

/// Two numbers, and which comparisons of them hold, in the order `<`, `<=`, `>`, `>=`.
const COMPARISONS: [(i32, i32, [bool; 4]); 3] = [
    (0, 0, [false, true, false, true]),
    (-1, 0, [true, true, false, false]),
    (GREATEST, LEAST, [false, false, true, true]),
];

/// Predefined constants: the value, and whether the tag is `bool`.
const CONSTANTS: [(&[u8], i32, bool); 7] = [
    (b"true", 1, true),
    (b"false", 0, true),
    (b"EOS", 0, false),
    (b"cellbits", 32, false),
    (b"cellmax", GREATEST, false),
    (b"cellmin", LEAST, false),
    (b"charbits", 8, false),
];

/// The first operation that gives another value.
fn wrong_operation() -> Option<usize> {
    for (row, (operator, a, b, want)) in OPERATIONS.iter().enumerate() {
        let cell = operator.apply(Cell(*a), Cell(*b));
        if cell.map(|cell| cell.0) != *want {
            return Some(row);
        }
    }
    None
}

#[test]
fn operators(rt: HostRuntime) {
    assert_eq!(rt; wrong_operation(), None);
}

/// Which comparisons of two numbers hold.
fn compared(a: Cell, b: Cell) -> [bool; 4] {
    [
        Comparison::Less.holds(a, b),
        Comparison::LessEqual.holds(a, b),
        Comparison::Greater.holds(a, b),
        Comparison::GreaterEqual.holds(a, b),
    ]
}

#[test]
fn comparisons(rt: HostRuntime) {
    for (a, b, want) in &COMPARISONS {
        assert!(rt; compared(Cell(*a), Cell(*b)) == *want);
    }
}

/// Operators with one operand, and those that take cells for truth values.
fn others_hold() -> bool {
    Prefix::Negate.apply(Cell(LEAST)).0 == LEAST
        && Prefix::Invert.apply(Cell(1)).0 == -2
        && Prefix::Not.apply(Cell(-1)).0 == 0
        && Logical::And.apply(Cell(2), Cell(4)).0 == 1
        && Logical::Or.apply(Cell(0), Cell(0)).0 == 0
}

#[test]
fn other_operators(rt: HostRuntime) {
    let levels = Logical::Or.level() == 12 && Operator::Equal.level() == 10;
    let places = Place { file: 1, line: 2 } == Place { file: 1, line: 2 };
    assert!(rt; others_hold() && levels && places);
}

/// Whether a name is the constant of this value.
fn is_constant(name: &[u8], value: i32, is_bool: bool) -> bool {
    match predefined(name) {
        Some(found) => found.value == value && found.is_bool == is_bool,
        None => false,
    }
}

#[test]
fn constants(rt: HostRuntime) {
    for (name, value, is_bool) in &CONSTANTS {
        assert!(rt; is_constant(*name, *value, *is_bool));
    }
    assert!(rt; predefined(b"cellMax").is_none());
}

/// The characters of the packed text "abcd", and others in their places.
fn are_characters() -> bool {
    let text = Cell(0x6162_6364);
    text.char_at(0) == b'a'
        && text.char_at(3) == b'd'
        && text.with_char(0, 0x80).0.cast_unsigned() == 0x8062_6364
        && text.with_char(3, 0x80).0 == 0x6162_6380
}

#[test]
fn characters(rt: HostRuntime) {
    assert!(rt; are_characters());
}
