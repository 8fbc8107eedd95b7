use amx_step::{Registers, Turn};
use std::alloc::Global;

/// A step of some code from some registers, and what is to come of it.
#[derive(Drop)]
pub struct Row {
    pub code: Vec<i32>,
    pub start: Registers,
    pub turn: Turn,
    pub end: Registers,
    /// The addresses that are written, each with its cell then.
    pub writes: Vec<i32>,
}

impl Row {
    /// Reads `code | pri alt frm stk hea | turn | pri alt frm cip stk hea | writes`. Where the
    /// last two are missing, all stays as it was.
    pub fn read(alloc: Global, text: &str) -> Option<Row> {
        let mut fields = text.split(" | ");
        let code = fields.next()?;
        let start = registers(alloc, fields.next()?)?;
        let turn = turn_of(fields.next()?);
        let end = match fields.next() {
            None => start,
            Some(field) => registers(alloc, field)?,
        };
        let writes = numbers(alloc, fields.next().unwrap_or(""));
        let code = numbers(alloc, code);
        Some(Row {
            code: code?,
            start,
            turn,
            end,
            writes: writes?,
        })
    }
}

/// The numbers among the words of a text.
fn numbers(alloc: Global, text: &str) -> Option<Vec<i32>> {
    let mut numbers = Vec::new(alloc);
    for word in text.split(' ') {
        if let Ok(number) = word.parse::<i32>() {
            numbers.push(number).ok()?;
        }
    }
    Some(numbers)
}

/// Registers that a text lists.
fn registers(alloc: Global, text: &str) -> Option<Registers> {
    let numbers = numbers(alloc, text)?;
    Some(listed(numbers.as_slice()))
}

/// Registers as a row begins, with CIP at 0, or as it ends.
fn listed(numbers: &[i32]) -> Registers {
    match *numbers {
        [pri, alt, frm, stk, hea] => Registers {
            pri,
            alt,
            frm,
            cip: 0,
            stk,
            hea,
        },
        [pri, alt, frm, cip, stk, hea] => Registers {
            pri,
            alt,
            frm,
            cip,
            stk,
            hea,
        },
        _ => NOWHERE,
    }
}

/// What no machine comes to.
const NOWHERE: Registers = Registers {
    pri: 0,
    alt: 0,
    frm: 0,
    cip: 0,
    stk: -1,
    hea: -1,
};

/// What a text says that the step did.
fn turn_of(text: &str) -> Turn {
    let mut words = text.split(' ');
    let kind = words.next().unwrap_or("");
    let number = match words.next() {
        None => 0,
        Some(word) => word.parse::<i32>().unwrap_or(0),
    };
    match kind {
        "asks" => Turn::Asks(number.cast_unsigned()),
        "errs" => Turn::Errs(number),
        "halts" => Turn::Halts(number),
        _ => Turn::Goes,
    }
}
