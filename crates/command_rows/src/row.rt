//! The rows, by the sign that each begins with.

/// A line of a file of rows.
#[derive(Clone, Copy)]
pub enum Row<'a> {
    /// `case NAME`: nothing is held any more.
    Case(&'a str),
    /// `fails N ..`: which calls of the files fail, counted from 1. It stands before what is held.
    Fails(&'a str),
    /// `room N`: how many bytes the output takes from now on.
    Room(u32),
    /// `|TEXT`: a line of the content.
    Line(&'a str),
    /// `+TEXT`: text of the content without the end of its line.
    Text(&'a str),
    /// `x HEX`: bytes of the content.
    Hex(&'a str),
    /// `* N`: the piece that was begun last stands so many times.
    Times(u32),
    /// `.`: the piece ends.
    End,
    /// `= NAME`: the content is held at the name.
    Hold(&'a str),
    /// `use NAME`: what is held at the name goes on the content.
    Use(&'a str),
    /// `text`: what the last command wrote goes on the content.
    Wrote,
    /// `word N`: the Nth word of what the last command wrote goes on the content.
    Word(u32),
    /// `set PLACE HEX`: bytes of the piece are changed.
    Set(u32, &'a str),
    /// `cut N`: the piece keeps so many bytes.
    Cut(u32),
    /// `> WORDS`: a command, of which the text and the status are told.
    Command(&'a str),
    /// `>> WORDS`: a command, of which the status is told.
    Quiet(&'a str),
    /// `fronts N WORDS`: for how many rooms below N the command ends at its output, of which it has
    /// written a front of what the last command wrote.
    Fronts(u32, &'a str),
    /// `? NAME`: how many bytes are held at the name.
    Size(&'a str),
    /// `! NAME`: the bytes that are held at the name.
    Bytes(&'a str),
    /// `same NAME NAME`: whether the same bytes are held at both names.
    Same(&'a str),
    /// `calls`: how many calls of the files were made, and how many of them failed.
    Calls,
    /// An empty line, or one that begins with `#`.
    Nothing,
    /// Any other line.
    Bad,
}

impl Row<'_> {
    /// Reads a line.
    pub fn read(line: &str) -> Row<'_> {
        if line.is_empty() || line.starts_with('#') {
            return Row::Nothing;
        }
        if let Some(text) = line.strip_prefix('|') {
            return Row::Line(text);
        }
        if let Some(text) = line.strip_prefix('+') {
            return Row::Text(text);
        }
        match line.split_once(' ') {
            Some((sign, rest)) => of_sign(sign, rest),
            None if line == "calls" => Row::Calls,
            None if line == "text" => Row::Wrote,
            None if line == "." => Row::End,
            None => Row::Bad,
        }
    }
}

fn of_sign<'a>(sign: &str, rest: &'a str) -> Row<'a> {
    match sign {
        "case" => Row::Case(rest),
        "fails" => Row::Fails(rest),
        "x" => Row::Hex(rest),
        "=" => Row::Hold(rest),
        "use" => Row::Use(rest),
        ">" => Row::Command(rest),
        ">>" => Row::Quiet(rest),
        "?" => Row::Size(rest),
        "!" => Row::Bytes(rest),
        "same" => Row::Same(rest),
        _ => of_number(sign, rest),
    }
}

fn of_number<'a>(sign: &str, rest: &'a str) -> Row<'a> {
    match (sign, rest.parse()) {
        ("room", Ok(bytes)) => Row::Room(bytes),
        ("*", Ok(times)) => Row::Times(times),
        ("cut", Ok(length)) => Row::Cut(length),
        ("word", Ok(number)) => Row::Word(number),
        _ => match rest.split_once(' ') {
            Some((number, rest)) => of_two(sign, number, rest),
            None => Row::Bad,
        },
    }
}

fn of_two<'a>(sign: &str, number: &str, rest: &'a str) -> Row<'a> {
    match (sign, number.parse()) {
        ("set", Ok(place)) => Row::Set(place, rest),
        ("fronts", Ok(rooms)) => Row::Fronts(rooms, rest),
        _ => Row::Bad,
    }
}
