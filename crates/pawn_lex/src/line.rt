ghost use Rattle.pawn_lex.specs.Answers.{IsLineRead};

use super::token::Token;
use pawn_base::List;
use pawn_pre::Line;
use pawn_token::{Class, TokenFault, read_token, split};
use std::alloc::Global;

/// Puts the tokens of a line at the end of a list.
pub fn line_tokens(alloc: Global, line: &Line, list: &mut List<Token>) -> Result<(), TokenFault>
    ensures { IsLineRead line.now list.old list.new result }
{
    let mut first = true;
    let mut rest = line.bytes.as_slice();
    loop {
        let (blanks, front) = split(Class::Blank, rest);
        if front.is_empty() {
            return Ok(());
        }
        let (kind, after) = read_token(alloc, line.ctrl, line.packed, front)?;
        let touches = !first && blanks.is_empty();
        list.push(Token {
            kind,
            place: line.place,
            first,
            touches,
            strict: line.strict,
        })?;
        first = false;
        rest = after;
    }
}
