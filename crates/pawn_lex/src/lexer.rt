ghost use Rattle.std.specs.Prelude.{ℕ, List as ListOf};
ghost use Rattle.pawn_cells.specs.declared.place.Place.{Place as PlaceOf};
ghost use Rattle.pawn_lex.specs.declared.token.Token.{Token as TokenOf};
ghost use Rattle.pawn_lex.specs.Answers.{IsAnswer, AnswersTokens, AnswersFault, AreDetermined};
ghost use Rattle.pawn_lex.specs.Lines.{AreTokens, IsFirstFault};
ghost use Rattle.pawn_lex.specs.Within.{IsWithin};

use super::fault::LexFault;
use super::line::line_tokens;
use super::token::Tokens;
use pawn_base::List;
use pawn_pre::Lines;
use pawn_token::TokenFault;
use std::alloc::Global;

/// The tokens of lines, or the first fault in the order of bytes.
pub fn tokens(alloc: Global, lines: &Lines) -> Result<Tokens, LexFault>
    ensures answer { IsAnswer lines.now.lines result }
    ensures only_tokens { (list : ListOf TokenOf) → AreTokens lines.now.lines list →
        AnswersTokens list result }
    ensures only_fault { (fault : ℕ) (place : PlaceOf) → IsFirstFault lines.now.lines fault place →
        AnswersFault fault place result }
    ensures determined { AreDetermined lines.now.lines }

    // What sizes and places come out, for those who go on with the tokens.
    ensures within { IsWithin lines.now.lines result }
{
    read(alloc, lines)
}

/// Reads line by line.
fn read(alloc: Global, lines: &Lines) -> Result<Tokens, LexFault>
    ensures { IsAnswer lines.now.lines result }
{
    let mut list = List::new(alloc);
    for line in lines.lines.as_slice() {
        match line_tokens(alloc, line, &mut list) {
            Ok(()) => {}
            Err(TokenFault::Source(kind)) => {
                let place = line.place;
                return Err(LexFault::Source { kind, place });
            }
            Err(TokenFault::Memory) => return Err(LexFault::Memory),
        }
    }
    Ok(Tokens { list })
}
