ghost use Rattle.std.specs.Prelude.{◌≡◌, length};
ghost use Rattle.tree_rules.specs.Ends as spec;
ghost use Rattle.parse_statements.specs.Answers.{Answers, IsStuck};

use super::expressions::Reader;
use super::read_fault::ReadFault;
use pawn_token::Sign;
use tree_rules::Word;

/// Whether a statement may end before this without a semicolon.
fn stops(first: bool, word: Word) -> bool
    ensures { result ≡ spec.stops first word }
{
    match word {
        Word::Absent => true,
        Word::Sign(Sign::CloseBrace) => true,
        _ => first,
    }
}

impl<'a> Reader<'a> {
    /// The token behind the end of a statement, if one may end before this token: behind its
    /// semicolon where that stands there (Language Guide, "General syntax").
    #[tactic(auto, unfolding(tree_rules::specs::Ends::ending))]
    pub(crate) fn ending(&self, at: usize) -> Option<usize>
        ensures { result ≡ spec.ending self.now.parser.tokens.now at }
    {
        if self.parser.sees(Sign::Semicolon, at) {
            return Some(at + 1);
        }
        if self.parser.is_strict(at.saturating_sub(1)) {
            return None;
        }
        if stops(self.parser.is_first(at), self.parser.word(at)) {
            Some(at)
        } else {
            None
        }
    }

    /// The token behind the end of a statement.
    ///
    /// Errors: `Syntax` where none may end before this token.
    pub fn end(&self, at: usize) -> Result<usize, ReadFault>
        ensures { let ts = self.now.parser.tokens.now in
            Answers ts (λ stop. stop) (spec.ending ts at) result }
    {
        match self.ending(at) {
            Some(stop) => Ok(stop),
            None => Err(self.parser.stuck(at)),
        }
    }

    /// That no tree goes on where a name should stand, behind a tag if one does. A lone `_` could
    /// have been a tag.
    pub fn nameless(&self, start: usize) -> ReadFault
        ensures { IsStuck (length self.now.parser.tokens.now) result }
    {
        let at = self.parser.behind_tag(start);
        if at == start && self.parser.is_blank(at) {
            return self.parser.stuck(at + 1);
        }
        self.parser.stuck(at)
    }
}
