ghost use Rattle.std.specs.Prelude.{◌≡◌, ◌<◌, suc, length};
ghost use Rattle.tree_rules.specs.ReadStatements as spec;
ghost use Rattle.tree_rules.specs.Tokens as tok;
ghost use Rattle.parse_statements.specs.Answers.{Answers, got_view};
ghost use Rattle.parse_statements.specs.BoxedNodes.{boxed_stmt};
ghost use Rattle.parse_statements.specs.NestedStatements.{Follows};

use super::expressions::Reader;
use super::part::Got;
use super::read_fault::ReadFault;
use super::statement_rules::Statements;
use super::token_parser::Parser;
use pawn_token::{Key, Sign};
use pawn_tree::{Stmt, Storage};
use tree_rules::Word;

/// A statement from token `start` on, with at most `height` levels of nodes, where variables and
/// constants may stand or not (Language Guide, "Statements").
///
/// Errors: `Syntax` where there is none; `Memory`.
#[tactic(auto, using(crate::proofs::StatementKnotLaws::statement_of_none, crate::proofs::StatementKnotLaws::statement_of_more))]
pub fn statement(
    parser: Parser<'_>,
    height: u16,
    declares: bool,
    start: usize,
) -> Result<Got<Box<Stmt>>, ReadFault>
    ensures { let ts = parser.entry.tokens.now in
        Answers ts (got_view boxed_stmt) (spec.statement ts height declares start) result }
{
    if height == 0 {
        return Err(parser.stuck(start));
    }
    Statements {
        reader: Reader {
            parser,
            height: height - 1,
        },
        next: statement,
    }
    .stmt(declares, start)
}

impl<'a, G: Fn(Parser<'a>, u16, bool, usize) -> Result<Got<Box<Stmt>>, ReadFault>> Statements<
    'a,
    G,
> {
    /// A statement that begins with a key word.
    #[tactic(auto, unfolding(tree_rules::specs::ReadStatements::key_stmt))]
    fn key_stmt(&self, declares: bool, start: usize, key: Key) -> Result<Got<Box<Stmt>>, ReadFault>
        requires follows { Follows self.now.reader.parser.tokens.now self.now.reader.height
            (G.pre self.now.next) (G.post self.now.next) }
        requires inside { start < length self.now.reader.parser.tokens.now }
        ensures { let ts = self.now.reader.parser.tokens.now in let d = self.now.reader.height in
            Answers ts (got_view boxed_stmt)
            (spec.key_stmt ts (spec.statement ts d) d declares start key) result }
    {
        match key {
            Key::If => self.branch(start),
            Key::While => self.while_loop(start),
            Key::Do => self.do_loop(start),
            Key::For => self.for_loop(start),
            Key::Switch => self.switch(start),
            Key::Return => self.returns(start),
            Key::Exit => self.exits(start),
            Key::Sleep => self.sleeps(start),
            Key::Assert => self.asserts(start),
            Key::Break => self.breaks(start),
            Key::Continue => self.continues(start),
            Key::State => self.changes_state(start),
            Key::New if declares => self.local(Storage::New, start),
            Key::Static if declares => self.local(Storage::Static, start),
            Key::Const if declares => self.local_constant(start),
            Key::New | Key::Static | Key::Const => Err(self.reader.parser.stuck(start)),
            _ => self.does(start),
        }
    }

    /// A statement, by its first token.
    #[tactic(auto, unfolding(tree_rules::specs::ReadStatements::stmt_by))]
    fn stmt(&self, declares: bool, start: usize) -> Result<Got<Box<Stmt>>, ReadFault>
        requires follows { Follows self.now.reader.parser.tokens.now self.now.reader.height
            (G.pre self.now.next) (G.post self.now.next) }
        ensures { let ts = self.now.reader.parser.tokens.now in let d = self.now.reader.height in
            Answers ts (got_view boxed_stmt)
            (spec.stmt_by ts (spec.statement ts d) d declares start (tok.word ts start)) result }
    {
        match self.reader.parser.word(start) {
            Word::Sign(Sign::OpenBrace) => self.block(start),
            Word::Sign(Sign::Semicolon) => {
                self.leaf(Stmt::Empty(self.reader.parser.at(start)), start + 1)
            }
            Word::Key(key) => self.key_stmt(declares, start, key),
            Word::Name if self.is_bare(start + 1) => self.bare(start),
            _ => self.does(start),
        }
    }
}
