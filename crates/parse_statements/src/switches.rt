ghost use Rattle.std.specs.Prelude.{◌≡◌, ◌<◌, suc, length, [], map, option_map};
ghost use Rattle.pawn_token.specs.declared.key.Key.TheVariants as key;
ghost use Rattle.pawn_tree.specs.View.{case_view};
ghost use Rattle.tree_rules.specs.Readers.{many};
ghost use Rattle.tree_rules.specs.ReadStatements as spec;
ghost use Rattle.tree_rules.specs.Tokens as tok;
ghost use Rattle.parse_statements.specs.Answers.{Answers, got_view};
ghost use Rattle.parse_statements.specs.BoxedNodes.{boxed_expr, boxed_stmt};
ghost use Rattle.parse_statements.specs.NestedStatements.{Follows};

use super::nodes::switch_node;
use super::part::{Got, no_parts};
use super::read_fault::ReadFault;
use super::statement_rules::Statements;
use super::token_parser::Parser;
use pawn_base::List;
use pawn_token::{Key, Sign};
use pawn_tree::{Case, Expr, Stmt};

impl<'a, G: Fn(Parser<'a>, u16, bool, usize) -> Result<Got<Box<Stmt>>, ReadFault>> Statements<
    'a,
    G,
> {
    /// A case, whose `case` stands there.
    #[tactic(auto, unfolding(tree_rules::specs::ReadStatements::case_of))]
    fn case_of(&self, start: usize) -> Result<Got<Case>, ReadFault>
        requires follows { Follows self.now.reader.parser.tokens.now self.now.reader.height
            (G.pre self.now.next) (G.post self.now.next) }
        requires inside { start < length self.now.reader.parser.tokens.now }
        ensures { let ts = self.now.reader.parser.tokens.now in let d = self.now.reader.height in
            Answers ts (got_view case_view) (spec.case_of ts (spec.statement ts d) d start) result }
    {
        let ranges = self.reader.ranges(start + 1)?;
        let next = self.reader.parser.expect(Sign::Colon, ranges.stop)?;
        let body = self.next(false, next)?;
        let at = self.reader.parser.at(start);
        Ok(Got {
            tree: Case::Values(at, ranges.tree, Box::into_inner(body.tree)),
            height: ranges.height.max(body.height),
            stop: body.stop,
        })
    }

    /// The cases, all that stand there.
    #[tactic(auto, using(crate::proofs::Turns::one_part_more, crate::proofs::Turns::no_part_more, std::proofs::lemmas::Grind::common_steps))]
    fn more_cases(&self, start: usize) -> Result<Got<List<Case>>, ReadFault>
        requires follows { Follows self.now.reader.parser.tokens.now self.now.reader.height
            (G.pre self.now.next) (G.post self.now.next) }
        ensures { let ts = self.now.reader.parser.tokens.now in let d = self.now.reader.height in
            Answers ts (got_view (map case_view))
            (many (tok.sees_key ts key.Case) (spec.case_of ts (spec.statement ts d) d) (suc
            (length ts)) [] 0 start) result }
    {
        let mut parts = no_parts(self.reader.parser.alloc, start);
        for _turn in 0..self.reader.parser.tokens.len() + 1 {
            if !self.reader.parser.sees_key(Key::Case, parts.stop) {
                return Ok(parts);
            }
            let x = self.case_of(parts.stop)?;
            parts.add(x)?;
        }
        Err(self.reader.parser.stuck(parts.stop))
    }

    /// What stands behind `default`, where that stands there.
    #[tactic(auto, unfolding(tree_rules::specs::ReadStatements::default_of))]
    fn default_of(&self, start: usize) -> Result<Got<Option<Box<Stmt>>>, ReadFault>
        requires follows { Follows self.now.reader.parser.tokens.now self.now.reader.height
            (G.pre self.now.next) (G.post self.now.next) }
        ensures { let ts = self.now.reader.parser.tokens.now in let d = self.now.reader.height in
            Answers ts (got_view (option_map boxed_stmt))
            (spec.default_of ts (spec.statement ts d) d start) result }
    {
        if !self.reader.parser.sees_key(Key::Default, start) {
            return Ok(Got {
                tree: None,
                height: 0,
                stop: start,
            });
        }
        let next = self.reader.parser.expect(Sign::Colon, start + 1)?;
        let x = self.next(false, next)?;
        Ok(Got {
            tree: Some(x.tree),
            height: x.height,
            stop: x.stop,
        })
    }

    /// What stands in the braces of a `switch`.
    #[tactic(auto, unfolding(tree_rules::specs::ReadStatements::switch_rest))]
    fn switch_rest(&self, start: usize, value: Got<Box<Expr>>) -> Result<Got<Box<Stmt>>, ReadFault>
        requires follows { Follows self.now.reader.parser.tokens.now self.now.reader.height
            (G.pre self.now.next) (G.post self.now.next) }
        requires value { value.stop < length self.now.reader.parser.tokens.now }
        ensures { let ts = self.now.reader.parser.tokens.now in let d = self.now.reader.height in
            Answers ts (got_view boxed_stmt)
            (spec.switch_rest ts (spec.statement ts d) d start (got_view boxed_expr value)) result }
    {
        let cases = self.more_cases(value.stop + 1)?;
        let other = self.default_of(cases.stop)?;
        let stop = self.reader.parser.expect(Sign::CloseBrace, other.stop)?;
        let at = self.reader.parser.at(start);
        let tree = switch_node(at, Box::into_inner(value.tree), cases.tree, other.tree);
        let under = cases.height.max(other.height);
        self.node(start, tree, value.height.max(under), stop)
    }

    /// `switch`
    #[tactic(auto, unfolding(tree_rules::specs::ReadStatements::switch))]
    pub(crate) fn switch(&self, start: usize) -> Result<Got<Box<Stmt>>, ReadFault>
        requires follows { Follows self.now.reader.parser.tokens.now self.now.reader.height
            (G.pre self.now.next) (G.post self.now.next) }
        requires inside { start < length self.now.reader.parser.tokens.now }
        ensures { let ts = self.now.reader.parser.tokens.now in let d = self.now.reader.height in
            Answers ts (got_view boxed_stmt) (spec.switch ts (spec.statement ts d) d start) result }
    {
        let value = self.reader.condition(start + 1)?;
        if !self.reader.parser.sees(Sign::OpenBrace, value.stop) {
            return Err(self.reader.parser.stuck(value.stop));
        }
        self.switch_rest(start, value)
    }
}
