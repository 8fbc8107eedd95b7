ghost use Rattle.std.specs.Prelude.{suc, length, [], ◌∷◌, map, option_map, false};
ghost use Rattle.pawn_token.specs.declared.sign.Sign.TheVariants as sign;
ghost use Rattle.pawn_tree.specs.View.{expr_view, range_view};
ghost use Rattle.tree_rules.specs.Readers.{behind, led, many};
ghost use Rattle.tree_rules.specs.ReadExpressions.{expr};
ghost use Rattle.tree_rules.specs.ReadVariables.{expression};
ghost use Rattle.tree_rules.specs.ReadStatements as spec;
ghost use Rattle.tree_rules.specs.Tokens as tok;
ghost use Rattle.parse_statements.specs.Answers.{Answers, got_view};

use super::expressions::Reader;
use super::part::{Got, one_part};
use super::read_fault::ReadFault;
use pawn_base::List;
use pawn_token::Sign;
use pawn_tree::{Expr, Range};

impl<'a> Reader<'a> {
    /// All values of a case.
    #[tactic(auto, unfolding(tree_rules::specs::ReadStatements::ranges))]
    pub(crate) fn ranges(&self, start: usize) -> Result<Got<List<Range>>, ReadFault>
        ensures { let ts = self.now.parser.tokens.now in let d = self.now.height in
            Answers ts (got_view (map range_view)) (spec.ranges ts (expr ts d) start) result }
    {
        let first = self.range(start)?;
        self.more_ranges(first)
    }

    /// The values of a case behind the first one.
    #[tactic(auto, using(crate::proofs::Turns::one_part_more, crate::proofs::Turns::no_part_more, std::proofs::lemmas::Grind::common_steps))]
    fn more_ranges(&self, first: Got<Range>) -> Result<Got<List<Range>>, ReadFault>
        ensures { let ts = self.now.parser.tokens.now in let d = self.now.height in
            Answers ts (got_view (map range_view))
            (many (tok.sees ts sign.Comma) (behind (spec.range ts (expr ts d)))
            (suc (length ts)) (range_view first.tree ∷ []) first.height first.stop) result }
    {
        let mut parts = one_part(self.parser.alloc, first)?;
        for _turn in 0..self.parser.tokens.len() + 1 {
            if !self.parser.sees(Sign::Comma, parts.stop) {
                return Ok(parts);
            }
            let x = self.range(parts.stop + 1)?;
            parts.add(x)?;
        }
        Err(self.parser.stuck(parts.stop))
    }

    /// A value of a case, or all from a first to a last one.
    #[tactic(auto, unfolding(tree_rules::specs::ReadStatements::range))]
    fn range(&self, start: usize) -> Result<Got<Range>, ReadFault>
        ensures { let ts = self.now.parser.tokens.now in let d = self.now.height in
            Answers ts (got_view range_view) (spec.range ts (expr ts d) start) result }
    {
        let first = self.expression(false, 13, start)?;
        let last = self.range_end(first.stop)?;
        Ok(Got {
            tree: Range {
                first: Box::into_inner(first.tree),
                last: last.tree,
            },
            height: first.height.max(last.height),
            stop: last.stop,
        })
    }

    /// The last value of a range behind `..`, where that stands there.
    fn range_end(&self, start: usize) -> Result<Got<Option<Expr>>, ReadFault>
        ensures { let ts = self.now.parser.tokens.now in let d = self.now.height in
            Answers ts (got_view (option_map expr_view))
            (led ts sign.DotDot (expression ts (expr ts d) false 13) start) result }
    {
        if !self.parser.sees(Sign::DotDot, start) {
            return Ok(Got {
                tree: None,
                height: 0,
                stop: start,
            });
        }
        let x = self.expression(false, 13, start + 1)?;
        Ok(Got {
            tree: Some(Box::into_inner(x.tree)),
            height: x.height,
            stop: x.stop,
        })
    }
}
