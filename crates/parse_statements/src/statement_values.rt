ghost use Rattle.std.specs.Prelude.{◌<◌, length, option_map, IfOk};
ghost use Rattle.pawn_tree.specs.View.{expr_view, first_view};
ghost use Rattle.tree_rules.specs.ReadExpressions.{expr};
ghost use Rattle.tree_rules.specs.ReadStatements as spec;
ghost use Rattle.parse_statements.specs.Answers.{Answers, got_view};

use super::expressions::Reader;
use super::part::Got;
use super::read_fault::ReadFault;
use pawn_token::{Key, Sign};
use pawn_tree::{Expr, First};

impl<'a> Reader<'a> {
    /// A value and the end of the statement, or the end alone, as behind `return`.
    #[tactic(auto, unfolding(tree_rules::specs::ReadStatements::result, tree_rules::specs::ReadStatements::result_of))]
    pub(crate) fn result(&self, start: usize) -> Result<Got<Option<Expr>>, ReadFault>
        ensures { let ts = self.now.parser.tokens.now in let d = self.now.height in
            Answers ts (got_view (option_map expr_view)) (spec.result ts (expr ts d) start) result }
    {
        if let Some(stop) = self.ending(start) {
            return Ok(Got {
                tree: None,
                height: 0,
                stop,
            });
        }
        if self.parser.is_first(start) {
            return Err(self.parser.stuck(start));
        }
        let x = self.expression(true, 15, start)?;
        let stop = self.end(x.stop)?;
        Ok(Got {
            tree: Some(Box::into_inner(x.tree)),
            height: x.height,
            stop,
        })
    }

    /// An expression before a sign, or none.
    #[tactic(auto, unfolding(tree_rules::specs::ReadStatements::before))]
    pub(crate) fn before(&self, sign: Sign, start: usize) -> Result<Got<Option<Expr>>, ReadFault>
        ensures reads { let ts = self.now.parser.tokens.now in let d = self.now.height in
            Answers ts (got_view (option_map expr_view))
            (spec.before ts (expr ts d) sign start) result }
        ensures inside { IfOk result (λ x. x.stop < length self.now.parser.tokens.now) }
    {
        if self.parser.sees(sign, start) {
            return Ok(Got {
                tree: None,
                height: 0,
                stop: start,
            });
        }
        let x = self.expression(true, 15, start)?;
        if !self.parser.sees(sign, x.stop) {
            return Err(self.parser.stuck(x.stop));
        }
        Ok(Got {
            tree: Some(Box::into_inner(x.tree)),
            height: x.height,
            stop: x.stop,
        })
    }

    /// What a `for` begins with.
    #[tactic(auto, unfolding(tree_rules::specs::ReadStatements::first))]
    pub(crate) fn first(&self, start: usize) -> Result<Got<First>, ReadFault>
        ensures { let ts = self.now.parser.tokens.now in let d = self.now.height in
            Answers ts (got_view first_view) (spec.first ts d start) result }
    {
        if self.parser.sees(Sign::Semicolon, start) {
            return Ok(Got {
                tree: First::Nothing,
                height: 0,
                stop: start,
            });
        }
        if self.parser.sees_key(Key::New, start) {
            let x = self.vars(start + 1)?;
            return Ok(Got {
                tree: First::New(x.tree),
                height: x.height,
                stop: x.stop,
            });
        }
        let x = self.expression(true, 15, start)?;
        Ok(Got {
            tree: First::Value(Box::into_inner(x.tree)),
            height: x.height,
            stop: x.stop,
        })
    }
}
