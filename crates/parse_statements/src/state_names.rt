ghost use Rattle.std.specs.Prelude.{option_map};
ghost use Rattle.pawn_tree.specs.View.{expr_view};
ghost use Rattle.tree_rules.specs.ReadExpressions.{expr};
ghost use Rattle.tree_rules.specs.ReadStatements as spec;
ghost use Rattle.parse_statements.specs.Answers.{Answers, as_is, got_view};

use super::expressions::Reader;
use super::part::Got;
use super::read_fault::ReadFault;
use pawn_token::Sign;
use pawn_tree::{Expr, StateName};

impl<'a> Reader<'a> {
    /// The condition of a `state`, where one stands there.
    #[tactic(auto, unfolding(tree_rules::specs::ReadStatements::state_condition))]
    pub(crate) fn state_condition(&self, start: usize) -> Result<Got<Option<Expr>>, ReadFault>
        ensures { let ts = self.now.parser.tokens.now in let d = self.now.height in
            Answers ts (got_view (option_map expr_view))
            (spec.state_condition ts (expr ts d) start) result }
    {
        if !self.parser.sees(Sign::OpenParenthesis, start) {
            return Ok(Got {
                tree: None,
                height: 0,
                stop: start,
            });
        }
        let x = self.condition(start)?;
        Ok(Got {
            tree: Some(Box::into_inner(x.tree)),
            height: x.height,
            stop: x.stop,
        })
    }

    /// A state, with its automaton before a colon or without one (Language Guide, "Automata").
    ///
    /// Errors: `Syntax` where no name stands there, or none behind the colon; `Memory`.
    #[tactic(auto, unfolding(tree_rules::specs::ReadStatements::state_name))]
    pub fn state_name(&self, start: usize) -> Result<Got<StateName>, ReadFault>
        ensures { let ts = self.now.parser.tokens.now in
            Answers ts as_is (spec.state_name ts start) result }
    {
        if !self.parser.is_name(start) {
            return Err(self.parser.stuck(start));
        }
        let name = self.parser.name_at(start)?;
        if !self.parser.sees(Sign::Colon, start + 1) {
            return Ok(Got {
                tree: StateName {
                    automaton: None,
                    state: name,
                },
                height: 0,
                stop: start + 1,
            });
        }
        if !self.parser.is_name(start + 2) {
            return Err(self.parser.stuck(start + 2));
        }
        let state = self.parser.name_at(start + 2)?;
        Ok(Got {
            tree: StateName {
                automaton: Some(name),
                state,
            },
            height: 0,
            stop: start + 3,
        })
    }
}
