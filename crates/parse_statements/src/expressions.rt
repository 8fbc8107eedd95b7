ghost use Rattle.std.specs.Prelude.{◌≡◌, length};
ghost use Rattle.tree_rules.specs.ReadExpressions.{expr};
ghost use Rattle.tree_rules.specs.ReadVariables as spec;
ghost use Rattle.parse_statements.specs.Answers.{Answers, Rises, got_view};
ghost use Rattle.parse_statements.specs.BoxedNodes.{boxed_expr};

use super::part::Got;
use super::precedence::expression;
use super::read_fault::ReadFault;
use super::token_parser::Parser;
use pawn_token::Sign;
use pawn_tree::Expr;

/// What stands in a node is read by this: tokens, and how many levels there may be at most in each
/// expression.
#[derive(Clone, Copy)]
pub struct Reader<'a> {
    pub parser: Parser<'a>,
    pub height: u16,
}

impl<'a> Reader<'a> {
    /// An expression up to a level, as far as the tokens go on with it.
    ///
    /// Errors: `Syntax` where there is none; `Memory`.
    pub fn expression(
        &self,
        tags: bool,
        level: usize,
        start: usize,
    ) -> Result<Got<Box<Expr>>, ReadFault>
        ensures { let ts = self.now.parser.tokens.now in let d = self.now.height in
            Answers ts (got_view boxed_expr)
            (spec.expression ts (expr ts d) tags level start) result }
    {
        let x = expression(self.parser, self.height, tags, level, start)?;
        Ok(Got {
            tree: x.tree,
            height: x.height,
            stop: x.stop,
        })
    }

    /// The height of a node that stands above so many levels, if no more than `height` are below
    /// it. Else no tree goes on at `at`.
    pub fn height_above(&self, under: usize, at: usize) -> Result<usize, ReadFault>
        ensures { Rises (length self.now.parser.tokens.now) self.now.height under result }
    {
        if under > usize::from(self.height) {
            return Err(self.parser.stuck(at));
        }
        Ok(under + 1)
    }

    /// An expression in parentheses.
    #[tactic(auto, unfolding(tree_rules::specs::ReadVariables::condition))]
    pub(crate) fn condition(&self, start: usize) -> Result<Got<Box<Expr>>, ReadFault>
        ensures { let ts = self.now.parser.tokens.now in let d = self.now.height in
            Answers ts (got_view boxed_expr) (spec.condition ts (expr ts d) start) result }
    {
        let open = self.parser.expect(Sign::OpenParenthesis, start)?;
        let x = self.expression(true, 15, open)?;
        let stop = self.parser.expect(Sign::CloseParenthesis, x.stop)?;
        Ok(Got {
            tree: x.tree,
            height: x.height,
            stop,
        })
    }
}
