ghost use Rattle.std.specs.Prelude.{◌≡◌, ◌≤◌, Some, IfOk, IsTrue, nat_le};
ghost use Rattle.pawn_tree.specs.View.{expr_view};
ghost use Rattle.tree_rules.specs.ReadExpressions as spec;
ghost use Rattle.parse_statements.specs.Answers.{Answers, part_view};
ghost use Rattle.parse_statements.specs.BoxedNodes.{boxed_expr};
ghost use Rattle.parse_statements.specs.NestedExpressions.{Nests};

use super::deepest::deepest_token;
use super::part::Part;
use super::read_fault::ReadFault;
use super::token_parser::Parser;
use pawn_tree::Expr;
use std::alloc::AllocError;

/// The rules of expressions. Those in them are read by `nested`, so that each rule is proved by
/// itself.
#[derive(Clone, Copy)]
pub(crate) struct Rules<'a, F> {
    pub parser: Parser<'a>,
    /// How many levels may stand below a node.
    pub height: u16,
    pub nested: F,
}

impl<'a, F: Fn(Parser<'a>, u16, bool, usize, usize) -> Result<Part, ReadFault>> Rules<'a, F> {
    /// An expression up to a level.
    pub(crate) fn sub(&self, tags: bool, level: usize, start: usize) -> Result<Part, ReadFault>
        requires { Nests self.now.parser.tokens.now self.now.height
            (F.pre self.now.nested) (F.post self.now.nested) }
        ensures { let ts = self.now.parser.tokens.now in let d = self.now.height in
            Answers ts part_view (spec.expr ts d tags level start) result }
    {
        (self.nested)(self.parser, self.height, tags, level, start)
    }

    /// A node of a level, if no more than so many levels stand below it. Else the first of its
    /// lowest nodes is the first one that stands too deep.
    pub(crate) fn operation(
        &self,
        tree: Expr,
        level: usize,
        under: usize,
        stop: usize,
    ) -> Result<Part, ReadFault>
        ensures { let ts = self.now.parser.tokens.now in let d = self.now.height in
            Answers ts part_view
            (spec.operation d (expr_view tree) level under stop) result }
    {
        let tree = self.boxed(tree)?;
        if !self.is_low(under) {
            return Err(self.parser.stuck(deepest_token(&*tree)));
        }
        Ok(Part {
            tree,
            level,
            height: under + 1,
            stop,
        })
    }

    /// Whether a node may stand above so many levels.
    fn is_low(&self, under: usize) -> bool
        ensures value { result ≡ nat_le under self.now.height }
        ensures fits { IsTrue result → under ≤ self.now.height }
    {
        under <= usize::from(self.height)
    }

    fn boxed(&self, tree: Expr) -> Result<Box<Expr>, AllocError>
        ensures { IfOk result (λ b. boxed_expr b ≡ expr_view tree) }
    {
        let boxed = Box::new(self.parser.alloc, tree)?;
        Ok(boxed)
    }

    /// A node with none below it.
    pub(crate) fn leaf(&self, tree: Expr, level: usize, stop: usize) -> Result<Part, ReadFault>
        ensures { let ts = self.now.parser.tokens.now in
            Answers ts part_view (Some (spec.part (expr_view tree) level 1 stop)) result }
    {
        Ok(Part {
            tree: self.boxed(tree)?,
            level,
            height: 1,
            stop,
        })
    }
}
