ghost use Rattle.std.specs.Prelude.{◌≡◌, Some, IfOk};
ghost use Rattle.pawn_tree.specs.View.{stmt_view};
ghost use Rattle.tree_rules.specs.Readers.{got, node};
ghost use Rattle.tree_rules.specs.ReadStatements as spec;
ghost use Rattle.parse_statements.specs.Answers.{Answers, got_view};
ghost use Rattle.parse_statements.specs.BoxedNodes.{boxed_stmt};
ghost use Rattle.parse_statements.specs.NestedStatements.{Follows};

use super::expressions::Reader;
use super::part::Got;
use super::read_fault::ReadFault;
use super::token_parser::Parser;
use pawn_tree::Stmt;
use std::alloc::AllocError;

/// The rules of statements. Those in them are read by `next`, so that each rule is proved by
/// itself.
#[derive(Clone, Copy)]
pub(crate) struct Statements<'a, G> {
    /// How many levels may stand below a node, among the rest.
    pub reader: Reader<'a>,
    pub next: G,
}

impl<'a, G: Fn(Parser<'a>, u16, bool, usize) -> Result<Got<Box<Stmt>>, ReadFault>> Statements<
    'a,
    G,
> {
    /// A statement in another, where variables and constants may stand or not.
    pub(crate) fn next(&self, declares: bool, start: usize) -> Result<Got<Box<Stmt>>, ReadFault>
        requires follows { Follows self.now.reader.parser.tokens.now self.now.reader.height
            (G.pre self.now.next) (G.post self.now.next) }
        ensures { let ts = self.now.reader.parser.tokens.now in let d = self.now.reader.height in
            Answers ts (got_view boxed_stmt) (spec.statement ts d declares start) result }
    {
        (self.next)(self.reader.parser, self.reader.height, declares, start)
    }

    /// A node, if no more than so many levels stand below it. Else no tree goes on at its token
    /// `at`.
    pub(crate) fn node(
        &self,
        at: usize,
        tree: Stmt,
        under: usize,
        stop: usize,
    ) -> Result<Got<Box<Stmt>>, ReadFault>
        ensures { let ts = self.now.reader.parser.tokens.now in let d = self.now.reader.height in
            Answers ts (got_view boxed_stmt) (node d (stmt_view tree) under stop) result }
    {
        let tree = self.boxed(tree)?;
        let height = self.reader.height_above(under, at)?;
        Ok(Got { tree, height, stop })
    }

    /// A node with none below it.
    pub(crate) fn leaf(&self, tree: Stmt, stop: usize) -> Result<Got<Box<Stmt>>, ReadFault>
        ensures { let ts = self.now.reader.parser.tokens.now in
            Answers ts (got_view boxed_stmt) (Some (got (stmt_view tree) 1 stop)) result }
    {
        let tree = self.boxed(tree)?;
        Ok(Got {
            tree,
            height: 1,
            stop,
        })
    }

    fn boxed(&self, tree: Stmt) -> Result<Box<Stmt>, AllocError>
        ensures { IfOk result (λ b. boxed_stmt b ≡ stmt_view tree) }
    {
        let boxed = Box::new(self.reader.parser.alloc, tree)?;
        Ok(boxed)
    }
}
