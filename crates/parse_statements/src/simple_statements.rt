ghost use Rattle.std.specs.Prelude.{◌≡◌, ◌<◌, suc, length, true};
ghost use Rattle.pawn_tree.specs.Statements as plain;
ghost use Rattle.tree_rules.specs.ReadStatements as spec;
ghost use Rattle.tree_rules.specs.Statements.{is_bare};
ghost use Rattle.parse_statements.specs.Answers.{Answers, got_view};
ghost use Rattle.parse_statements.specs.BoxedNodes.{boxed_stmt};
ghost use Rattle.parse_statements.specs.NestedStatements.{Follows};

use super::arguments::call_node;
use super::part::Got;
use super::precedence::{more_arguments, value_argument};
use super::read_fault::ReadFault;
use super::statement_rules::Statements;
use super::token_parser::Parser;
use pawn_tree::{Stmt, Storage};
use tree_rules::Word;

impl<'a, G: Fn(Parser<'a>, u16, bool, usize) -> Result<Got<Box<Stmt>>, ReadFault>> Statements<
    'a,
    G,
> {
    /// An expression.
    #[tactic(auto, unfolding(tree_rules::specs::ReadStatements::does))]
    pub(crate) fn does(&self, start: usize) -> Result<Got<Box<Stmt>>, ReadFault>
        ensures { let ts = self.now.reader.parser.tokens.now in let d = self.now.reader.height in
            Answers ts (got_view boxed_stmt) (spec.does ts (spec.statement ts d) d start) result }
    {
        let x = self.reader.expression(true, 15, start)?;
        let stop = self.reader.end(x.stop)?;
        let tree = Stmt::Do(self.reader.parser.at(start), Box::into_inner(x.tree));
        self.node(start, tree, x.height, stop)
    }

    /// Whether the first argument of a call without parentheses begins there, on the line of the
    /// token before it.
    #[tactic(auto, unfolding(tree_rules::specs::Statements::is_bare))]
    pub(crate) fn is_bare(&self, at: usize) -> bool
        ensures { result ≡ is_bare self.now.reader.parser.tokens.now at }
    {
        match self.reader.parser.word(at) {
            Word::Name | Word::Blank | Word::Number | Word::Text => !self
                .reader
                .parser
                .is_first(at),
            _ => false,
        }
    }

    /// A call without parentheses, whose name stands there.
    #[tactic(auto, unfolding(tree_rules::specs::ReadStatements::bare))]
    pub(crate) fn bare(&self, start: usize) -> Result<Got<Box<Stmt>>, ReadFault>
        requires inside { start < length self.now.reader.parser.tokens.now }
        ensures { let ts = self.now.reader.parser.tokens.now in let d = self.now.reader.height in
            Answers ts (got_view boxed_stmt) (spec.bare ts (spec.statement ts d) d start) result }
    {
        let reader = self.reader;
        let first = value_argument(reader.parser, reader.height, start + 1)?;
        let arguments = more_arguments(reader.parser, reader.height, false, first)?;
        let stop = reader.end(arguments.stop)?;
        let name = reader.parser.spelling(start)?;
        let call = call_node(reader.parser.at(start), name, arguments.tree, true);
        let under = arguments.height.saturating_add(1);
        self.node(
            start + 1,
            Stmt::Do(reader.parser.at(start), call),
            under,
            stop,
        )
    }

    /// `return` with its value, or without one.
    #[tactic(auto, unfolding(tree_rules::specs::ReadStatements::gives))]
    pub(crate) fn returns(&self, start: usize) -> Result<Got<Box<Stmt>>, ReadFault>
        requires inside { start < length self.now.reader.parser.tokens.now }
        ensures { let ts = self.now.reader.parser.tokens.now in let d = self.now.reader.height in
            Answers ts (got_view boxed_stmt)
            (spec.gives ts (spec.statement ts d) d plain.Return start) result }
    {
        let x = self.reader.result(start + 1)?;
        let tree = Stmt::Return(self.reader.parser.at(start), x.tree);
        self.node(start, tree, x.height, x.stop)
    }

    /// `exit`
    #[tactic(auto, unfolding(tree_rules::specs::ReadStatements::gives))]
    pub(crate) fn exits(&self, start: usize) -> Result<Got<Box<Stmt>>, ReadFault>
        requires inside { start < length self.now.reader.parser.tokens.now }
        ensures { let ts = self.now.reader.parser.tokens.now in let d = self.now.reader.height in
            Answers ts (got_view boxed_stmt)
            (spec.gives ts (spec.statement ts d) d plain.Exit start) result }
    {
        let x = self.reader.result(start + 1)?;
        let tree = Stmt::Exit(self.reader.parser.at(start), x.tree);
        self.node(start, tree, x.height, x.stop)
    }

    /// `sleep`
    #[tactic(auto, unfolding(tree_rules::specs::ReadStatements::gives))]
    pub(crate) fn sleeps(&self, start: usize) -> Result<Got<Box<Stmt>>, ReadFault>
        requires inside { start < length self.now.reader.parser.tokens.now }
        ensures { let ts = self.now.reader.parser.tokens.now in let d = self.now.reader.height in
            Answers ts (got_view boxed_stmt)
            (spec.gives ts (spec.statement ts d) d plain.Sleep start) result }
    {
        let x = self.reader.result(start + 1)?;
        let tree = Stmt::Sleep(self.reader.parser.at(start), x.tree);
        self.node(start, tree, x.height, x.stop)
    }

    /// `assert`
    #[tactic(auto, unfolding(tree_rules::specs::ReadStatements::assert_stmt))]
    pub(crate) fn asserts(&self, start: usize) -> Result<Got<Box<Stmt>>, ReadFault>
        requires inside { start < length self.now.reader.parser.tokens.now }
        ensures { let ts = self.now.reader.parser.tokens.now in let d = self.now.reader.height in
            Answers ts (got_view boxed_stmt)
            (spec.assert_stmt ts (spec.statement ts d) d start) result }
    {
        let x = self.reader.expression(true, 15, start + 1)?;
        let stop = self.reader.end(x.stop)?;
        let tree = Stmt::Assert(self.reader.parser.at(start), Box::into_inner(x.tree));
        self.node(start, tree, x.height, stop)
    }

    /// `break`
    #[tactic(auto, unfolding(tree_rules::specs::ReadStatements::leaves))]
    pub(crate) fn breaks(&self, start: usize) -> Result<Got<Box<Stmt>>, ReadFault>
        requires inside { start < length self.now.reader.parser.tokens.now }
        ensures { let ts = self.now.reader.parser.tokens.now in let d = self.now.reader.height in
            Answers ts (got_view boxed_stmt)
            (spec.leaves ts (spec.statement ts d) d plain.Break start) result }
    {
        let stop = self.reader.end(start + 1)?;
        self.leaf(Stmt::Break(self.reader.parser.at(start)), stop)
    }

    /// `continue`
    #[tactic(auto, unfolding(tree_rules::specs::ReadStatements::leaves))]
    pub(crate) fn continues(&self, start: usize) -> Result<Got<Box<Stmt>>, ReadFault>
        requires inside { start < length self.now.reader.parser.tokens.now }
        ensures { let ts = self.now.reader.parser.tokens.now in let d = self.now.reader.height in
            Answers ts (got_view boxed_stmt)
            (spec.leaves ts (spec.statement ts d) d plain.Continue start) result }
    {
        let stop = self.reader.end(start + 1)?;
        self.leaf(Stmt::Continue(self.reader.parser.at(start)), stop)
    }

    /// `state`
    #[tactic(auto, unfolding(tree_rules::specs::ReadStatements::state))]
    pub(crate) fn changes_state(&self, start: usize) -> Result<Got<Box<Stmt>>, ReadFault>
        requires inside { start < length self.now.reader.parser.tokens.now }
        ensures { let ts = self.now.reader.parser.tokens.now in let d = self.now.reader.height in
            Answers ts (got_view boxed_stmt) (spec.state ts (spec.statement ts d) d start) result }
    {
        let x = self.reader.state_condition(start + 1)?;
        let name = self.reader.state_name(x.stop)?;
        let stop = self.reader.end(name.stop)?;
        let tree = Stmt::State(self.reader.parser.at(start), x.tree, name.tree);
        self.node(start, tree, x.height, stop)
    }

    /// Variables of a block.
    #[tactic(auto, unfolding(tree_rules::specs::ReadStatements::local))]
    pub(crate) fn local(&self, storage: Storage, start: usize) -> Result<Got<Box<Stmt>>, ReadFault>
        requires inside { start < length self.now.reader.parser.tokens.now }
        ensures { let ts = self.now.reader.parser.tokens.now in let d = self.now.reader.height in
            Answers ts (got_view boxed_stmt)
            (spec.local ts (spec.statement ts d) d storage start) result }
    {
        let x = self.reader.variables(storage, start + 1)?;
        let tree = Stmt::Local(self.reader.parser.at(start), x.tree);
        self.node(start, tree, x.height, x.stop)
    }

    /// A constant of a block.
    #[tactic(auto, unfolding(tree_rules::specs::ReadStatements::local_constant))]
    pub(crate) fn local_constant(&self, start: usize) -> Result<Got<Box<Stmt>>, ReadFault>
        requires inside { start < length self.now.reader.parser.tokens.now }
        ensures { let ts = self.now.reader.parser.tokens.now in let d = self.now.reader.height in
            Answers ts (got_view boxed_stmt)
            (spec.local_constant ts (spec.statement ts d) d start) result }
    {
        let x = self.reader.constant(start + 1)?;
        let tree = Stmt::Constant(self.reader.parser.at(start), x.tree);
        self.node(start, tree, x.height, x.stop)
    }
}
