ghost use Rattle.std.specs.Prelude.{◌≡◌, ◌<◌, suc, length, [], map, option_map, not, true, false};
ghost use Rattle.std.specs.Prelude.{IfOk};
ghost use Rattle.pawn_token.specs.declared.sign.Sign.TheVariants as sign;
ghost use Rattle.pawn_tree.specs.View.{stmt_view, first_view};
ghost use Rattle.tree_rules.specs.Readers.{many};
ghost use Rattle.tree_rules.specs.ReadStatements as spec;
ghost use Rattle.parse_statements.specs.Answers.{Answers, got_view};
ghost use Rattle.parse_statements.specs.BoxedNodes.{boxed_stmt};
ghost use Rattle.parse_statements.specs.Block.{goes_on};
ghost use Rattle.parse_statements.specs.NestedStatements.{Follows};

use super::nodes::{block_node, if_node};
use super::part::{Got, no_parts};
use super::read_fault::ReadFault;
use super::statement_rules::Statements;
use super::token_parser::Parser;
use pawn_base::List;
use pawn_token::{Key, Sign};
use pawn_tree::{First, Stmt};

impl<'a, G: Fn(Parser<'a>, u16, bool, usize) -> Result<Got<Box<Stmt>>, ReadFault>> Statements<
    'a,
    G,
> {
    /// Whether a block goes on there.
    #[tactic(auto, unfolding(crate::specs::Block::goes_on))]
    fn goes_on(&self, at: usize) -> bool
        ensures value { result ≡ goes_on self.now.reader.parser.tokens.now at }
        ensures inside { result ≡ false → at < length self.now.reader.parser.tokens.now }
    {
        !self.reader.parser.sees(Sign::CloseBrace, at)
    }

    /// A statement of a block.
    fn stmt_of_block(&self, start: usize) -> Result<Got<Stmt>, ReadFault>
        requires follows { Follows self.now.reader.parser.tokens.now self.now.reader.height
            (G.pre self.now.next) (G.post self.now.next) }
        ensures { let ts = self.now.reader.parser.tokens.now in let d = self.now.reader.height in
            Answers ts (got_view stmt_view) (spec.statement ts d true start) result }
    {
        let x = self.next(true, start)?;
        Ok(x.unboxed())
    }

    /// The statements of a block, up to its closing brace.
    #[tactic(auto, using(crate::proofs::Turns::one_part_more, crate::proofs::Turns::no_part_more, std::proofs::lemmas::Grind::common_steps))]
    fn more_stmts(&self, start: usize) -> Result<Got<List<Stmt>>, ReadFault>
        requires follows { Follows self.now.reader.parser.tokens.now self.now.reader.height
            (G.pre self.now.next) (G.post self.now.next) }
        ensures reads { let ts = self.now.reader.parser.tokens.now in
            let d = self.now.reader.height in
            Answers ts (got_view (map stmt_view))
            (many (goes_on ts) (spec.statement ts d true) (suc (length ts)) [] 0 start) result }
        ensures inside { IfOk result (λ x. x.stop < length self.now.reader.parser.tokens.now) }
    {
        let mut parts = no_parts(self.reader.parser.alloc, start);
        for _turn in 0..self.reader.parser.tokens.len() + 1 {
            if !self.goes_on(parts.stop) {
                return Ok(parts);
            }
            let x = self.stmt_of_block(parts.stop)?;
            parts.add(x)?;
        }
        Err(self.reader.parser.stuck(parts.stop))
    }

    /// A block, whose `{` stands there.
    #[tactic(auto, unfolding(tree_rules::specs::ReadStatements::block, crate::specs::Block::goes_on))]
    pub(crate) fn block(&self, start: usize) -> Result<Got<Box<Stmt>>, ReadFault>
        requires follows { Follows self.now.reader.parser.tokens.now self.now.reader.height
            (G.pre self.now.next) (G.post self.now.next) }
        requires inside { start < length self.now.reader.parser.tokens.now }
        ensures { let ts = self.now.reader.parser.tokens.now in let d = self.now.reader.height in
            Answers ts (got_view boxed_stmt) (spec.block ts (spec.statement ts d) d start) result }
    {
        let stmts = self.more_stmts(start + 1)?;
        let tree = block_node(self.reader.parser.at(start), stmts.tree);
        self.node(start, tree, stmts.height, stmts.stop + 1)
    }

    /// What stands behind `else`, where that stands there.
    #[tactic(auto, unfolding(tree_rules::specs::ReadStatements::other))]
    fn other(&self, start: usize) -> Result<Got<Option<Box<Stmt>>>, ReadFault>
        requires follows { Follows self.now.reader.parser.tokens.now self.now.reader.height
            (G.pre self.now.next) (G.post self.now.next) }
        ensures { let ts = self.now.reader.parser.tokens.now in let d = self.now.reader.height in
            Answers ts (got_view (option_map boxed_stmt))
            (spec.other ts (spec.statement ts d) d start) result }
    {
        if !self.reader.parser.sees_key(Key::Else, start) {
            return Ok(Got {
                tree: None,
                height: 0,
                stop: start,
            });
        }
        let x = self.next(false, start + 1)?;
        Ok(Got {
            tree: Some(x.tree),
            height: x.height,
            stop: x.stop,
        })
    }

    /// `if`, with the nearest `else`.
    #[tactic(auto, unfolding(tree_rules::specs::ReadStatements::branch))]
    pub(crate) fn branch(&self, start: usize) -> Result<Got<Box<Stmt>>, ReadFault>
        requires follows { Follows self.now.reader.parser.tokens.now self.now.reader.height
            (G.pre self.now.next) (G.post self.now.next) }
        requires inside { start < length self.now.reader.parser.tokens.now }
        ensures { let ts = self.now.reader.parser.tokens.now in let d = self.now.reader.height in
            Answers ts (got_view boxed_stmt) (spec.branch ts (spec.statement ts d) d start) result }
    {
        let test = self.reader.condition(start + 1)?;
        let body = self.next(false, test.stop)?;
        let other = self.other(body.stop)?;
        let at = self.reader.parser.at(start);
        let tree = if_node(at, Box::into_inner(test.tree), body.tree, other.tree);
        let under = test.height.max(body.height.max(other.height));
        self.node(start, tree, under, other.stop)
    }

    /// `while`
    #[tactic(auto, unfolding(tree_rules::specs::ReadStatements::while_loop))]
    pub(crate) fn while_loop(&self, start: usize) -> Result<Got<Box<Stmt>>, ReadFault>
        requires follows { Follows self.now.reader.parser.tokens.now self.now.reader.height
            (G.pre self.now.next) (G.post self.now.next) }
        requires inside { start < length self.now.reader.parser.tokens.now }
        ensures { let ts = self.now.reader.parser.tokens.now in let d = self.now.reader.height in
            Answers ts (got_view boxed_stmt)
            (spec.while_loop ts (spec.statement ts d) d start) result }
    {
        let test = self.reader.condition(start + 1)?;
        let body = self.next(false, test.stop)?;
        let at = self.reader.parser.at(start);
        let tree = Stmt::While(at, Box::into_inner(test.tree), body.tree);
        self.node(start, tree, test.height.max(body.height), body.stop)
    }

    /// `do`
    #[tactic(auto, unfolding(tree_rules::specs::ReadStatements::do_loop))]
    pub(crate) fn do_loop(&self, start: usize) -> Result<Got<Box<Stmt>>, ReadFault>
        requires follows { Follows self.now.reader.parser.tokens.now self.now.reader.height
            (G.pre self.now.next) (G.post self.now.next) }
        requires inside { start < length self.now.reader.parser.tokens.now }
        ensures { let ts = self.now.reader.parser.tokens.now in let d = self.now.reader.height in
            Answers ts (got_view boxed_stmt)
            (spec.do_loop ts (spec.statement ts d) d start) result }
    {
        let body = self.next(false, start + 1)?;
        if !self.reader.parser.sees_key(Key::While, body.stop) {
            return Err(self.reader.parser.stuck(body.stop));
        }
        let test = self.reader.condition(body.stop + 1)?;
        let stop = self.reader.end(test.stop)?;
        let at = self.reader.parser.at(start);
        let tree = Stmt::DoWhile(at, body.tree, Box::into_inner(test.tree));
        self.node(start, tree, body.height.max(test.height), stop)
    }

    /// What stands behind the first part of a `for`.
    #[tactic(auto, unfolding(tree_rules::specs::ReadStatements::for_rest))]
    fn for_rest(&self, start: usize, first: Got<First>) -> Result<Got<Box<Stmt>>, ReadFault>
        requires follows { Follows self.now.reader.parser.tokens.now self.now.reader.height
            (G.pre self.now.next) (G.post self.now.next) }
        requires first { first.stop < length self.now.reader.parser.tokens.now }
        ensures { let ts = self.now.reader.parser.tokens.now in let d = self.now.reader.height in
            Answers ts (got_view boxed_stmt)
            (spec.for_rest ts (spec.statement ts d) d start (got_view first_view first)) result }
    {
        // Dropped by name: a `?` would write each drop out, which is dear to prove.
        let test = match self.reader.before(Sign::Semicolon, first.stop + 1) {
            Ok(test) => test,
            Err(fault) => {
                drop(first);
                return Err(fault);
            }
        };
        let step = match self.reader.before(Sign::CloseParenthesis, test.stop + 1) {
            Ok(step) => step,
            Err(fault) => {
                drop(test);
                drop(first);
                return Err(fault);
            }
        };
        let body = match self.next(false, step.stop + 1) {
            Ok(body) => body,
            Err(fault) => {
                drop(step);
                drop(test);
                drop(first);
                return Err(fault);
            }
        };
        let at = self.reader.parser.at(start);
        let tree = Stmt::For(at, first.tree, test.tree, step.tree, body.tree);
        let under = test.height.max(step.height.max(body.height));
        self.node(start, tree, first.height.max(under), body.stop)
    }

    /// `for`
    #[tactic(auto, unfolding(tree_rules::specs::ReadStatements::for_loop))]
    pub(crate) fn for_loop(&self, start: usize) -> Result<Got<Box<Stmt>>, ReadFault>
        requires follows { Follows self.now.reader.parser.tokens.now self.now.reader.height
            (G.pre self.now.next) (G.post self.now.next) }
        requires inside { start < length self.now.reader.parser.tokens.now }
        ensures { let ts = self.now.reader.parser.tokens.now in let d = self.now.reader.height in
            Answers ts (got_view boxed_stmt)
            (spec.for_loop ts (spec.statement ts d) d start) result }
    {
        let open = self.reader.parser.expect(Sign::OpenParenthesis, start + 1)?;
        let first = self.reader.first(open)?;
        if !self.reader.parser.sees(Sign::Semicolon, first.stop) {
            let fault = self.reader.parser.stuck(first.stop);
            drop(first);
            return Err(fault);
        }
        self.for_rest(start, first)
    }
}
