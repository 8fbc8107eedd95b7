ghost use Rattle.std.specs.Prelude.{◌≡◌, ◌<◌, suc, length, max, [], ◌∷◌, Some, map};
ghost use Rattle.pawn_tree.specs.Expressions as plain;
ghost use Rattle.pawn_tree.specs.View.{expr_view, link_view};
ghost use Rattle.tree_rules.specs.Levels as levels;
ghost use Rattle.tree_rules.specs.Readers.{got, many};
ghost use Rattle.tree_rules.specs.ReadExpressions as spec;
ghost use Rattle.tree_rules.specs.Tokens as tok;
ghost use Rattle.parse_statements.specs.Answers.{Answers, part_view, got_view, link_view_in};
ghost use Rattle.parse_statements.specs.NestedExpressions.{Nests};

use super::expression_rules::Rules;
use super::part::{Got, Part, one_part};
use super::read_fault::ReadFault;
use super::token_parser::Parser;
use pawn_base::List;
use pawn_token::Sign;
use pawn_tree::{At, Expr, Link};
use tree_rules::Word;

/// The node of a chain.
fn chain_node(at: At, first: Box<Expr>, links: List<Link>) -> Expr
    ensures { expr_view result
        ≡ plain.Chain at (expr_view first.value) (plain.links (map link_view links)) }
{
    Expr::Chain(at, first, links)
}

impl<'a> Parser<'a> {
    /// A comparison in a box, which takes less room on the way through nested chains.
    fn boxed_link(
        &self,
        link: Link,
        height: usize,
        stop: usize,
    ) -> Result<Got<Box<Link>>, ReadFault>
        ensures { let ts = self.now.tokens.now in
            Answers ts (got_view link_view_in) (Some (got (link_view link) height stop)) result }
    {
        Ok(Got {
            tree: Box::new(self.alloc, link)?,
            height,
            stop,
        })
    }

    /// The comparison by this sign.
    fn compared(&self, sign: Sign, x: Part) -> Result<Got<Box<Link>>, ReadFault>
        ensures { let ts = self.now.tokens.now in
            Answers ts (got_view link_view_in)
            (Some (got (plain.Compare sign (expr_view x.tree.value)) x.height x.stop)) result }
    {
        self.boxed_link(
            Link::Compare(sign, Box::into_inner(x.tree)),
            x.height,
            x.stop,
        )
    }

    /// The list of one comparison.
    fn one_link(&self, link: Got<Box<Link>>) -> Result<Got<List<Link>>, ReadFault>
        ensures { let ts = self.now.tokens.now in
            Answers ts (got_view (map link_view))
            (Some (got (link_view link.tree.value ∷ []) link.height link.stop)) result }
    {
        Ok(one_part(self.alloc, link.unboxed())?)
    }
}

impl<'a, F: Fn(Parser<'a>, u16, bool, usize, usize) -> Result<Part, ReadFault>> Rules<'a, F> {
    /// A comparison and its right operand.
    #[tactic(auto, unfolding(tree_rules::specs::ReadExpressions::link, tree_rules::specs::ReadExpressions::link_by))]
    fn link(&self, tags: bool, start: usize) -> Result<Got<Box<Link>>, ReadFault>
        requires nests { Nests self.now.parser.tokens.now self.now.height
            (F.pre self.now.nested) (F.post self.now.nested) }
        ensures { let ts = self.now.parser.tokens.now in let d = self.now.height in
            Answers ts (got_view link_view_in) (spec.link ts (spec.expr ts d) tags start) result }
    {
        match self.parser.word(start) {
            Word::Sign(sign) => {
                let x = self.sub(tags, 8, start + 1)?;
                self.parser.compared(sign, x)
            }
            _ => Err(self.parser.stuck(start)),
        }
    }

    /// The comparisons behind those of `done`.
    #[tactic(auto, using(crate::proofs::Turns::one_part_more, crate::proofs::Turns::no_part_more, std::proofs::lemmas::Grind::common_steps))]
    fn more_links(&self, tags: bool, done: Got<List<Link>>) -> Result<Got<List<Link>>, ReadFault>
        requires nests { Nests self.now.parser.tokens.now self.now.height
            (F.pre self.now.nested) (F.post self.now.nested) }
        ensures { let ts = self.now.parser.tokens.now in let d = self.now.height in
            Answers ts (got_view (map link_view))
            (many (levels.compares ts) (spec.link ts (spec.expr ts d) tags) (suc (length ts))
            (map link_view done.tree) done.height done.stop) result }
    {
        let mut links = done;
        for _turn in 0..self.parser.tokens.len() + 1 {
            if !self.parser.compares(links.stop) {
                return Ok(links);
            }
            let x = self.link(tags, links.stop)?;
            links.add(x.unboxed())?;
        }
        Err(self.parser.stuck(links.stop))
    }

    /// The chain of these comparisons.
    fn chained(&self, start: usize, left: Part, links: Got<List<Link>>) -> Result<Part, ReadFault>
        ensures { let ts = self.now.parser.tokens.now in let d = self.now.height in
            Answers ts part_view (spec.operation d
            (plain.Chain (tok.at ts start) (expr_view left.tree.value)
            (plain.links (map link_view links.tree)))
            9 (max left.height links.height) links.stop) result }
    {
        let tree = chain_node(self.parser.at(start), left.tree, links.tree);
        let under = left.height.max(links.height);
        self.operation(tree, 9, under, links.stop)
    }

    /// Comparisons, one behind another: one node.
    #[tactic(auto, unfolding(tree_rules::specs::ReadExpressions::chain))]
    pub(crate) fn chain(&self, tags: bool, start: usize, left: Part) -> Result<Part, ReadFault>
        requires nests { Nests self.now.parser.tokens.now self.now.height
            (F.pre self.now.nested) (F.post self.now.nested) }
        ensures { let ts = self.now.parser.tokens.now in let d = self.now.height in
            Answers ts part_view
            (spec.chain ts (spec.expr ts d) d tags start (part_view left)) result }
    {
        if left.level > 8 {
            return Err(self.parser.stuck(left.stop));
        }
        let first = self.link(tags, left.stop)?;
        let done = self.parser.one_link(first)?;
        let links = self.more_links(tags, done)?;
        self.chained(start, left, links)
    }
}
