ghost use Rattle.std.specs.Prelude.{◌≡◌, ◌<◌, suc, length, [], ◌∷◌, map, true, false, IsTrue};
ghost use Rattle.pawn_tree.specs.Variables as plain;
ghost use Rattle.pawn_tree.specs.View.{init_view};
ghost use Rattle.tree_rules.specs.Readers.{behind, many, node};
ghost use Rattle.tree_rules.specs.ReadExpressions.{expr};
ghost use Rattle.tree_rules.specs.ReadVariables as spec;
ghost use Rattle.tree_rules.specs.Tokens as tok;
ghost use Rattle.tree_rules.specs.Variables as vars;
ghost use Rattle.parse_statements.specs.Answers.{Answers, got_view};
ghost use Rattle.parse_statements.specs.NestedStatements.{Fills};

use super::expressions::Reader;
use super::part::{Got, one_part};
use super::read_fault::ReadFault;
use super::token_parser::Parser;
use pawn_base::List;
use pawn_token::Sign;
use pawn_tree::{At, Init};

/// A first value, with at most `height` levels of nodes.
#[tactic(auto, unfolding(tree_rules::specs::ReadVariables::init_by), using(crate::proofs::StatementKnotLaws::init_of_none, crate::proofs::StatementKnotLaws::init_of_more))]
pub(crate) fn init(parser: Parser<'_>, height: u16, start: usize) -> Result<Got<Init>, ReadFault>
    ensures { let ts = parser.entry.tokens.now in
        Answers ts (got_view init_view) (spec.init ts height start) result }
{
    if height == 0 {
        return Err(parser.stuck(start));
    }
    if parser.sees(Sign::OpenBrace, start) {
        return Inits {
            parser,
            height: height - 1,
            nested: init,
        }
        .braces(start);
    }
    let x = Reader { parser, height }.expression(true, 14, start)?;
    Ok(Got {
        tree: Init::Value(Box::into_inner(x.tree)),
        height: x.height,
        stop: x.stop,
    })
}

/// The rules of first values. Those in braces are read by `nested`.
#[derive(Clone, Copy)]
struct Inits<'a, F> {
    parser: Parser<'a>,
    /// How many levels may stand below a node.
    height: u16,
    nested: F,
}

/// The node of values in braces.
fn braces_node(at: At, values: List<Init>, rest: bool) -> Init
    ensures { init_view result ≡ plain.Braces at (plain.inits (map init_view values)) rest }
{
    Init::Braces(at, values, rest)
}

/// Whether a further value stands there, behind a comma.
#[tactic(auto, unfolding(tree_rules::specs::Variables::further_init))]
fn further_init(parser: Parser<'_>, at: usize) -> bool
    ensures value { result ≡ vars.further_init parser.entry.tokens.now at }
    ensures inside { IsTrue result → at < length parser.entry.tokens.now }
{
    if !parser.sees(Sign::Comma, at) {
        return false;
    }
    !parser.sees(Sign::Ellipsis, at + 1)
}

impl<'a, F: Fn(Parser<'a>, u16, usize) -> Result<Got<Init>, ReadFault>> Inits<'a, F> {
    fn sub(&self, start: usize) -> Result<Got<Init>, ReadFault>
        requires { Fills self.now.parser.tokens.now self.now.height
            (F.pre self.now.nested) (F.post self.now.nested) }
        ensures { let ts = self.now.parser.tokens.now in let d = self.now.height in
            Answers ts (got_view init_view) (spec.init ts d start) result }
    {
        (self.nested)(self.parser, self.height, start)
    }

    /// The values behind the first one.
    #[tactic(auto, using(crate::proofs::Turns::one_part_more, crate::proofs::Turns::no_part_more, std::proofs::lemmas::Grind::common_steps))]
    fn more_inits(&self, first: Got<Init>) -> Result<Got<List<Init>>, ReadFault>
        requires { Fills self.now.parser.tokens.now self.now.height
            (F.pre self.now.nested) (F.post self.now.nested) }
        ensures { let ts = self.now.parser.tokens.now in let d = self.now.height in
            Answers ts (got_view (map init_view))
            (many (vars.further_init ts) (behind (spec.init ts d)) (suc (length ts))
            (init_view first.tree ∷ []) first.height first.stop) result }
    {
        let mut parts = one_part(self.parser.alloc, first)?;
        for _turn in 0..self.parser.tokens.len() + 1 {
            if !further_init(self.parser, parts.stop) {
                return Ok(parts);
            }
            let x = self.sub(parts.stop + 1)?;
            parts.add(x)?;
        }
        Err(self.parser.stuck(parts.stop))
    }

    /// The node of values in braces, if no more than so many levels stand below it.
    fn node(
        &self,
        at: At,
        values: Got<List<Init>>,
        rest: bool,
        stop: usize,
    ) -> Result<Got<Init>, ReadFault>
        ensures { let ts = self.now.parser.tokens.now in
            Answers ts (got_view init_view) (node self.now.height
            (plain.Braces at (plain.inits (map init_view values.tree)) rest)
            values.height stop) result }
    {
        let reader = Reader {
            parser: self.parser,
            height: self.height,
        };
        let height = reader.height_above(values.height, stop)?;
        let tree = braces_node(at, values.tree, rest);
        Ok(Got { tree, height, stop })
    }

    /// What stands behind the values in braces.
    #[tactic(auto, unfolding(tree_rules::specs::ReadVariables::braces_end))]
    fn braces_end(&self, start: usize, values: Got<List<Init>>) -> Result<Got<Init>, ReadFault>
        ensures { let ts = self.now.parser.tokens.now in let d = self.now.height in
            Answers ts (got_view init_view) (spec.braces_end ts (expr ts (suc d)) (spec.init ts d)
            d start (got_view (map init_view) values)) result }
    {
        let at = self.parser.at(start);
        if self.parser.sees(Sign::Comma, values.stop) {
            let close = self.parser.expect(Sign::Ellipsis, values.stop + 1)?;
            let stop = self.parser.expect(Sign::CloseBrace, close)?;
            return self.node(at, values, true, stop);
        }
        let stop = self.parser.expect(Sign::CloseBrace, values.stop)?;
        self.node(at, values, false, stop)
    }

    /// Values in braces, whose `{` stands there.
    #[tactic(auto, unfolding(tree_rules::specs::ReadVariables::braces))]
    fn braces(&self, start: usize) -> Result<Got<Init>, ReadFault>
        requires nests { Fills self.now.parser.tokens.now self.now.height
            (F.pre self.now.nested) (F.post self.now.nested) }
        requires inside { start < length self.now.parser.tokens.now }
        ensures { let ts = self.now.parser.tokens.now in let d = self.now.height in
            Answers ts (got_view init_view)
            (spec.braces ts (expr ts (suc d)) (spec.init ts d) d start) result }
    {
        let first = self.sub(start + 1)?;
        let values = self.more_inits(first)?;
        self.braces_end(start, values)
    }
}
