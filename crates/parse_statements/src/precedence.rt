ghost use Rattle.std.specs.Prelude.{◌<◌, suc, length, [], ◌∷◌, map};
ghost use Rattle.pawn_tree.specs.View.{arg_view};
ghost use Rattle.tree_rules.specs.ReadExpressions as spec;
ghost use Rattle.parse_statements.specs.Answers.{Answers, part_view, got_view};
ghost use Rattle.parse_statements.specs.NestedExpressions.{Nests};

use super::expression_rules::Rules;
use super::part::{Got, Part, one_part};
use super::read_fault::ReadFault;
use super::token_parser::Parser;
use pawn_base::List;
use pawn_tree::Arg;

/// An expression from token `start` on, up to a level (Language Guide, "Operator precedence"), with
/// at most `height` levels of nodes. `tags` says whether tags may stand outside brackets. It is the
/// longest one: nothing behind it goes on with it.
///
/// # Errors
///
/// `Syntax` exactly where there is none, at the token at which none goes on; `Memory`.
#[tactic(auto, using(crate::proofs::ExpressionKnotLaws::expr_of_none, crate::proofs::ExpressionKnotLaws::expr_of_more))]
pub fn expression(
    parser: Parser<'_>,
    height: u16,
    tags: bool,
    level: usize,
    start: usize,
) -> Result<Part, ReadFault>
    ensures { let ts = parser.entry.tokens.now in
        Answers ts part_view (spec.expr ts height tags level start) result }
{
    if height == 0 {
        return Err(parser.stuck(start));
    }
    Rules {
        parser,
        height: height - 1,
        nested: expression,
    }
    .whole(tags, level, start)
}

/// An argument that isn't named, in which an expression has at most `height` levels.
///
/// # Errors
///
/// `Syntax` exactly where there is none; `Memory`.
pub fn value_argument(parser: Parser<'_>, height: u16, start: usize) -> Result<Got<Arg>, ReadFault>
    ensures { let ts = parser.entry.tokens.now in
        Answers ts (got_view arg_view) (spec.value_arg ts (spec.expr ts height) start) result }
{
    let rules = Rules {
        parser,
        height,
        nested: expression,
    };
    let arg = rules.value_arg(start)?;
    Ok(arg.unboxed())
}

/// The first argument, which is named or not, and those behind it.
///
/// # Errors
///
/// `Syntax` exactly where a comma stands with no argument behind it that may stand there; `Memory`.
pub fn more_arguments(
    parser: Parser<'_>,
    height: u16,
    named: bool,
    first: Got<Arg>,
) -> Result<Got<List<Arg>>, ReadFault>
    ensures { let ts = parser.entry.tokens.now in
        Answers ts (got_view (map arg_view)) (spec.more_args ts (spec.expr ts height)
        (suc (length ts)) named (arg_view first.tree ∷ []) first.height first.stop) result }
{
    let arguments = one_part(parser.alloc, first)?;
    let rules = Rules {
        parser,
        height,
        nested: expression,
    };
    rules.more_args(named, arguments)
}

impl<'a, F: Fn(Parser<'a>, u16, bool, usize, usize) -> Result<Part, ReadFault>> Rules<'a, F> {
    /// An expression as long as the tokens behind it go on with it, up to a level.
    #[tactic(auto, using(crate::proofs::ExpressionKnotLaws::climbs_on, crate::proofs::ExpressionKnotLaws::climbs_no_more, std::proofs::lemmas::Grind::common_steps))]
    fn climb(&self, tags: bool, level: usize, start: usize, first: Part) -> Result<Part, ReadFault>
        requires nests { Nests self.now.parser.tokens.now self.now.height
            (F.pre self.now.nested) (F.post self.now.nested) }
        ensures { let ts = self.now.parser.tokens.now in let d = self.now.height in
            Answers ts part_view (spec.climb ts (spec.expr ts d) d tags level start
            (suc d) (part_view first)) result }
    {
        let mut left = first;
        for _turn in 0..usize::from(self.height) + 1 {
            if level < self.parser.binds(tags, left.stop) {
                return Ok(left);
            }
            left = self.grow(tags, start, left)?;
        }
        Err(self.parser.stuck(left.stop))
    }

    /// An expression up to a level.
    #[tactic(auto, unfolding(tree_rules::specs::ReadExpressions::whole))]
    fn whole(&self, tags: bool, level: usize, start: usize) -> Result<Part, ReadFault>
        requires nests { Nests self.now.parser.tokens.now self.now.height
            (F.pre self.now.nested) (F.post self.now.nested) }
        ensures { let ts = self.now.parser.tokens.now in let d = self.now.height in
            Answers ts part_view (spec.whole ts (spec.expr ts d) d tags level start) result }
    {
        let first = self.operand(tags, start)?;
        self.climb(tags, level, start, first)
    }
}
