ghost use Rattle.std.specs.Prelude.{◌≡◌, ◌<◌, length, nat_le};
ghost use Rattle.tree_rules.specs.Levels as levels;
ghost use Rattle.tree_rules.specs.ReadExpressions as spec;
ghost use Rattle.tree_rules.specs.Tokens as tok;
ghost use Rattle.parse_statements.specs.Answers.{Answers, IsStuck, part_view};
ghost use Rattle.parse_statements.specs.NestedExpressions.{Nests};

use super::expression_rules::Rules;
use super::levels::joint_of;
use super::part::Part;
use super::read_fault::ReadFault;
use super::token_parser::Parser;
use pawn_token::Sign;
use pawn_tree::Expr;
use tree_rules::{Joint, Word};

/// Whether an operand of this level may stand in an operation of that one.
fn is_at_most(level: usize, most: usize) -> bool
    ensures { result ≡ nat_le level most }
{
    level <= most
}

/// What a sign does with the expression before it, `left`, which begins at `start`.
impl<'a, F: Fn(Parser<'a>, u16, bool, usize, usize) -> Result<Part, ReadFault>> Rules<'a, F> {
    /// `++` or `--`.
    #[tactic(auto, unfolding(tree_rules::specs::ReadExpressions::postfix))]
    fn postfix(&self, start: usize, sign: Sign, left: Part) -> Result<Part, ReadFault>
        requires sign { left.stop < length self.now.parser.tokens.now }
        ensures { let ts = self.now.parser.tokens.now in let d = self.now.height in
            Answers ts part_view
            (spec.postfix ts (spec.expr ts d) d start sign (part_view left)) result }
    {
        if left.level > 1 {
            return Err(self.parser.stuck(left.stop));
        }
        let tree = Expr::Postfix(self.parser.at(start), sign, left.tree);
        self.operation(tree, 1, left.height, left.stop + 1)
    }

    /// That no element stands behind this operand. Behind a `sizeof` without parentheses the
    /// bracket goes on where `]` follows.
    fn no_element(&self, left: &Part) -> ReadFault
        ensures { IsStuck (length self.now.parser.tokens.now) result }
    {
        let before = left.stop.saturating_sub(1);
        match &*left.tree {
            Expr::Sizeof(_, operand) if !self.parser.sees(Sign::CloseParenthesis, before) => {
                self.parser.stuck_behind(operand, left.stop)
            }
            _ => self.parser.stuck(left.stop),
        }
    }

    /// An element in `[]`.
    #[tactic(auto, unfolding(tree_rules::specs::ReadExpressions::index))]
    fn index(&self, start: usize, left: Part) -> Result<Part, ReadFault>
        requires nests { Nests self.now.parser.tokens.now self.now.height
            (F.pre self.now.nested) (F.post self.now.nested) }
        requires sign { left.stop < length self.now.parser.tokens.now }
        ensures { let ts = self.now.parser.tokens.now in let d = self.now.height in
            Answers ts part_view (spec.index ts (spec.expr ts d) d start (part_view left)) result }
    {
        if self.parser.is_first(left.stop) || left.level > 1 {
            return Err(self.no_element(&left));
        }
        let y = self.sub(true, 15, left.stop + 1)?;
        let stop = self.parser.expect(Sign::CloseBracket, y.stop)?;
        let tree = Expr::Index(self.parser.at(start), left.tree, y.tree);
        self.operation(tree, 1, left.height.max(y.height), stop)
    }

    /// A character in `{}`.
    #[tactic(auto, unfolding(tree_rules::specs::ReadExpressions::character))]
    fn character(&self, start: usize, left: Part) -> Result<Part, ReadFault>
        requires nests { Nests self.now.parser.tokens.now self.now.height
            (F.pre self.now.nested) (F.post self.now.nested) }
        requires sign { left.stop < length self.now.parser.tokens.now }
        ensures { let ts = self.now.parser.tokens.now in let d = self.now.height in
            Answers ts part_view
            (spec.character ts (spec.expr ts d) d start (part_view left)) result }
    {
        if left.level > 1 {
            return Err(self.parser.stuck(left.stop));
        }
        let y = self.sub(true, 15, left.stop + 1)?;
        let stop = self.parser.expect(Sign::CloseBrace, y.stop)?;
        let tree = Expr::Character(self.parser.at(start), left.tree, y.tree);
        self.operation(tree, 1, left.height.max(y.height), stop)
    }

    /// An operator that groups to the left.
    #[tactic(auto, unfolding(tree_rules::specs::ReadExpressions::binary))]
    fn binary(
        &self,
        tags: bool,
        start: usize,
        level: usize,
        sign: Sign,
        left: Part,
    ) -> Result<Part, ReadFault>
        requires nests { Nests self.now.parser.tokens.now self.now.height
            (F.pre self.now.nested) (F.post self.now.nested) }
        requires sign { left.stop < length self.now.parser.tokens.now }
        ensures { let ts = self.now.parser.tokens.now in let d = self.now.height in
            Answers ts part_view
            (spec.binary ts (spec.expr ts d) d tags start level sign (part_view left)) result }
    {
        if !is_at_most(left.level, level) {
            return Err(self.parser.stuck(left.stop));
        }
        let y = self.sub(tags, level.saturating_sub(1), left.stop + 1)?;
        let tree = Expr::Binary(self.parser.at(start), sign, left.tree, y.tree);
        self.operation(tree, level, left.height.max(y.height), y.stop)
    }

    /// `? :`
    #[tactic(auto, unfolding(tree_rules::specs::ReadExpressions::choice))]
    fn choice(&self, tags: bool, start: usize, test: Part) -> Result<Part, ReadFault>
        requires nests { Nests self.now.parser.tokens.now self.now.height
            (F.pre self.now.nested) (F.post self.now.nested) }
        requires sign { test.stop < length self.now.parser.tokens.now }
        ensures { let ts = self.now.parser.tokens.now in let d = self.now.height in
            Answers ts part_view
            (spec.choice ts (spec.expr ts d) d tags start (part_view test)) result }
    {
        if test.level > 12 {
            return Err(self.parser.stuck(test.stop));
        }
        let x = self.sub(false, 13, test.stop + 1)?;
        let next = self.parser.expect(Sign::Colon, x.stop)?;
        let y = self.sub(tags, 13, next)?;
        let tree = Expr::Choice(self.parser.at(start), test.tree, x.tree, y.tree);
        let under = test.height.max(x.height.max(y.height));
        self.operation(tree, 13, under, y.stop)
    }

    /// `=`, or an operator with `=`.
    #[tactic(auto, unfolding(tree_rules::specs::ReadExpressions::assign))]
    fn assign(&self, tags: bool, start: usize, sign: Sign, left: Part) -> Result<Part, ReadFault>
        requires nests { Nests self.now.parser.tokens.now self.now.height
            (F.pre self.now.nested) (F.post self.now.nested) }
        requires sign { left.stop < length self.now.parser.tokens.now }
        ensures { let ts = self.now.parser.tokens.now in let d = self.now.height in
            Answers ts part_view
            (spec.assign ts (spec.expr ts d) d tags start sign (part_view left)) result }
    {
        if left.level > 1 {
            return Err(self.parser.stuck(left.stop));
        }
        let y = self.sub(tags, 14, left.stop + 1)?;
        let tree = Expr::Assign(self.parser.at(start), sign, left.tree, y.tree);
        self.operation(tree, 14, left.height.max(y.height), y.stop)
    }

    /// What this sign makes of it.
    #[tactic(auto, unfolding(tree_rules::specs::ReadExpressions::grow_by))]
    fn grow_by(&self, tags: bool, start: usize, left: Part, sign: Sign) -> Result<Part, ReadFault>
        requires nests { Nests self.now.parser.tokens.now self.now.height
            (F.pre self.now.nested) (F.post self.now.nested) }
        requires sign { left.stop < length self.now.parser.tokens.now }
        ensures { let ts = self.now.parser.tokens.now in let d = self.now.height in
            Answers ts part_view
            (spec.grow_by ts (spec.expr ts d) d tags start
            (part_view left) sign (levels.joint_of sign)) result }
    {
        match joint_of(sign) {
            Joint::Left(level) => self.binary(tags, start, level, sign, left),
            Joint::Compare => self.chain(tags, start, left),
            Joint::Question => self.choice(tags, start, left),
            Joint::Assign => self.assign(tags, start, sign, left),
            Joint::Step => self.postfix(start, sign, left),
            Joint::Bracket => self.index(start, left),
            Joint::Brace => self.character(start, left),
            _ => Err(self.parser.stuck(left.stop)),
        }
    }

    /// What the token behind it makes of it.
    #[tactic(auto, unfolding(tree_rules::specs::ReadExpressions::grow))]
    pub(crate) fn grow(&self, tags: bool, start: usize, left: Part) -> Result<Part, ReadFault>
        requires nests { Nests self.now.parser.tokens.now self.now.height
            (F.pre self.now.nested) (F.post self.now.nested) }
        ensures { let ts = self.now.parser.tokens.now in let d = self.now.height in
            Answers ts part_view (spec.grow ts (spec.expr ts d) d tags start (part_view left)
            (tok.word ts left.stop)) result }
    {
        match self.parser.word(left.stop) {
            Word::Sign(sign) => self.grow_by(tags, start, left, sign),
            _ => Err(self.parser.stuck(left.stop)),
        }
    }
}
