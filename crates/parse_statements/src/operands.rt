ghost use Rattle.std.specs.Prelude.{◌<◌, suc, length, Some};
ghost use Rattle.tree_rules.specs.Tokens as tok;
ghost use Rattle.tree_rules.specs.ReadExpressions as spec;
ghost use Rattle.tree_rules.specs.declared.word.Word.TheVariants as word;
ghost use Rattle.pawn_tree.specs.Expressions as plain;
ghost use Rattle.pawn_tree.specs.declared.expression.TagofOperand.TheVariants as tagof_operand;
ghost use Rattle.tree_rules.specs.Readers.{got, guard};
ghost use Rattle.parse_statements.specs.Answers.{Answers, IsStuck, part_view, as_is};
ghost use Rattle.parse_statements.specs.NestedExpressions.{Nests};

use super::expression_rules::Rules;
use super::levels::is_prefix;
use super::part::{Got, Part};
use super::read_fault::ReadFault;
use super::token_parser::Parser;
use pawn_token::{Key, Sign};
use pawn_tree::{Expr, SizeofOperand, TagofOperand};
use tree_rules::Word;

impl<'a> Parser<'a> {
    /// What `sizeof` takes.
    #[tactic(auto, unfolding(tree_rules::specs::ReadExpressions::sizeof_of))]
    fn sizeof_operand(&self, start: usize) -> Result<Got<SizeofOperand>, ReadFault>
        ensures { let ts = self.now.tokens.now in
            Answers ts as_is (spec.sizeof_of ts start) result }
    {
        match self.word(start) {
            Word::Name => {
                let (count, stop) = self.pairs(start + 1);
                let tree = SizeofOperand::Name(self.name_at(start)?, count);
                Ok(Got {
                    tree,
                    height: 0,
                    stop,
                })
            }
            Word::Text => {
                let (count, stop) = self.pairs(start + 1);
                let tree = SizeofOperand::Text(self.text_at(start)?, count);
                Ok(Got {
                    tree,
                    height: 0,
                    stop,
                })
            }
            _ => Err(self.stuck(start)),
        }
    }

    /// That no tree goes on behind what `sizeof` takes. Behind a `[` only `]` would have.
    pub(crate) fn stuck_behind(&self, operand: &SizeofOperand, stop: usize) -> ReadFault
        ensures { IsStuck (length self.now.tokens.now) result }
    {
        let count = match operand {
            SizeofOperand::Name(_, count) => *count,
            SizeofOperand::Text(_, count) => *count,
        };
        if count < 2 && self.sees(Sign::OpenBracket, stop) {
            return self.stuck(stop + 1);
        }
        self.stuck(stop)
    }

    /// What `tagof` takes.
    #[tactic(auto, unfolding(tree_rules::specs::ReadExpressions::tagof_of))]
    fn tagof_operand(&self, tags: bool, start: usize) -> Result<Got<TagofOperand>, ReadFault>
        ensures { let ts = self.now.tokens.now in
            Answers ts as_is (spec.tagof_of ts tags start) result }
    {
        if tags && self.is_tag(start) {
            return Ok(Got {
                tree: TagofOperand::Tag(self.name_at(start)?),
                height: 0,
                stop: start + 2,
            });
        }
        self.tagof_name(tags, start)
    }

    /// The name that `tagof` takes.
    fn tagof_name(&self, tags: bool, start: usize) -> Result<Got<TagofOperand>, ReadFault>
        ensures { let ts = self.now.tokens.now in
            Answers ts as_is (guard (tok.is_name (tok.word ts start))
            (Some (got (tagof_operand.Name (tok.name_at ts start)) 0 (suc start)))) result }
    {
        if !self.is_name(start) {
            return Err(self.no_name(tags, start));
        }
        Ok(Got {
            tree: TagofOperand::Name(self.name_at(start)?),
            height: 0,
            stop: start + 1,
        })
    }

    /// That no name stands there. Where tags may stand, a lone `_` could have been one.
    fn no_name(&self, tags: bool, start: usize) -> ReadFault
        ensures { IsStuck (length self.now.tokens.now) result }
    {
        if tags && self.is_blank(start) {
            return self.stuck(start + 1);
        }
        self.stuck(start)
    }
}

impl<'a, F: Fn(Parser<'a>, u16, bool, usize, usize) -> Result<Part, ReadFault>> Rules<'a, F> {
    /// An expression in parentheses.
    #[tactic(auto, unfolding(tree_rules::specs::ReadExpressions::paren))]
    fn paren(&self, start: usize) -> Result<Part, ReadFault>
        requires nests { Nests self.now.parser.tokens.now self.now.height
            (F.pre self.now.nested) (F.post self.now.nested) }
        requires inside { start < length self.now.parser.tokens.now }
        ensures { let ts = self.now.parser.tokens.now in let d = self.now.height in
            Answers ts part_view (spec.paren ts (spec.expr ts d) d start) result }
    {
        let x = self.sub(true, 15, start + 1)?;
        let stop = self.parser.expect(Sign::CloseParenthesis, x.stop)?;
        let tree = Expr::Paren(self.parser.at(start), x.tree);
        self.operation(tree, 1, x.height, stop)
    }

    /// `sizeof`, with what it takes in parentheses or not.
    #[tactic(auto, unfolding(tree_rules::specs::ReadExpressions::sizeof))]
    fn sizeof(&self, start: usize) -> Result<Part, ReadFault>
        requires inside { start < length self.now.parser.tokens.now }
        ensures { let ts = self.now.parser.tokens.now in let d = self.now.height in
            Answers ts part_view (spec.sizeof ts (spec.expr ts d) d start) result }
    {
        if self.parser.sees(Sign::OpenParenthesis, start + 1) {
            let x = self.parser.sizeof_operand(start + 2)?;
            if !self.parser.sees(Sign::CloseParenthesis, x.stop) {
                return Err(self.parser.stuck_behind(&x.tree, x.stop));
            }
            return self.leaf(Expr::Sizeof(self.parser.at(start), x.tree), 2, x.stop + 1);
        }
        let x = self.parser.sizeof_operand(start + 1)?;
        self.leaf(Expr::Sizeof(self.parser.at(start), x.tree), 2, x.stop)
    }

    /// `tagof`, with what it takes in parentheses or not.
    #[tactic(auto, unfolding(tree_rules::specs::ReadExpressions::tagof))]
    fn tagof(&self, tags: bool, start: usize) -> Result<Part, ReadFault>
        requires inside { start < length self.now.parser.tokens.now }
        ensures { let ts = self.now.parser.tokens.now in let d = self.now.height in
            Answers ts part_view (spec.tagof ts (spec.expr ts d) d tags start) result }
    {
        if self.parser.sees(Sign::OpenParenthesis, start + 1) {
            let x = self.parser.tagof_operand(true, start + 2)?;
            let stop = self.parser.expect(Sign::CloseParenthesis, x.stop)?;
            return self.leaf(Expr::Tagof(self.parser.at(start), x.tree), 2, stop);
        }
        let x = self.parser.tagof_operand(tags, start + 1)?;
        self.leaf(Expr::Tagof(self.parser.at(start), x.tree), 2, x.stop)
    }

    /// A sign before its operand.
    #[tactic(auto, unfolding(tree_rules::specs::ReadExpressions::prefix))]
    fn prefix(&self, tags: bool, start: usize, sign: Sign) -> Result<Part, ReadFault>
        requires nests { Nests self.now.parser.tokens.now self.now.height
            (F.pre self.now.nested) (F.post self.now.nested) }
        requires inside { start < length self.now.parser.tokens.now }
        ensures { let ts = self.now.parser.tokens.now in let d = self.now.height in
            Answers ts part_view (spec.prefix ts (spec.expr ts d) d tags start sign) result }
    {
        let x = self.sub(tags, 2, start + 1)?;
        let tree = Expr::Prefix(self.parser.at(start), sign, x.tree);
        self.operation(tree, 2, x.height, x.stop)
    }

    /// A tag before its operand.
    #[tactic(auto, unfolding(tree_rules::specs::ReadExpressions::tagged))]
    fn tagged(&self, tags: bool, start: usize) -> Result<Part, ReadFault>
        requires nests { Nests self.now.parser.tokens.now self.now.height
            (F.pre self.now.nested) (F.post self.now.nested) }
        requires inside { suc start < length self.now.parser.tokens.now }
        ensures { let ts = self.now.parser.tokens.now in let d = self.now.height in
            Answers ts part_view (spec.tagged ts (spec.expr ts d) d tags start) result }
    {
        let x = self.sub(tags, 2, start + 2)?;
        let tag = self.parser.spelling(start)?;
        let tree = Expr::Tagged(self.parser.at(start), tag, x.tree);
        self.operation(tree, 2, x.height, x.stop)
    }

    /// A number.
    fn number(&self, start: usize) -> Result<Part, ReadFault>
        requires inside { start < length self.now.parser.tokens.now }
        ensures { let ts = self.now.parser.tokens.now in
            Answers ts part_view
            (Some (spec.part (plain.Number (tok.at ts start) (tok.value ts start))
            1 1 (suc start))) result }
    {
        let tree = Expr::Number(self.parser.at(start), self.parser.value(start));
        self.leaf(tree, 1, start + 1)
    }

    /// A name that isn't called.
    fn name(&self, start: usize) -> Result<Part, ReadFault>
        requires inside { start < length self.now.parser.tokens.now }
        ensures { let ts = self.now.parser.tokens.now in
            Answers ts part_view
            (Some (spec.part (plain.Name (tok.at ts start) (tok.spelling ts start))
            1 1 (suc start))) result }
    {
        let name = self.parser.spelling(start)?;
        self.leaf(Expr::Name(self.parser.at(start), name), 1, start + 1)
    }

    /// A text.
    fn text(&self, start: usize) -> Result<Part, ReadFault>
        requires inside { start < length self.now.parser.tokens.now }
        ensures { let ts = self.now.parser.tokens.now in
            Answers ts part_view
            (Some (spec.part (plain.Text (tok.at ts start) (tok.spelling ts start)
            (tok.is_packed ts start)) 1 1 (suc start))) result }
    {
        let bytes = self.parser.spelling(start)?;
        let tree = Expr::Text(self.parser.at(start), bytes, self.parser.is_packed(start));
        self.leaf(tree, 1, start + 1)
    }

    /// A name, which may be a tag or be called.
    #[tactic(auto, unfolding(tree_rules::specs::ReadExpressions::named))]
    fn named(&self, tags: bool, start: usize) -> Result<Part, ReadFault>
        requires nests { Nests self.now.parser.tokens.now self.now.height
            (F.pre self.now.nested) (F.post self.now.nested) }
        requires inside { start < length self.now.parser.tokens.now }
        ensures { let ts = self.now.parser.tokens.now in let d = self.now.height in
            Answers ts part_view (spec.named ts (spec.expr ts d) d tags start) result }
    {
        if tags && self.parser.is_tag(start) {
            return self.tagged(tags, start);
        }
        if self.parser.calls(start + 1) {
            return self.call(start);
        }
        self.name(start)
    }

    /// `_`, which may only be a tag.
    #[tactic(auto, unfolding(tree_rules::specs::ReadExpressions::operand_by))]
    fn blank(&self, tags: bool, start: usize) -> Result<Part, ReadFault>
        requires nests { Nests self.now.parser.tokens.now self.now.height
            (F.pre self.now.nested) (F.post self.now.nested) }
        requires inside { start < length self.now.parser.tokens.now }
        ensures { let ts = self.now.parser.tokens.now in let d = self.now.height in
            Answers ts part_view
            (spec.operand_by ts (spec.expr ts d) d tags start word.Blank) result }
    {
        if !tags {
            return Err(self.parser.stuck(start));
        }
        if !self.parser.is_tag(start) {
            return Err(self.parser.stuck(start + 1));
        }
        self.tagged(tags, start)
    }

    /// What begins with a sign.
    #[tactic(auto, unfolding(tree_rules::specs::ReadExpressions::signed))]
    fn signed(&self, tags: bool, start: usize, sign: Sign) -> Result<Part, ReadFault>
        requires nests { Nests self.now.parser.tokens.now self.now.height
            (F.pre self.now.nested) (F.post self.now.nested) }
        requires inside { start < length self.now.parser.tokens.now }
        ensures { let ts = self.now.parser.tokens.now in let d = self.now.height in
            Answers ts part_view (spec.signed ts (spec.expr ts d) d tags start sign) result }
    {
        if is_prefix(sign) {
            return self.prefix(tags, start, sign);
        }
        if sign == Sign::OpenParenthesis {
            return self.paren(start);
        }
        Err(self.parser.stuck(start))
    }

    /// What stands before any operator behind it.
    #[tactic(auto, unfolding(tree_rules::specs::ReadExpressions::operand_by))]
    pub(crate) fn operand(&self, tags: bool, start: usize) -> Result<Part, ReadFault>
        requires nests { Nests self.now.parser.tokens.now self.now.height
            (F.pre self.now.nested) (F.post self.now.nested) }
        ensures { let ts = self.now.parser.tokens.now in let d = self.now.height in
            Answers ts part_view (spec.operand_by ts (spec.expr ts d) d tags start
            (tok.word ts start)) result }
    {
        match self.parser.word(start) {
            Word::Number => self.number(start),
            Word::Text => self.text(start),
            Word::Name => self.named(tags, start),
            Word::Blank => self.blank(tags, start),
            Word::Key(Key::Sizeof) => self.sizeof(start),
            Word::Key(Key::Tagof) => self.tagof(tags, start),
            Word::Sign(sign) => self.signed(tags, start, sign),
            _ => Err(self.parser.stuck(start)),
        }
    }
}
