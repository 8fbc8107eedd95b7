ghost use Rattle.std.specs.Prelude.{◌≡◌, ◌<◌, suc, length, [], ◌∷◌, map, option_map, true, IfOk};
ghost use Rattle.pawn_token.specs.declared.sign.Sign.TheVariants as sign;
ghost use Rattle.pawn_tree.specs.View.{expr_view, param_view, head_view};
ghost use Rattle.tree_rules.specs.Declarations as heads;
ghost use Rattle.tree_rules.specs.Readers.{behind, led, many};
ghost use Rattle.tree_rules.specs.ReadExpressions.{expr};
ghost use Rattle.tree_rules.specs.ReadVariables.{expression};
ghost use Rattle.tree_rules.specs.ReadDeclarations as spec;
ghost use Rattle.tree_rules.specs.Tokens as tok;
ghost use Rattle.parse_statements.specs.Answers.{Answers, as_is, got_view};

use super::declarations::Declarations;
use parse_statements::{Got, ReadFault, no_parts, one_part};
use pawn_base::List;
use pawn_token::{Key, Sign};
use pawn_tree::{Expr, Head, Name, Param};

impl<'a> Declarations<'a> {
    /// A value behind `=`, where that stands there.
    pub(crate) fn value(&self, start: usize) -> Result<Got<Option<Expr>>, ReadFault>
        ensures { let ts = self.now.reader.parser.tokens.now in let d = self.now.reader.height in
            Answers ts (got_view (option_map expr_view))
            (led ts sign.Assign (expression ts (expr ts d) true 13) start) result }
    {
        if !self.reader.parser.sees(Sign::Assign, start) {
            return Ok(Got {
                tree: None,
                height: 0,
                stop: start,
            });
        }
        let x = self.reader.expression(true, 13, start + 1)?;
        Ok(Got {
            tree: Some(Box::into_inner(x.tree)),
            height: x.height,
            stop: x.stop,
        })
    }

    /// The token behind `const` and `&`, which each may be left out.
    #[tactic(auto, unfolding(tree_rules::specs::Declarations::behind_reference))]
    fn behind_reference(&self, at: usize) -> usize
        ensures { result ≡ heads.behind_reference self.now.reader.parser.tokens.now at }
    {
        let parser = self.reader.parser;
        parser.behind_sign(Sign::Ampersand, parser.behind_key(Key::Const, at))
    }

    /// A parameter other than `...`, behind its tags.
    #[tactic(auto, unfolding(tree_rules::specs::ReadDeclarations::plain))]
    fn plain_param(&self, start: usize, tags: Got<List<Name>>) -> Result<Got<Param>, ReadFault>
        ensures { let ts = self.now.reader.parser.tokens.now in let d = self.now.reader.height in
            Answers ts (got_view param_view) (spec.plain ts d start (as_is tags)) result }
    {
        let parser = self.reader.parser;
        if !parser.is_name(tags.stop) {
            let tagged = !tags.tree.as_slice().is_empty();
            return Err(if tagged {
                parser.stuck(tags.stop)
            } else {
                self.reader.nameless(tags.stop)
            });
        }
        let constant = parser.sees_key(Key::Const, start);
        let reference = parser.sees(Sign::Ampersand, parser.behind_key(Key::Const, start));
        let name = parser.name_at(tags.stop)?;
        let dims = self.reader.dims(tags.stop + 1)?;
        let value = self.value(dims.stop)?;
        Ok(Got {
            tree: Param::Plain {
                constant,
                reference,
                tags: tags.tree,
                name,
                dims: dims.tree,
                value: value.tree,
            },
            height: dims.height.max(value.height),
            stop: value.stop,
        })
    }

    /// A parameter, of a native or of another function. `...` is the last one of a native.
    #[tactic(auto, unfolding(tree_rules::specs::ReadDeclarations::param))]
    fn param(&self, native: bool, start: usize) -> Result<Got<Param>, ReadFault>
        ensures { let ts = self.now.reader.parser.tokens.now in let d = self.now.reader.height in
            Answers ts (got_view param_view) (spec.param ts d native start) result }
    {
        let parser = self.reader.parser;
        let from = self.behind_reference(start);
        let tags = self.tags(from)?;
        if !parser.sees(Sign::Ellipsis, tags.stop) {
            return self.plain_param(start, tags);
        }
        if !native || from != start {
            return Err(parser.stuck(tags.stop));
        }
        if !parser.sees(Sign::CloseParenthesis, tags.stop + 1) {
            return Err(parser.stuck(tags.stop + 1));
        }
        Ok(Got {
            tree: Param::Rest(parser.at(tags.stop), tags.tree),
            height: 0,
            stop: tags.stop + 1,
        })
    }

    /// The parameters behind the first one.
    #[tactic(auto, using(parse_statements::proofs::Turns::one_part_more, parse_statements::proofs::Turns::no_part_more, std::proofs::lemmas::Grind::common_steps))]
    fn more_params(&self, native: bool, first: Got<Param>) -> Result<Got<List<Param>>, ReadFault>
        ensures { let ts = self.now.reader.parser.tokens.now in let d = self.now.reader.height in
            Answers ts (got_view (map param_view))
            (many (tok.sees ts sign.Comma) (behind (spec.param ts d native))
            (suc (length ts)) (param_view first.tree ∷ []) first.height first.stop) result }
    {
        let mut parts = one_part(self.reader.parser.alloc, first)?;
        for _turn in 0..self.reader.parser.tokens.len() + 1 {
            if !self.reader.parser.sees(Sign::Comma, parts.stop) {
                return Ok(parts);
            }
            let x = self.param(native, parts.stop + 1)?;
            parts.add(x)?;
        }
        Err(self.reader.parser.stuck(parts.stop))
    }

    /// All parameters, up to the closing parenthesis.
    #[tactic(auto, unfolding(tree_rules::specs::ReadDeclarations::params))]
    fn params(&self, native: bool, start: usize) -> Result<Got<List<Param>>, ReadFault>
        ensures reads { let ts = self.now.reader.parser.tokens.now in
            let d = self.now.reader.height in
            Answers ts (got_view (map param_view)) (spec.params ts d native start) result }
        ensures inside { IfOk result (λ x. x.stop < length self.now.reader.parser.tokens.now) }
    {
        if self.reader.parser.sees(Sign::CloseParenthesis, start) {
            return Ok(no_parts(self.reader.parser.alloc, start));
        }
        let first = self.param(native, start)?;
        let params = self.more_params(native, first)?;
        if !self.reader.parser.sees(Sign::CloseParenthesis, params.stop) {
            return Err(self.reader.parser.stuck(params.stop));
        }
        Ok(params)
    }

    /// A head (Language Guide, "Functions").
    #[tactic(auto, unfolding(tree_rules::specs::ReadDeclarations::head))]
    pub(crate) fn head(&self, native: bool, start: usize) -> Result<Got<Head>, ReadFault>
        ensures { let ts = self.now.reader.parser.tokens.now in let d = self.now.reader.height in
            Answers ts (got_view head_view) (spec.head ts d native start) result }
    {
        let name = self.head_name(self.reader.parser.behind_tag(start))?;
        let open = self.reader.parser.expect(Sign::OpenParenthesis, name.stop)?;
        let params = self.params(native, open)?;
        let tag = self.reader.parser.tag_at(start)?;
        Ok(Got {
            tree: Head {
                tag,
                name: name.tree,
                params: params.tree,
            },
            height: params.height,
            stop: params.stop + 1,
        })
    }
}
