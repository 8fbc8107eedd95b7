ghost use Rattle.std.specs.Prelude.{◌≡◌, ◌<◌, suc, length, [], ◌∷◌, IfOk};
ghost use Rattle.pawn_token.specs.declared.sign.Sign.TheVariants as sign;
ghost use Rattle.tree_rules.specs.Readers.{behind, many};
ghost use Rattle.tree_rules.specs.ReadDeclarations as spec;
ghost use Rattle.tree_rules.specs.ReadStatements.{state_name};
ghost use Rattle.tree_rules.specs.Tokens as tok;
ghost use Rattle.parse_statements.specs.Answers.{Answers, as_is};

use super::declarations::Declarations;
use parse_statements::{Got, ReadFault, no_parts, one_part};
use pawn_base::List;
use pawn_token::{Key, Sign};
use pawn_tree::{HeadName, Name, StateName};
use tree_rules::Word;

impl<'a> Declarations<'a> {
    /// A tag of a parameter.
    #[tactic(auto, unfolding(tree_rules::specs::ReadDeclarations::label))]
    fn label(&self, start: usize) -> Result<Got<Name>, ReadFault>
        ensures { let ts = self.now.reader.parser.tokens.now in let d = self.now.reader.height in
            Answers ts as_is (spec.label ts start) result }
    {
        if !self.reader.parser.is_label(start) {
            return Err(self.reader.parser.stuck(start));
        }
        Ok(Got {
            tree: self.reader.parser.name_at(start)?,
            height: 0,
            stop: start + 1,
        })
    }

    /// The tags in braces behind the first one.
    #[tactic(auto, using(parse_statements::proofs::Turns::one_part_more, parse_statements::proofs::Turns::no_part_more, std::proofs::lemmas::Grind::common_steps))]
    fn more_labels(&self, first: Got<Name>) -> Result<Got<List<Name>>, ReadFault>
        ensures { let ts = self.now.reader.parser.tokens.now in let d = self.now.reader.height in
            Answers ts as_is
            (many (tok.sees ts sign.Comma) (behind (spec.label ts)) (suc (length ts))
            (first.tree ∷ []) first.height first.stop) result }
    {
        let mut parts = one_part(self.reader.parser.alloc, first)?;
        for _turn in 0..self.reader.parser.tokens.len() + 1 {
            if !self.reader.parser.sees(Sign::Comma, parts.stop) {
                return Ok(parts);
            }
            let x = self.label(parts.stop + 1)?;
            parts.add(x)?;
        }
        Err(self.reader.parser.stuck(parts.stop))
    }

    /// Several tags, in braces.
    #[tactic(auto, unfolding(tree_rules::specs::ReadDeclarations::labels))]
    fn labels(&self, start: usize) -> Result<Got<List<Name>>, ReadFault>
        ensures { let ts = self.now.reader.parser.tokens.now in let d = self.now.reader.height in
            Answers ts as_is (spec.labels ts start) result }
    {
        let first = self.label(start)?;
        self.more_labels(first)
    }

    /// The tags of a parameter: none, one, or several in braces.
    #[tactic(auto, unfolding(tree_rules::specs::ReadDeclarations::tags))]
    pub(crate) fn tags(&self, start: usize) -> Result<Got<List<Name>>, ReadFault>
        ensures { let ts = self.now.reader.parser.tokens.now in let d = self.now.reader.height in
            Answers ts as_is (spec.tags ts start) result }
    {
        if self.reader.parser.is_tag(start) {
            let mut tags = List::new(self.reader.parser.alloc);
            tags.push(self.reader.parser.name_at(start)?)?;
            return Ok(Got {
                tree: tags,
                height: 0,
                stop: start + 2,
            });
        }
        if !self.reader.parser.sees(Sign::OpenBrace, start) {
            return Ok(no_parts(self.reader.parser.alloc, start));
        }
        let labels = self.labels(start + 1)?;
        let colon = self.reader.parser.expect(Sign::CloseBrace, labels.stop)?;
        let stop = self.reader.parser.expect(Sign::Colon, colon)?;
        Ok(Got {
            tree: labels.tree,
            height: 0,
            stop,
        })
    }

    /// The sign behind `operator`, which stands there.
    fn operator_name(&self, start: usize) -> Result<Got<HeadName>, ReadFault>
        requires { start < length self.now.reader.parser.tokens.now }
        ensures { let ts = self.now.reader.parser.tokens.now in let d = self.now.reader.height in
            Answers ts as_is (spec.operator_by ts start (tok.word ts (suc start))) result }
    {
        match self.reader.parser.word(start + 1) {
            Word::Sign(sign) => Ok(Got {
                tree: HeadName::Operator(self.reader.parser.at(start), sign),
                height: 0,
                stop: start + 2,
            }),
            _ => Err(self.reader.parser.stuck(start + 1)),
        }
    }

    /// What a function is called: a name, or `operator` with any sign.
    #[tactic(auto, unfolding(tree_rules::specs::ReadDeclarations::named_head))]
    pub(crate) fn head_name(&self, start: usize) -> Result<Got<HeadName>, ReadFault>
        ensures { let ts = self.now.reader.parser.tokens.now in let d = self.now.reader.height in
            Answers ts as_is (spec.named_head ts start) result }
    {
        if self.reader.parser.sees_key(Key::Operator, start) {
            return self.operator_name(start);
        }
        if !self.reader.parser.is_name(start) {
            return Err(self.reader.parser.stuck(start));
        }
        Ok(Got {
            tree: HeadName::Name(self.reader.parser.name_at(start)?),
            height: 0,
            stop: start + 1,
        })
    }

    /// The states of a classifier behind the first one.
    #[tactic(auto, using(parse_statements::proofs::Turns::one_part_more, parse_statements::proofs::Turns::no_part_more, std::proofs::lemmas::Grind::common_steps))]
    fn more_state_names(&self, first: Got<StateName>) -> Result<Got<List<StateName>>, ReadFault>
        ensures { let ts = self.now.reader.parser.tokens.now in let d = self.now.reader.height in
            Answers ts as_is
            (many (tok.sees ts sign.Comma) (behind (state_name ts)) (suc (length ts))
            (first.tree ∷ []) first.height first.stop) result }
    {
        let mut parts = one_part(self.reader.parser.alloc, first)?;
        for _turn in 0..self.reader.parser.tokens.len() + 1 {
            if !self.reader.parser.sees(Sign::Comma, parts.stop) {
                return Ok(parts);
            }
            let x = self.reader.state_name(parts.stop + 1)?;
            parts.add(x)?;
        }
        Err(self.reader.parser.stuck(parts.stop))
    }

    /// The states of a classifier, up to its `>`.
    #[tactic(auto, unfolding(tree_rules::specs::ReadDeclarations::state_names))]
    fn state_names(&self, start: usize) -> Result<Got<List<StateName>>, ReadFault>
        ensures reads { let ts = self.now.reader.parser.tokens.now in
            let d = self.now.reader.height in
            Answers ts as_is (spec.state_names ts start) result }
        ensures inside { IfOk result (λ x. x.stop < length self.now.reader.parser.tokens.now) }
    {
        if self.reader.parser.sees(Sign::Greater, start) {
            return Ok(no_parts(self.reader.parser.alloc, start));
        }
        let first = self.reader.state_name(start)?;
        let names = self.more_state_names(first)?;
        if !self.reader.parser.sees(Sign::Greater, names.stop) {
            return Err(self.reader.parser.stuck(names.stop));
        }
        Ok(names)
    }

    /// A classifier, where one stands there (Language Guide, "Automata").
    #[tactic(auto, unfolding(tree_rules::specs::ReadDeclarations::classifier))]
    pub(crate) fn classifier(&self, start: usize) -> Result<Got<Option<List<StateName>>>, ReadFault>
        ensures { let ts = self.now.reader.parser.tokens.now in let d = self.now.reader.height in
            Answers ts as_is (spec.classifier ts start) result }
    {
        if !self.reader.parser.sees(Sign::Less, start) {
            return Ok(Got {
                tree: None,
                height: 0,
                stop: start,
            });
        }
        let names = self.state_names(start + 1)?;
        Ok(Got {
            tree: Some(names.tree),
            height: 0,
            stop: names.stop + 1,
        })
    }
}
