ghost use Rattle.std.specs.Prelude.{◌≡◌, ◌<◌, suc, length, [], ◌∷◌, map, IfOk, IsTrue};
ghost use Rattle.pawn_tree.specs.View.{item_view, decl_view};
ghost use Rattle.tree_rules.specs.Declarations as heads;
ghost use Rattle.tree_rules.specs.Readers.{behind, many};
ghost use Rattle.tree_rules.specs.ReadDeclarations as spec;
ghost use Rattle.parse_statements.specs.Answers.{Answers, got_view};
ghost use Rattle.pawn_parse.specs.BoxedDeclarations.{boxed_decl};

use super::declarations::Declarations;
use parse_statements::{Got, ReadFault, one_part};
use pawn_base::{List, Memory};
use pawn_token::Sign;
use pawn_tree::{Decl, Item, Name};

impl<'a> Declarations<'a> {
    /// The name that stands there, if one does.
    #[tactic(auto, unfolding(tree_rules::specs::Declarations::maybe_name))]
    fn maybe_name(&self, at: usize) -> Result<Option<Name>, Memory>
        ensures { IfOk result
            (λ name. name ≡ heads.maybe_name self.now.reader.parser.tokens.now at) }
    {
        if !self.reader.parser.is_name(at) {
            return Ok(None);
        }
        let name = self.reader.parser.name_at(at)?;
        Ok(Some(name))
    }

    /// The token behind that name.
    #[tactic(auto, unfolding(tree_rules::specs::Declarations::behind_name))]
    fn behind_name(&self, at: usize) -> usize
        ensures { result ≡ heads.behind_name self.now.reader.parser.tokens.now at }
    {
        if self.reader.parser.is_name(at) {
            at + 1
        } else {
            at
        }
    }

    /// Whether a further constant stands there, behind a comma.
    #[tactic(auto, unfolding(tree_rules::specs::Declarations::further_item))]
    fn further_item(&self, at: usize) -> bool
        ensures value { result ≡ heads.further_item self.now.reader.parser.tokens.now at }
        ensures inside { IsTrue result → at < length self.now.reader.parser.tokens.now }
    {
        if !self.reader.parser.sees(Sign::Comma, at) {
            return false;
        }
        !self.reader.parser.sees(Sign::CloseBrace, at + 1)
    }

    /// A constant of an enumeration.
    #[tactic(auto, unfolding(tree_rules::specs::ReadDeclarations::item))]
    fn item(&self, start: usize) -> Result<Got<Item>, ReadFault>
        ensures { let ts = self.now.reader.parser.tokens.now in let d = self.now.reader.height in
            Answers ts (got_view item_view) (spec.item ts d start) result }
    {
        if !self.reader.parser.is_name(start) {
            return Err(self.reader.parser.stuck(start));
        }
        let name = self.reader.parser.name_at(start)?;
        let value = self.value(start + 1)?;
        Ok(Got {
            tree: Item {
                name,
                value: value.tree,
            },
            height: value.height,
            stop: value.stop,
        })
    }

    /// The constants behind the first one.
    #[tactic(auto, using(parse_statements::proofs::Turns::one_part_more, parse_statements::proofs::Turns::no_part_more, std::proofs::lemmas::Grind::common_steps))]
    fn more_items(&self, first: Got<Item>) -> Result<Got<List<Item>>, ReadFault>
        ensures { let ts = self.now.reader.parser.tokens.now in let d = self.now.reader.height in
            Answers ts (got_view (map item_view))
            (many (heads.further_item ts) (behind (spec.item ts d)) (suc (length ts))
            (item_view first.tree ∷ []) first.height first.stop) result }
    {
        let mut parts = one_part(self.reader.parser.alloc, first)?;
        for _turn in 0..self.reader.parser.tokens.len() + 1 {
            if !self.further_item(parts.stop) {
                return Ok(parts);
            }
            let x = self.item(parts.stop + 1)?;
            parts.add(x)?;
        }
        Err(self.reader.parser.stuck(parts.stop))
    }

    /// The constants of an enumeration.
    #[tactic(auto, unfolding(tree_rules::specs::ReadDeclarations::items))]
    fn items(&self, start: usize) -> Result<Got<List<Item>>, ReadFault>
        ensures { let ts = self.now.reader.parser.tokens.now in let d = self.now.reader.height in
            Answers ts (got_view (map item_view)) (spec.items ts d start) result }
    {
        let first = self.item(start)?;
        self.more_items(first)
    }

    /// An enumeration, whose `enum` stands there.
    #[tactic(auto, unfolding(tree_rules::specs::ReadDeclarations::enumeration))]
    pub(crate) fn enumeration(&self, start: usize) -> Result<Got<Box<Decl>>, ReadFault>
        requires { start < length self.now.reader.parser.tokens.now }
        ensures { let ts = self.now.reader.parser.tokens.now in let d = self.now.reader.height in
            Answers ts (got_view boxed_decl) (spec.enumeration ts d start) result }
    {
        let parser = self.reader.parser;
        let open = parser.expect(Sign::OpenBrace, self.behind_name(start + 1))?;
        let items = self.items(open)?;
        let close = parser.behind_sign(Sign::Comma, items.stop);
        let next = parser.expect(Sign::CloseBrace, close)?;
        let stop = parser.behind_sign(Sign::Semicolon, next);
        let name = self.maybe_name(start + 1)?;
        let tree = Decl::Enum(parser.at(start), name, items.tree);
        self.node(start, tree, items.height, stop)
    }
}
