ghost use Rattle.std.specs.Prelude.{◌≡◌, ◌<◌, suc, length, map, if◌then◌else◌, IfOk};
ghost use Rattle.pawn_tree.specs.View.{decl_view};
ghost use Rattle.tree_rules.specs.Declarations as heads;
ghost use Rattle.tree_rules.specs.Readers.{node};
ghost use Rattle.tree_rules.specs.ReadDeclarations as spec;
ghost use Rattle.tree_rules.specs.Spells.{are_left};
ghost use Rattle.parse_statements.specs.Answers.{Answers, IsStuck, got_view};
ghost use Rattle.pawn_parse.specs.BoxedDeclarations.{boxed_decl};

use parse_statements::{Got, ReadFault, Reader, no_parts};
use pawn_base::List;
use pawn_token::Key;
use pawn_tree::{Decl, Storage};
use std::alloc::AllocError;
use tree_rules::Word;

/// The rules of what stands at the level of the file.
#[derive(Clone, Copy)]
pub(crate) struct Declarations<'a> {
    /// How many levels may stand below a declaration, among the rest.
    pub reader: Reader<'a>,
}

impl<'a> Declarations<'a> {
    /// A node, if no more than so many levels stand below it. Else no tree goes on at `at`.
    pub(crate) fn node(
        &self,
        at: usize,
        tree: Decl,
        under: usize,
        stop: usize,
    ) -> Result<Got<Box<Decl>>, ReadFault>
        ensures { let ts = self.now.reader.parser.tokens.now in let d = self.now.reader.height in
            Answers ts (got_view boxed_decl) (node d (decl_view tree) under stop) result }
    {
        let tree = self.boxed(tree)?;
        let height = self.reader.height_above(under, at)?;
        Ok(Got { tree, height, stop })
    }

    fn boxed(&self, tree: Decl) -> Result<Box<Decl>, AllocError>
        ensures { IfOk result (λ b. boxed_decl b ≡ decl_view tree) }
    {
        let boxed = Box::new(self.reader.parser.alloc, tree)?;
        Ok(boxed)
    }

    /// A native.
    #[tactic(auto, unfolding(tree_rules::specs::ReadDeclarations::native_decl))]
    fn native_decl(&self, start: usize) -> Result<Got<Box<Decl>>, ReadFault>
        requires { start < length self.now.reader.parser.tokens.now }
        ensures { let ts = self.now.reader.parser.tokens.now in let d = self.now.reader.height in
            Answers ts (got_view boxed_decl) (spec.native_decl ts d start) result }
    {
        let head = self.head(true, start + 1)?;
        let stop = self.reader.end(head.stop)?;
        let tree = Decl::Native(self.reader.parser.at(start), head.tree);
        self.node(start, tree, head.height, stop)
    }

    /// A function that is declared ahead.
    #[tactic(auto, unfolding(tree_rules::specs::ReadDeclarations::forward_decl))]
    fn forward_decl(&self, start: usize) -> Result<Got<Box<Decl>>, ReadFault>
        requires { start < length self.now.reader.parser.tokens.now }
        ensures { let ts = self.now.reader.parser.tokens.now in let d = self.now.reader.height in
            Answers ts (got_view boxed_decl) (spec.forward_decl ts d start) result }
    {
        let parser = self.reader.parser;
        let is_public = parser.sees_key(Key::Public, start + 1);
        let head = self.head(false, parser.behind_key(Key::Public, start + 1))?;
        let stop = self.reader.end(head.stop)?;
        let tree = Decl::Forward(parser.at(start), is_public, head.tree);
        self.node(start, tree, head.height, stop)
    }

    /// Variables.
    #[tactic(auto, unfolding(tree_rules::specs::ReadDeclarations::declared))]
    fn declared(&self, storage: Storage, start: usize) -> Result<Got<Box<Decl>>, ReadFault>
        requires { start < length self.now.reader.parser.tokens.now }
        ensures { let ts = self.now.reader.parser.tokens.now in let d = self.now.reader.height in
            Answers ts (got_view boxed_decl) (spec.declared ts d storage start) result }
    {
        let x = self.reader.variables(storage, start + 1)?;
        let tree = Decl::Variables(self.reader.parser.at(start), x.tree);
        self.node(start, tree, x.height, x.stop)
    }

    /// A constant.
    #[tactic(auto, unfolding(tree_rules::specs::ReadDeclarations::constant_decl))]
    fn constant_decl(&self, start: usize) -> Result<Got<Box<Decl>>, ReadFault>
        requires { start < length self.now.reader.parser.tokens.now }
        ensures { let ts = self.now.reader.parser.tokens.now in let d = self.now.reader.height in
            Answers ts (got_view boxed_decl) (spec.constant_decl ts d start) result }
    {
        let x = self.reader.constant(start + 1)?;
        let tree = Decl::Constant(self.reader.parser.at(start), x.tree);
        self.node(start, tree, x.height, x.stop)
    }

    /// A function that begins with `static` or `stock`, or else variables.
    fn stored(&self, storage: Storage, start: usize) -> Result<Got<Box<Decl>>, ReadFault>
        requires { start < length self.now.reader.parser.tokens.now }
        ensures { let ts = self.now.reader.parser.tokens.now in let d = self.now.reader.height in
            Answers ts (got_view boxed_decl) (if heads.is_function ts (suc start)
            then spec.function ts d start else spec.declared ts d storage start) result }
    {
        if self.is_function(start + 1) {
            self.function(start)
        } else {
            self.declared(storage, start)
        }
    }

    /// That no tree goes on where a function stands: behind its name, or else at its first token.
    fn head_fault(&self, at: usize) -> ReadFault
        ensures { IsStuck (length self.now.reader.parser.tokens.now) result }
    {
        let name = self.reader.parser.behind_tag(at);
        if self.reader.parser.is_name(name) {
            self.reader.parser.stuck(name + 1)
        } else {
            self.reader.nameless(at)
        }
    }

    /// A declaration, by its first token.
    #[tactic(auto, unfolding(tree_rules::specs::ReadDeclarations::decl, tree_rules::specs::ReadDeclarations::decl_by))]
    fn decl(&self, start: usize) -> Result<Got<Box<Decl>>, ReadFault>
        ensures { let ts = self.now.reader.parser.tokens.now in let d = self.now.reader.height in
            Answers ts (got_view boxed_decl) (spec.decl ts d start) result }
    {
        match self.reader.parser.word(start) {
            Word::Key(Key::New) => {
                if self.is_function(start + 1) {
                    return Err(self.head_fault(start + 1));
                }
                self.declared(Storage::New, start)
            }
            Word::Key(Key::Static) => self.stored(Storage::Static, start),
            Word::Key(Key::Stock) => self.stored(Storage::Stock, start),
            Word::Key(Key::Const) => self.constant_decl(start),
            Word::Key(Key::Enum) => self.enumeration(start),
            Word::Key(Key::Native) => self.native_decl(start),
            Word::Key(Key::Forward) => self.forward_decl(start),
            _ => self.function(start),
        }
    }

    /// A declaration without its box.
    fn declaration(&self, start: usize) -> Result<Got<Decl>, ReadFault>
        ensures { let ts = self.now.reader.parser.tokens.now in let d = self.now.reader.height in
            Answers ts (got_view decl_view) (spec.decl ts d start) result }
    {
        let x = self.decl(start)?;
        Ok(x.unboxed())
    }

    /// Whether tokens are left.
    #[tactic(auto, unfolding(tree_rules::specs::Spells::are_left))]
    fn are_left(&self, at: usize) -> bool
        ensures { result ≡ are_left self.now.reader.parser.tokens.now at }
    {
        at != self.reader.parser.tokens.len()
    }

    /// The declarations of a source.
    #[tactic(auto, unfolding(tree_rules::specs::ReadDeclarations::unit_to), using(parse_statements::proofs::Turns::one_part_more, parse_statements::proofs::Turns::no_part_more, std::proofs::lemmas::Grind::common_steps))]
    pub(crate) fn decls(&self) -> Result<Got<List<Decl>>, ReadFault>
        ensures { let ts = self.now.reader.parser.tokens.now in let d = self.now.reader.height in
            Answers ts (got_view (map decl_view)) (spec.unit_to ts d) result }
    {
        let mut parts = no_parts(self.reader.parser.alloc, 0);
        for _turn in 0..self.reader.parser.tokens.len() + 1 {
            if !self.are_left(parts.stop) {
                return Ok(parts);
            }
            let x = self.declaration(parts.stop)?;
            parts.add(x)?;
        }
        Err(self.reader.parser.stuck(parts.stop))
    }
}
