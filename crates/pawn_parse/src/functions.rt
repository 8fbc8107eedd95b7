ghost use Rattle.std.specs.Prelude.{◌≡◌, ◌<◌, suc, length};
ghost use Rattle.pawn_tree.specs.View.{head_view, decl_view};
ghost use Rattle.tree_rules.specs.Declarations as heads;
ghost use Rattle.tree_rules.specs.Declarations.{none_yet};
ghost use Rattle.tree_rules.specs.ReadDeclarations as spec;
ghost use Rattle.pawn_parse.specs.Words.{AddsWord, words_view};
ghost use Rattle.parse_statements.specs.Answers.{Answers, got_view};
ghost use Rattle.pawn_parse.specs.BoxedDeclarations.{boxed_decl};

use super::declarations::Declarations;
use parse_statements::{Got, ReadFault, statement};
use pawn_token::{Key, Sign};
use pawn_tree::{Decl, Function, Head};
use tree_rules::{Modifiers, Word};

/// The words before a function, and the token behind them.
#[derive(Clone, Copy)]
struct Words {
    all: Modifiers,
    stop: usize,
}

impl<'a> Declarations<'a> {
    /// A word before a function, behind others: those and that one, or none where none stands.
    #[tactic(auto, unfolding(tree_rules::specs::ReadDeclarations::modifiers))]
    fn modifier(&self, all: Modifiers, at: usize) -> Result<Option<Modifiers>, ReadFault>
        ensures { AddsWord self.now.reader.parser.tokens.now all at result }
    {
        let parser = self.reader.parser;
        if parser.sees_key(Key::Static, at) {
            if all.is_static {
                return Err(parser.stuck(at));
            }
            return Ok(Some(Modifiers {
                is_static: true,
                is_stock: all.is_stock,
                is_public: all.is_public,
            }));
        }
        if parser.sees_key(Key::Stock, at) {
            if all.is_stock {
                return Err(parser.stuck(at));
            }
            return Ok(Some(Modifiers {
                is_static: all.is_static,
                is_stock: true,
                is_public: all.is_public,
            }));
        }
        if parser.sees_key(Key::Public, at) {
            if all.is_public {
                return Err(parser.stuck(at));
            }
            return Ok(Some(Modifiers {
                is_static: all.is_static,
                is_stock: all.is_stock,
                is_public: true,
            }));
        }
        Ok(None)
    }

    /// The words before a function. Each stands at most once, so that four turns are enough.
    fn modifiers(&self, start: usize) -> Result<Words, ReadFault>
        ensures { let ts = self.now.reader.parser.tokens.now in
            Answers ts words_view (spec.modifiers ts 4 none_yet start) result }
    {
        let mut all = Modifiers {
            is_static: false,
            is_stock: false,
            is_public: false,
        };
        let mut stop = start;
        for _turn in 0..4u8 {
            let Some(next) = self.modifier(all, stop)? else {
                return Ok(Words { all, stop });
            };
            all = next;
            stop += 1;
        }
        Err(self.reader.parser.stuck(stop))
    }

    /// What stands behind the head of a function.
    #[tactic(auto, unfolding(tree_rules::specs::ReadDeclarations::function_rest))]
    fn function_rest(
        &self,
        start: usize,
        all: Modifiers,
        head: Got<Head>,
    ) -> Result<Got<Box<Decl>>, ReadFault>
        ensures { let ts = self.now.reader.parser.tokens.now in let d = self.now.reader.height in
            Answers ts (got_view boxed_decl)
            (spec.function_rest ts d start all (got_view head_view head)) result }
    {
        let states = self.classifier(head.stop)?;
        let body = statement(self.reader.parser, self.reader.height, false, states.stop)?;
        let function = Function {
            is_static: all.is_static,
            is_stock: all.is_stock,
            is_public: all.is_public,
            head: head.tree,
            states: states.tree,
            body: Box::into_inner(body.tree),
        };
        let tree = Decl::Function(self.reader.parser.at(start), function);
        self.node(start, tree, head.height.max(body.height), body.stop)
    }

    /// A function with its body.
    #[tactic(auto, unfolding(tree_rules::specs::ReadDeclarations::function))]
    pub(crate) fn function(&self, start: usize) -> Result<Got<Box<Decl>>, ReadFault>
        ensures { let ts = self.now.reader.parser.tokens.now in let d = self.now.reader.height in
            Answers ts (got_view boxed_decl) (spec.function ts d start) result }
    {
        let words = self.modifiers(start)?;
        let head = self.head(false, words.stop)?;
        self.function_rest(start, words.all, head)
    }

    /// Whether the head of a function begins there.
    fn begins_head(&self, at: usize) -> bool
        ensures { result ≡ heads.begins_head self.now.reader.parser.tokens.now at }
    {
        let parser = self.reader.parser;
        if parser.sees_key(Key::Operator, at) {
            return true;
        }
        if !parser.is_name(at) {
            return false;
        }
        parser.sees(Sign::OpenParenthesis, at + 1)
    }

    /// Whether a function goes on there, behind one of its words.
    #[tactic(auto, unfolding(tree_rules::specs::Declarations::is_function))]
    pub(crate) fn is_function(&self, at: usize) -> bool
        ensures { result ≡ heads.is_function self.now.reader.parser.tokens.now at }
    {
        match self.reader.parser.word(at) {
            Word::Key(Key::Static | Key::Stock | Key::Public) => true,
            _ => self.begins_head(self.reader.parser.behind_tag(at)),
        }
    }
}
