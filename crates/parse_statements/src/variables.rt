ghost use Rattle.std.specs.Prelude.{◌≡◌, ◌<◌, suc, length, [], ◌∷◌, map, option_map};
ghost use Rattle.pawn_token.specs.declared.sign.Sign.TheVariants as sign;
ghost use Rattle.pawn_tree.specs.View.{dim_view, init_view, var_view, variables_view};
ghost use Rattle.pawn_tree.specs.View.{constant_view};
ghost use Rattle.tree_rules.specs.Readers.{behind, led, many};
ghost use Rattle.tree_rules.specs.ReadExpressions.{expr};
ghost use Rattle.tree_rules.specs.ReadVariables as spec;
ghost use Rattle.tree_rules.specs.Tokens as tok;
ghost use Rattle.parse_statements.specs.Answers.{Answers, got_view};
ghost use Rattle.parse_statements.specs.BoxedNodes.{boxed_expr};

use super::expressions::Reader;
use super::inits::init;
use super::part::{Got, no_parts, one_part};
use super::read_fault::ReadFault;
use pawn_base::List;
use pawn_token::{Key, Sign};
use pawn_tree::{Constant, Dim, Expr, Init, Storage, Var, Variables};

impl<'a> Reader<'a> {
    /// What stands behind the size of a dimension.
    #[tactic(auto, unfolding(tree_rules::specs::ReadVariables::dim_end))]
    fn dim_end(&self, size: Got<Box<Expr>>) -> Result<Got<Dim>, ReadFault>
        ensures { let ts = self.now.parser.tokens.now in let d = self.now.height in
            Answers ts (got_view dim_view)
            (spec.dim_end ts (expr ts d) (got_view boxed_expr size)) result }
    {
        let height = size.height;
        if self.parser.sees_key(Key::Char, size.stop) {
            let stop = self.parser.expect(Sign::CloseBracket, size.stop + 1)?;
            let tree = Dim::Chars(Box::into_inner(size.tree));
            return Ok(Got { tree, height, stop });
        }
        let stop = self.parser.expect(Sign::CloseBracket, size.stop)?;
        let tree = Dim::Cells(Box::into_inner(size.tree));
        Ok(Got { tree, height, stop })
    }

    /// A dimension, whose `[` stands there.
    #[tactic(auto, unfolding(tree_rules::specs::ReadVariables::dim))]
    fn dim(&self, start: usize) -> Result<Got<Dim>, ReadFault>
        requires { start < length self.now.parser.tokens.now }
        ensures { let ts = self.now.parser.tokens.now in let d = self.now.height in
            Answers ts (got_view dim_view) (spec.dim ts (expr ts d) start) result }
    {
        if self.parser.sees(Sign::CloseBracket, start + 1) {
            return Ok(Got {
                tree: Dim::Open,
                height: 0,
                stop: start + 2,
            });
        }
        let size = self.expression(true, 13, start + 1)?;
        self.dim_end(size)
    }

    /// All dimensions that stand there (Language Guide, "Arrays").
    ///
    /// Errors: `Syntax` where a `[` begins none; `Memory`.
    #[tactic(auto, unfolding(tree_rules::specs::ReadVariables::dims), using(crate::proofs::Turns::one_part_more, crate::proofs::Turns::no_part_more, std::proofs::lemmas::Grind::common_steps))]
    pub fn dims(&self, start: usize) -> Result<Got<List<Dim>>, ReadFault>
        ensures { let ts = self.now.parser.tokens.now in let d = self.now.height in
            Answers ts (got_view (map dim_view)) (spec.dims ts (expr ts d) start) result }
    {
        let mut parts = no_parts(self.parser.alloc, start);
        for _turn in 0..self.parser.tokens.len() + 1 {
            if !self.parser.sees(Sign::OpenBracket, parts.stop) {
                return Ok(parts);
            }
            let x = self.dim(parts.stop)?;
            parts.add(x)?;
        }
        Err(self.parser.stuck(parts.stop))
    }

    /// A first value behind `=`, where that stands there.
    fn first_value(&self, start: usize) -> Result<Got<Option<Init>>, ReadFault>
        ensures { let ts = self.now.parser.tokens.now in let d = self.now.height in
            Answers ts (got_view (option_map init_view))
            (led ts sign.Assign (spec.init ts d) start) result }
    {
        if !self.parser.sees(Sign::Assign, start) {
            return Ok(Got {
                tree: None,
                height: 0,
                stop: start,
            });
        }
        let x = init(self.parser, self.height, start + 1)?;
        Ok(Got {
            tree: Some(x.tree),
            height: x.height,
            stop: x.stop,
        })
    }

    /// A variable.
    #[tactic(auto, unfolding(tree_rules::specs::ReadVariables::var))]
    fn var(&self, start: usize) -> Result<Got<Var>, ReadFault>
        ensures { let ts = self.now.parser.tokens.now in let d = self.now.height in
            Answers ts (got_view var_view) (spec.var ts d start) result }
    {
        let at = self.parser.behind_tag(start);
        if !self.parser.is_name(at) {
            return Err(self.nameless(start));
        }
        let (tag, name) = self.parser.tagged_name(start, at)?;
        let dims = self.dims(at + 1)?;
        let value = self.first_value(dims.stop)?;
        Ok(Got {
            tree: Var {
                tag,
                name,
                dims: dims.tree,
                init: value.tree,
            },
            height: dims.height.max(value.height),
            stop: value.stop,
        })
    }

    /// The variables behind the first one.
    #[tactic(auto, using(crate::proofs::Turns::one_part_more, crate::proofs::Turns::no_part_more, std::proofs::lemmas::Grind::common_steps))]
    fn more_vars(&self, first: Got<Var>) -> Result<Got<List<Var>>, ReadFault>
        ensures { let ts = self.now.parser.tokens.now in let d = self.now.height in
            Answers ts (got_view (map var_view))
            (many (tok.sees ts sign.Comma) (behind (spec.var ts d)) (suc (length ts))
            (var_view first.tree ∷ []) first.height first.stop) result }
    {
        let mut parts = one_part(self.parser.alloc, first)?;
        for _turn in 0..self.parser.tokens.len() + 1 {
            if !self.parser.sees(Sign::Comma, parts.stop) {
                return Ok(parts);
            }
            let x = self.var(parts.stop + 1)?;
            parts.add(x)?;
        }
        Err(self.parser.stuck(parts.stop))
    }

    /// Variables with commas between them.
    #[tactic(auto, unfolding(tree_rules::specs::ReadVariables::vars))]
    pub(crate) fn vars(&self, start: usize) -> Result<Got<List<Var>>, ReadFault>
        ensures { let ts = self.now.parser.tokens.now in let d = self.now.height in
            Answers ts (got_view (map var_view)) (spec.vars ts d start) result }
    {
        let first = self.var(start)?;
        self.more_vars(first)
    }

    /// What stands behind `new`, `static` or `stock`, up to the end of the statement (Language
    /// Guide, "Declarations").
    ///
    /// Errors: `Syntax` where no variables stand there; `Memory`.
    #[tactic(auto, unfolding(tree_rules::specs::ReadVariables::variables))]
    pub fn variables(&self, storage: Storage, start: usize) -> Result<Got<Variables>, ReadFault>
        ensures { let ts = self.now.parser.tokens.now in let d = self.now.height in
            Answers ts (got_view variables_view) (spec.variables ts d storage start) result }
    {
        let constant = self.parser.sees_key(Key::Const, start);
        let vars = self.vars(self.parser.behind_key(Key::Const, start))?;
        let stop = self.end(vars.stop)?;
        Ok(Got {
            tree: Variables {
                storage,
                constant,
                vars: vars.tree,
            },
            height: vars.height,
            stop,
        })
    }

    /// What stands behind `const`, up to the end of the statement.
    ///
    /// Errors: `Syntax` where no constant stands there; `Memory`.
    #[tactic(auto, unfolding(tree_rules::specs::ReadVariables::constant))]
    pub fn constant(&self, start: usize) -> Result<Got<Constant>, ReadFault>
        ensures { let ts = self.now.parser.tokens.now in let d = self.now.height in
            Answers ts (got_view constant_view) (spec.constant ts (expr ts d) start) result }
    {
        let at = self.parser.behind_tag(start);
        if !self.parser.is_name(at) {
            return Err(self.nameless(start));
        }
        let value = self.parser.expect(Sign::Assign, at + 1)?;
        let x = self.expression(true, 13, value)?;
        let stop = self.end(x.stop)?;
        let (tag, name) = self.parser.tagged_name(start, at)?;
        Ok(Got {
            tree: Constant {
                tag,
                name,
                value: Box::into_inner(x.tree),
            },
            height: x.height,
            stop,
        })
    }
}
