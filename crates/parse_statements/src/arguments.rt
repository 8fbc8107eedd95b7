ghost use Rattle.std.specs.Prelude.{◌≡◌, ◌<◌, false, suc, length, [], ◌∷◌, Some, map};
ghost use Rattle.pawn_tree.specs.Expressions as plain;
ghost use Rattle.pawn_tree.specs.View.{expr_view, arg_view};
ghost use Rattle.pawn_token.specs.declared.sign.Sign.TheVariants as sign;
ghost use Rattle.tree_rules.specs.Readers.{got, guard};
ghost use Rattle.tree_rules.specs.ReadExpressions as spec;
ghost use Rattle.tree_rules.specs.Tokens as tok;
ghost use Rattle.parse_statements.specs.Answers.{Answers, part_view, got_view, arg_view_in};
ghost use Rattle.parse_statements.specs.NestedExpressions.{Nests};

use super::expression_rules::Rules;
use super::part::{Got, Part, no_parts, one_part};
use super::read_fault::ReadFault;
use super::token_parser::Parser;
use pawn_base::{Bytes, List};
use pawn_token::Sign;
use pawn_tree::{Arg, At, Expr};

/// The node of a call, with its arguments in parentheses or bare.
pub fn call_node(at: At, name: Bytes, arguments: List<Arg>, bare: bool) -> Expr
    ensures { expr_view result
        ≡ plain.Call at name (plain.args (map arg_view arguments)) bare }
{
    Expr::Call(at, name, arguments, bare)
}

impl<'a> Parser<'a> {
    /// An argument in a box, which takes less room on the way through nested calls.
    fn boxed_arg(&self, arg: Arg, height: usize, stop: usize) -> Result<Got<Box<Arg>>, ReadFault>
        ensures { let ts = self.now.tokens.now in
            Answers ts (got_view arg_view_in) (Some (got (arg_view arg) height stop)) result }
    {
        Ok(Got {
            tree: Box::new(self.alloc, arg)?,
            height,
            stop,
        })
    }

    /// The argument that is left to its default by `_`.
    fn default_arg(&self, start: usize) -> Result<Got<Box<Arg>>, ReadFault>
        requires { start < length self.now.tokens.now }
        ensures { let ts = self.now.tokens.now in
            Answers ts (got_view arg_view_in)
            (Some (got (plain.Default (tok.at ts start)) 0 (suc start))) result }
    {
        self.boxed_arg(Arg::Default(self.at(start)), 0, start + 1)
    }

    /// The argument of this value.
    fn plain_arg(&self, x: Part) -> Result<Got<Box<Arg>>, ReadFault>
        ensures { let ts = self.now.tokens.now in
            Answers ts (got_view arg_view_in)
            (Some (got (plain.Value (expr_view x.tree.value)) x.height x.stop)) result }
    {
        self.boxed_arg(Arg::Value(Box::into_inner(x.tree)), x.height, x.stop)
    }

    /// The list of one argument.
    pub(crate) fn one_arg(&self, arg: Got<Box<Arg>>) -> Result<Got<List<Arg>>, ReadFault>
        ensures { let ts = self.now.tokens.now in
            Answers ts (got_view (map arg_view))
            (Some (got (arg_view arg.tree.value ∷ []) arg.height arg.stop)) result }
    {
        Ok(one_part(self.alloc, arg.unboxed())?)
    }

    /// The argument of this value whose name stands at `at`.
    fn arg_of_name(&self, at: usize, x: Part) -> Result<Got<Box<Arg>>, ReadFault>
        ensures { let ts = self.now.tokens.now in
            Answers ts (got_view arg_view_in)
            (Some (got (plain.Named (tok.name_at ts at) (expr_view x.tree.value))
            x.height x.stop)) result }
    {
        let name = self.name_at(at)?;
        self.boxed_arg(Arg::Named(name, Box::into_inner(x.tree)), x.height, x.stop)
    }
}

impl<'a, F: Fn(Parser<'a>, u16, bool, usize, usize) -> Result<Part, ReadFault>> Rules<'a, F> {
    /// A value, or `_`.
    #[tactic(auto, unfolding(tree_rules::specs::ReadExpressions::value_arg))]
    pub(crate) fn value_arg(&self, start: usize) -> Result<Got<Box<Arg>>, ReadFault>
        requires nests { Nests self.now.parser.tokens.now self.now.height
            (F.pre self.now.nested) (F.post self.now.nested) }
        ensures { let ts = self.now.parser.tokens.now in let d = self.now.height in
            Answers ts (got_view arg_view_in) (spec.value_arg ts (spec.expr ts d) start) result }
    {
        if self.parser.is_blank(start) && !self.parser.is_tag(start) {
            return self.parser.default_arg(start);
        }
        let x = self.sub(true, 14, start)?;
        self.parser.plain_arg(x)
    }

    /// `.name = value`
    #[tactic(auto, unfolding(tree_rules::specs::ReadExpressions::named_arg))]
    fn named_arg(&self, start: usize) -> Result<Got<Box<Arg>>, ReadFault>
        requires nests { Nests self.now.parser.tokens.now self.now.height
            (F.pre self.now.nested) (F.post self.now.nested) }
        requires inside { start < length self.now.parser.tokens.now }
        ensures { let ts = self.now.parser.tokens.now in let d = self.now.height in
            Answers ts (got_view arg_view_in) (spec.named_arg ts (spec.expr ts d) start) result }
    {
        if !self.parser.is_name(start + 1) {
            return Err(self.parser.stuck(start + 1));
        }
        let value = self.parser.expect(Sign::Assign, start + 2)?;
        let x = self.sub(true, 14, value)?;
        self.parser.arg_of_name(start + 1, x)
    }

    /// An argument. Behind a named one stand only named ones.
    #[tactic(auto, unfolding(tree_rules::specs::ReadExpressions::arg))]
    fn arg(&self, named: bool, start: usize) -> Result<Got<Box<Arg>>, ReadFault>
        requires nests { Nests self.now.parser.tokens.now self.now.height
            (F.pre self.now.nested) (F.post self.now.nested) }
        ensures { let ts = self.now.parser.tokens.now in let d = self.now.height in
            Answers ts (got_view arg_view_in) (spec.arg ts (spec.expr ts d) named start) result }
    {
        if self.parser.sees(Sign::Dot, start) {
            return self.named_arg(start);
        }
        if named {
            return Err(self.parser.stuck(start));
        }
        self.value_arg(start)
    }

    /// The arguments behind those of `done`, of which the last one is named or not.
    #[tactic(auto, using(crate::proofs::ArgumentLaws::one_argument_more, crate::proofs::ArgumentLaws::no_argument_more, std::proofs::lemmas::Grind::common_steps))]
    pub(crate) fn more_args(
        &self,
        named: bool,
        done: Got<List<Arg>>,
    ) -> Result<Got<List<Arg>>, ReadFault>
        requires nests { Nests self.now.parser.tokens.now self.now.height
            (F.pre self.now.nested) (F.post self.now.nested) }
        ensures { let ts = self.now.parser.tokens.now in let d = self.now.height in
            Answers ts (got_view (map arg_view))
            (spec.more_args ts (spec.expr ts d) (suc (length ts)) named
            (map arg_view done.tree) done.height done.stop) result }
    {
        let mut arguments = done;
        let mut named = named;
        for _turn in 0..self.parser.tokens.len() + 1 {
            if !self.parser.sees(Sign::Comma, arguments.stop) {
                return Ok(arguments);
            }
            let next = arguments.stop + 1;
            let x = self.arg(named, next)?;
            arguments.add(x.unboxed())?;
            named = self.parser.sees(Sign::Dot, next);
        }
        Err(self.parser.stuck(arguments.stop))
    }

    /// The call of the name at `start`, with these arguments before its `)`.
    fn called(&self, start: usize, arguments: Got<List<Arg>>) -> Result<Part, ReadFault>
        ensures { let ts = self.now.parser.tokens.now in let d = self.now.height in
            Answers ts part_view (let xs = got_view (map arg_view) arguments in
            guard (tok.sees ts sign.CloseParenthesis xs.stop)
            (spec.operation d
            (plain.Call (tok.at ts start) (tok.spelling ts start) (plain.args xs.tree) false)
            1 xs.height (suc xs.stop))) result }
    {
        let stop = self.parser.expect(Sign::CloseParenthesis, arguments.stop)?;
        let name = self.parser.spelling(start)?;
        let tree = call_node(self.parser.at(start), name, arguments.tree, false);
        self.operation(tree, 1, arguments.height, stop)
    }

    /// A call.
    #[tactic(auto, unfolding(tree_rules::specs::ReadExpressions::call, tree_rules::specs::ReadExpressions::call_args))]
    pub(crate) fn call(&self, start: usize) -> Result<Part, ReadFault>
        requires nests { Nests self.now.parser.tokens.now self.now.height
            (F.pre self.now.nested) (F.post self.now.nested) }
        requires inside { suc start < length self.now.parser.tokens.now }
        ensures { let ts = self.now.parser.tokens.now in let d = self.now.height in
            Answers ts part_view (spec.call ts (spec.expr ts d) d start) result }
    {
        if self.parser.sees(Sign::CloseParenthesis, start + 2) {
            return self.called(start, no_parts(self.parser.alloc, start + 2));
        }
        let named = self.parser.sees(Sign::Dot, start + 2);
        let first = self.arg(false, start + 2)?;
        let done = self.parser.one_arg(first)?;
        let arguments = self.more_args(named, done)?;
        self.called(start, arguments)
    }
}
