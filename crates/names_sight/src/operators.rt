ghost use Rattle.std.specs.Prelude.{◌≡◌, [], Some, None, length, map};
ghost use Rattle.std.specs.Prelude.{option_map, if◌then◌else◌, nat_eq, IfOk, OnOk};
ghost use Rattle.pawn_tree.specs.View.{param_view, head_view, decl_view, tree_view};
ghost use Rattle.names_rules.specs.Overloads as spec;
ghost use Rattle.names_sight.specs.Operators.{right_of, operator_by};

use super::tag_numbers::tag_number;
use pawn_base::Memory;
use pawn_tags::{Op, Operators, TagTable, UNTAGGED};
use pawn_token::Sign;
use pawn_tree::{Decl, Head, HeadName, Param, Tree};
use std::alloc::Global;

fn of_two(count: usize, op: Op) -> Option<Op>
    ensures { result ≡ if nat_eq count 2 then Some op else None }
{
    if count == 2 { Some(op) } else { None }
}

fn of_one(count: usize, op: Op) -> Option<Op>
    ensures { result ≡ if nat_eq count 1 then Some op else None }
{
    if count == 1 { Some(op) } else { None }
}

fn minus(count: usize) -> Option<Op>
    ensures { result ≡ spec.op_of Sign.Minus count }
{
    if count == 2 {
        Some(Op::Sub)
    } else {
        of_one(count, Op::Neg)
    }
}

/// The operator that a function for a sign stands for, by the number of its parameters (Language
/// Guide, "User-defined operators").
pub fn op_of(sign: Sign, count: usize) -> Option<Op>
    ensures { result ≡ spec.op_of sign count }
{
    match sign {
        Sign::Plus => of_two(count, Op::Add),
        Sign::Minus => minus(count),
        Sign::Star => of_two(count, Op::Mul),
        Sign::Slash => of_two(count, Op::Div),
        Sign::Percent => of_two(count, Op::Rem),
        Sign::Increment => of_one(count, Op::Inc),
        Sign::Decrement => of_one(count, Op::Dec),
        Sign::Equal => of_two(count, Op::Eq),
        Sign::NotEqual => of_two(count, Op::Neq),
        Sign::Less => of_two(count, Op::Less),
        Sign::Greater => of_two(count, Op::Greater),
        Sign::LessEqual => of_two(count, Op::LessEq),
        Sign::GreaterEqual => of_two(count, Op::GreaterEq),
        Sign::Exclamation => of_one(count, Op::Not),
        Sign::Assign => of_one(count, Op::Assign),
        _ => None,
    }
}

/// The first tag of a parameter that takes a plain value; None for any other parameter.
pub fn plain_tag(tags: &TagTable, x: &Param) -> Option<u32>
    ensures { result ≡ spec.plain_tag tags.now (param_view x.now) }
{
    match x {
        Param::Rest(..) => None,
        Param::Plain {
            reference,
            tags: given,
            dims,
            value,
            ..
        } => {
            if *reference {
                return None;
            }
            if !dims.is_empty() {
                return None;
            }
            if value.is_some() {
                return None;
            }
            Some(tag_number(tags, given.as_slice().first()))
        }
    }
}

/// The right one of an operator's tags where it has one operand, by its result's tag: a value is
/// assigned to that.
pub fn right_tag(op: Op, result_tag: u32) -> u32
    ensures { result ≡ right_of op result_tag }
{
    match op {
        Op::Assign => result_tag,
        _ => UNTAGGED,
    }
}

/// The operators that a tree defines, and how many they are.
#[derive(Drop)]
struct Defined {
    operators: Operators,
    count: u32,
}

impl Defined {
    fn define(&mut self, op: Op, left: u32, right: u32) -> Result<(), Memory>
        requires { self.old.count ≡ length self.old.operators }
        ensures added { OnOk result (self.new.operators ≡
            spec.between self.old.operators op left right) }
        ensures count { OnOk result (self.new.count ≡ length self.new.operators) }
    {
        if left == UNTAGGED && right == UNTAGGED {
            return Ok(());
        }
        if self.operators.define(op, left, right, self.count)? {
            let Some(count) = self.count.checked_add(1) else {
                return Err(Memory);
            };
            self.count = count;
        }
        Ok(())
    }

    /// An operator with these parameters, and with this tag for a value that it makes.
    fn add_operator(
        &mut self,
        tags: &TagTable,
        op: Op,
        params: &[Param],
        right: u32,
    ) -> Result<(), Memory>
        requires { self.old.count ≡ length self.old.operators }
        ensures added { OnOk result (self.new.operators ≡ operator_by op right self.old.operators
            (spec.plain_tags tags.now (map param_view params.now))) }
        ensures count { OnOk result (self.new.count ≡ length self.new.operators) }
    {
        match params {
            [] => Ok(()),
            [x] => match plain_tag(tags, x) {
                None => Ok(()),
                Some(left) => self.define(op, left, right),
            },
            [x, y] => match plain_tag(tags, x) {
                None => Ok(()),
                Some(left) => match plain_tag(tags, y) {
                    None => Ok(()),
                    Some(right) => self.define(op, left, right),
                },
            },
            [_, _, _, ..] => Ok(()),
        }
    }

    fn add_head(&mut self, tags: &TagTable, head: &Head) -> Result<(), Memory>
        requires { self.old.count ≡ length self.old.operators }
        ensures added { OnOk result (self.new.operators ≡ spec.with_head tags.now
            (head_view head.now) head.now.name self.old.operators) }
        ensures count { OnOk result (self.new.count ≡ length self.new.operators) }
    {
        let HeadName::Operator(_, sign) = &head.name else {
            return Ok(());
        };
        match op_of(*sign, head.params.len()) {
            None => Ok(()),
            Some(op) => {
                let right = right_tag(op, tag_number(tags, head.tag.as_ref()));
                self.add_operator(tags, op, head.params.as_slice(), right)
            }
        }
    }

    fn add_decl(&mut self, tags: &TagTable, x: &Decl) -> Result<(), Memory>
        requires { self.old.count ≡ length self.old.operators }
        ensures added { OnOk result (self.new.operators ≡ spec.with_decl tags.now
            (decl_view x.now) self.old.operators) }
        ensures count { OnOk result (self.new.count ≡ length self.new.operators) }
    {
        match x {
            Decl::Function(_, x) => self.add_head(tags, &x.head),
            _ => Ok(()),
        }
    }
}

/// The operators that a tree defines (Language Guide, "User-defined operators").
pub fn operators_of(alloc: Global, tags: &TagTable, tree: &Tree) -> Result<Operators, Memory>
    ensures { IfOk result (λ operators. operators ≡
        spec.overloads_of tags.now (tree_view tree.now) []) }
{
    let items = tree.decls.as_slice();
    let mut defined = Defined {
        operators: Operators::new(alloc)?,
        count: 0,
    };
    for i in 0..items.len() {
        defined.add_decl(tags, &items[i])?;
    }
    Ok(defined.operators)
}
