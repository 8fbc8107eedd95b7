ghost use Rattle.std.specs.Prelude.{◌≡◌, ◌<◌, ◌-◌, ◌^◌, length, map};
ghost use Rattle.pawn_tree.specs.Declarations as plain;
ghost use Rattle.pawn_tree.specs.View.{decl_view};
ghost use Rattle.tree_rules.specs.Brackets.{IsShallow};
ghost use Rattle.tree_rules.specs.ReadDeclarations as spec;
ghost use Rattle.tree_rules.specs.Spells.{IsParse};
ghost use Rattle.parse_statements.specs.Answers.{Answers, got_view};
ghost use Rattle.pawn_parse.specs.Parses.{Finds, Parses};

use super::declarations::Declarations;
use super::deep::too_deep;
use super::parse_fault::ParseFault;
use parse_statements::{Got, Parser, ReadFault, Reader};
use pawn_base::List;
use pawn_lex::{Token, Tokens};
use pawn_tree::{Decl, Tree};
use std::alloc::Global;
use tree_rules::{at_most_one_tree, unit_is_complete, unit_is_spelled};

/// How many levels may stand below a declaration.
const MOST_BELOW: u16 = 1023;

/// The one tree of at most 1,024 levels that spells the tokens (Language Guide, "Declarations",
/// "Functions", "Statements", "Operators and expressions"). It asks fewer than 2^32 - 1 tokens.
///
/// # Errors
///
/// `TooDeep` exactly where more than 256 brackets are open at a token, with the first one. Else
/// `Syntax` exactly where there is no such tree. `Memory` where memory is wanting.
pub fn parse(alloc: Global, tokens: &Tokens) -> Result<Tree, ParseFault>
    requires { length tokens.now.list < 2 ^ 32 - 1 }
    ensures answer { Parses tokens.now.list result }
    ensures complete { (tree : plain.Tree) → IsParse tokens.now.list tree → Finds tree result }
{
    // A law for the second clause alone: no other tree spells the tokens.
    at_most_one_tree();
    let list = tokens.list.as_slice();
    if let Some(at) = too_deep(list) {
        return Err(ParseFault::TooDeep(at as u32));
    }
    tree_of(alloc, list)
}

/// A whole source.
fn unit(parser: Parser<'_>) -> Result<Got<List<Decl>>, ReadFault>
    ensures { let ts = parser.entry.tokens.now in
        Answers ts (got_view (map decl_view)) (spec.unit ts) result }
{
    let reader = Reader {
        parser,
        height: MOST_BELOW,
    };
    Declarations { reader }.decls()
}

/// The tree of tokens none of which has too many brackets open.
fn tree_of(alloc: Global, tokens: &[Token]) -> Result<Tree, ParseFault>
    requires few { length tokens.now < 2 ^ 32 - 1 }
    requires shallow { IsShallow tokens.now }
    ensures { Parses tokens.now result }
{
    // Two laws for the clause alone: the definition gives trees of these tokens, and each of them.
    unit_is_spelled();
    unit_is_complete();
    match unit(Parser::new(alloc, tokens)) {
        Ok(got) => Ok(Tree { decls: got.tree }),
        Err(ReadFault::Syntax(at)) => Err(ParseFault::Syntax(at as u32)),
        Err(ReadFault::Memory) => Err(ParseFault::Memory),
    }
}
