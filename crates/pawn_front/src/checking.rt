ghost use Rattle.std.specs.Prelude.{◌≡◌, ◌<◌, ◌≤◌, ◌-◌, ◌^◌, length, slice_get, IfOk};
ghost use Rattle.pawn_pre.specs.Bounds.{IsBounded, bytes_of};
ghost use Rattle.pawn_tree.specs.View.{tree_view};
ghost use Rattle.pawn_front.specs.Checks.{Checks, ChecksTokens, ChecksTree, Cuts, Grows};
ghost use Rattle.types_rules.specs.TypedTrees.{first_line};
ghost use Rattle.pawn_front.specs.Places.{place_at, place_by};

use pawn_base::{Bytes, List, Memory};
use pawn_cells::Place;
use pawn_check::{CheckFault, Checked, check, function_names};
use pawn_lex::{LexFault, Token, Tokens, tokens};
use pawn_parse::{ParseFault, parse};
use pawn_pre::Lines;
use pawn_tree::Tree;
use std::alloc::Global;

/// The rule that at most 256 brackets are open at a token.
const TOO_DEEP: u8 = 31;

/// The rule that the tokens are those of a tree of at most 1,024 levels.
const NO_TREE: u8 = 30;

/// A program with its warnings, and the names of its functions.
#[derive(Drop)]
pub struct Named {
    pub checked: Checked,
    pub names: List<Bytes>,
}

/// The program of lines, or a fault of the first layer that refuses them: their bytes, their
/// tokens, or their tree.
pub fn check_lines(alloc: Global, lines: &Lines) -> Result<Named, CheckFault>
    requires { IsBounded lines.now }
    ensures { Checks lines.now result }
{
    let tokens = cut(alloc, lines)?;
    check_tokens(alloc, &tokens, lines.dynamic)
}

/// The tokens of lines.
fn cut(alloc: Global, lines: &Lines) -> Result<Tokens, CheckFault>
    ensures answer { Cuts lines.now.lines result }
    ensures few { IfOk result (λ it. length it.list ≤ bytes_of lines.now.lines) }
{
    match tokens(alloc, lines) {
        Ok(tokens) => Ok(tokens),
        Err(LexFault::Source { kind, place }) => Err(CheckFault::Source { kind, place }),
        Err(LexFault::Memory) => Err(CheckFault::Memory),
    }
}

/// The program of tokens, for a room of so many cells for heap and stack.
fn check_tokens(alloc: Global, tokens: &Tokens, dynamic: i32) -> Result<Named, CheckFault>
    requires { length tokens.now.list < 2 ^ 32 - 1 }
    ensures { ChecksTokens tokens.now.list dynamic result }
{
    let tree = tree_of(alloc, tokens)?;
    check_tree(alloc, &tree, dynamic)
}

/// The program of a tree, with the names of its functions.
fn check_tree(alloc: Global, tree: &Tree, dynamic: i32) -> Result<Named, CheckFault>
    ensures { ChecksTree (tree_view tree.now) dynamic result }
{
    let checked = check(alloc, tree, dynamic)?;
    match function_names(alloc, tree) {
        Ok(names) => Ok(Named { checked, names }),
        Err(Memory) => Err(CheckFault::Memory),
    }
}

/// The tree of tokens.
fn tree_of(alloc: Global, tokens: &Tokens) -> Result<Tree, CheckFault>
    requires { length tokens.now.list < 2 ^ 32 - 1 }
    ensures { Grows tokens.now.list result }
{
    match parse(alloc, tokens) {
        Ok(tree) => Ok(tree),
        Err(ParseFault::TooDeep(at)) => Err(fault_at(TOO_DEEP, tokens.list.as_slice(), at)),
        Err(ParseFault::Syntax(at)) => Err(fault_at(NO_TREE, tokens.list.as_slice(), at)),
        Err(ParseFault::Memory) => Err(CheckFault::Memory),
    }
}

/// A rule that is broken at a token, by its number.
fn fault_at(kind: u8, tokens: &[Token], at: u32) -> CheckFault
    ensures { result ≡ CheckFault.Source kind (place_at tokens.now at) }
{
    let place = place_at(tokens, at);
    CheckFault::Source { kind, place }
}

/// Where a token stands, by its number; behind the last one it is the place of that.
fn place_at(tokens: &[Token], at: u32) -> Place
    ensures { result ≡ place_at tokens.now at }
{
    match tokens.get(at as usize) {
        Some(token) => token.place,
        None => last_place(tokens),
    }
}

/// Where the last token stands, or the source's first line.
fn last_place(tokens: &[Token]) -> Place
    ensures { result ≡ place_by (slice_get tokens.now (length tokens.now - 1)) first_line }
{
    match tokens.last() {
        Some(token) => token.place,
        None => Place { file: 0, line: 1 },
    }
}
