ghost use Rattle.std.specs.Prelude.{◌≤◌};
ghost use Rattle.pawn_tree.specs.Height as height;
ghost use Rattle.pawn_tree.specs.View.{tree_view};

use super::trees::{MOST_TOKENS, tokens_of};
use pawn_lex::Tokens;
use pawn_parse::{ParseFault, parse};
use pawn_tree::{Tree, depth};
use std::alloc::{AllocError, Global};

/// The height of a tree and the number of its declarations.
fn tree_text(alloc: Global, tree: &Tree) -> Result<String, AllocError>
    requires { height.depth (tree_view tree.now) ≤ 1024 }
{
    let height = depth(tree);
    let count = tree.decls.len();
    format!(in alloc; "tree {height} {count}")
}

/// A fault and its token.
fn fault_text(alloc: Global, fault: ParseFault) -> Result<String, AllocError> {
    match fault {
        ParseFault::TooDeep(at) => format!(in alloc; "deep {at}"),
        ParseFault::Syntax(at) => format!(in alloc; "syntax {at}"),
        ParseFault::Memory => String::from_str(alloc, "memory"),
    }
}

/// What tokens come to.
fn parsed(alloc: Global, tokens: &Tokens) -> Option<String> {
    if tokens.list.len() > MOST_TOKENS {
        return None;
    }
    let text = match parse(alloc, tokens) {
        Ok(tree) => tree_text(alloc, &tree),
        Err(fault) => fault_text(alloc, fault),
    };
    text.ok()
}

/// What a source comes to, where it has tokens.
fn shown(alloc: Global, source: &str) -> Option<String> {
    let tokens = tokens_of(alloc, source)?;
    parsed(alloc, &tokens)
}

/// Whether a source comes to a text.
pub fn comes_to(alloc: Global, source: &str, text: &str) -> bool {
    match shown(alloc, source) {
        Some(shown) => shown.as_str() == text,
        None => false,
    }
}

/// Whether what a source comes to begins so.
pub fn begins(alloc: Global, source: &str, front: &str) -> bool {
    match shown(alloc, source) {
        Some(shown) => shown.as_str().starts_with(front),
        None => false,
    }
}
