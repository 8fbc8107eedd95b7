use pawn_lex::{Tokens, tokens};
use pawn_outside::MemoryFiles;
use pawn_parse::parse;
use pawn_pre::preprocess;
use pawn_tree::Tree;
use std::alloc::Global;

/// The most tokens of a source. The parser asks for fewer than a `u32` counts.
pub const MOST_TOKENS: usize = 4_000_000;

/// The tokens of a source, where it has some.
pub fn tokens_of(alloc: Global, source: &str) -> Option<Tokens> {
    let mut files = holding(alloc, source)?;
    let lines = preprocess(alloc, "s.p", &mut files).ok()?;
    tokens(alloc, &lines).ok()
}

/// Files with a source alone.
fn holding(alloc: Global, source: &str) -> Option<MemoryFiles> {
    let mut files = MemoryFiles::new(alloc, &[]).ok()?;
    files.hold("s.p", source.as_bytes()).ok()?;
    Some(files)
}

/// The tree of a source that includes nothing, where it has one and memory is there.
pub fn tree_of(alloc: Global, source: &str) -> Option<Tree> {
    let tokens = tokens_of(alloc, source)?;
    if tokens.list.len() > MOST_TOKENS {
        return None;
    }
    parse(alloc, &tokens).ok()
}
