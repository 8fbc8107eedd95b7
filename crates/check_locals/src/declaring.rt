use super::stood::Stood;
use check_nodes::Context;
use pawn_tree::{At, Storage};
use pawn_verdict::CheckFault;
use std::alloc::Global;

/// A declaration of variables: what is known around it, where it stands, and how they are kept.
#[derive(Clone, Copy)]
pub struct Declaring<'v> {
    pub alloc: Global,
    pub cx: &'v Context,
    pub at: At,
    pub kind: Storage,
    pub constant: bool,
}

/// Whether the expressions in variables stand; None where one falls.
pub type Judging = Result<Option<()>, CheckFault>;

/// What a statement is; None where it falls.
pub type Outcome = Result<Option<Stood>, CheckFault>;
