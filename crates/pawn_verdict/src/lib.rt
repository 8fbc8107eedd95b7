//! How code answers a verdict, and which operators signs stand for: what the rules of names and
//! of types have in common.
#![tactic(auto)]

mod fault;
mod signs;

pub use fault::{CheckFault, broken};
pub use pawn_base::Memory;
pub use signs::{Between, LinkSign, between_of, link_of};
