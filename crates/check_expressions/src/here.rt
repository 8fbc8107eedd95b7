use check_nodes::{Context, Scopes};
use pawn_tree::At;

/// Where the parts of a declaration stand: what is known of the whole source, the declarations in
/// sight, and the token that a broken rule names.
#[derive(Clone, Copy)]
pub struct Here<'a, 'b> {
    pub cx: &'a Context,
    pub scopes: &'a Scopes<'b>,
    pub at: At,
}
