use super::automata::Automata;
use super::called::Called;
use super::groups::Groups;
use super::headings::Heading;
use pawn_base::List;
use pawn_tags::TagTable;

/// What is known of a source apart from its typed heads: the names of its tags, the automaton of an
/// entry function's fallback, its functions and headings in order, its automata, and the names
/// that its bodies call.
#[derive(Drop)]
pub struct Source<'a> {
    pub tags: TagTable,
    pub fallback: &'a [u8],
    pub groups: Groups<'a>,
    pub headings: List<Heading<'a>>,
    pub automata: Automata,
    pub called: Called<'a>,
}
