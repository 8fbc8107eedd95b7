ghost use Rattle.std.specs.Prelude.{◌≡◌, option_map};
ghost use Rattle.names_rules.specs.Overloads as spec;

use pawn_tags::{TagTable, UNTAGGED};
use pawn_tree::Name;

/// The number of a tag, where one is given.
pub fn tag_number(tags: &TagTable, tag: Option<&Name>) -> u32
    ensures { result ≡ spec.tag_number tags.now (option_map (λ name. name.now) tag.entry) }
{
    match tag {
        None => UNTAGGED,
        Some(name) => tags.number(name.bytes.as_slice()).unwrap_or(UNTAGGED),
    }
}
