ghost use Rattle.std.specs.Prelude.{◌≡◌, map, length};
ghost use Rattle.pawn_tree.specs.View.{param_view, head_view};
ghost use Rattle.names_rules.specs.Overloads as overloads;
ghost use Rattle.types_rules.specs.Keys as spec;
ghost use Rattle.check_source.specs.Signatures.{signature_by};

use names_sight::{UNTAGGED, op_of, plain_tag, right_tag, tag_number};
use pawn_tags::{Op, Signature, TagTable};
use pawn_token::Sign;
use pawn_tree::{Head, Param};

/// An operator between these tags, one of which has to be another than `_`.
fn between(op: Op, left: u32, right: u32) -> Option<Signature>
    ensures { result ≡ spec.signature_between op left right }
{
    if left == UNTAGGED && right == UNTAGGED {
        return None;
    }
    Some(Signature { op, left, right })
}

/// An operator with these parameters, and with this tag for a value that it makes.
fn signature_with(tags: &TagTable, op: Op, params: &[Param], right: u32) -> Option<Signature>
    ensures { result ≡ signature_by op right
        (overloads.plain_tags tags.now (map param_view params.now)) }
{
    match params {
        [] => None,
        [x] => match plain_tag(tags, x) {
            None => None,
            Some(left) => between(op, left, right),
        },
        [x, y] => match plain_tag(tags, x) {
            None => None,
            Some(left) => match plain_tag(tags, y) {
                None => None,
                Some(right) => between(op, left, right),
            },
        },
        [_, _, _, ..] => None,
    }
}

/// The operator that a head is for a sign (Language Guide, "User-defined operators"). None where no
/// operator may have it.
pub fn signature(tags: &TagTable, head: &Head, sign: Sign) -> Option<Signature>
    ensures { result ≡ spec.signature_of
        (overloads.op_of sign (length (head_view head.now).params))
        (overloads.tag_number tags.now head.now.tag)
        (overloads.plain_tags tags.now (head_view head.now).params) }
{
    match op_of(sign, head.params.len()) {
        None => None,
        Some(op) => {
            let right = right_tag(op, tag_number(tags, head.tag.as_ref()));
            signature_with(tags, op, head.params.as_slice(), right)
        }
    }
}
