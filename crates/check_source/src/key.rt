ghost use Rattle.std.specs.Prelude.{◌≡◌, length};
ghost use Rattle.std.specs.Str.{bytes_eq};
ghost use Rattle.pawn_tree.specs.View.{head_view};
ghost use Rattle.names_rules.specs.Overloads as overloads;
ghost use Rattle.types_rules.specs.Groups as groups;
ghost use Rattle.types_rules.specs.Headings.{is_enters};
ghost use Rattle.types_rules.specs.Keys as spec;
ghost use Rattle.check_source.specs.KeyView.{key_view, states_view};

use super::operators::signature;
use super::states::entered;
use pawn_tags::{Signature, TagTable};
use pawn_token::Sign;
use pawn_tree::{Head, HeadName, StateName};

/// Which function a head is of (Language Guide, "Functions", "User-defined operators", "Automata").
#[derive(Clone, Copy)]
pub enum Key<'a> {
    /// The one with a name.
    Named(&'a [u8]),
    /// An operator by its sign and the tags of its operands.
    Operates(Signature),
    /// The entry function of an automaton.
    Enters(&'a [u8]),
    /// A head that no operator may have.
    Misshapen,
}

impl<'a> Key<'a> {
    /// Whether a function is an automaton's entry function.
    pub fn enters(self) -> bool
        ensures { result ≡ is_enters (key_view self.entry) }
    {
        match self {
            Key::Enters(_) => true,
            Key::Named(_) => false,
            Key::Operates(_) => false,
            Key::Misshapen => false,
        }
    }
}

/// Whether a name is that of entry functions.
fn is_entry_name(name: &[u8]) -> bool
    ensures { result ≡ bytes_eq name.now spec.entry_name }
{
    let entry: &[u8] = b"entry";
    name == entry
}

/// Whether a head is named as entry functions are.
pub fn is_entry(name: &HeadName) -> bool
    ensures { result ≡ groups.is_entry name.now }
{
    match name {
        HeadName::Name(name) => is_entry_name(name.bytes.as_slice()),
        HeadName::Operator(..) => false,
    }
}

/// By a name, and by the classifier of an entry function.
fn name_key<'a>(fallback: &'a [u8], name: &'a [u8], states: Option<&'a [StateName]>) -> Key<'a>
    ensures { key_view result ≡ spec.name_key fallback.now name.now (states_view states.entry) }
{
    if is_entry_name(name) {
        Key::Enters(entered(fallback, states))
    } else {
        Key::Named(name)
    }
}

/// By the sign of an operator.
fn operator_key<'a>(tags: &TagTable, head: &Head, sign: Sign) -> Key<'a>
    ensures { key_view result ≡ spec.operator_key (spec.signature_of
        (overloads.op_of sign (length (head_view head.now).params))
        (overloads.tag_number tags.now head.now.tag)
        (overloads.plain_tags tags.now (head_view head.now).params)) }
{
    match signature(tags, head, sign) {
        None => Key::Misshapen,
        Some(it) => Key::Operates(it),
    }
}

/// Which function a head with a classifier is of. A fallback of an entry function is of the
/// automaton that is given.
pub fn key_of<'a>(
    tags: &TagTable,
    fallback: &'a [u8],
    head: &'a Head,
    states: Option<&'a [StateName]>,
) -> Key<'a>
    ensures { key_view result ≡ spec.key_of tags.now fallback.now (head_view head.now)
        (states_view states.entry) }
{
    match &head.name {
        HeadName::Name(name) => name_key(fallback, name.bytes.as_slice(), states),
        HeadName::Operator(_, sign) => operator_key(tags, head, *sign),
    }
}
