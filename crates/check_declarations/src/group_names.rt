ghost use Rattle.std.specs.Prelude.{◌≡◌, ◌++◌, codes, map, IfOk};
ghost use Rattle.pawn_token.specs.Signs.{sign_spelling};
ghost use Rattle.types_rules.specs.Headings.{public_name};
ghost use Rattle.types_rules.specs.Publics as spec;
ghost use Rattle.check_source.specs.GroupsView.{group_view};
ghost use Rattle.check_source.specs.WrittenView.{written_view};
ghost use Rattle.check_source.specs.SourceView.{source_view};
ghost use Rattle.check_declarations.specs.NumberedNames as names;

use check_source::{Group, Source, Written};
use pawn_base::{Bytes, List, Memory};
use pawn_token::Sign;
use pawn_tree::HeadName;
use std::alloc::Global;

/// The byte that names of public functions may begin with.
const AT_SIGN: u8 = b'@';

/// Whether a name is one of a public function by itself.
pub fn begins_with_at(name: &[u8]) -> bool
    ensures { result ≡ spec.begins_with_at name.now }
{
    match name {
        [] => false,
        [first, ..] => *first == AT_SIGN,
    }
}

/// The name of a user operator, as it is public under.
fn operator_name(alloc: Global, sign: Sign) -> Result<Bytes, Memory>
    ensures { IfOk result (λ name. name ≡ codes "operator" ++ sign_spelling sign) }
{
    let mut name = Bytes::from_slice(alloc, b"operator")?;
    name.append(sign.spelling())?;
    Ok(name)
}

/// The name of a function, as it is public under (Language Guide, "Functions").
fn head_name(alloc: Global, name: &HeadName) -> Result<Bytes, Memory>
    ensures { IfOk result (λ bytes. bytes ≡ public_name name.now) }
{
    match name {
        HeadName::Name(name) => Bytes::from_slice(alloc, name.bytes.as_slice()),
        HeadName::Operator(_, sign) => operator_name(alloc, *sign),
    }
}

/// The name of a function, which is that of its first body.
pub fn group_name(alloc: Global, bodies: &List<Written>) -> Result<Bytes, Memory>
    ensures { IfOk result (λ name. name ≡ spec.group_name (map written_view bodies.now)) }
{
    match bodies.as_slice() {
        [] => Ok(Bytes::new(alloc)),
        [first, ..] => head_name(alloc, &first.function.head.name),
    }
}

/// The names of functions in order.
fn names_of(alloc: Global, groups: &[Group]) -> Result<List<Bytes>, Memory>
    ensures { IfOk result (λ list. list ≡
        map (λ it. spec.group_name (group_view it).bodies) groups.now) }
{
    let mut list = List::new(alloc);
    for group in groups {
        list.push(group_name(alloc, &group.bodies)?)?;
    }
    Ok(list)
}

/// The names of the functions of a source by number, as they are written (Language Guide,
/// "Functions", "User-defined operators"): several entry functions and operators may share one.
///
/// # Errors
///
/// `Memory` for want of memory.
#[tactic(auto, using(crate::proofs::HeldNameLaws::names_are))]
pub fn names_by_number(alloc: Global, source: &Source) -> Result<List<Bytes>, Memory>
    ensures { IfOk result (λ list. list ≡ names.function_names (source_view source.now)) }
{
    names_of(alloc, source.groups.as_slice())
}
