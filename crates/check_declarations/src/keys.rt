ghost use Rattle.types_rules.specs.Declarations as spec;
ghost use Rattle.pawn_verdict.specs.Answers.{Answers};
ghost use Rattle.check_source.specs.KeyView.{key_view};

use check_source::Key;
use pawn_tree::{At, HeadName};
use pawn_verdict::{CheckFault, broken};
use types_rules::BAD_OPERATOR;

/// An operator has a head that some operator may have.
///
/// # Errors
///
/// 66 for another one.
pub fn shaped_key(at: At, key: Key) -> Result<(), CheckFault>
    ensures { Answers (λ it. key_view key.entry) (spec.shaped_key at (key_view key.entry)) result }
{
    match key {
        Key::Named(_) => Ok(()),
        Key::Operates(_) => Ok(()),
        Key::Enters(_) => Ok(()),
        Key::Misshapen => Err(broken(BAD_OPERATOR, at.place)),
    }
}

/// A native is no operator.
///
/// # Errors
///
/// 66 for one.
pub fn native_name(at: At, name: &HeadName) -> Result<(), CheckFault>
    ensures { Answers (λ it. name.now) (spec.native_name at name.now) result }
{
    match name {
        HeadName::Name(_) => Ok(()),
        HeadName::Operator(_, _) => Err(broken(BAD_OPERATOR, at.place)),
    }
}
