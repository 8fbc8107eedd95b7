ghost use Rattle.std.specs.Prelude.{◌≡◌};
ghost use Rattle.types_rules.specs.Signs as spec;
ghost use Rattle.pawn_verdict.specs.SignViews.{between_view};

use pawn_token::Sign;
use pawn_verdict::{Between, between_of};

/// The operator of a sign with `=` behind it.
pub fn updater_of(sign: Sign) -> Between
    ensures { between_view result ≡ spec.updater_of sign }
{
    match sign {
        Sign::MultiplyAssign => between_of(Sign::Star),
        Sign::DivideAssign => between_of(Sign::Slash),
        Sign::RemainderAssign => between_of(Sign::Percent),
        Sign::AddAssign => between_of(Sign::Plus),
        Sign::SubtractAssign => between_of(Sign::Minus),
        Sign::ShiftLeftAssign => between_of(Sign::ShiftLeft),
        Sign::ShiftRightAssign => between_of(Sign::ShiftRight),
        Sign::ShiftUnsignedAssign => between_of(Sign::ShiftUnsigned),
        Sign::AndAssign => between_of(Sign::Ampersand),
        Sign::XorAssign => between_of(Sign::Caret),
        Sign::OrAssign => between_of(Sign::Bar),
        _ => Between::Nothing,
    }
}
