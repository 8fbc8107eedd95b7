ghost use Rattle.std.specs.Prelude.{◌≡◌, ◌+◌, ◌<◌, ◌^◌, IfOk};
ghost use Rattle.pawn_meaning.specs.View.{cases_view};
ghost use Rattle.pawn_meaning.specs.Weight.{values_in};
ghost use Rattle.gen_laws.specs.SwitchCode.{values_of, cases_values};

use pawn_base::Memory;
use pawn_meaning::Case;

/// The most values of a table.
pub const VALUE_LIMIT: u64 = 268_435_456;

/// How many values a range has.
pub fn range_values(least: i32, greatest: i32) -> u64
    ensures { result ≡ values_in (least, greatest) }
{
    if greatest < least {
        0
    } else {
        (i64::from(greatest) - i64::from(least) + 1) as u64
    }
}

/// How many values some ranges have. No memory holds a table of too many.
#[tactic(auto, using(crate::proofs::CountLaws::values_more, crate::proofs::CountLaws::no_values))]
pub fn ranges_values(ranges: &[(i32, i32)]) -> Result<u64, Memory>
    ensures { IfOk result (λ n. (n ≡ values_of ranges.now) × (n < 2 ^ 33)) }
{
    let mut count = 0;
    for i in 0..ranges.len() {
        let (least, greatest) = ranges[i];
        count += range_values(least, greatest);
        if count >= VALUE_LIMIT {
            return Err(Memory);
        }
    }
    Ok(count)
}

/// How many values some cases have.
#[tactic(auto, using(crate::proofs::CountLaws::cases_more, crate::proofs::CountLaws::no_cases_values))]
pub fn cases_count(cases: &[Case]) -> Result<u32, Memory>
    ensures { IfOk result (λ n. (n ≡ cases_values (cases_view cases.now)) × (n < 2 ^ 28)) }
{
    let mut count = 0;
    for i in 0..cases.len() {
        count += ranges_values(cases[i].ranges.as_slice())?;
        if count >= VALUE_LIMIT {
            return Err(Memory);
        }
    }
    Ok(count as u32)
}
