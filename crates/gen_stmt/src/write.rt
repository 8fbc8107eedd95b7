ghost use Rattle.std.specs.Prelude.{◌≡◌, ◌+◌, ◌*◌, ◌<◌, ◌≤◌, ◌^◌, pos, ◌+ℤ◌, length};
ghost use Rattle.pawn_meaning.specs.View.{cases_view};
ghost use Rattle.pawn_meaning.specs.Weight.{values_in};
ghost use Rattle.gen_laws.specs.SwitchCode.{values_of, cases_values};
ghost use Rattle.gen_expr.specs.Filled.{filled};
ghost use Rattle.gen_stmt.specs.Over.{over, pairs_of, ranges_pairs, cases_pairs};

use super::count::range_values;
use gen_expr::Builder;
use pawn_meaning::Case;

/// A value of a range, by its number.
fn value_at(least: i32, greatest: i32, i: u64) -> i32
    requires { i < values_in (least, greatest) }
    ensures { result ≡ least +ℤ pos i }
{
    (i64::from(least) + i as i64) as i32
}

/// Writes a value and where it leads, from a cell on.
fn write_pair(value: i32, to: i32, at: u32, b: Builder) -> Builder
    requires within { at + 2 ≤ length b.code }
    requires few { length b.code < 2 ^ 32 }
    ensures { result ≡ filled (at + 1) to (filled at value b) }
{
    let mut written = b;
    written.fill(at, value);
    written.fill(at + 1, to);
    written
}

/// Writes the pairs of the values of a range, which lead to an address, from a cell on.
fn write_values(least: i32, greatest: i32, to: i32, at: u32, b: Builder) -> Builder
    requires within { at + 2 * values_in (least, greatest) ≤ length b.code }
    requires few { length b.code < 2 ^ 32 }
    ensures { result ≡ over at (pairs_of least (values_in (least, greatest)) to) b }
{
    let mut written = b;
    let count = range_values(least, greatest);
    for i in 0..count {
        let value = value_at(least, greatest, i);
        written = write_pair(value, to, at + 2 * i as u32, written);
    }
    written
}

/// Writes the pairs of a range, and says where they end.
fn write_range(range: &(i32, i32), to: i32, at: u32, b: Builder) -> (Builder, u32)
    requires within { at + 2 * values_in range.now ≤ length b.code }
    requires few { length b.code < 2 ^ 32 }
    ensures written { result.0 ≡ over at (pairs_of range.now.0 (values_in range.now) to) b }
    ensures end { result.1 ≡ at + 2 * values_in range.now }
{
    let count = range_values(range.0, range.1);
    let written = write_values(range.0, range.1, to, at, b);
    (written, at + 2 * count as u32)
}

/// Writes the pairs of some ranges, and says where they end.
#[tactic(auto, using(crate::proofs::CountLaws::values_more, crate::proofs::WriteLaws::no_ranges))]
fn write_ranges(ranges: &[(i32, i32)], to: i32, at: u32, b: Builder) -> (Builder, u32)
    requires within { at + 2 * values_of ranges.now ≤ length b.code }
    requires few { length b.code < 2 ^ 32 }
    ensures written { result.0 ≡ over at (ranges_pairs ranges.now to) b }
    ensures end { result.1 ≡ at + 2 * values_of ranges.now }
{
    let mut written = b;
    let mut cell = at;
    for i in 0..ranges.len() {
        let (next, end) = write_range(&ranges[i], to, cell, written);
        written = next;
        cell = end;
    }
    (written, cell)
}

/// Writes the pairs of cases, of which each leads to its address.
#[tactic(auto, using(crate::proofs::CountLaws::cases_more, crate::proofs::WriteLaws::no_cases_pairs))]
pub fn write_cases(cases: &[Case], to: &[i32], at: u32, b: Builder) -> Builder
    requires within { at + 2 * cases_values (cases_view cases.now) ≤ length b.code }
    requires few { length b.code < 2 ^ 32 }
    requires each { length to.now ≡ length cases.now }
    ensures { result ≡ over at (cases_pairs (cases_view cases.now) to.now) b }
{
    let mut written = b;
    let mut cell = at;
    for i in 0..cases.len() {
        let case = &cases[i];
        let target = &to[i];
        let (next, end) = write_ranges(case.ranges.as_slice(), *target, cell, written);
        written = next;
        cell = end;
    }
    written
}
