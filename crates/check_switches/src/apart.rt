ghost use Rattle.std.specs.Prelude.{◌≡◌, false, IfOk, IsPermutation, IsSortedBy};
ghost use Rattle.std.specs.List.{list_any};
ghost use Rattle.types_rules.specs.Switches as spec;
ghost use Rattle.pawn_verdict.specs.Answers.{Answers};
ghost use Rattle.check_switches.specs.Neighbours.{apart_view, comes_before, neighbours_meet};

use pawn_base::Memory;
use pawn_tree::At;
use pawn_verdict::{CheckFault, broken};
use std::alloc::Global;
use types_rules::CASE_TWICE;

/// Whether a range ends below its start.
fn any_empty(ranges: &[(i32, i32)]) -> bool
    ensures { result ≡ list_any spec.is_empty ranges.now }
{
    ranges.iter().any(|range| range.1 < range.0)
}

/// Whether two ranges have a value in common.
fn meets(x: (i32, i32), y: (i32, i32)) -> bool
    ensures { result ≡ spec.meet x y }
{
    x.0 <= y.1 && y.0 <= x.1
}

/// Whether two neighbours have a value in common.
fn touches(ranges: &[(i32, i32)]) -> bool
    ensures { result ≡ neighbours_meet ranges.now }
{
    for i in 1..ranges.len() {
        if meets(ranges[i - 1], ranges[i]) {
            return true;
        }
    }
    false
}

/// The same ranges in order.
fn in_order(alloc: Global, ranges: &[(i32, i32)]) -> Result<Vec<(i32, i32)>, Memory>
    ensures permutation { IfOk result (λ all. IsPermutation ranges.now all.items) }
    ensures sorted { IfOk result (λ all. IsSortedBy comes_before all.items) }
{
    let mut all = Vec::from_slice(alloc, ranges)?;
    all.sort()?;
    Ok(all)
}

/// Whether some value stands in two ranges, none of which is empty: two ranges in order have a
/// value in common only where neighbours do.
fn any_twice(alloc: Global, ranges: &[(i32, i32)]) -> Result<bool, Memory>
    requires { list_any spec.is_empty ranges.now ≡ false }
    ensures { IfOk result (λ twice. twice ≡ spec.has_twice ranges.now) }
{
    let sorted = in_order(alloc, ranges)?;
    Ok(touches(sorted.as_slice()))
}

/// The ranges of all cases of a `switch`, where no value stands twice.
///
/// # Errors
///
/// 62 for a value that stands twice and for a range that ends below its start.
#[tactic(auto, using(crate::proofs::ApartLaws::aparts))]
pub fn apart(alloc: Global, at: At, ranges: &[(i32, i32)]) -> Result<(), CheckFault>
    ensures { Answers (apart_view ranges.now) (spec.apart at ranges.now) result }
{
    if any_empty(ranges) {
        return Err(broken(CASE_TWICE, at.place));
    }
    if any_twice(alloc, ranges)? {
        return Err(broken(CASE_TWICE, at.place));
    }
    Ok(())
}
