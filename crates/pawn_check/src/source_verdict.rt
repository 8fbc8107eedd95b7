ghost use Rattle.std.specs.Prelude.{◌≡◌, ◌++◌, map, IfOk};
ghost use Rattle.pawn_tree.specs.declared.name.At.{At as PlainAt};
ghost use Rattle.pawn_tree.specs.View.{tree_view};
ghost use Rattle.pawn_meaning.specs.View.{program_view, public_view};
ghost use Rattle.types_rules.specs.Publics as plain_publics;
ghost use Rattle.types_rules.specs.TypedTrees as spec;
ghost use Rattle.pawn_verdict.specs.Answers.{Answers};
ghost use Rattle.check_declarations.specs.PassedView.{passed_view};
ghost use Rattle.check_source.specs.SourceView.{source_view};
ghost use Rattle.check_declarations.specs.DoneView.{done_view};
ghost use Rattle.pawn_check.specs.TreeParts.{checked_by};
ghost use Rattle.pawn_check.specs.Reads.{IsRead};
ghost use Rattle.pawn_check.specs.View.{checked_view};

use super::checked::Checked;
use super::tree_reading::Reading;
use check_declarations::{Done, has_entry, program_of, sums_stand, whole_stands};
use check_source::Source;
use pawn_base::{List, Memory};
use pawn_cells::Place;
use pawn_meaning::{Program, Public};
use pawn_tree::{At, Tree};
use pawn_verdict::CheckFault;
use std::alloc::Global;

/// What is tested of a source as a whole, whatever its declarations are.
///
/// # Errors
///
/// 70 for a room beyond its range, 71 without a function to start at.
pub fn source_stands(
    dynamic: i32,
    source: &Source,
    publics: &List<Public>,
) -> Result<(), CheckFault>
    requires { map public_view publics.now ≡ plain_publics.publics (source_view source.now) }
    ensures { Answers passed_view (spec.unless (spec.dynamic_faults dynamic
        ++ spec.entry_faults (source_view source.now))) result }
{
    whole_stands(dynamic, has_entry(source, publics))
}

/// Where tokens stand.
fn places(alloc: Global, tokens: &[At]) -> Result<List<Place>, Memory>
    ensures { IfOk result (λ list. list ≡ map (λ (at : PlainAt). at.place) tokens.now) }
{
    let mut list = List::new(alloc);
    for at in tokens {
        list.push(at.place)?;
    }
    Ok(list)
}

/// A program with its warnings, whose sums are within their limits.
#[tactic(auto, using(pawn_verdict::proofs::VerdictLaws::verdicts))]
fn within(program: Program, warnings: List<Place>) -> Result<Checked, CheckFault>
    ensures { Answers checked_view (spec.within_sums
        (record { program = program_view program; warnings = warnings })) result }
{
    sums_stand(&program)?;
    Ok(Checked { program, warnings })
}

/// The program of declarations that stand, with its warnings, for a room of so many cells for heap
/// and stack.
///
/// # Errors
///
/// 68 for the cells of its data, 69 for its weight, or `Memory`.
pub fn finish(
    alloc: Global,
    tree: &Tree,
    reading: &Reading,
    dynamic: i32,
    publics: List<Public>,
    done: Done,
) -> Result<Checked, CheckFault>
    requires read { IsRead (tree_view tree.now) reading.now }
    requires publics { map public_view publics ≡
        plain_publics.publics (source_view reading.now.source) }
    ensures { Answers checked_view (spec.within_sums (checked_by
        (source_view reading.now.source) (tree_view tree.now) dynamic (done_view done))) result }
{
    let Done {
        objects,
        bodies,
        warned,
    } = done;
    let warnings = places(alloc, warned.as_slice())?;
    let program = program_of(
        alloc,
        &reading.source,
        &reading.firsts,
        tree,
        dynamic,
        publics,
        objects,
        bodies,
    )?;
    within(program, warnings)
}
