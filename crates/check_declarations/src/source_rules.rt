ghost use Rattle.std.specs.Prelude.{◌≡◌, ◌++◌, ◌&&◌, not, pos, int_le};
ghost use Rattle.pawn_meaning.specs.declared.program_limits.TheConstants as limit;
ghost use Rattle.types_rules.specs.declared.fault.TheConstants as number;
ghost use Rattle.types_rules.specs.TypedTrees as spec;
ghost use Rattle.pawn_verdict.specs.Answers.{Answers};
ghost use Rattle.check_declarations.specs.PassedView.{passed_view};

use pawn_cells::Place;
use pawn_meaning::DYNAMIC_LIMIT;
use pawn_verdict::{CheckFault, broken};
use types_rules::{LIMIT_DYNAMIC, NO_FUNCTIONS};

/// Where faults of the source as a whole stand.
pub fn first_line() -> Place
    ensures { result ≡ spec.first_line }
{
    Place { file: 0, line: 1 }
}

/// The room for heap and stack, in cells, is within its range.
fn is_room(dynamic: i32) -> bool
    ensures { result ≡ (int_le (pos 0) dynamic && int_le dynamic limit.DYNAMIC_LIMIT) }
{
    0 <= dynamic && dynamic <= DYNAMIC_LIMIT
}

/// What is tested of a source as a whole, whatever its declarations are: its room for heap and
/// stack in cells, and that it has `main` or a public function (Language Guide, "Functions").
///
/// # Errors
///
/// 70 for the room, 71 without a function to start at, both at the source's first line.
pub fn whole_stands(dynamic: i32, has_entry: bool) -> Result<(), CheckFault>
    ensures { Answers passed_view
        (spec.unless (spec.dynamic_faults dynamic
        ++ spec.whole_fault (not has_entry) number.NO_FUNCTIONS)) result }
{
    if !is_room(dynamic) {
        return Err(broken(LIMIT_DYNAMIC, first_line()));
    }
    if !has_entry {
        return Err(broken(NO_FUNCTIONS, first_line()));
    }
    Ok(())
}
