ghost use Rattle.std.specs.Prelude.{◌≡◌, length, IfOk};
ghost use Rattle.pawn_meaning.specs.View.{args_view};
ghost use Rattle.gen_sim.specs.Results.{temporaries_in};

use super::put::count_of;
use pawn_base::Memory;
use pawn_meaning::Arg;

/// How many arguments have a cell of their own.
#[tactic(auto, using(crate::proofs::ArgLaws::temporaries_more, crate::proofs::ArgLaws::none_temporary))]
pub(crate) fn temporaries(args: &[Arg]) -> Result<u32, Memory>
    ensures { IfOk result (λ count. count ≡ temporaries_in (args_view args.now)) }
{
    let mut count = 0usize;
    for arg in args {
        if matches!(arg, Arg::Temp(_)) {
            count += 1;
        }
    }
    count_of(count)
}
