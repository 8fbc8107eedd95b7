ghost use Rattle.pawn_outside.specs.Said.{Said};
ghost use Rattle.command_parts.specs.Told.{with_faults};
ghost use Rattle.pawn_laws.specs.OneLaw.{CompiledRunsAsItMeans};

use pawn_outside::Sink;

/// Over files that tell what they hold: where `compile` put the file of a source, `verify` says that it
/// is valid; and `run` with any number of `resume`s, each over the files that the one before left,
/// writes the text of one trace of that file, which is what the source means, both ways, whatever
/// script serves its natives, from each entry and with all bounds.
pub fn what_is_compiled_runs_as_it_means<S: Sink>()
    ensures { CompiledRunsAsItMeans (with_faults (Said S.taken S.faults S.has_room)) }
{}
