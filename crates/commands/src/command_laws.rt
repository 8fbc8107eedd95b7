ghost use Rattle.command_parts.specs.Told.{with_faults};
ghost use Rattle.commands.specs.Done.{GoodIsResumed, GoodIsRun};
ghost use Rattle.commands.specs.Good.{GoodFilesAreRead, GoodProgramsStart};
ghost use Rattle.commands.specs.GoodCompile.{GoodIsCompiled};
ghost use Rattle.commands.specs.GoodGo.{GoodIsGone};
ghost use Rattle.commands.specs.GoodImage.{GoodImagesAreRead};
ghost use Rattle.commands.specs.GoodSource.{GoodSourcesGo};
ghost use Rattle.commands.specs.GoodText.{GoodIsAssembled};
ghost use Rattle.commands.specs.PutIsResumed.{PutIsResumed};
ghost use Rattle.pawn_outside.specs.Said.{Said};

use pawn_outside::Sink;

/// Where files tell what they hold, a valid file and a script within their limits are read, but for
/// a fault of the files or want of memory, and they are one program.
#[tactic(auto, using(crate::proofs::GoodLaws::good_files))]
pub fn good_files_are_read()
    ensures { GoodFilesAreRead }
{}

/// A program with an entry that is there and natives that are served is started, but for want of
/// memory.
#[tactic(auto, using(crate::proofs::GoodLaws::good_programs))]
pub fn good_programs_start()
    ensures { GoodProgramsStart }
{}

/// Where files tell what they hold, an image of a program's machine within its limit is read, but
/// for a fault of the files or want of memory, isn't refused, and is that of one state.
#[tactic(auto, using(crate::proofs::ImageLaws::good_images))]
pub fn good_images_are_read()
    ensures { GoodImagesAreRead }
{}

/// Where files tell what they hold, a source with a program stops no `compile`, with a script no
/// `go`, and a main that is there with natives that are served no start, but for a fault of the
/// files or want of memory.
#[tactic(auto, using(crate::proofs::SourceGoLaws::good_sources))]
pub fn good_sources_go()
    ensures { GoodSourcesGo }
{}

/// Where files tell what they hold, and names hold a valid file and a script, with an entry that is
/// there and natives that are served, whatever `run` answers is what the file's run comes to, or is
/// of a fault of the files or of want of memory.
#[tactic(auto, using(crate::proofs::DoneLaws::good_is_run))]
pub fn good_is_run<S: Sink>()
    ensures { GoodIsRun (with_faults (Said S.taken S.faults S.has_room)) }
{}

/// The same of `resume` with an image.
#[tactic(auto, using(crate::proofs::DoneLaws::good_is_resumed))]
pub fn good_is_resumed<S: Sink>()
    ensures { GoodIsResumed (with_faults (Said S.taken S.faults S.has_room)) }
{}

/// Where files tell what they hold: an image that `run` or `resume` put is no faulty one for the
/// next `resume`, which goes on from that sleep, but for a fault of the files or want of memory,
/// and unless the sleep was the code's last instruction.
pub fn put_is_resumed<S: Sink>()
    ensures { PutIsResumed (with_faults (Said S.taken S.faults S.has_room)) }
{}

/// The same of `compile` with a source that has a program: the file isn't put, or is put.
#[tactic(auto, using(crate::proofs::CompileLaws::good_is_compiled))]
pub fn good_is_compiled<S: Sink>()
    ensures { GoodIsCompiled (with_faults (Said S.taken S.faults S.has_room)) }
{}

/// The same of `go` with a source that has a program and a script that serves its natives: the file
/// isn't put, or is put and run.
#[tactic(auto, using(crate::proofs::GoodSourceLaws::good_is_gone))]
pub fn good_is_gone<S: Sink>()
    ensures { GoodIsGone (with_faults (Said S.taken S.faults S.has_room)) }
{}

/// The same of `assemble` with the listing of a valid file that can be written: the file isn't put,
/// or is put.
#[tactic(auto, using(crate::proofs::AssembleLaws::good_is_assembled))]
pub fn good_is_assembled<S: Sink>()
    ensures { GoodIsAssembled (with_faults (Said S.taken S.faults S.has_room)) }
{}
