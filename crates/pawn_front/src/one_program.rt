ghost use Rattle.pawn_front.specs.OneProgram.{ASourceHasOneProgram, WhatMeansIsNotRefused};

/// At most one program and list of warnings is that of a source, where the files tell what they
/// hold.
pub fn a_source_has_one_program()
    ensures { ASourceHasOneProgram }
{}

/// Where a source has a program, only a fault of the files or want of memory keeps it from being
/// compiled.
pub fn what_means_is_not_refused()
    ensures { WhatMeansIsNotRefused }
{}
