ghost use Rattle.gen_laws.specs.FilesAgree.{FilesAgree};
ghost use Rattle.gen_laws.specs.CodeIsValid.{CodeIsValid};
ghost use Rattle.gen_laws.specs.FileOf.{ProgramsHaveFiles};
ghost use Rattle.gen_laws.specs.HasProgram.{ProgramsAgree};

/// A file that has the code of a valid program's functions, and its data, agrees with the program's
/// meaning: from each function's address on, with every script, in every room and with all bounds.
pub fn files_agree()
    ensures { FilesAgree }
{}

/// The code of a valid program has no fault, with the addresses of its functions as entries: whole
/// instructions, proper operands, and jumps, case tables, calls and entries that lead to starts.
pub fn code_is_valid()
    ensures { CodeIsValid }
{}

/// A file that has a valid program's code, its data, its entries and its tables agrees with it: it
/// is valid, and whatever it does is what the source means, both ways.
pub fn programs_agree()
    ensures { ProgramsAgree }
{}

/// Each valid program within the limits has such a file.
pub fn programs_have_files()
    ensures { ProgramsHaveFiles }
{}
