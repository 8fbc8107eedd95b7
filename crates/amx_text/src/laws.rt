ghost use Rattle.amx_text.specs.Assembles.{ATextHasOneAnswer, WhatIsListedIsAssembled};
ghost use Rattle.amx_text.specs.Listed.{ATextListsOneFile};
ghost use Rattle.amx_text.specs.Names.{NamesDiffer};

/// A text lists one file at most, since no two instructions have one name. Want of memory apart it
/// has one answer at most, and that to the listing of a valid file that can be written is the file.
pub fn a_text_lists_one_file()
    ensures one { ATextListsOneFile }
    ensures answers { ATextHasOneAnswer }
    ensures back { WhatIsListedIsAssembled }
    ensures names { NamesDiffer }
{}
