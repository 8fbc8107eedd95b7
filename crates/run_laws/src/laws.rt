ghost use Rattle.run_laws.specs.RestorableSleeps.{SleepsAreRestorable};
ghost use Rattle.run_laws.specs.WholeAgreement.{AgreementIsWhole};

/// Where a machine of valid code falls asleep, it can be set to that state again from an image, unless
/// its sleep was the code's last instruction; no file that has the form of a program's ends with
/// one.
pub fn sleeps_are_restorable()
    ensures { SleepsAreRestorable }
{}

/// The trace of a file that agrees with its program is that of the program's meaning: it shows
/// nothing else, ends only as that does, and with room and bounds enough it shows all of it, where
/// the meaning ends and where it goes on for ever.
pub fn agreement_is_whole()
    ensures { AgreementIsWhole }
{}
