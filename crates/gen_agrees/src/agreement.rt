ghost use Rattle.gen_agrees.specs.Gives.{WhatAgreementGives};

/// A file that agrees with its program shows all events of the meaning and ends as that does, where
/// the room has the meaning's peak and 16 cells, and there is a bound more than it sleeps, each
/// of so many steps as the code has cells for each turn and one more.
#[tactic(auto, using(crate::proofs::GivesLaws::what_agreement_gives_lem))]
pub fn what_agreement_gives()
    ensures { WhatAgreementGives }
{}
