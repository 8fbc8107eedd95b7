ghost use Rattle.host_plan.specs.Breaks.{ATextHasOneAnswer};

/// But for want of memory a text has one answer: the one plan that it spells, or the one line at
/// which it spells none.
#[tactic(auto, using(crate::proofs::OneLaws::one_answer))]
pub fn a_text_has_one_answer()
    ensures { ATextHasOneAnswer }
{}
