ghost use Rattle.std.specs.Prelude.{◌≡◌, IfOk};
ghost use Rattle.names_rules.specs.Verdict.{Stands, Verdict};
ghost use Rattle.types_rules.specs.VariableParts.{Judged};
ghost use Rattle.types_rules.specs.Params as spec;
ghost use Rattle.check_nodes.specs.PartAnswers.{PartAnswers};
ghost use Rattle.check_expressions.specs.JudgedView.{judged_view};
ghost use Rattle.check_heads.specs.HeadedView.{headed_view};
ghost use Rattle.check_heads.specs.ParamParts.{headed_behind};
ghost use Rattle.check_heads.specs.SoFar.{GoesOn, judged_behind, parts_view, progress_view};

use super::headed::Headed;
use check_nodes::PartFault;
use pawn_base::Memory;
use std::alloc::Global;

/// A place in a list, as the number of a parameter.
pub fn number_of(i: usize) -> Result<u32, Memory>
    ensures { IfOk result (λ number. number ≡ i) }
{
    match u32::try_from(i) {
        Ok(number) => Ok(number),
        Err(_) => Err(Memory),
    }
}

// ---- parts that are only judged

/// Whether something fell, behind one more part.
///
/// # Errors
///
/// The fault of the part, and `Memory` for want of memory.
#[tactic(auto, using(crate::proofs::FoldLaws::steps))]
pub fn with_part(fell: bool, part: Result<(), PartFault>) -> Result<bool, PartFault>
    ensures { (v : Verdict Judged) → PartAnswers judged_view v part →
        GoesOn judged_behind parts_view (parts_view fell) v result }
{
    match part {
        Ok(()) => Ok(fell),
        Err(PartFault::Fallen) => Ok(true),
        Err(PartFault::Source { kind, place }) => Err(PartFault::Source { kind, place }),
        Err(PartFault::Memory) => Err(PartFault::Memory),
    }
}

/// All parts, of which one fell or none.
///
/// # Errors
///
/// `Fallen` where one fell.
pub fn all_parts(fell: bool) -> Result<(), PartFault>
    ensures { PartAnswers judged_view (parts_view fell) result }
{
    if fell { Err(PartFault::Fallen) } else { Ok(()) }
}

// ---- parameters

/// Parameters so far, and whether one of them fell.
#[derive(Drop)]
pub struct Progress {
    pub fell: bool,
    pub done: Headed,
}

impl Progress {
    /// No parameter.
    pub fn nothing(alloc: Global) -> Progress
        ensures { progress_view result ≡ Stands spec.no_params }
    {
        Progress {
            fell: false,
            done: Headed::nothing(alloc),
        }
    }

    /// Behind one more parameter.
    ///
    /// # Errors
    ///
    /// The fault of the parameter, and `Memory` for want of memory.
    #[tactic(auto, using(crate::proofs::FoldLaws::steps))]
    pub fn then(self, next: Result<Headed, PartFault>) -> Result<Progress, PartFault>
        ensures { (v : Verdict spec.Headed) → PartAnswers headed_view v next →
            GoesOn headed_behind progress_view (progress_view self) v result }
    {
        let Progress { fell, done } = self;
        match next {
            Ok(it) => Ok(Progress {
                fell,
                done: done.then(it)?,
            }),
            Err(PartFault::Fallen) => Ok(Progress { fell: true, done }),
            Err(PartFault::Source { kind, place }) => Err(PartFault::Source { kind, place }),
            Err(PartFault::Memory) => Err(PartFault::Memory),
        }
    }

    /// All parameters.
    ///
    /// # Errors
    ///
    /// `Fallen` where one fell.
    pub fn all(self) -> Result<Headed, PartFault>
        ensures { PartAnswers headed_view (progress_view self) result }
    {
        if self.fell {
            Err(PartFault::Fallen)
        } else {
            Ok(self.done)
        }
    }
}
