ghost use Rattle.std.specs.Prelude.{◌≡◌, [], List as Plain};
ghost use Rattle.names_rules.specs.Verdict.{Stands, Verdict};
ghost use Rattle.pawn_tree.specs.declared.name.At.{At as Spot};
ghost use Rattle.check_nodes.specs.PartAnswers.{PartAnswers};
ghost use Rattle.check_heads.specs.SoFar.{GoesOn};
ghost use Rattle.check_heads.specs.Counting.{warnings_view, warned_behind};

use check_nodes::PartFault;
use pawn_base::List;
use pawn_tree::At;
use std::alloc::Global;

/// What the constants so far warn of, and whether one of them fell.
#[derive(Drop)]
pub struct Progress {
    pub fell: bool,
    pub warned: List<At>,
}

/// All constants, and the value of the next one, where it is known.
#[derive(Drop)]
pub struct Counting {
    pub done: Progress,
    pub next: Option<i32>,
}

impl Progress {
    /// No constant.
    pub fn nothing(alloc: Global) -> Progress
        ensures { warnings_view result ≡ Stands [] }
    {
        Progress {
            fell: false,
            warned: List::new(alloc),
        }
    }

    /// Behind what one more constant warns of.
    ///
    /// # Errors
    ///
    /// The fault of the constant, and `Memory` for want of memory.
    pub fn then(self, more: Result<List<At>, PartFault>) -> Result<Progress, PartFault>
        ensures { (v : Verdict (Plain Spot)) → PartAnswers (λ warned. warned) v more →
            GoesOn warned_behind warnings_view (warnings_view self) v result }
    {
        let Progress { fell, mut warned } = self;
        match more {
            Ok(it) => {
                warned.append(it)?;
                Ok(Progress { fell, warned })
            }
            Err(PartFault::Fallen) => Ok(Progress { fell: true, warned }),
            Err(PartFault::Source { kind, place }) => Err(PartFault::Source { kind, place }),
            Err(PartFault::Memory) => Err(PartFault::Memory),
        }
    }

    /// What all of them warn of.
    ///
    /// # Errors
    ///
    /// `Fallen` where one fell.
    pub fn all(self) -> Result<List<At>, PartFault>
        ensures { PartAnswers (λ warned. warned) (warnings_view self) result }
    {
        if self.fell {
            Err(PartFault::Fallen)
        } else {
            Ok(self.warned)
        }
    }
}
