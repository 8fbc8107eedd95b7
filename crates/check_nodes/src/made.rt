ghost use Rattle.std.specs.Prelude.{◌≡◌, [], ◌++◌, map, IfOk};
ghost use Rattle.pawn_meaning.specs.View.{object_view};
ghost use Rattle.types_rules.specs.Tests.{unless_passed};

use pawn_base::{List, Memory};
use pawn_meaning::Object;
use pawn_tree::At;
use std::alloc::Global;

/// The literals in a part of the source, and the values whose tags don't match, both in token
/// order.
#[derive(Drop)]
pub struct Made {
    pub literals: List<Object>,
    pub warned: List<At>,
}

impl Made {
    /// Neither a literal nor a warning.
    pub fn nothing(alloc: Global) -> Made
        ensures { (result.literals ≡ []) × (result.warned ≡ []) }
    {
        Made {
            literals: List::new(alloc),
            warned: List::new(alloc),
        }
    }

    /// This, and what stands behind it.
    pub fn then(self, more: Made) -> Result<Made, Memory>
        ensures literals { IfOk result (λ both. map object_view both.literals ≡
            map object_view self.literals ++ map object_view more.literals) }
        ensures warned { IfOk result (λ both. both.warned ≡ self.warned ++ more.warned) }
    {
        let Made {
            mut literals,
            mut warned,
        } = self;
        literals.append(more.literals)?;
        warned.append(more.warned)?;
        Ok(Made { literals, warned })
    }

    /// This, a warning where a test failed, and what stands behind both.
    pub fn then_behind(
        self,
        alloc: Global,
        passed: bool,
        at: At,
        more: Made,
    ) -> Result<Made, Memory>
        ensures literals { IfOk result (λ both. map object_view both.literals ≡
            map object_view self.literals ++ map object_view more.literals) }
        ensures warned { IfOk result (λ both. both.warned ≡
            self.warned ++ (unless_passed passed at ++ more.warned)) }
    {
        let second = more.tested_first(alloc, passed, at)?;
        self.then(second)
    }

    /// With a warning behind these where a test failed.
    pub fn then_tested(self, passed: bool, at: At) -> Result<Made, Memory>
        ensures literals { IfOk result (λ both. both.literals ≡ self.literals) }
        ensures warned { IfOk result (λ both. both.warned ≡
            self.warned ++ unless_passed passed at) }
    {
        let Made {
            literals,
            mut warned,
        } = self;
        if !passed {
            warned.push(at)?;
        }
        Ok(Made { literals, warned })
    }

    /// With a warning before these where a test failed.
    pub fn tested_first(self, alloc: Global, passed: bool, at: At) -> Result<Made, Memory>
        ensures literals { IfOk result (λ both. both.literals ≡ self.literals) }
        ensures warned { IfOk result (λ both. both.warned ≡
            unless_passed passed at ++ self.warned) }
    {
        let Made {
            literals,
            warned: others,
        } = self;
        let mut warned = List::new(alloc);
        if !passed {
            warned.push(at)?;
        }
        warned.append(others)?;
        Ok(Made { literals, warned })
    }
}
