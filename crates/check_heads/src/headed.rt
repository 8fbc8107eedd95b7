ghost use Rattle.std.specs.Prelude.{◌≡◌, [], ◌∷◌, None, IfOk};
ghost use Rattle.pawn_meaning.specs.View.{slot_view};
ghost use Rattle.types_rules.specs.Params as spec;
ghost use Rattle.check_nodes.specs.ContextView.{param_view};
ghost use Rattle.check_heads.specs.HeadedView.{headed_view};
ghost use Rattle.check_heads.specs.ParamParts.{headed_behind};

use check_nodes::Param;
use pawn_base::{List, Memory};
use pawn_meaning::Slot;
use pawn_tree::At;
use std::alloc::Global;

/// What a list of parameters is: the parameters, their slots, the tags of `...` where it has it,
/// and what they warn of.
#[derive(Drop)]
pub struct Headed {
    pub params: List<Param>,
    pub slots: List<Slot>,
    pub rest: Option<List<u32>>,
    pub warned: List<At>,
}

/// The tags of `...`, of which there is one at most.
fn either(first: Option<List<u32>>, rest: Option<List<u32>>) -> Option<List<u32>>
    ensures { result ≡ spec.either first rest }
{
    match first {
        None => rest,
        Some(tags) => Some(tags),
    }
}

impl Headed {
    /// No parameter.
    pub fn nothing(alloc: Global) -> Headed
        ensures { headed_view result ≡ spec.no_params }
    {
        Headed {
            params: List::new(alloc),
            slots: List::new(alloc),
            rest: None,
            warned: List::new(alloc),
        }
    }

    /// One parameter with its slot.
    ///
    /// # Errors
    ///
    /// `Memory` for want of memory.
    pub fn one(alloc: Global, param: Param, slot: Slot, warned: List<At>) -> Result<Headed, Memory>
        ensures { IfOk result (λ it. headed_view it ≡ record {
          params = param_view param ∷ [];
          slots = slot_view slot ∷ [];
          rest = None;
          warned = warned;
        }) }
    {
        let mut params = List::new(alloc);
        params.push(param)?;
        let mut slots = List::new(alloc);
        slots.push(slot)?;
        Ok(Headed {
            params,
            slots,
            rest: None,
            warned,
        })
    }

    /// These, and those behind them.
    ///
    /// # Errors
    ///
    /// `Memory` for want of memory.
    pub fn then(self, more: Headed) -> Result<Headed, Memory>
        ensures { IfOk result (λ both. headed_view both
            ≡ headed_behind (headed_view self) (headed_view more)) }
    {
        let Headed {
            mut params,
            mut slots,
            rest,
            mut warned,
        } = self;
        params.append(more.params)?;
        slots.append(more.slots)?;
        warned.append(more.warned)?;
        Ok(Headed {
            params,
            slots,
            rest: either(rest, more.rest),
            warned,
        })
    }
}
