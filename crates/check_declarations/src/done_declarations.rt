ghost use Rattle.std.specs.Prelude.{◌≡◌, IfOk};
ghost use Rattle.types_rules.specs.Declarations as spec;
ghost use Rattle.check_locals.specs.StoodView.{stood_view};
ghost use Rattle.check_declarations.specs.DoneView.{done_view};

use check_locals::{Returned, Stood};
use pawn_base::{List, Memory};
use pawn_meaning::{Body, Object, Slot};
use pawn_tree::At;
use std::alloc::Global;

/// A body with the number of its function, where that begins, the slots of its parameters, and its
/// returns.
#[derive(Drop)]
pub struct Bodied {
    pub number: u32,
    pub at: At,
    pub params: List<Slot>,
    pub body: Body,
    pub returns: List<Returned>,
}

/// The objects that declarations make, their bodies, and what they warn of, all in token order.
#[derive(Drop)]
pub struct Done {
    pub objects: List<Object>,
    pub bodies: Vec<Bodied>,
    pub warned: List<At>,
}

impl Done {
    /// What only warns.
    pub fn warning(alloc: Global, warned: List<At>) -> Done
        ensures { done_view result ≡ spec.warning warned }
    {
        Done {
            objects: List::new(alloc),
            bodies: Vec::new(alloc),
            warned,
        }
    }

    /// Nothing.
    pub fn nothing(alloc: Global) -> Done
        ensures { done_view result ≡ spec.nothing_done }
    {
        Done::warning(alloc, List::new(alloc))
    }

    /// The objects of variables.
    pub fn objects(alloc: Global, x: Stood) -> Done
        ensures { done_view result ≡ spec.objects_done (stood_view x) }
    {
        let parts = Box::into_inner(x.parts);
        let made = parts.made;
        Done {
            objects: made.literals,
            bodies: Vec::new(alloc),
            warned: made.warned,
        }
    }

    /// This, and what stands behind it.
    ///
    /// # Errors
    ///
    /// `Memory` for want of memory.
    pub fn then(self, more: Done) -> Result<Done, Memory>
        ensures { IfOk result (λ both. done_view both
            ≡ spec.done_behind (done_view self) (done_view more)) }
    {
        let Done {
            mut objects,
            mut bodies,
            mut warned,
        } = self;
        objects.append(more.objects)?;
        let mut others = more.bodies;
        bodies.append(&mut others)?;
        warned.append(more.warned)?;
        Ok(Done {
            objects,
            bodies,
            warned,
        })
    }
}
