ghost use Rattle.std.specs.Prelude.{◌≡◌, ◌+◌, [], ◌∷◌, IfOk, OnOk};
ghost use Rattle.types_rules.specs.Points.{beyond, declared, inside};
ghost use Rattle.check_nodes.specs.Scopes.{outer_of, sight_view, without};
ghost use Rattle.check_locals.specs.PointView.{point_view};

use check_nodes::{Scopes, Sight};
use pawn_base::Memory;

/// A place in a body: the declarations in sight there, and how many objects of the source and slots
/// of the body stand before it.
#[derive(Drop)]
pub struct Point<'a> {
    pub scopes: Scopes<'a>,
    pub objects: u32,
    pub slots: u32,
}

/// So many more.
fn and_more(before: u32, more: usize) -> Result<u32, Memory>
    ensures { IfOk result (λ count. count ≡ before + more) }
{
    let Ok(more) = u32::try_from(more) else {
        return Err(Memory);
    };
    match before.checked_add(more) {
        None => Err(Memory),
        Some(count) => Ok(count),
    }
}

impl<'a> Point<'a> {
    /// So many objects and slots more stand before it.
    ///
    /// # Errors
    ///
    /// `Memory` for more than a u32 counts.
    pub fn pass(&mut self, objects: usize, slots: usize) -> Result<(), Memory>
        ensures { OnOk result (point_view self.new ≡
            beyond (point_view self.old) objects slots) }
    {
        let objects = and_more(self.objects, objects)?;
        let slots = and_more(self.slots, slots)?;
        self.objects = objects;
        self.slots = slots;
        Ok(())
    }

    /// A name is declared in the innermost block.
    ///
    /// # Errors
    ///
    /// `Memory` for want of memory.
    #[tactic(auto, using(check_nodes::proofs::IndexLaws::name_viewed))]
    pub fn declare(&mut self, name: &'a [u8], means: Sight) -> Result<(), Memory>
        ensures { OnOk result (point_view self.new ≡ declared (point_view self.old)
            (record { name = name.now; means = sight_view means } ∷ [])) }
    {
        self.scopes.declare(name, means)
    }

    /// A block begins.
    ///
    /// # Errors
    ///
    /// `Memory` for want of memory.
    pub fn enter(&mut self) -> Result<(), Memory>
        ensures { OnOk result (point_view self.new ≡ inside (point_view self.old)) }
    {
        self.scopes.enter()
    }

    /// The innermost block ends.
    pub fn leave(&mut self)
        ensures scopes { self.new.scopes ≡ outer_of self.old.scopes }
        ensures objects { self.new.objects ≡ self.old.objects }
        ensures slots { self.new.slots ≡ self.old.slots }
    {
        self.scopes.leave();
    }

    /// So many of the latest declarations of the innermost block go.
    pub fn forget(&mut self, count: usize)
        ensures scopes { self.new.scopes ≡ without count self.old.scopes }
        ensures objects { self.new.objects ≡ self.old.objects }
        ensures slots { self.new.slots ≡ self.old.slots }
    {
        self.scopes.forget(count);
    }
}
