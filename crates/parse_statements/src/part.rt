ghost use Rattle.std.specs.Prelude.{◌≡◌, ◌++◌, [], ◌∷◌, max, IfOk, OnOk};

use pawn_base::{List, Memory};
use pawn_tree::Expr;
use std::alloc::Global;

/// An expression that was read: its level (Language Guide, "Operator precedence"), its height, and
/// the number of the token behind it.
#[derive(Drop)]
pub struct Part {
    pub tree: Box<Expr>,
    pub level: usize,
    pub height: usize,
    pub stop: usize,
}

/// What was read, its height, and the number of the token behind it.
#[derive(Drop)]
pub struct Got<T> {
    pub tree: T,
    pub height: usize,
    pub stop: usize,
}

/// No parts, before the token `stop`.
pub fn no_parts<T>(alloc: Global, stop: usize) -> Got<List<T>>
    ensures tree { result.tree ≡ [] }
    ensures height { result.height ≡ 0 }
    ensures stop { result.stop ≡ stop }
{
    Got {
        tree: List::new(alloc),
        height: 0,
        stop,
    }
}

/// The list of one part.
pub fn one_part<T: Drop>(alloc: Global, part: Got<T>) -> Result<Got<List<T>>, Memory>
    ensures tree { IfOk result (λ parts. parts.tree ≡ part.tree ∷ []) }
    ensures height { IfOk result (λ parts. parts.height ≡ part.height) }
    ensures stop { IfOk result (λ parts. parts.stop ≡ part.stop) }
{
    let mut tree = List::new(alloc);
    tree.push(part.tree)?;
    Ok(Got {
        tree,
        height: part.height,
        stop: part.stop,
    })
}

impl<T: Drop> Got<List<T>> {
    /// Puts the part that was read behind these.
    pub fn add(&mut self, part: Got<T>) -> Result<(), Memory>
        ensures tree { OnOk result (self.new.tree ≡ self.old.tree ++ part.tree ∷ []) }
        ensures height { OnOk result (self.new.height ≡ max self.old.height part.height) }
        ensures stop { OnOk result (self.new.stop ≡ part.stop) }
    {
        self.tree.push(part.tree)?;
        self.height = self.height.max(part.height);
        self.stop = part.stop;
        Ok(())
    }
}

impl<T: Drop> Got<Box<T>> {
    /// The same without its box.
    pub fn unboxed(self) -> Got<T>
        ensures tree { result.tree ≡ self.tree.value }
        ensures height { result.height ≡ self.height }
        ensures stop { result.stop ≡ self.stop }
    {
        Got {
            tree: Box::into_inner(self.tree),
            height: self.height,
            stop: self.stop,
        }
    }
}
