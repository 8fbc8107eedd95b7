ghost use Rattle.std.specs.Prelude.{◌≡◌};
ghost use Rattle.pawn_meaning.specs.View.{scalar_view, array_view};
ghost use Rattle.check_nodes.specs.MeaningView.{cell_view, place_view};

use super::extent::Extent;
use pawn_meaning::{Array, Scalar};

/// Where a variable of one cell stands.
#[derive(Clone, Copy, Debug, PartialEq, Eq)]
pub enum CellAt {
    /// In the object with this number.
    Global(u32),
    /// In the own cell of this slot.
    Slot(u32),
    /// In the cell that this slot refers to.
    Through(u32),
}

impl CellAt {
    /// As a place of the program.
    pub fn scalar(self) -> Scalar
        ensures { scalar_view result ≡ cell_view self }
    {
        match self {
            CellAt::Global(object) => Scalar::Global(object),
            CellAt::Slot(slot) => Scalar::Slot(slot),
            CellAt::Through(slot) => Scalar::Through(slot),
        }
    }
}

/// Where an array stands that has a name.
#[derive(Clone, Copy, Debug, PartialEq, Eq)]
pub enum ArrayAt {
    /// In the object with this number.
    Object(u32),
    /// Where this slot made it.
    Slot(u32),
    /// Where this parameter refers to, and whether its size is known.
    Param(u32, bool),
}

impl ArrayAt {
    /// As an array of the program.
    pub fn array(self) -> Array
        ensures { array_view result ≡ place_view self }
    {
        match self {
            ArrayAt::Object(object) => Array::Object(object),
            ArrayAt::Slot(slot) => Array::SlotArray(slot),
            ArrayAt::Param(slot, known) => Array::ParamArray(slot, known),
        }
    }
}

/// What a declaration that stands makes of its name.
#[derive(Clone, Copy, Debug, PartialEq, Eq)]
pub enum Meaning {
    /// A value and a tag.
    Constant(i32, u32),
    /// A place, a tag, and whether it is constant.
    Variable(CellAt, u32, bool),
    /// An array, how far it reaches, a tag, and whether it is constant.
    Array(ArrayAt, Extent, u32, bool),
    /// A function's number, and the tag of what it gives.
    Function(u32, u32),
    /// The same of a native.
    Native(u32, u32),
    /// An entry function, which no name calls, by the tag of what it gives.
    Entering(u32),
    /// A name that is taken and means nothing.
    Taken,
}
