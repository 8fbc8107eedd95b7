ghost use Rattle.std.specs.Prelude.{◌≡◌, [], ◌∷◌, map, option_map, IfOk};
ghost use Rattle.pawn_meaning.specs.View.{object_view};
ghost use Rattle.names_rules.specs.Verdict.{Stands, after};
ghost use Rattle.pawn_tree.specs.View.{dim_view, init_view, var_view};
ghost use Rattle.types_rules.specs.Arrays as arrays;
ghost use Rattle.types_rules.specs.Cells as values;
ghost use Rattle.types_rules.specs.Locals as spec;
ghost use Rattle.types_rules.specs.Stood.{stood};
ghost use Rattle.check_nodes.specs.ContextView.{around_view};
ghost use Rattle.check_expressions.specs.ValueViews.{array_value_view, first_view, local_view};
ghost use Rattle.check_locals.specs.StoodView.{stood_view};
ghost use Rattle.check_locals.specs.PointView.{point_view};
ghost use Rattle.check_locals.specs.Tells.{Tells};

use super::answers::told;
use super::declaring::{Declaring, Outcome};
use super::means::tag_of;
use super::point::Point;
use super::stood::{Parts, Stood};
use check_expressions::{ArrayValue, First, LocalValue, array_value, local_value, static_value};
use check_nodes::Made;
use pawn_arrays::Shape;
use pawn_base::{List, Memory};
use pawn_meaning::{Object, Slot, Stmt};
use pawn_tree::{At, Dim, Init, Storage, Var};
use pawn_verdict::CheckFault;
use std::alloc::Global;

// ---- one cell

/// A cell of the body, with its value.
fn new_cell(alloc: Global, point: &Point, it: LocalValue) -> Result<Stood, Memory>
    ensures { IfOk result (λ x. stood_view x ≡
        spec.new_cell (point_view point.now) (local_view it)) }
{
    let mut slots = List::new(alloc);
    slots.push(Slot::Scalar)?;
    let parts = Parts {
        slots,
        made: it.made,
        returns: List::new(alloc),
    };
    Ok(Stood::with(
        alloc,
        Stmt::Local(point.slots, Box::into_inner(it.code)),
        parts,
    )?)
}

/// An object, with the warnings of what it begins with.
fn object_made(alloc: Global, object: Object, warned: List<At>) -> Result<Made, Memory>
    ensures object { IfOk result (λ made. map object_view made.literals ≡ object_view object ∷ []) }
    ensures warned { IfOk result (λ made. made.warned ≡ warned) }
{
    let mut literals = List::new(alloc);
    literals.push(object)?;
    Ok(Made { literals, warned })
}

/// An object, which is no statement.
fn object_alone(alloc: Global, object: Object, warned: List<At>) -> Result<Stood, Memory>
    ensures { IfOk result (λ x. stood_view x ≡
        stood [] (object_view object ∷ []) warned) }
{
    let made = object_made(alloc, object, warned)?;
    Stood::bare(alloc, made)
}

/// A `static` of one cell.
fn static_cell(alloc: Global, constant: bool, it: First) -> Result<Stood, Memory>
    ensures { IfOk result (λ x. stood_view x ≡ spec.static_cell constant (first_view it)) }
{
    let object = Object {
        shape: Shape {
            first: 1,
            second: None,
            third: None,
        },
        constant,
        first: it.cells,
    };
    object_alone(alloc, object, it.warned)
}

// ---- arrays

/// An array of the body: its first cells are an object that isn't constant.
fn new_array(alloc: Global, point: &Point, it: ArrayValue) -> Result<Stood, Memory>
    ensures { IfOk result (λ x. stood_view x ≡
        spec.new_array (point_view point.now) (array_value_view it)) }
{
    let mut slots = List::new(alloc);
    slots.push(Slot::Array(it.shape))?;
    let object = Object {
        shape: it.shape,
        constant: false,
        first: it.cells,
    };
    let parts = Parts {
        slots,
        made: object_made(alloc, object, it.warned)?,
        returns: List::new(alloc),
    };
    let stmt = Stmt::LocalArray(point.slots, point.objects);
    Ok(Stood::with(alloc, stmt, parts)?)
}

/// A `static` that is an array.
fn static_array(alloc: Global, constant: bool, it: ArrayValue) -> Result<Stood, Memory>
    ensures { IfOk result (λ x. stood_view x ≡ spec.static_array constant (array_value_view it)) }
{
    let object = Object {
        shape: it.shape,
        constant,
        first: it.cells,
    };
    object_alone(alloc, object, it.warned)
}

// ---- what is declared

impl<'v> Declaring<'v> {
    /// What a cell of the body begins with.
    fn own_value(
        &self,
        point: &Point,
        tag: u32,
        init: &Option<Init>,
    ) -> Result<Option<LocalValue>, CheckFault>
        ensures { Tells local_view (values.local_value (around_view self.now.cx.now)
            (point_view point.now).scope point.now.objects self.now.at tag
            (option_map init_view init.now)) result }
    {
        let scopes = &point.scopes;
        told(local_value(
            self.alloc,
            self.cx,
            scopes,
            point.objects,
            self.at,
            tag,
            init,
        ))
    }

    /// A cell of the body.
    ///
    /// # Errors
    ///
    /// 53 for a list, 54 for an array.
    #[tactic(auto, using(crate::proofs::ToldLaws::parts))]
    fn own_cell(&self, point: &Point, tag: u32, init: &Option<Init>) -> Outcome
        ensures { Tells stood_view (after
            (values.local_value (around_view self.now.cx.now) (point_view point.now).scope
            point.now.objects self.now.at tag (option_map init_view init.now))
            (λ it. Stands (spec.new_cell (point_view point.now) it))) result }
    {
        let it = self.own_value(point, tag, init)?;
        let Some(it) = it else {
            return Ok(None);
        };
        Ok(Some(new_cell(self.alloc, point, it)?))
    }

    /// What a `static` of one cell begins with.
    fn kept_value(
        &self,
        point: &Point,
        tag: u32,
        init: &Option<Init>,
    ) -> Result<Option<First>, CheckFault>
        ensures { Tells first_view (values.static_value (around_view self.now.cx.now)
            (point_view point.now).scope self.now.at tag
            (option_map init_view init.now)) result }
    {
        told(static_value(self.alloc, self.cx, &point.scopes, self.at, tag, init))
    }

    /// A cell of the source that a body alone sees.
    ///
    /// # Errors
    ///
    /// 53 for a list, 54 for an array, 57 for what is no constant.
    #[tactic(auto, using(crate::proofs::ToldLaws::parts))]
    fn kept_cell(&self, point: &Point, tag: u32, init: &Option<Init>) -> Outcome
        ensures { Tells stood_view (after
            (values.static_value (around_view self.now.cx.now) (point_view point.now).scope
            self.now.at tag (option_map init_view init.now))
            (λ it. Stands (spec.static_cell self.now.constant it))) result }
    {
        let it = self.kept_value(point, tag, init)?;
        let Some(it) = it else {
            return Ok(None);
        };
        Ok(Some(static_cell(self.alloc, self.constant, it)?))
    }

    /// A variable of one cell.
    ///
    /// # Errors
    ///
    /// 53 for a list, 54 for an array; 57 for a `static` that begins with no constant.
    fn local_cell(&self, point: &Point, x: &Var) -> Outcome
        ensures { Tells stood_view (spec.local_cell (around_view self.now.cx.now)
            (point_view point.now) self.now.at self.now.kind self.now.constant
            (var_view x.now)) result }
    {
        let tag = tag_of(self.cx, &x.tag);
        match self.kind {
            Storage::New => self.own_cell(point, tag, &x.init),
            Storage::Static => self.kept_cell(point, tag, &x.init),
            Storage::Stock => self.own_cell(point, tag, &x.init),
        }
    }

    /// The sizes and first cells of an array.
    fn array_cells(
        &self,
        point: &Point,
        tag: u32,
        dim: &Dim,
        dims: &[Dim],
        init: &Option<Init>,
    ) -> Result<Option<ArrayValue>, CheckFault>
        ensures { Tells array_value_view (arrays.array_value (around_view self.now.cx.now)
            (point_view point.now).scope self.now.at tag (dim_view dim.now)
            (map dim_view dims.now) (option_map init_view init.now)) result }
    {
        let scopes = &point.scopes;
        told(array_value(self.alloc, self.cx, scopes, self.at, tag, dim, dims, init))
    }

    /// A variable that is an array.
    ///
    /// # Errors
    ///
    /// 55, 57 and 68 as its sizes and first cells.
    #[tactic(auto, using(crate::proofs::ToldLaws::parts))]
    fn local_array(&self, point: &Point, x: &Var, dim: &Dim, dims: &[Dim]) -> Outcome
        ensures { Tells stood_view (spec.local_by (around_view self.now.cx.now)
            (point_view point.now) self.now.at self.now.kind self.now.constant
            (var_view x.now) (dim_view dim.now ∷ map dim_view dims.now)) result }
    {
        let tag = tag_of(self.cx, &x.tag);
        let it = self.array_cells(point, tag, dim, dims, &x.init)?;
        let Some(it) = it else {
            return Ok(None);
        };
        match self.kind {
            Storage::New => Ok(Some(new_array(self.alloc, point, it)?)),
            Storage::Static => Ok(Some(static_array(self.alloc, self.constant, it)?)),
            Storage::Stock => Ok(Some(new_array(self.alloc, point, it)?)),
        }
    }

    /// A variable with these dimensions.
    fn local_with(&self, point: &Point, x: &Var, dims: &[Dim]) -> Outcome
        ensures { Tells stood_view (spec.local_by (around_view self.now.cx.now)
            (point_view point.now) self.now.at self.now.kind self.now.constant
            (var_view x.now) (map dim_view dims.now)) result }
    {
        match dims.split_first() {
            None => self.local_cell(point, x),
            Some((dim, dims)) => self.local_array(point, x, dim, dims),
        }
    }
}

/// What a variable makes where it is declared (Language Guide, "Declarations"); None where it
/// falls.
///
/// # Errors
///
/// 53, 54, 55, 57 and 68 as its sizes and its first value.
pub fn local_by(here: &Declaring, point: &Point, x: &Var) -> Outcome
    ensures { Tells stood_view (spec.local_by (around_view here.now.cx.now) (point_view point.now)
        here.now.at here.now.kind here.now.constant (var_view x.now)
        (map dim_view x.now.dims)) result }
{
    here.local_with(point, x, x.dims.as_slice())
}
