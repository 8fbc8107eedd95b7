ghost use Rattle.std.specs.Prelude.{◌≡◌, [], map, option_map, IfOk, OnOk};
ghost use Rattle.pawn_arrays.specs.Sizes.{sizes};
ghost use Rattle.pawn_tree.specs.View.{dim_view, init_view, var_view};
ghost use Rattle.types_rules.specs.Scope as plain;
ghost use Rattle.types_rules.specs.Arrays.{shaped};
ghost use Rattle.types_rules.specs.Points as spec;
ghost use Rattle.check_nodes.specs.ContextView.{around_view};
ghost use Rattle.check_nodes.specs.MeaningView.{meaning_view, place_view};
ghost use Rattle.check_nodes.specs.Scopes.{sight_view};
ghost use Rattle.check_locals.specs.PointView.{point_view};

use super::counts::{objects_of_var, slots_of};
use super::declaring::Declaring;
use super::point::Point;
use check_expressions::array_shape;
use check_nodes::{
    ArrayAt, CellAt, Context, Extent, Meaning, PartFault, Sight, UNTAGGED, tag_number,
};
use pawn_arrays::Shape;
use pawn_base::Memory;
use pawn_tree::{Dim, Init, Name, Storage, Var};
use std::alloc::Global;

/// The number of a tag that may be left out.
pub fn tag_of(cx: &Context, tag: &Option<Name>) -> u32
    ensures { result ≡ spec.tag_of (around_view cx.now) tag.now }
{
    match tag {
        None => UNTAGGED,
        Some(tag) => tag_number(cx, tag.bytes.as_slice()),
    }
}

/// What a variable of one cell means behind a place.
fn cell_means(point: &Point, kind: Storage, tag: u32, constant: bool) -> Meaning
    ensures { meaning_view result ≡
        plain.Variable (spec.cell_place kind (point_view point.now)) tag constant }
{
    match kind {
        Storage::New => Meaning::Variable(CellAt::Slot(point.slots), tag, constant),
        Storage::Static => Meaning::Variable(CellAt::Global(point.objects), tag, constant),
        Storage::Stock => Meaning::Variable(CellAt::Slot(point.slots), tag, constant),
    }
}

/// Where an array behind a place stands.
fn array_place(point: &Point, kind: Storage) -> ArrayAt
    ensures { place_view result ≡ spec.array_place kind (point_view point.now) }
{
    match kind {
        Storage::New => ArrayAt::Slot(point.slots),
        Storage::Static => ArrayAt::Object(point.objects),
        Storage::Stock => ArrayAt::Slot(point.slots),
    }
}

/// What an array of these sizes means.
fn whole_means(at: ArrayAt, shape: Shape, tag: u32, constant: bool) -> Meaning
    ensures { meaning_view result ≡
        plain.Array (place_view at) (spec.extent_of (sizes shape)) tag constant }
{
    let extent = Extent {
        first: Some(shape.first),
        second: shape.second,
        third: shape.third,
    };
    Meaning::Array(at, extent, tag, constant)
}

impl<'v> Declaring<'v> {
    /// What an array means: nothing where its sizes don't stand.
    #[tactic(auto, using(crate::proofs::MeansLaws::meanings))]
    fn array_means(
        &self,
        point: &Point,
        place: ArrayAt,
        tag: u32,
        dim: &Dim,
        dims: &[Dim],
        init: &Option<Init>,
    ) -> Result<Sight, Memory>
        ensures { IfOk result (λ it. sight_view it ≡ spec.array_means (place_view place) tag
            self.now.constant (shaped (around_view self.now.cx.now)
            (point_view point.now).scope self.now.at (dim_view dim.now)
            (map dim_view dims.now) (option_map init_view init.now))) }
    {
        match array_shape(self.alloc, self.cx, &point.scopes, self.at, dim, dims, init) {
            Ok(it) => Ok(Sight::Means(whole_means(place, it.shape, tag, self.constant))),
            Err(PartFault::Fallen) => Ok(Sight::Unknown),
            Err(PartFault::Source { .. }) => Ok(Sight::Unknown),
            Err(PartFault::Memory) => Err(Memory),
        }
    }

    /// What a variable with these dimensions means behind it.
    fn means_by(&self, point: &Point, x: &Var, dims: &[Dim]) -> Result<Sight, Memory>
        ensures { IfOk result (λ it. sight_view it ≡ spec.var_by (around_view self.now.cx.now)
            (point_view point.now) self.now.at self.now.kind self.now.constant
            (var_view x.now) (map dim_view dims.now)) }
    {
        let tag = tag_of(self.cx, &x.tag);
        match dims.split_first() {
            None => Ok(Sight::Means(cell_means(point, self.kind, tag, self.constant))),
            Some((dim, dims)) => {
                let place = array_place(point, self.kind);
                self.array_means(point, place, tag, dim, dims, &x.init)
            }
        }
    }
}

/// A variable is declared, and what it makes stands before the place.
///
/// # Errors
///
/// `Memory` for want of memory, and for more objects or slots than a u32 counts.
pub fn declare_var<'a>(here: &Declaring, point: &mut Point<'a>, x: &'a Var) -> Result<(), Memory>
    ensures { OnOk result (point_view point.new ≡ spec.behind_var (around_view here.now.cx.now)
        (point_view point.old) here.now.at here.now.kind here.now.constant (var_view x.now)) }
{
    let kind = here.kind;
    let means = here.means_by(point, x, x.dims.as_slice())?;
    point.pass(objects_of_var(kind, x)?, slots_of(kind))?;
    point.declare(x.name.bytes.as_slice(), means)
}
