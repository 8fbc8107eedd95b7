ghost use Rattle.std.specs.Prelude.{◌≡◌, map, option_map, OnOk};
ghost use Rattle.pawn_tree.specs.Variables.{inits};
ghost use Rattle.pawn_tree.specs.View.{dim_view, init_view, var_view};
ghost use Rattle.names_rules.specs.Lists.{all_marks, maybe_marks};
ghost use Rattle.names_rules.specs.VariableMarks as spec;
ghost use Rattle.names_sight.specs.MarkView.{marks_view};

use super::expression_marks::expr_marks;
use super::mark::{Mark, Sort};
use super::marks::{declares, mentions};
use pawn_base::{List, Memory};
use pawn_cells::Place;
use pawn_tree::{Dim, Init, Name, Var};

/// The marks of a tag that may be left out.
pub fn maybe_tag_marks<'a>(tag: &'a Option<Name>, out: &mut List<Mark<'a>>) -> Result<(), Memory>
    ensures { OnOk result (marks_view out.new ≡
        maybe_marks spec.tag_marks tag.now (marks_view out.old)) }
{
    match tag {
        None => Ok(()),
        Some(tag) => mentions(out, &tag.bytes),
    }
}

fn dim_marks<'a>(x: &'a Dim, out: &mut List<Mark<'a>>) -> Result<(), Memory>
    ensures { OnOk result (marks_view out.new ≡
        spec.dim_marks (dim_view x.now) (marks_view out.old)) }
{
    match x {
        Dim::Open => Ok(()),
        Dim::Cells(x) | Dim::Chars(x) => expr_marks(x, out),
    }
}

/// The marks of dimensions.
pub fn dims_marks<'a>(list: &'a List<Dim>, out: &mut List<Mark<'a>>) -> Result<(), Memory>
    ensures { OnOk result (marks_view out.new ≡
        all_marks spec.dim_marks (map dim_view list.now) (marks_view out.old)) }
{
    let items = list.as_slice();
    for i in 0..items.len() {
        dim_marks(&items[i], out)?;
    }
    Ok(())
}

#[cycle(init)]
fn init_marks<'a>(x: &'a Init, out: &mut List<Mark<'a>>) -> Result<(), Memory>
    ensures { OnOk result (marks_view out.new ≡
        spec.init_marks (init_view x.now) (marks_view out.old)) }
{
    match x {
        Init::Value(x) => expr_marks(x, out),
        Init::Braces(_, list, _) => inits_marks(list, out),
    }
}

#[cycle(init)]
fn inits_marks<'a>(list: &'a List<Init>, out: &mut List<Mark<'a>>) -> Result<(), Memory>
    ensures { OnOk result (marks_view out.new ≡
        spec.inits_marks (inits (map init_view list.now)) (marks_view out.old)) }
{
    let items = list.as_slice();
    for i in 0..items.len() {
        init_marks(&items[i], out)?;
    }
    Ok(())
}

fn maybe_init_marks<'a>(x: &'a Option<Init>, out: &mut List<Mark<'a>>) -> Result<(), Memory>
    ensures { OnOk result (marks_view out.new ≡
        maybe_marks spec.init_marks (option_map init_view x.now) (marks_view out.old)) }
{
    match x {
        None => Ok(()),
        Some(x) => init_marks(x, out),
    }
}

fn var_marks<'a>(
    place: Place,
    outside: bool,
    x: &'a Var,
    out: &mut List<Mark<'a>>,
) -> Result<(), Memory>
    ensures { OnOk result (marks_view out.new ≡
        spec.var_marks place outside (var_view x.now) (marks_view out.old)) }
{
    maybe_tag_marks(&x.tag, out)?;
    dims_marks(&x.dims, out)?;
    maybe_init_marks(&x.init, out)?;
    let sort = Sort::Variable(&x.dims, &x.init);
    declares(out, place, outside, &x.name, x.tag.as_ref(), sort)
}

/// The marks of variables of a node at a place, outside all functions or in one.
pub fn vars_marks<'a>(
    place: Place,
    outside: bool,
    list: &'a List<Var>,
    out: &mut List<Mark<'a>>,
) -> Result<(), Memory>
    ensures { OnOk result (marks_view out.new ≡
        all_marks (spec.var_marks place outside) (map var_view list.now) (marks_view out.old)) }
{
    let items = list.as_slice();
    for i in 0..items.len() {
        var_marks(place, outside, &items[i], out)?;
    }
    Ok(())
}
