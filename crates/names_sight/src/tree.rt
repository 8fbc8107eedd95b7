ghost use Rattle.std.specs.Prelude.{◌≡◌, None, map, option_map, IfOk, OnOk};
ghost use Rattle.pawn_tree.specs.View.{item_view, param_view, head_view, decl_view, tree_view};
ghost use Rattle.names_rules.specs.Lists.{all_marks};
ghost use Rattle.names_rules.specs.VariableMarks.{tag_marks};
ghost use Rattle.names_rules.specs.TreeMarks as spec;
ghost use Rattle.names_sight.specs.MarkView.{marks_view, sort_view};

use super::expression_marks::maybe_expr_marks;
use super::mark::{Mark, Sort};
use super::marks::{closes, declares, mentions, opens};
use super::statement::{constant_marks, stmt_marks};
use super::variable::{dims_marks, maybe_tag_marks, vars_marks};
use pawn_base::{List, Memory};
use pawn_cells::Place;
use pawn_tree::{Decl, Head, Item, Name, Param, Tree};
use std::alloc::Global;

// ---- enumerations

fn item_sort<'a>(x: &'a Item, last: Option<&'a Name>) -> Sort<'a>
    ensures { sort_view result ≡
        spec.item_sort (item_view x.now).value (option_map (λ name. name.now) last.entry) }
{
    match &x.value {
        Some(value) => Sort::Constant(value),
        None => match last {
            None => Sort::First,
            Some(last) => Sort::Next(&last.bytes),
        },
    }
}

fn item_marks<'a>(
    place: Place,
    tag: &'a Option<Name>,
    last: Option<&'a Name>,
    x: &'a Item,
    out: &mut List<Mark<'a>>,
) -> Result<(), Memory>
    ensures { OnOk result (marks_view out.new ≡ spec.item_marks place tag.now
        (option_map (λ name. name.now) last.entry) (item_view x.now) (marks_view out.old)) }
{
    maybe_expr_marks(&x.value, out)?;
    declares(out, place, true, &x.name, tag.as_ref(), item_sort(x, last))
}

fn label_marks<'a>(
    place: Place,
    name: &'a Option<Name>,
    last: Option<&'a Name>,
    count: usize,
    out: &mut List<Mark<'a>>,
) -> Result<(), Memory>
    ensures { OnOk result (marks_view out.new ≡ spec.label_marks place name.now
        (option_map (λ name. name.now) last.entry) count (marks_view out.old)) }
{
    let Some(name) = name else {
        return Ok(());
    };
    let Some(last) = last else {
        return Ok(());
    };
    declares(
        out,
        place,
        true,
        name,
        Some(name),
        Sort::Label(&last.bytes, count),
    )
}

fn items_marks<'a>(
    place: Place,
    name: &'a Option<Name>,
    list: &'a List<Item>,
    out: &mut List<Mark<'a>>,
) -> Result<(), Memory>
    ensures { OnOk result (marks_view out.new ≡ spec.items_marks place name.now None 0
        (map item_view list.now) (marks_view out.old)) }
{
    let items = list.as_slice();
    let mut last = None;
    for i in 0..items.len() {
        let item = &items[i];
        item_marks(place, name, last, item, out)?;
        last = Some(&item.name);
    }
    label_marks(place, name, last, items.len(), out)
}

// ---- functions

fn tags_marks<'a>(list: &'a List<Name>, out: &mut List<Mark<'a>>) -> Result<(), Memory>
    ensures { OnOk result (marks_view out.new ≡ all_marks tag_marks list.now (marks_view out.old)) }
{
    let items = list.as_slice();
    for i in 0..items.len() {
        mentions(out, &items[i].bytes)?;
    }
    Ok(())
}

fn param_marks<'a>(place: Place, x: &'a Param, out: &mut List<Mark<'a>>) -> Result<(), Memory>
    ensures { OnOk result (marks_view out.new ≡
        spec.param_marks place (param_view x.now) (marks_view out.old)) }
{
    match x {
        Param::Rest(_, tags) => tags_marks(tags, out),
        Param::Plain {
            tags,
            name,
            dims,
            value,
            ..
        } => {
            tags_marks(tags, out)?;
            dims_marks(dims, out)?;
            maybe_expr_marks(value, out)?;
            let tag = tags.as_slice().first();
            declares(out, place, false, name, tag, Sort::Parameter(dims))
        }
    }
}

fn params_marks<'a>(
    place: Place,
    list: &'a List<Param>,
    out: &mut List<Mark<'a>>,
) -> Result<(), Memory>
    ensures { OnOk result (marks_view out.new ≡
        all_marks (spec.param_marks place) (map param_view list.now) (marks_view out.old)) }
{
    let items = list.as_slice();
    for i in 0..items.len() {
        param_marks(place, &items[i], out)?;
    }
    Ok(())
}

fn head_marks<'a>(place: Place, x: &'a Head, out: &mut List<Mark<'a>>) -> Result<(), Memory>
    ensures { OnOk result (marks_view out.new ≡
        spec.head_marks place (head_view x.now) (marks_view out.old)) }
{
    maybe_tag_marks(&x.tag, out)?;
    opens(out)?;
    params_marks(place, &x.params, out)
}

// ---- the whole

fn decl_marks<'a>(x: &'a Decl, out: &mut List<Mark<'a>>) -> Result<(), Memory>
    ensures { OnOk result (marks_view out.new ≡
        spec.decl_marks (decl_view x.now) (marks_view out.old)) }
{
    match x {
        Decl::Variables(at, x) => vars_marks(at.place, true, &x.vars, out),
        Decl::Constant(at, x) => constant_marks(at.place, true, x, out),
        Decl::Enum(at, name, items) => {
            maybe_tag_marks(name, out)?;
            items_marks(at.place, name, items, out)
        }
        Decl::Native(at, head) | Decl::Forward(at, _, head) => {
            head_marks(at.place, head, out)?;
            closes(out)
        }
        Decl::Function(at, x) => {
            head_marks(at.place, &x.head, out)?;
            stmt_marks(&x.body, out)?;
            closes(out)
        }
    }
}

/// The marks of a tree, in the order of its tokens.
pub fn tree_marks<'a>(alloc: Global, tree: &'a Tree) -> Result<List<Mark<'a>>, Memory>
    ensures { IfOk result (λ marks. marks_view marks ≡ spec.tree_marks (tree_view tree.now)) }
{
    let items = tree.decls.as_slice();
    let mut marks = List::new(alloc);
    for i in 0..items.len() {
        decl_marks(&items[i], &mut marks)?;
    }
    Ok(marks)
}
