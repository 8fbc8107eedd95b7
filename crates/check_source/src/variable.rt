ghost use Rattle.std.specs.Prelude.{map, option_map, OnOk};
ghost use Rattle.pawn_tree.specs.View.{first_view, init_view, var_view};
ghost use Rattle.types_rules.specs.CalledIn as spec;
ghost use Rattle.check_source.specs.Adds.{Adds};

use super::expression::in_expr;
use pawn_base::{List, Memory};
use pawn_tree::{First, Init, Var};

/// Adds the names that are called in a first value: the values of an array are constants.
#[tactic(auto, using(crate::proofs::AddLaws::adds))]
fn in_init<'a>(x: &'a Option<Init>, out: &mut List<&'a [u8]>) -> Result<(), Memory>
    ensures { OnOk result (Adds out.old out.new
        (spec.called_by_init (option_map init_view x.now))) }
{
    match x {
        None => Ok(()),
        Some(Init::Value(x)) => in_expr(x, out),
        Some(Init::Braces(..)) => Ok(()),
    }
}

/// Adds the names that are called in variables.
#[tactic(auto, using(crate::proofs::AddLaws::adds))]
pub fn in_vars<'a>(list: &'a List<Var>, out: &mut List<&'a [u8]>) -> Result<(), Memory>
    ensures { OnOk result (Adds out.old out.new
        (spec.called_by_vars (map var_view list.now))) }
{
    let items = list.as_slice();
    for i in 0..items.len() {
        in_init(&items[i].init, out)?;
    }
    Ok(())
}

/// Adds the names that are called in what a `for` does first.
#[tactic(auto, using(crate::proofs::AddLaws::adds))]
pub fn in_first<'a>(x: &'a First, out: &mut List<&'a [u8]>) -> Result<(), Memory>
    ensures { OnOk result (Adds out.old out.new (spec.called_first (first_view x.now))) }
{
    match x {
        First::Nothing => Ok(()),
        First::New(vars) => in_vars(vars, out),
        First::Value(x) => in_expr(x, out),
    }
}
