ghost use Rattle.std.specs.Prelude.{◌≡◌, IfOk, OnOk};
ghost use Rattle.types_rules.specs.Sources as spec;
ghost use Rattle.check_source.specs.KeyView.{key_view};
ghost use Rattle.check_source.specs.GroupsView.{groups_view};
ghost use Rattle.check_source.specs.SourceView.{source_view};
ghost use Rattle.check_functions.specs.Distinct.{IsDistinct, defined_by};

use super::callables::told;
use check_source::{Key, Source};
use pawn_base::Memory;
use pawn_tags::Operators;
use std::alloc::Global;

/// A function more, if it is a user operator.
fn define(operators: &mut Operators, key: Key, number: u32) -> Result<(), Memory>
    ensures { OnOk result (operators.new ≡
        defined_by operators.old number (key_view key.entry)) }
{
    match key {
        Key::Named(_) => Ok(()),
        Key::Operates(it) => {
            let _is_new = operators.define(it.op, it.left, it.right, number)?;
            Ok(())
        }
        Key::Enters(_) => Ok(()),
        Key::Misshapen => Ok(()),
    }
}

/// The user operators of a source, each with the number of its function (Language Guide,
/// "User-defined operators").
///
/// # Errors
///
/// `Memory` for want of memory.
pub fn user_operators(alloc: Global, source: &Source) -> Result<Operators, Memory>
    requires { IsDistinct (groups_view source.now.groups) }
    ensures { IfOk result (λ operators. operators ≡
        spec.operators_from (source_view source.now) 0 (groups_view source.now.groups)) }
{
    let groups = source.groups.as_slice();
    let mut operators = Operators::new(alloc)?;
    for i in 0..groups.len() {
        let number = told(i)?;
        let group = &groups[i];
        define(&mut operators, group.key, number)?;
    }
    Ok(operators)
}
