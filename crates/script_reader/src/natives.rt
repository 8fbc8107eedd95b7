ghost use Rattle.std.specs.Prelude.{◌≡◌, [], codes, None, Some, OnOk};
ghost use Rattle.serde_json.specs.Find.{get};
ghost use Rattle.serde_json.specs.View.{view, items_view};
ghost use Rattle.script_reader.specs.Verdict.{Follows, Leaves, each};
ghost use Rattle.script_reader.specs.declared.fault.Field.TheVariants as field;
ghost use Rattle.script_reader.specs.Rules.{optional, required, some_rule, cell_rule};
ghost use Rattle.script_reader.specs.Forms.{form_rule, forms_rule};
ghost use Rattle.script_reader.specs.Natives.{is_name, name_rule, native_rule, natives_rule};
ghost use Rattle.script_reader.specs.Natives.{native_step, added_rule, names_of};

use super::fault::{Field, ScriptFault};
use super::forms::{form, form_list};
use super::rules::{cell, fields};
use host_script::{Form, NAME_LIMIT, Native};
use pawn_base::{Bytes, List, Names};
use serde_json::Value;
use std::alloc::Global;

/// The natives of a script.
#[tactic(auto, unfolding(crate::specs::Natives::natives_rule))]
pub(crate) fn native_list(alloc: Global, value: &Value) -> Result<List<Native>, ScriptFault>
    ensures { Follows (natives_rule (view value.now)) result }
{
    let Some(list) = value.as_array() else {
        return Err(ScriptFault::Shape(Field::Natives));
    };
    natives_in(alloc, list.as_slice())
}

#[tactic(auto, using(crate::proofs::ItemLaws::items))]
fn natives_in(alloc: Global, items: &[Value]) -> Result<List<Native>, ScriptFault>
    ensures { Follows (each native_step [] (items_view items.now)) result }
{
    let mut names = Names::new(alloc);
    let mut done = List::new(alloc);
    for item in items {
        read_native(alloc, &mut names, &mut done, item)?;
    }
    Ok(done)
}

#[tactic(auto, unfolding(crate::specs::Natives::native_step))]
fn read_native(
    alloc: Global,
    names: &mut Names,
    done: &mut List<Native>,
    value: &Value,
) -> Result<(), ScriptFault>
    requires { names.old ≡ names_of done.old }
    ensures read { Leaves (native_step done.old (view value.now)) done.new result }
    ensures names { OnOk result (names.new ≡ names_of done.new) }
{
    let native = native(alloc, value)?;
    add_native(alloc, names, done, native)
}

/// Adds a native, where no other has its name.
#[tactic(auto, unfolding(crate::specs::Natives::added_rule))]
fn add_native(
    alloc: Global,
    names: &mut Names,
    done: &mut List<Native>,
    native: Native,
) -> Result<(), ScriptFault>
    requires { names.old ≡ names_of done.old }
    ensures added { Leaves (added_rule done.old native) done.new result }
    ensures names { OnOk result (names.new ≡ names_of done.new) }
{
    if names.contains(native.name.as_slice()) {
        return Err(ScriptFault::Shape(Field::Name));
    }
    names.push(alloc, native.name.as_slice())?;
    done.push(native)?;
    Ok(())
}

#[tactic(auto, unfolding(crate::specs::Natives::native_rule), using(crate::proofs::VerdictLaws::verdicts))]
fn native(alloc: Global, value: &Value) -> Result<Native, ScriptFault>
    ensures { Follows (native_rule (view value.now)) result }
{
    fields(value, Field::Natives, &["name", "forms", "rest", "result"])?;
    let name = needed_name(alloc, value)?;
    let forms = native_forms(alloc, value)?;
    let rest = native_rest(value)?;
    let result = native_result(value)?;
    Ok(Native {
        name,
        forms,
        rest,
        result,
    })
}

fn needed_name(alloc: Global, value: &Value) -> Result<Bytes, ScriptFault>
    ensures { let found = get (codes "name") (view value.now) in
        Follows (required field.Natives name_rule found) result }
{
    match value.get("name") {
        Some(name) => native_name(alloc, name),
        None => Err(ScriptFault::Shape(Field::Natives)),
    }
}

#[tactic(auto, unfolding(crate::specs::Natives::name_rule))]
fn native_name(alloc: Global, value: &Value) -> Result<Bytes, ScriptFault>
    ensures { Follows (name_rule (view value.now)) result }
{
    let Some(text) = value.as_str() else {
        return Err(ScriptFault::Shape(Field::Name));
    };
    let bytes = text.as_bytes();
    if !is_name(bytes) {
        return Err(ScriptFault::Range(Field::Name));
    }
    let name = Bytes::from_slice(alloc, bytes)?;
    Ok(name)
}

/// Whether a text is as long as a name may be.
fn is_name(text: &[u8]) -> bool
    ensures { result ≡ is_name text.now }
{
    1 <= text.len() && text.len() <= NAME_LIMIT
}

fn native_forms(alloc: Global, value: &Value) -> Result<List<Form>, ScriptFault>
    ensures { let found = get (codes "forms") (view value.now) in
        Follows (optional [] forms_rule found) result }
{
    match value.get("forms") {
        Some(list) => form_list(alloc, list),
        None => Ok(List::new(alloc)),
    }
}

fn native_rest(value: &Value) -> Result<Option<Form>, ScriptFault>
    ensures { let found = get (codes "rest") (view value.now) in
        Follows (optional None (some_rule (form_rule field.Rest)) found) result }
{
    match value.get("rest") {
        Some(word) => {
            let rest = form(word, Field::Rest)?;
            Ok(Some(rest))
        }
        None => Ok(None),
    }
}

fn native_result(value: &Value) -> Result<Option<i32>, ScriptFault>
    ensures { let found = get (codes "result") (view value.now) in
        Follows (optional None (some_rule (cell_rule field.Result)) found) result }
{
    match value.get("result") {
        Some(number) => {
            let result = cell(number, Field::Result)?;
            Ok(Some(result))
        }
        None => Ok(None),
    }
}
