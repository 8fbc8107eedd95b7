ghost use Rattle.std.specs.Prelude.{◌≡◌, map};
ghost use Rattle.serde_json.specs.Find.{as_object};
ghost use Rattle.serde_json.specs.View.{view, members_view};
ghost use Rattle.script_reader.specs.Verdict.{Follows};
ghost use Rattle.script_reader.specs.Rules.{is_known, has_only, fields_rule, flag_rule, whole_rule};
ghost use Rattle.script_reader.specs.Rules.{cell_rule, natural_rule};

use super::fault::{Field, ScriptFault};
use serde_json::{Map, Value};

/// An object with no other fields than these.
pub(crate) fn fields(value: &Value, field: Field, known: &[&str]) -> Result<(), ScriptFault>
    ensures { let words = map (λ k. k.now) known.now in
        Follows (fields_rule field words (as_object (view value.now))) result }
{
    match value.as_object() {
        Some(object) => {
            if has_only(object, known) {
                Ok(())
            } else {
                Err(ScriptFault::Shape(field))
            }
        }
        None => Err(ScriptFault::Shape(field)),
    }
}

fn has_only(object: &Map<String, Value>, known: &[&str]) -> bool
    ensures { result ≡ has_only (map (λ k. k.now) known.now) (members_view object.now.entries) }
{
    for (key, _) in object.iter() {
        if !is_known(known, key) {
            return false;
        }
    }
    true
}

fn is_known(known: &[&str], key: &str) -> bool
    ensures { result ≡ is_known (map (λ k. k.now) known.now) key.now }
{
    for word in known {
        if *word == key {
            return true;
        }
    }
    false
}

/// True or false.
#[tactic(auto, unfolding(crate::specs::Rules::flag_rule))]
pub(crate) fn flag(value: &Value, field: Field) -> Result<bool, ScriptFault>
    ensures { Follows (flag_rule field (view value.now)) result }
{
    match value.as_bool() {
        Some(flag) => Ok(flag),
        None => Err(ScriptFault::Shape(field)),
    }
}

/// A number that fits a cell.
pub(crate) fn cell(value: &Value, field: Field) -> Result<i32, ScriptFault>
    ensures { Follows (cell_rule field (view value.now)) result }
{
    whole(value, field, i32::MIN, i32::MAX)
}

/// A whole number from `low` to `high`.
#[tactic(auto, unfolding(crate::specs::Rules::whole_rule))]
pub(crate) fn whole(value: &Value, field: Field, low: i32, high: i32) -> Result<i32, ScriptFault>
    ensures { Follows (whole_rule field low high (view value.now)) result }
{
    let Some(number) = value.as_number() else {
        return Err(ScriptFault::Shape(field));
    };
    let Some(whole) = number.as_i128() else {
        return Err(ScriptFault::Shape(field));
    };
    if low as i128 <= whole && whole <= high as i128 {
        Ok(whole as i32)
    } else {
        Err(ScriptFault::Range(field))
    }
}

/// A whole number from 0 to `high`.
#[tactic(auto, unfolding(crate::specs::Rules::natural_rule))]
pub(crate) fn natural(value: &Value, field: Field, high: u32) -> Result<u32, ScriptFault>
    ensures { Follows (natural_rule field high (view value.now)) result }
{
    let Some(number) = value.as_number() else {
        return Err(ScriptFault::Shape(field));
    };
    match number.as_u64() {
        Some(whole) => {
            if whole <= high as u64 {
                Ok(whole as u32)
            } else {
                Err(ScriptFault::Range(field))
            }
        }
        None => {
            if number.is_f64() {
                Err(ScriptFault::Shape(field))
            } else {
                Err(ScriptFault::Range(field))
            }
        }
    }
}
