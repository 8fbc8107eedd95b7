ghost use Rattle.std.specs.Prelude.{◌≡◌, [], option_map};
ghost use Rattle.serde_json.specs.View.{view, items_view};
ghost use Rattle.script_reader.specs.Verdict.{Follows, Leaves, each};
ghost use Rattle.script_reader.specs.declared.fault.Field.TheVariants as field;
ghost use Rattle.script_reader.specs.Forms.{all_digits, is_plain, count_of, count_rule};
ghost use Rattle.script_reader.specs.Forms.{after_cells, word_rule, form_rule, form_step};
ghost use Rattle.script_reader.specs.Forms.{forms_rule};

use super::fault::{Field, ScriptFault};
use host_script::{CELL_LIMIT, FORM_LIMIT, Form};
use pawn_base::List;
use serde_json::Value;
use std::alloc::Global;

/// The forms of a native's first arguments.
#[tactic(auto, unfolding(crate::specs::Forms::forms_rule), using(crate::proofs::ItemLaws::items_len_is, crate::proofs::ItemLaws::items))]
pub(crate) fn form_list(alloc: Global, value: &Value) -> Result<List<Form>, ScriptFault>
    ensures { Follows (forms_rule (view value.now)) result }
{
    let Some(list) = value.as_array() else {
        return Err(ScriptFault::Shape(Field::Forms));
    };
    if list.len() > FORM_LIMIT {
        return Err(ScriptFault::Range(Field::Forms));
    }
    let mut done = List::new(alloc);
    for item in list {
        add_form(&mut done, item)?;
    }
    Ok(done)
}

#[tactic(auto, unfolding(crate::specs::Forms::form_step))]
fn add_form(done: &mut List<Form>, value: &Value) -> Result<(), ScriptFault>
    ensures { Leaves (form_step done.old (view value.now)) done.new result }
{
    let form = form(value, Field::Forms)?;
    done.push(form)?;
    Ok(())
}

#[tactic(auto, unfolding(crate::specs::Forms::form_rule))]
pub(crate) fn form(value: &Value, name: Field) -> Result<Form, ScriptFault>
    ensures { Follows (form_rule name (view value.now)) result }
{
    match value.as_str() {
        Some(text) => form_of(text.as_bytes(), name),
        None => Err(ScriptFault::Shape(name)),
    }
}

#[tactic(auto, unfolding(crate::specs::Forms::word_rule))]
fn form_of(text: &[u8], name: Field) -> Result<Form, ScriptFault>
    ensures { Follows (word_rule name text.now) result }
{
    if text == b"cell".as_slice() {
        return Ok(Form::Cell);
    }
    if text == b"ref".as_slice() {
        return Ok(Form::Ref);
    }
    if text == b"text".as_slice() {
        return Ok(Form::Text);
    }
    match digits_after_cells(text) {
        Some(digits) => counted_cells(digits, name),
        None => Err(ScriptFault::Shape(name)),
    }
}

#[tactic(auto, unfolding(crate::specs::Forms::after_cells))]
fn digits_after_cells(text: &[u8]) -> Option<&[u8]>
    ensures { option_map (λ digits. digits.now) result ≡ after_cells text.now }
{
    if text.len() >= 6 && &text[..6] == b"cells:".as_slice() {
        Some(&text[6..])
    } else {
        None
    }
}

#[tactic(auto, unfolding(crate::specs::Forms::count_rule))]
fn counted_cells(digits: &[u8], name: Field) -> Result<Form, ScriptFault>
    ensures { Follows (count_rule name digits.now) result }
{
    if !is_plain_decimal(digits) {
        return Err(ScriptFault::Shape(name));
    }
    let count = count(digits);
    if 1 <= count && count <= CELL_LIMIT {
        Ok(Form::Cells(count))
    } else {
        Err(ScriptFault::Range(name))
    }
}

#[tactic(auto, unfolding(crate::specs::Forms::is_plain))]
fn is_plain_decimal(digits: &[u8]) -> bool
    ensures { result ≡ is_plain digits.now }
{
    if digits.is_empty() || digits.len() > 1 && digits[0] == b'0' {
        return false;
    }
    are_digits(digits)
}

fn are_digits(digits: &[u8]) -> bool
    ensures { result ≡ all_digits digits.now }
{
    for digit in digits {
        if *digit < b'0' || b'9' < *digit {
            return false;
        }
    }
    true
}

/// The number that digits spell, or one above the limit.
fn count(digits: &[u8]) -> u32
    ensures { result ≡ count_of 0 digits.now }
{
    let mut value = 0u32;
    for digit in digits {
        if value > CELL_LIMIT {
            return value;
        }
        value = value * 10 + digit.saturating_sub(48) as u32;
    }
    value
}
