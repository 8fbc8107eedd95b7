ghost use Rattle.std.specs.Prelude.{◌≡◌, [], codes, pos, None, Some};
ghost use Rattle.serde_json.specs.Find.{get};
ghost use Rattle.serde_json.specs.View.{view, items_view};
ghost use Rattle.host_script.specs.declared.script.TheConstants.{ARGUMENT_LIMIT};
ghost use Rattle.script_reader.specs.Verdict.{Follows, Leaves, each};
ghost use Rattle.script_reader.specs.declared.fault.Field.TheVariants as field;
ghost use Rattle.script_reader.specs.Rules.{optional, required, cell_rule, natural_rule};
ghost use Rattle.script_reader.specs.Replies.{cell_step, cells_rule, write_rule, write_step};
ghost use Rattle.script_reader.specs.Replies.{writes_rule};
ghost use Rattle.script_reader.specs.Replies.{given_with, error_rule, answer_by, answer_rule};
ghost use Rattle.script_reader.specs.Replies.{answer_step, answers_rule};

use super::fault::{Field, ScriptFault};
use super::rules::{cell, fields, natural, whole};
use host_script::{ANSWER_LIMIT, ARGUMENT_LIMIT, Answer, Write};
use pawn_base::{Cells, List};
use serde_json::Value;
use std::alloc::Global;

/// The answers of a script.
#[tactic(auto, unfolding(crate::specs::Replies::answers_rule), using(crate::proofs::ItemLaws::items_len_is))]
pub(crate) fn answer_list(alloc: Global, value: &Value) -> Result<List<Answer>, ScriptFault>
    ensures { Follows (answers_rule (view value.now)) result }
{
    let Some(list) = value.as_array() else {
        return Err(ScriptFault::Shape(Field::Answers));
    };
    if list.len() > ANSWER_LIMIT {
        return Err(ScriptFault::Range(Field::Answers));
    }
    answers_in(alloc, list.as_slice())
}

#[tactic(auto, using(crate::proofs::ItemLaws::items))]
fn answers_in(alloc: Global, items: &[Value]) -> Result<List<Answer>, ScriptFault>
    ensures { Follows (each answer_step [] (items_view items.now)) result }
{
    let mut done = List::new(alloc);
    for item in items {
        add_answer(alloc, &mut done, item)?;
    }
    Ok(done)
}

#[tactic(auto, unfolding(crate::specs::Replies::answer_step))]
fn add_answer(alloc: Global, done: &mut List<Answer>, value: &Value) -> Result<(), ScriptFault>
    ensures { Leaves (answer_step done.old (view value.now)) done.new result }
{
    let answer = answer(alloc, value)?;
    done.push(answer)?;
    Ok(())
}

#[tactic(auto, unfolding(crate::specs::Replies::answer_rule), using(crate::proofs::VerdictLaws::verdicts))]
fn answer(alloc: Global, value: &Value) -> Result<Answer, ScriptFault>
    ensures { Follows (answer_rule (view value.now)) result }
{
    fields(value, Field::Answers, &["result", "writes", "error"])?;
    match value.get("error") {
        Some(error) => {
            fields(value, Field::Error, &["error"])?;
            error_answer(error)
        }
        None => given(alloc, value),
    }
}

/// An error that ends the run.
#[tactic(auto, unfolding(crate::specs::Replies::error_rule))]
fn error_answer(value: &Value) -> Result<Answer, ScriptFault>
    ensures { Follows (error_rule (view value.now)) result }
{
    let code = whole(value, Field::Error, 2, 127)?;
    if code == 12 {
        return Err(ScriptFault::Range(Field::Error));
    }
    Ok(Answer::Error(code))
}

#[tactic(auto, using(crate::proofs::VerdictLaws::verdicts))]
fn given(alloc: Global, value: &Value) -> Result<Answer, ScriptFault>
    ensures { Follows (answer_by (view value.now) None) result }
{
    let result = answer_result(value)?;
    let writes = answer_writes(alloc, value)?;
    Ok(given_with(result, writes))
}

fn given_with(value: i32, writes: List<Write>) -> Answer
    ensures { result ≡ given_with value writes }
{
    Answer::Given {
        result: value,
        writes,
    }
}

fn answer_result(value: &Value) -> Result<i32, ScriptFault>
    ensures { let found = get (codes "result") (view value.now) in
        Follows (optional (pos 0) (cell_rule field.Result) found) result }
{
    match value.get("result") {
        Some(number) => cell(number, Field::Result),
        None => Ok(0),
    }
}

fn answer_writes(alloc: Global, value: &Value) -> Result<List<Write>, ScriptFault>
    ensures { let found = get (codes "writes") (view value.now) in
        Follows (optional [] writes_rule found) result }
{
    match value.get("writes") {
        Some(list) => write_list(alloc, list),
        None => Ok(List::new(alloc)),
    }
}

#[tactic(auto, unfolding(crate::specs::Replies::writes_rule))]
fn write_list(alloc: Global, value: &Value) -> Result<List<Write>, ScriptFault>
    ensures { Follows (writes_rule (view value.now)) result }
{
    let Some(list) = value.as_array() else {
        return Err(ScriptFault::Shape(Field::Writes));
    };
    writes_in(alloc, list.as_slice())
}

#[tactic(auto, using(crate::proofs::ItemLaws::items))]
fn writes_in(alloc: Global, items: &[Value]) -> Result<List<Write>, ScriptFault>
    ensures { Follows (each write_step [] (items_view items.now)) result }
{
    let mut done = List::new(alloc);
    for item in items {
        add_write(alloc, &mut done, item)?;
    }
    Ok(done)
}

#[tactic(auto, unfolding(crate::specs::Replies::write_step))]
fn add_write(alloc: Global, done: &mut List<Write>, value: &Value) -> Result<(), ScriptFault>
    ensures { Leaves (write_step done.old (view value.now)) done.new result }
{
    let write = write(alloc, value)?;
    done.push(write)?;
    Ok(())
}

#[tactic(auto, unfolding(crate::specs::Replies::write_rule), using(crate::proofs::VerdictLaws::verdicts))]
fn write(alloc: Global, value: &Value) -> Result<Write, ScriptFault>
    ensures { Follows (write_rule (view value.now)) result }
{
    fields(value, Field::Writes, &["arg", "cells"])?;
    let arg = write_arg(value)?;
    let cells = write_cells(alloc, value)?;
    Ok(Write { arg, cells })
}

fn write_arg(value: &Value) -> Result<u32, ScriptFault>
    ensures { let found = get (codes "arg") (view value.now) in
        Follows (required field.Writes (natural_rule field.Arg ARGUMENT_LIMIT) found) result }
{
    match value.get("arg") {
        Some(number) => natural(number, Field::Arg, ARGUMENT_LIMIT),
        None => Err(ScriptFault::Shape(Field::Writes)),
    }
}

fn write_cells(alloc: Global, value: &Value) -> Result<Cells, ScriptFault>
    ensures { let found = get (codes "cells") (view value.now) in
        Follows (required field.Writes cells_rule found) result }
{
    match value.get("cells") {
        Some(list) => cell_list(alloc, list),
        None => Err(ScriptFault::Shape(Field::Writes)),
    }
}

#[tactic(auto, unfolding(crate::specs::Replies::cells_rule))]
fn cell_list(alloc: Global, value: &Value) -> Result<Cells, ScriptFault>
    ensures { Follows (cells_rule (view value.now)) result }
{
    let Some(list) = value.as_array() else {
        return Err(ScriptFault::Shape(Field::Cells));
    };
    cells_in(alloc, list.as_slice())
}

#[tactic(auto, using(crate::proofs::ItemLaws::items))]
fn cells_in(alloc: Global, items: &[Value]) -> Result<Cells, ScriptFault>
    ensures { Follows (each cell_step [] (items_view items.now)) result }
{
    let mut done = Cells::new(alloc);
    for item in items {
        add_cell(&mut done, item)?;
    }
    Ok(done)
}

#[tactic(auto, unfolding(crate::specs::Replies::cell_step))]
fn add_cell(done: &mut Cells, value: &Value) -> Result<(), ScriptFault>
    ensures { Leaves (cell_step done.old (view value.now)) done.new result }
{
    let cell = cell(value, Field::Cells)?;
    done.push(cell)?;
    Ok(())
}
