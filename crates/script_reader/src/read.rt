ghost use Rattle.std.specs.Prelude.{◌≡◌, [], codes, false, IfOk};
ghost use Rattle.serde_json.specs.Find.{get};
ghost use Rattle.serde_json.specs.View.{view};
ghost use Rattle.host_script.specs.Ranges.{IsScript};
ghost use Rattle.script_reader.specs.Verdict.{Follows};
ghost use Rattle.script_reader.specs.declared.fault.Field.TheVariants as field;
ghost use Rattle.script_reader.specs.Rules.{optional, flag_rule};
ghost use Rattle.script_reader.specs.Natives.{natives_rule};
ghost use Rattle.script_reader.specs.Replies.{answers_rule};
ghost use Rattle.script_reader.specs.Reading.{ReadsScript, script_rule};

use super::answers::answer_list;
use super::fault::{Field, ScriptFault};
use super::natives::native_list;
use super::rules::{fields, flag};
use host_script::{Answer, Native, Script};
use pawn_base::List;
use serde_json::Value;
use std::alloc::Global;

/// Reads a script, a JSON object (RFC 8259). `Json` says that the bytes are no JSON; `Shape` and
/// `Range` name a field that breaks its form, and which of several isn't told.
pub fn read_script(alloc: Global, bytes: &[u8]) -> Result<Script, ScriptFault>
    ensures reads { ReadsScript bytes.now result }
    ensures ranges { IfOk result IsScript }
{
    match Value::from_slice(alloc, bytes) {
        Ok(value) => script(alloc, &value),
        Err(error) => {
            if error.is_memory() {
                Err(ScriptFault::Memory)
            } else {
                Err(ScriptFault::Json)
            }
        }
    }
}

#[tactic(auto, unfolding(crate::specs::Reading::script_rule), using(crate::proofs::VerdictLaws::verdicts))]
fn script(alloc: Global, value: &Value) -> Result<Script, ScriptFault>
    ensures { Follows (script_rule (view value.now)) result }
{
    fields(value, Field::Script, &["others", "natives", "answers"])?;
    let others = others(value)?;
    let natives = natives(alloc, value)?;
    let answers = answers(alloc, value)?;
    Ok(Script {
        others,
        natives,
        answers,
    })
}

fn others(value: &Value) -> Result<bool, ScriptFault>
    ensures { let found = get (codes "others") (view value.now) in
        Follows (optional false (flag_rule field.Others) found) result }
{
    match value.get("others") {
        Some(others) => flag(others, Field::Others),
        None => Ok(false),
    }
}

fn natives(alloc: Global, value: &Value) -> Result<List<Native>, ScriptFault>
    ensures { let found = get (codes "natives") (view value.now) in
        Follows (optional [] natives_rule found) result }
{
    match value.get("natives") {
        Some(list) => native_list(alloc, list),
        None => Ok(List::new(alloc)),
    }
}

fn answers(alloc: Global, value: &Value) -> Result<List<Answer>, ScriptFault>
    ensures { let found = get (codes "answers") (view value.now) in
        Follows (optional [] answers_rule found) result }
{
    match value.get("answers") {
        Some(list) => answer_list(alloc, list),
        None => Ok(List::new(alloc)),
    }
}
