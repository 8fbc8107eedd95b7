ghost use Rattle.std.specs.Prelude.{◌++◌};
ghost use Rattle.host_plan.specs.Breaks.{ReadsPlan};
ghost use Rattle.host_plan.specs.Lines.{IsDraft, TakesText};
ghost use Rattle.host_plan.specs.Plans.{ended, plan_lines};
ghost use Rattle.host_plan.specs.Words.{Lacks};

use super::line::read_line;
use super::plan::{Plan, PlanFault};
use super::word::split_at;
use pawn_base::Memory;
use std::alloc::Global;

/// Reads the text of a plan: the plan that it spells, or the first line at which it is none.
pub fn read_plan(alloc: Global, text: &[u8]) -> Result<Plan, PlanFault>
    ensures { ReadsPlan text.now result }
{
    let mut plan = Plan::new(alloc);
    let mut rest = text;
    while let Some((line, more)) = split_at(rest, b'\n') {
        if !take_line(alloc, &mut plan, line)? {
            return Err(PlanFault::Line(plan.count_lines() + 1));
        }
        rest = more;
    }
    end_plan(alloc, plan, rest)
}

/// Takes a line without its byte 10, where it may stand behind those of a plan; whether it may.
fn take_line(alloc: Global, plan: &mut Plan, text: &[u8]) -> Result<bool, Memory>
    ensures { TakesText text.now plan.old plan.new result }
{
    match read_line(alloc, text)? {
        Some(line) => plan.take(line),
        None => Ok(false),
    }
}

/// The plan where nothing stands behind its last byte 10. A line that does lacks its own.
fn end_plan(alloc: Global, plan: Plan, rest: &[u8]) -> Result<Plan, PlanFault>
    requires draft { IsDraft plan }
    requires last { Lacks 10 rest.now }
    ensures { ReadsPlan (ended (plan_lines plan) ++ rest.now) result }
{
    let mut plan = plan;
    if rest.is_empty() {
        if plan.machines.is_empty() {
            return Err(PlanFault::Line(1));
        }
        return Ok(plan);
    }
    take_line(alloc, &mut plan, rest)?;
    Err(PlanFault::Line(plan.count_lines() + 1))
}
