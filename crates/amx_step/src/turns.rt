ghost use Rattle.std.specs.Prelude.{◌≡◌};
ghost use Rattle.amx_ops.specs.Step as steps;
ghost use Rattle.amx_step.specs.Turns.{IsTurn};
ghost use Rattle.amx_step.specs.Groups.{row, row_past_loads, row_past_calls, row_past_sums};
ghost use Rattle.amx_step.specs.Done.{IsAt, IsReady, IsDone, acts};

use super::arithmetic::shift_or_sum;
use super::calls::call_or_jump;
use super::host_instructions::count_or_ask;
use super::loads::load_or_store;
use super::registers::Core;
use super::testing::test_group;
use super::turn::Turn;

/// Does the instruction at CIP (Implementer's Guide, "Instruction reference"). An error changes
/// nothing.
#[inline(always)]
pub fn step(machine: &mut Core) -> Turn
    ensures { IsTurn (steps.step machine.old.amx machine.old.state) machine.old result machine.new }
{
    let kind = machine.kind();
    if kind == 0 {
        return Turn::Errs(6);
    }
    // For the prover alone: by its clause the code is valid, so that the instruction is whole.
    let _ = machine.amx();
    act(machine, i32::from(kind))
}

/// Does the instruction of a number.
#[inline(always)]
#[tactic(auto, using(crate::proofs::Firsts::first_some))]
fn act(machine: &mut Core, number: i32) -> Turn
    requires at { IsAt machine.old }
    requires ready { IsReady machine.old (row number) }
    ensures { IsTurn (acts machine.old (row number)) machine.old result machine.new }
{
    if let Some(turn) = load_or_store(machine, number) {
        return turn;
    }
    match past_loads(machine, number) {
        Some(turn) => turn,
        None => Turn::Errs(6),
    }
}

#[inline(always)]
#[tactic(auto, using(crate::proofs::Firsts::first_some))]
fn past_loads(machine: &mut Core, number: i32) -> Option<Turn>
    requires at { IsAt machine.old }
    requires ready { IsReady machine.old (row_past_loads number) }
    ensures { IsDone (row_past_loads number) machine.old result machine.new }
{
    if let Some(turn) = call_or_jump(machine, number) {
        return Some(turn);
    }
    past_calls(machine, number)
}

#[inline(always)]
#[tactic(auto, using(crate::proofs::Firsts::first_some))]
fn past_calls(machine: &mut Core, number: i32) -> Option<Turn>
    requires at { IsAt machine.old }
    requires ready { IsReady machine.old (row_past_calls number) }
    ensures { IsDone (row_past_calls number) machine.old result machine.new }
{
    if let Some(turn) = shift_or_sum(machine, number) {
        return Some(turn);
    }
    past_sums(machine, number)
}

#[inline(always)]
#[tactic(auto, using(crate::proofs::Firsts::first_some))]
fn past_sums(machine: &mut Core, number: i32) -> Option<Turn>
    requires at { IsAt machine.old }
    requires ready { IsReady machine.old (row_past_sums number) }
    ensures { IsDone (row_past_sums number) machine.old result machine.new }
{
    if let Some(turn) = test_group(machine, number) {
        return Some(turn);
    }
    count_or_ask(machine, number)
}
