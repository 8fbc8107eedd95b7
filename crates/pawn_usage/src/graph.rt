ghost use Rattle.std.specs.Prelude.{◌≡◌, ◌<◌, length, map, slice_get, Some, IfOk};
ghost use Rattle.pawn_meaning.specs.Need.{need as need_of_function};
ghost use Rattle.pawn_meaning.specs.View.{program_view};
ghost use Rattle.pawn_usage.specs.Called.{called_by_bodies};
ghost use Rattle.pawn_usage.specs.Chains as spec;
ghost use Rattle.pawn_usage.specs.IsGraph.{IsGraph, plain};

use super::statements::in_bodies;
use pawn_base::{List, Memory};
use pawn_meaning::{Program, need};
use std::alloc::Global;

/// A program with the functions that each function calls, and what each needs.
#[derive(Drop)]
pub struct Graph<'a> {
    program: &'a Program,
    called: List<List<u32>>,
    needs: List<u64>,
}

impl<'a> Graph<'a> {
    /// The graph of a program: one walk over each body.
    ///
    /// # Errors
    ///
    /// `Memory` for want of memory, or where a need doesn't fit 64 bits.
    pub fn new(alloc: Global, program: &'a Program) -> Result<Graph<'a>, Memory>
        ensures { IfOk result (λ graph. IsGraph graph × (plain graph ≡ program_view program.now)) }
    {
        let called = called_by_each(alloc, program);
        let needs = needs_of_each(alloc, program);
        match (called, needs) {
            (Ok(called), Ok(needs)) => Ok(Graph {
                program,
                called,
                needs,
            }),
            _ => Err(Memory),
        }
    }

    /// How many functions there are.
    pub fn len(&self) -> usize
        requires { IsGraph self.now }
        ensures { result ≡ length (plain self.now).functions }
    {
        self.called.len()
    }

    /// How many calls a function has, 0 where there is no such function.
    pub fn calls(&self, function: u32) -> usize
        requires { IsGraph self.now }
        ensures { result ≡ length (spec.called_at (plain self.now) function) }
    {
        match self.called.as_slice().get(function as usize) {
            None => 0,
            Some(called) => called.len(),
        }
    }

    /// The function that is called by the call with this index.
    pub fn callee(&self, function: u32, index: usize) -> Option<u32>
        requires { IsGraph self.now }
        ensures { result ≡ slice_get (spec.called_at (plain self.now) function) index }
    {
        match self.called.as_slice().get(function as usize) {
            None => None,
            Some(called) => called.as_slice().get(index).copied(),
        }
    }

    /// The cells that a call of a function needs, 0 where there is no such function.
    pub fn need(&self, function: u32) -> u64
        requires { IsGraph self.now }
        ensures { result ≡ spec.need_at (plain self.now) function }
    {
        match self.needs.as_slice().get(function as usize) {
            None => 0,
            Some(need) => *need,
        }
    }
}

/// The functions that each function calls.
#[tactic(auto, using(crate::proofs::GraphLaws::mapped_begins))]
fn called_by_each(alloc: Global, program: &Program) -> Result<List<List<u32>>, Memory>
    ensures { IfOk result (λ each. each ≡ map
        (λ it. called_by_bodies (program_view program.now) it.bodies)
        (program_view program.now).functions) }
{
    let functions = program.functions.as_slice();
    let mut each = List::new(alloc);
    for i in 0..functions.len() {
        let mut called = List::new(alloc);
        let added = in_bodies(&functions[i].bodies, program, &mut called);
        added?;
        each.push(called)?;
    }
    Ok(each)
}

/// What each function needs.
fn needs_of_each(alloc: Global, program: &Program) -> Result<List<u64>, Memory>
    ensures { IfOk result (λ each. each ≡ map need_of_function
        (program_view program.now).functions) }
{
    let mut each = List::new(alloc);
    for i in 0..program.functions.len() {
        let cells = exact_need(program, i);
        each.push(cells?)?;
    }
    Ok(each)
}

/// What a function needs, where that and its number can be held.
fn exact_need(program: &Program, index: usize) -> Result<u64, Memory>
    requires { index < length program.now.functions }
    ensures { IfOk result (λ cells. slice_get (map need_of_function
        (program_view program.now).functions) index ≡ Some cells) }
{
    let Ok(number) = u32::try_from(index) else {
        return Err(Memory);
    };
    let cells = need(program, number);
    if cells == u64::MAX {
        return Err(Memory);
    }
    Ok(cells)
}
