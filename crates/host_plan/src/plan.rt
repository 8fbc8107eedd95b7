ghost use Rattle.std.specs.Prelude.{◌≡◌, ◌<◌, ◌^◌, length};
ghost use Rattle.host_plan.specs.Lines.{Takes};
ghost use Rattle.host_plan.specs.Plans.{no_lines, plan_lines};

use super::line::Line;
use host_many::Turn;
use pawn_base::{Bytes, List, Memory};
use std::alloc::Global;
use thiserror::Error;

/// The most machines of a plan.
pub const MOST_MACHINES: usize = 16;

/// The names of the files that a machine of a plan is made of.
#[derive(Debug, Drop)]
pub struct MachineFiles {
    pub amx: Bytes,
    pub script: Bytes,
}

/// Machines, and events for them by their numbers, which are counted from 0.
#[derive(Debug, Drop)]
pub struct Plan {
    pub machines: List<MachineFiles>,
    pub events: List<Turn>,
}

/// Why bytes are no plan.
#[derive(Clone, Copy, Debug, PartialEq, Eq, Error)]
pub enum PlanFault {
    /// The number, from 1, of the first line that no plan with the lines before it can have; or of
    /// the line behind the last one, where a line or byte 10 is missing.
    #[error("line {0}")]
    Line(u64),
    #[error("no memory")]
    Memory,
}

impl From<Memory> for PlanFault {
    ghost use Rattle.std.specs.Prelude.{◌≡◌};
    ghost use Rattle.host_plan.specs.declared.plan.PlanFault.TheVariants as variants;

    ghost from_gives = { λ _ fault. fault ≡ variants.Memory };

    fn from(_: Memory) -> PlanFault {
        PlanFault::Memory
    }
}

impl Plan {
    /// Before any line.
    pub(crate) fn new(alloc: Global) -> Plan
        ensures { result ≡ no_lines }
    {
        Plan {
            machines: List::new(alloc),
            events: List::new(alloc),
        }
    }

    /// How many lines it has.
    pub(crate) fn count_lines(&self) -> u64
        requires { length (plan_lines self.now) < 2 ^ 63 }
        ensures { result ≡ length (plan_lines self.now) }
    {
        self.machines.len() as u64 + self.events.len() as u64
    }

    /// Takes a line more, where it may stand behind these; whether it may.
    pub(crate) fn take(&mut self, line: Line) -> Result<bool, Memory>
        ensures { Takes line self.old self.new result }
    {
        match line {
            Line::Machine(files) => self.take_machine(files),
            Line::Event(turn) => self.take_event(turn),
        }
    }

    /// Machines stand before all events.
    fn take_machine(&mut self, files: MachineFiles) -> Result<bool, Memory>
        ensures { Takes (Line.Machine files) self.old self.new result }
    {
        if !self.events.is_empty() || self.machines.len() >= MOST_MACHINES {
            return Ok(false);
        }
        self.machines.push(files)?;
        Ok(true)
    }

    /// An event has one of the machines.
    fn take_event(&mut self, turn: Turn) -> Result<bool, Memory>
        ensures { Takes (Line.Event turn) self.old self.new result }
    {
        if turn.machine() as usize >= self.machines.len() {
            return Ok(false);
        }
        self.events.push(turn)?;
        Ok(true)
    }
}
