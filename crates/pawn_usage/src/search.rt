ghost use Rattle.std.specs.Prelude.{◌≡◌, ◌-◌, [], Contains, IfOk, length, take};
ghost use Rattle.std.specs.Prelude.{slice_get, slice_set};
ghost use Rattle.pawn_usage.specs.Chains as chains;
ghost use Rattle.pawn_usage.specs.IsGraph.{IsGraph, plain};
ghost use Rattle.pawn_usage.specs.Marks as spec;

use super::graph::Graph;
use pawn_base::{List, Memory};
use std::alloc::Global;

/// How far the search of a function is.
#[derive(Clone, Copy)]
pub enum Progress {
    /// It was not come to, and has so many calls.
    Fresh(usize),
    /// It stands on the path, and so many of its calls are still to be looked at.
    Open(usize),
    /// All that it calls was searched.
    Closed,
}

/// What is known of a function.
#[derive(Clone, Copy)]
pub struct Mark {
    progress: Progress,
    /// The most cells that it needs with what it calls, as far as that was looked at.
    cells: u64,
    /// The call by which it needs them.
    next: Option<u32>,
}

/// A search along the calls, depth first. It keeps its path itself, so that a long chain takes no
/// stack of the host.
#[derive(Drop)]
pub struct Search {
    marks: Vec<Mark>,
    /// Each of these calls the next one.
    path: Vec<u32>,
}

impl Search {
    /// No function was come to.
    pub fn new(alloc: Global, graph: &Graph) -> Result<Search, Memory>
        requires { IsGraph graph.now }
        ensures { IfOk result (λ search. (search.path.items ≡ []) ×
            spec.IsSearch (plain graph.now) search.marks.items []) }
    {
        let mut marks = Vec::new(alloc);
        for i in 0..graph.len() {
            let mark = first_mark(graph, i);
            marks.push(mark?)?;
        }
        Ok(Search {
            marks,
            path: Vec::new(alloc),
        })
    }

    /// The functions of the path.
    pub fn into_path(self) -> List<u32>
        ensures { result ≡ self.path.items }
    {
        List::from_vec(self.path)
    }

    /// The most cells that a function needs with what it calls.
    pub fn cells(&self, function: u32) -> u64
        ensures { result ≡ spec.cells_at self.now.marks.items function }
    {
        match self.mark(function) {
            None => 0,
            Some(mark) => mark.cells,
        }
    }

    fn mark(&self, function: u32) -> Option<Mark>
        ensures { result ≡ slice_get self.now.marks.items function }
    {
        self.marks.as_slice().get(function as usize).copied()
    }

    /// The mark of a function on the path, and how many of its calls are still to be looked at.
    fn open_mark(&self, function: u32) -> Option<(Mark, usize)>
        ensures { spec.IsOpenMark self.now.marks.items function result }
    {
        let mark = self.mark(function)?;
        match mark.progress {
            Progress::Open(left) => Some((mark, left)),
            _ => None,
        }
    }

    /// Puts a mark in place of a function's.
    fn set(&mut self, function: u32, mark: Mark)
        ensures marks { self.new.marks.items ≡ slice_set self.old.marks.items function mark }
        ensures path { self.new.path.items ≡ self.old.path.items }
    {
        if let Some(place) = self.marks.get_mut(function as usize) {
            *place = mark;
        }
    }

    /// Searches all that is called from some functions on, until the path comes back to one of its
    /// functions: then it is a recursive chain.
    ///
    /// # Errors
    ///
    /// `Memory` for want of memory, or where a sum of needs doesn't fit 64 bits.
    pub fn explore(&mut self, graph: &Graph, starts: &[u32]) -> Result<bool, Memory>
        requires graph { IsGraph graph.now }
        requires rests { spec.IsAtRest (plain graph.now) self.now }
        requires starts { starts.now ≡ chains.starts (plain graph.now) }
        ensures { IfOk result (spec.Explores (plain graph.now) self.new) }
    {
        for i in 0..starts.len() {
            if self.visit(graph, starts[i])? {
                return Ok(true);
            }
        }
        Ok(false)
    }

    /// Searches all that is called from a function on.
    fn visit(&mut self, graph: &Graph, start: u32) -> Result<bool, Memory>
        requires graph { IsGraph graph.now }
        requires rests { spec.IsAtRest (plain graph.now) self.now }
        requires starts { Contains (chains.starts (plain graph.now)) start }
        ensures { IfOk result (spec.Visits (plain graph.now) start self.old self.new) }
    {
        if !self.open(graph, start)? {
            return Ok(false);
        }
        while let Some(top) = self.path.as_slice().last() {
            let top = *top;
            if self.step(graph, top)? {
                return Ok(true);
            }
        }
        Ok(false)
    }

    /// Begins a path with a function that was not come to.
    fn open(&mut self, graph: &Graph, start: u32) -> Result<bool, Memory>
        requires graph { IsGraph graph.now }
        requires rests { spec.IsAtRest (plain graph.now) self.now }
        requires starts { Contains (chains.starts (plain graph.now)) start }
        ensures { IfOk result (spec.Opens (plain graph.now) start self.old self.new) }
    {
        let Some(mark) = self.mark(start) else {
            return Ok(false);
        };
        let Progress::Fresh(count) = mark.progress else {
            return Ok(false);
        };
        self.path.push(start)?;
        self.set(start, mark.with_progress(Progress::Open(count)));
        Ok(true)
    }

    /// Looks at one more call of the last function on the path, or takes it off. Whether the path
    /// comes back to one of its functions.
    fn step(&mut self, graph: &Graph, top: u32) -> Result<bool, Memory>
        requires graph { IsGraph graph.now }
        requires search { spec.IsSearch (plain graph.now) self.now.marks.items self.now.path.items }
        requires ends { spec.EndsWith self.now.path.items top }
        ensures { IfOk result (spec.Steps (plain graph.now) self.old self.new) }
    {
        match self.open_mark(top) {
            Some((mark, 0)) => {
                self.set(top, mark.with_progress(Progress::Closed));
                self.leave();
                Ok(false)
            }
            Some((mark, left)) => {
                let now = mark.with_progress(Progress::Open(left - 1));
                self.look(graph, top, now, graph.callee(top, left - 1))
            }
            None => {
                self.leave();
                Ok(false)
            }
        }
    }

    /// Takes the last function off the path.
    fn leave(&mut self)
        ensures marks { self.new.marks.items ≡ self.old.marks.items }
        ensures path { self.new.path.items ≡
            take (length self.old.path.items - 1) self.old.path.items }
    {
        let rest = self.path.as_slice().len().saturating_sub(1);
        self.path.truncate(rest);
    }

    /// Looks at a call of the last function on the path: what it needs is taken into account, or
    /// first it is searched.
    fn look(
        &mut self,
        graph: &Graph,
        top: u32,
        mark: Mark,
        callee: Option<u32>,
    ) -> Result<bool, Memory>
        requires graph { IsGraph graph.now }
        requires call { spec.IsAtCall (plain graph.now) self.now top mark callee }
        ensures { IfOk result (spec.Steps (plain graph.now) self.old self.new) }
    {
        let Some(callee) = callee else {
            self.set(top, mark);
            return Ok(false);
        };
        let Some(called) = self.mark(callee) else {
            self.set(top, mark);
            return Ok(false);
        };
        match called.progress {
            Progress::Fresh(count) => {
                self.path.push(callee)?;
                self.set(callee, called.with_progress(Progress::Open(count)));
                Ok(false)
            }
            Progress::Open(_) => {
                self.path.push(callee)?;
                Ok(true)
            }
            Progress::Closed => {
                let Some(cells) = graph.need(top).checked_add(called.cells) else {
                    return Err(Memory);
                };
                self.set(top, mark.with_call(cells, callee));
                Ok(false)
            }
        }
    }

    /// Of some functions one that needs the most cells with what it calls.
    pub fn greatest(&self, starts: &[u32]) -> u32
        requires { ¬ (starts.now ≡ []) }
        ensures { spec.IsGreatest self.now starts.now result }
    {
        let mut greatest = starts[0];
        for i in 0..starts.len() {
            if self.cells(starts[i]) > self.cells(greatest) {
                greatest = starts[i];
            }
        }
        greatest
    }

    /// The chain from a function on by which it needs its cells.
    ///
    /// # Errors
    ///
    /// `Memory` for want of memory.
    pub fn chain(&self, alloc: Global, graph: &Graph, start: u32) -> Result<List<u32>, Memory>
        requires search { spec.IsSearch (plain graph.now) self.now.marks.items [] }
        requires start { chains.IsStart (plain graph.now) start }
        ensures { IfOk result (λ chain. chains.IsChain (plain graph.now) chain ×
            (chains.chain_need (plain graph.now) chain ≡ spec.cells_at self.now.marks.items start)) }
    {
        let mut chain = List::new(alloc);
        chain.push(start)?;
        let mut last = start;
        while let Some(next) = self.next(last) {
            chain.push(next)?;
            last = next;
        }
        Ok(chain)
    }

    /// The call by which a function needs its cells.
    fn next(&self, function: u32) -> Option<u32>
        ensures { result ≡ spec.next_at self.now.marks.items function }
    {
        match self.mark(function) {
            None => None,
            Some(mark) => mark.next,
        }
    }
}

impl Mark {
    fn with_progress(self, progress: Progress) -> Mark
        ensures { result ≡ record self { progress = progress } }
    {
        Mark { progress, ..self }
    }

    /// With a call, where the function needs more cells by it.
    fn with_call(self, cells: u64, callee: u32) -> Mark
        ensures { result ≡ spec.with_call self cells callee }
    {
        if cells > self.cells {
            Mark {
                cells,
                next: Some(callee),
                ..self
            }
        } else {
            self
        }
    }
}

/// The mark of a function that was not come to, by its number.
fn first_mark(graph: &Graph, index: usize) -> Result<Mark, Memory>
    requires { IsGraph graph.now }
    ensures { IfOk result (spec.IsFirst (plain graph.now) index) }
{
    let Ok(number) = u32::try_from(index) else {
        return Err(Memory);
    };
    Ok(Mark {
        progress: Progress::Fresh(graph.calls(number)),
        cells: graph.need(number),
        next: None,
    })
}
