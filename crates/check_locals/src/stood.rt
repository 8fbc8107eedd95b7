ghost use Rattle.std.specs.Prelude.{◌≡◌, [], ◌∷◌, ◌++◌, ◌<◌, map, length, IfOk};
ghost use Rattle.pawn_meaning.specs.View.{object_view, slot_view, stmt_view};
ghost use Rattle.types_rules.specs.Stood as spec;
ghost use Rattle.check_locals.specs.Single.{is_variable};
ghost use Rattle.check_locals.specs.StoodView.{returned_view, stood_of, stood_view};

use check_nodes::Made;
use pawn_base::{List, Memory};
use pawn_meaning::{Slot, Stmt};
use pawn_tree::At;
use std::alloc::Global;

/// A `return`, and whether it gives a value.
#[derive(Clone, Copy, Debug, PartialEq, Eq)]
pub struct Returned {
    pub at: At,
    pub gives: bool,
}

/// What statements make beside themselves, in token order: slots, objects with warnings, and their
/// returns.
#[derive(Drop)]
pub struct Parts {
    pub slots: List<Slot>,
    pub made: Made,
    pub returns: List<Returned>,
}

impl Parts {
    /// Neither slots nor returns.
    pub fn of(alloc: Global, made: Made) -> Parts
        ensures { (result.slots ≡ []) × (result.returns ≡ []) × (result.made ≡ made) }
    {
        Parts {
            slots: List::new(alloc),
            made,
            returns: List::new(alloc),
        }
    }

    /// These, and those behind them.
    pub fn then(self, more: Parts) -> Result<Parts, Memory>
        ensures slots { IfOk result (λ both. map slot_view both.slots ≡
            map slot_view self.slots ++ map slot_view more.slots) }
        ensures objects { IfOk result (λ both. map object_view both.made.literals ≡
            map object_view self.made.literals ++ map object_view more.made.literals) }
        ensures returns { IfOk result (λ both. map returned_view both.returns ≡
            map returned_view self.returns ++ map returned_view more.returns) }
        ensures warned { IfOk result (λ both. both.made.warned ≡
            self.made.warned ++ more.made.warned) }
    {
        let Parts {
            mut slots,
            made,
            mut returns,
        } = self;
        slots.append(more.slots)?;
        returns.append(more.returns)?;
        Ok(Parts {
            slots,
            made: made.then(more.made)?,
            returns,
        })
    }

    /// These behind what a value made.
    pub fn behind(self, made: Made) -> Result<Parts, Memory>
        ensures slots { IfOk result (λ both. both.slots ≡ self.slots) }
        ensures objects { IfOk result (λ both. map object_view both.made.literals ≡
            map object_view made.literals ++ map object_view self.made.literals) }
        ensures returns { IfOk result (λ both. both.returns ≡ self.returns) }
        ensures warned { IfOk result (λ both. both.made.warned ≡ made.warned ++ self.made.warned) }
    {
        Ok(Parts {
            slots: self.slots,
            made: made.then(self.made)?,
            returns: self.returns,
        })
    }
}

/// Typed statements in order. Their parts are in a box, since statements may be as deep as the
/// parser takes them, and each level keeps what stands inside.
#[derive(Drop)]
pub struct Stood {
    pub stmts: Vec<Stmt>,
    pub parts: Box<Parts>,
}

/// A list of one statement.
fn single(alloc: Global, stmt: Stmt) -> Result<Vec<Stmt>, Memory>
    ensures { IfOk result (λ one. one.items ≡ stmt ∷ []) }
{
    let mut one = Vec::new(alloc);
    one.push(stmt)?;
    Ok(one)
}

impl Stood {
    /// What makes no statement.
    pub fn bare(alloc: Global, made: Made) -> Result<Stood, Memory>
        ensures { IfOk result (λ it. stood_view it ≡
            spec.stood [] (map object_view made.literals) made.warned) }
    {
        let parts = Parts::of(alloc, made);
        Ok(Stood {
            stmts: Vec::new(alloc),
            parts: Box::new(alloc, parts)?,
        })
    }

    /// No statement.
    pub fn nothing(alloc: Global) -> Result<Stood, Memory>
        ensures { IfOk result (λ it. stood_view it ≡ spec.nothing_stood) }
    {
        Stood::bare(alloc, Made::nothing(alloc))
    }

    /// A statement with these parts.
    pub fn with(alloc: Global, stmt: Stmt, parts: Parts) -> Result<Stood, Memory>
        ensures { IfOk result (λ it. stood_view it ≡ stood_of (stmt_view stmt ∷ []) parts) }
    {
        let parts = Box::new(alloc, parts)?;
        Ok(Stood {
            stmts: single(alloc, stmt)?,
            parts,
        })
    }

    /// A statement that makes neither slots nor returns.
    pub fn of(alloc: Global, stmt: Stmt, made: Made) -> Result<Stood, Memory>
        ensures { IfOk result (λ it. stood_view it ≡
            spec.stood (stmt_view stmt ∷ []) (map object_view made.literals) made.warned) }
    {
        Stood::with(alloc, stmt, Parts::of(alloc, made))
    }

    /// These statements, and those behind them.
    pub fn then(self, alloc: Global, more: Stood) -> Result<Stood, Memory>
        ensures { IfOk result (λ both. stood_view both ≡
            spec.stood_behind (stood_view self) (stood_view more)) }
    {
        let Stood { mut stmts, parts } = self;
        let Stood {
            stmts: mut others,
            parts: rest,
        } = more;
        stmts.append(&mut others)?;
        let parts = Box::into_inner(parts).then(Box::into_inner(rest))?;
        Ok(Stood {
            stmts,
            parts: Box::new(alloc, parts)?,
        })
    }
}

// ---- one statement where the program has room for one

/// Whether a statement makes a slot.
fn makes_a_slot(stmt: &Stmt) -> bool
    ensures { result ≡ is_variable (stmt_view stmt.now) }
{
    match stmt {
        Stmt::Local(..) => true,
        Stmt::LocalArray(..) => true,
        _ => false,
    }
}

/// A statement by itself: a variable stands in a block.
#[tactic(auto, using(crate::proofs::SingleLaws::alone))]
fn alone(alloc: Global, stmt: Stmt) -> Result<Stmt, Memory>
    ensures { IfOk result (λ it. stmt_view it ≡ spec.one (stmt_view stmt ∷ [])) }
{
    if makes_a_slot(&stmt) {
        Ok(Stmt::Block(List::from_vec(single(alloc, stmt)?)))
    } else {
        Ok(stmt)
    }
}

/// The only statement of a list.
#[tactic(auto, using(crate::proofs::SingleLaws::of_one))]
fn last_of(alloc: Global, stmts: Vec<Stmt>) -> Result<Stmt, Memory>
    requires { length stmts.items ≡ 1 }
    ensures { IfOk result (λ it. stmt_view it ≡ spec.one (map stmt_view stmts.items)) }
{
    let mut stmts = stmts;
    match stmts.pop() {
        None => Ok(Stmt::Empty),
        Some(stmt) => Ok(alone(alloc, stmt)?),
    }
}

/// Statements where the program has room for one.
#[tactic(auto, using(crate::proofs::SingleLaws::any))]
pub fn one_of(alloc: Global, stmts: Vec<Stmt>) -> Result<Stmt, Memory>
    ensures { IfOk result (λ it. stmt_view it ≡ spec.one (map stmt_view stmts.items)) }
{
    let count = stmts.len();
    if count == 0 {
        Ok(Stmt::Empty)
    } else if count == 1 {
        Ok(last_of(alloc, stmts)?)
    } else {
        Ok(Stmt::Block(List::from_vec(stmts)))
    }
}
