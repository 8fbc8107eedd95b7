ghost use Rattle.std.specs.Prelude.{◌≡◌, ◌∷◌, [], ◌++◌, IfOk};
ghost use Rattle.names_rules.specs.Verdict.{Stands, both};
ghost use Rattle.check_locals.specs.Tells.{told};
ghost use Rattle.check_locals.specs.StoodView.{stood_view};
ghost use Rattle.check_switches.specs.CaseView.{all_ends_view, part_view, parts_view};

use super::ends::AllEnds;
use check_locals::Stood;
use pawn_base::Memory;
use std::alloc::Global;

/// A case, before its values are looked at: the ends of its ranges, and what is done.
#[derive(Drop)]
pub struct CasePart {
    pub ends: AllEnds,
    pub stood: Stood,
}

/// The cases of a `switch`, in order.
#[derive(Drop)]
pub struct CaseParts {
    pub items: Vec<CasePart>,
}

/// A case by its parts, which stand or fall.
pub fn case_told(ends: Option<AllEnds>, stood: Option<Stood>) -> Option<CasePart>
    ensures { told part_view result ≡ both (told all_ends_view ends) (told stood_view stood)
        (λ x y. Stands (record { ends = x; stood = y })) }
{
    match ends {
        None => None,
        Some(ends) => match stood {
            None => None,
            Some(stood) => Some(CasePart { ends, stood }),
        },
    }
}

/// No case.
pub fn no_case(alloc: Global) -> CaseParts
    ensures { parts_view result ≡ [] }
{
    CaseParts {
        items: Vec::new(alloc),
    }
}

/// Cases, and one behind them: all fall where one of them falls.
pub fn with_case(done: Option<CaseParts>, it: Option<CasePart>) -> Result<Option<CaseParts>, Memory>
    ensures { IfOk result (λ all. told parts_view all ≡ both (told parts_view done)
        (told part_view it) (λ xs x. Stands (xs ++ x ∷ []))) }
{
    let Some(mut done) = done else {
        return Ok(None);
    };
    let Some(it) = it else {
        return Ok(None);
    };
    done.items.push(it)?;
    Ok(Some(done))
}
