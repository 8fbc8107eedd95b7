ghost use Rattle.std.specs.Prelude.{◌≡◌, IfOk};
ghost use Rattle.names_rules.specs.Verdict.{Stands, after};
ghost use Rattle.types_rules.specs.Declarations as spec;
ghost use Rattle.check_locals.specs.StoodView.{stood_view};
ghost use Rattle.check_locals.specs.Rows.{joined};
ghost use Rattle.check_locals.specs.Tells.{told as plain_told};
ghost use Rattle.check_declarations.specs.DoneView.{done_view};

use super::done_declarations::Done;
use check_locals::Stood;
use pawn_base::Memory;
use std::alloc::Global;

/// Declarations, and those behind them: the whole falls where one of them falls.
pub fn then_maybe(done: Option<Done>, more: Option<Done>) -> Result<Option<Done>, Memory>
    ensures { IfOk result (λ both. plain_told done_view both ≡ joined spec.done_behind
        (plain_told done_view done) (plain_told done_view more)) }
{
    let Some(done) = done else {
        return Ok(None);
    };
    let Some(more) = more else {
        return Ok(None);
    };
    Ok(Some(done.then(more)?))
}

/// The objects of a variable, where it stands.
pub fn objects_of(alloc: Global, x: Option<Stood>) -> Option<Done>
    ensures { plain_told done_view result ≡ after (plain_told stood_view x)
        (λ it. Stands (spec.objects_done it)) }
{
    match x {
        None => None,
        Some(x) => Some(Done::objects(alloc, x)),
    }
}
