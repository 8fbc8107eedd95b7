ghost use Rattle.std.specs.Prelude.{◌≡◌, ◌==◌, ◌+◌, ◌<◌, ◌^◌, count_by, IfOk};
ghost use Rattle.amx_format.specs.Sorts.{IsWritableSorted};
ghost use Rattle.amx_text.specs.Assembles.{Assembles};
ghost use Rattle.amx_text.specs.Readers.{names_of};
ghost use Rattle.amx_text.specs.Drafts.{ReadsLines};

use super::draft::Draft;
use super::fault::AsmFault;
use super::instruction::operation_names;
use amx_ops::Amx;
use pawn_base::Names;
use std::alloc::Global;

/// Assembles the text of a listing: the valid file that is listed with it, or the first fault of
/// the text. Each line has a number of 32 bits, also the one that may be missing behind the last.
pub fn assemble(alloc: Global, text: &[u8]) -> Result<Amx, AsmFault>
    requires { count_by (λ byte. byte == 10) text.now + 1 < 2 ^ 32 }
    ensures answer { Assembles text.now result }

    // So it can be written, as it is or once its publics are sorted.
    ensures writable { IfOk result IsWritableSorted }
{
    let names = operation_names(alloc)?;
    let draft = read_lines(alloc, &names, text)?;
    draft.finish(alloc)
}

/// What the lines of a text say, or its first line that has no form which may follow.
fn read_lines(alloc: Global, names: &Names, text: &[u8]) -> Result<Draft, AsmFault>
    requires names { names.now ≡ names_of }
    requires lines { count_by (λ byte. byte == 10) text.now + 1 < 2 ^ 32 }
    ensures { ReadsLines text.now result }
{
    let mut draft = Draft::new(alloc);
    let mut rest = text;
    while let Some(more) = draft.take(alloc, names, rest)? {
        rest = more;
    }
    if draft.is_whole(rest) {
        Ok(draft)
    } else {
        Err(AsmFault::Form(draft.lines as u32 + 1))
    }
}
