ghost use Rattle.std.specs.Prelude.{◌≡◌, ◌∷◌, option_map, OnOk};
ghost use Rattle.names_rules.specs.Mark as plain;
ghost use Rattle.names_rules.specs.ExpressionMarks as spec;
ghost use Rattle.names_sight.specs.MarkView.{mark_view, marks_view, sort_view};

use super::mark::{Declaration, Mark, Sort, Use};
use pawn_base::{Bytes, List, Memory};
use pawn_cells::Place;
use pawn_tree::{At, Name};

/// One mark more.
#[tactic(auto, using(crate::proofs::MarkLaws::one_more))]
fn push<'a>(out: &mut List<Mark<'a>>, mark: Mark<'a>) -> Result<(), Memory>
    ensures { OnOk result (marks_view out.new ≡ mark_view mark.entry ∷ marks_view out.old) }
{
    out.push(mark)
}

/// A block begins.
pub fn opens(out: &mut List<Mark>) -> Result<(), Memory>
    ensures { OnOk result (marks_view out.new ≡ plain.Opens ∷ marks_view out.old) }
{
    push(out, Mark::Opens)
}

/// A block ends.
pub fn closes(out: &mut List<Mark>) -> Result<(), Memory>
    ensures { OnOk result (marks_view out.new ≡ plain.Closes ∷ marks_view out.old) }
{
    push(out, Mark::Closes)
}

/// A tag is mentioned.
pub fn mentions<'a>(out: &mut List<Mark<'a>>, tag: &'a Bytes) -> Result<(), Memory>
    ensures { OnOk result (marks_view out.new ≡ plain.Mentions tag.now ∷ marks_view out.old) }
{
    push(out, Mark::Mentions(tag))
}

/// A name occurs, as one token, in the node that begins with another.
pub fn uses<'a>(out: &mut List<Mark<'a>>, name: &'a Bytes, at: At, node: At) -> Result<(), Memory>
    ensures { OnOk result (marks_view out.new ≡
        spec.occurs name.now at node ∷ marks_view out.old) }
{
    push(
        out,
        Mark::Uses(Use {
            name,
            token: at.token,
            place: node.place,
        }),
    )
}

/// A declaration of a node at a place ends, outside all functions or in one.
pub fn declares<'a>(
    out: &mut List<Mark<'a>>,
    place: Place,
    outside: bool,
    name: &'a Name,
    tag: Option<&'a Name>,
    sort: Sort<'a>,
) -> Result<(), Memory>
    ensures { OnOk result (marks_view out.new ≡ plain.Declares (record {
      name = name.now;
      place = place;
      tag = option_map (λ name. name.now) tag.entry;
      outside = outside;
      sort = sort_view sort.entry;
    }) ∷ marks_view out.old) }
{
    push(
        out,
        Mark::Declares(Declaration {
            name,
            place,
            tag,
            outside,
            sort,
        }),
    )
}
