ghost use Rattle.std.specs.Prelude.{map};
ghost use Rattle.pawn_tree.specs.Expressions.{links};
ghost use Rattle.pawn_tree.specs.View.{expr_view, link_view};
ghost use Rattle.names_rules.specs.Worth as spec;
ghost use Rattle.pawn_verdict.specs.Answers.{Answers};
ghost use Rattle.names_sight.specs.Means.{around_view, means_view};
ghost use Rattle.names_sight.specs.ValuedView.{valued_view};

use super::constants::{
    Valued, between_worth, both_hold, choice_worth, linked, make_valued, name_worth, prefix_worth,
    sign_of, sizeof_worth, tagged_worth, tagof_worth, truth_worth,
};
use super::context::Context;
use super::fault::Fault;
use pawn_base::List;
use pawn_cells::Place;
use pawn_tags::UNTAGGED;
use pawn_tree::{Expr, Link};
use pawn_verdict::CheckFault;

/// What a constant expression is worth, and its tag, where a node at a place wants it.
#[cycle(worth)]
#[tactic(auto, using(pawn_verdict::proofs::VerdictLaws::verdicts))]
pub fn worth(cx: &Context, place: Place, x: &Expr) -> Result<Valued, CheckFault>
    ensures { Answers valued_view (spec.worth (around_view cx.now) place (means_view cx.now)
        (expr_view x.now)) result }
{
    match x {
        Expr::Number(_, value) => Ok(make_valued(*value, UNTAGGED)),
        Expr::Text(..) | Expr::Postfix(..) | Expr::Index(..) => Err(Fault::not_constant(place)),
        Expr::Character(..) | Expr::Assign(..) | Expr::Call(..) => {
            Err(Fault::not_constant(place))
        }
        Expr::Name(at, name) => name_worth(cx, place, at.place, name.as_slice()),
        Expr::Paren(_, x) => worth(cx, place, x),
        Expr::Sizeof(at, x) => sizeof_worth(cx, place, at.place, x),
        Expr::Tagof(at, x) => tagof_worth(cx, at.place, x),
        Expr::Prefix(_, sign, x) => {
            let x = worth(cx, place, x)?;
            prefix_worth(cx, place, *sign, x)
        }
        Expr::Tagged(_, tag, x) => {
            let x = worth(cx, place, x)?;
            Ok(tagged_worth(cx, tag.as_slice(), x))
        }
        Expr::Binary(at, sign, x, y) => {
            let x = worth(cx, place, x)?;
            let y = worth(cx, place, y)?;
            between_worth(cx, place, at.place, *sign, x, y)
        }
        Expr::Chain(_, x, links) => {
            let first = worth(cx, place, x)?;
            let holds = links_hold(cx, place, first, links)?;
            Ok(truth_worth(holds))
        }
        Expr::Choice(_, x, y, z) => {
            let test = worth(cx, place, x)?;
            let y = worth(cx, place, y)?;
            let z = worth(cx, place, z)?;
            Ok(choice_worth(test, y, z))
        }
    }
}

#[cycle(worth)]
fn link_worth(cx: &Context, place: Place, x: &Link) -> Result<Valued, CheckFault>
    ensures { Answers valued_view (spec.link_worth (around_view cx.now) place
        (means_view cx.now) (link_view x.now)) result }
{
    match x {
        Link::Compare(_, x) => worth(cx, place, x),
    }
}

/// Whether all links of a chain hold, the first of which has this operand on its left.
#[cycle(worth)]
fn links_hold(
    cx: &Context,
    place: Place,
    first: Valued,
    list: &List<Link>,
) -> Result<bool, CheckFault>
    ensures { Answers (λ holds. holds) (spec.links_hold (around_view cx.now) place
        (means_view cx.now) (valued_view first) (links (map link_view list.now))) result }
{
    let links = list.as_slice();
    let mut left = first;
    let mut holds = true;
    for i in 0..links.len() {
        let link = &links[i];
        let right = link_worth(cx, place, link)?;
        let here = linked(cx, place, sign_of(link), left, right)?;
        holds = both_hold(holds, here);
        left = right;
    }
    Ok(holds)
}
