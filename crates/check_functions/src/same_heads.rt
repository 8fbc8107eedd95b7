ghost use Rattle.std.specs.Prelude.{◌≡◌, map};
ghost use Rattle.types_rules.specs.SameHeads as spec;
ghost use Rattle.check_nodes.specs.ContextView.{head_view, param_view};

use super::same_params::same_param;
use check_nodes::{Head, Param};
use pawn_base::List;

/// Whether parameters are equal, one by one.
fn same_params(x: &[Param], y: &[Param]) -> bool
    ensures { result ≡ spec.same_params (map param_view x.now) (map param_view y.now) }
{
    if x.len() != y.len() {
        return false;
    }
    for i in 0..x.len() {
        if !same_param(&x[i], &y[i]) {
            return false;
        }
    }
    true
}

/// Whether the tags of `...` are the same, or neither head has it.
fn same_rest(x: &Option<List<u32>>, y: &Option<List<u32>>) -> bool
    ensures { result ≡ spec.same_rest x.now y.now }
{
    match x {
        None => y.is_none(),
        Some(x) => match y {
            None => false,
            Some(y) => x.as_slice() == y.as_slice(),
        },
    }
}

/// Whether two heads with the tags of their results are equal (Language Guide, "Functions").
pub fn same_head(tag: u32, x: &Head, other: u32, y: &Head) -> bool
    ensures { result ≡ spec.same_head tag (head_view x.now) other (head_view y.now) }
{
    tag == other
        && same_params(x.params.as_slice(), y.params.as_slice())
        && same_rest(&x.rest, &y.rest)
}
