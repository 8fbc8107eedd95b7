ghost use Rattle.std.specs.Prelude.{◌≡◌};
ghost use Rattle.std.specs.Option.{option_copied};
ghost use Rattle.pawn_states.specs.Dispatch.{body_for, picked};

use pawn_base::{Bytes, List};

/// Which body of a classified function runs in which state of its automaton.
#[derive(Drop)]
pub struct Dispatch {
    pub automaton: Bytes,
    /// Each state with the number of the clause that names it.
    pub cases: List<(Bytes, u32)>,
    /// The number of the clause that serves each other state, and no state.
    pub fallback: Option<u32>,
}

/// The number of the first case of a state.
fn find_body(cases: &[(Bytes, u32)], state: &[u8]) -> Option<u32>
    ensures { result ≡ body_for cases.now state.now }
{
    for case in cases {
        if state == case.0.as_slice() {
            return Some(case.1);
        }
    }
    None
}

/// The number of the clause whose body runs in a state, or before the automaton has one (Language
/// Guide, "State classifiers"). None where the run ends with error 13.
pub fn pick(dispatch: &Dispatch, state: Option<&[u8]>) -> Option<u32>
    ensures { result ≡ picked dispatch.now (option_copied state.entry) }
{
    if let Some(state) = state {
        if let Some(number) = find_body(dispatch.cases.as_slice(), state) {
            return Some(number);
        }
    }
    dispatch.fallback
}
