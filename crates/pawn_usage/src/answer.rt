use pawn_base::List;

/// Functions by their numbers, each of which calls the next one. The first one is `main` or a public
/// function.
pub type Calls = List<u32>;

/// How much stack the calls of a program need.
#[derive(Drop)]
pub enum Usage {
    /// The cells that the calls alive together need at most, and a chain of calls that needs them.
    Bound { cells: u64, chain: Calls },
    /// There is no such bound, since the last function of this chain stands earlier in it.
    Recursive { chain: Calls },
}
