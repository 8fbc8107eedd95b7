use thiserror::Error;

/// Why there is no tree. Tokens are numbered from 0.
#[derive(Clone, Copy, Debug, PartialEq, Eq, Error)]
pub enum ParseFault {
    /// More than 256 brackets are open at this token, which is the first.
    #[error("more than 256 brackets are open at token {0}")]
    TooDeep(u32),
    /// No tree of 1,024 levels at most spells the tokens; none goes on at this one. Behind the last
    /// token it is the number of tokens.
    #[error("no tree goes on at token {0}")]
    Syntax(u32),
    #[error("no memory")]
    Memory,
}
