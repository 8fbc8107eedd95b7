//! The tokens of Pawn: the lines that the preprocessor left are cut into names, key words, numbers,
//! texts and signs. Whoever goes over the tokens looks at them by number.
#![tactic(auto)]

mod fault;
mod lexer;
mod line;
mod look;
mod token;

pub use fault::LexFault;
pub use lexer::tokens;
pub use pawn_pre::{Line, Lines};
pub use pawn_token::{Key, Sign, TokenKind, key_of};
pub use token::{Token, Tokens};
