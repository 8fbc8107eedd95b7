//! One token at one place of a text: a name, a key word, a number, a text or a sign, or the fault
//! that stands there. It knows no lines; a control character and a packing are all that it is told.
#![tactic(auto)]

mod class;
mod fault;
mod key;
mod kind;
mod literal;
mod number;
mod reader;
mod sign;
mod table;

pub use class::{Class, is_in, split};
pub use fault::TokenFault;
pub use key::Key;
pub use kind::TokenKind;
pub use reader::read_token;
pub use sign::Sign;
pub use table::key_of;
