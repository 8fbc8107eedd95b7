ghost use Rattle.std.specs.Prelude.{◌≡◌, ◌≤◌, IfOk, IfSome, length};
ghost use Rattle.pawn_pre.specs.Piece as spec;

use super::quote::Quote;
use pawn_base::{List, Memory};
use pawn_token::{Class, is_in};
use std::alloc::Global;

/// What a definition's tail and text are made of.
#[derive(Clone, Copy, Debug, PartialEq, Eq)]
pub enum Piece {
    Byte(u8),
    /// The parameter of this digit, `0` to `9`.
    Param(u8),
}

/// The byte that stands in front.
pub fn follower(pieces: &[Piece]) -> Option<u8>
    ensures { result ≡ spec.follower pieces.now }
{
    match pieces {
        [Piece::Byte(byte), ..] => Some(*byte),
        _ => None,
    }
}

/// Cuts bytes into pieces. With a control character there are no parameters in literals.
#[tactic(auto, unfolding(crate::specs::Piece::pieces), using(crate::proofs::PieceLaws::pieces_param, crate::proofs::PieceLaws::pieces_byte))]
pub fn pieces(alloc: Global, control: Option<u8>, bytes: &[u8]) -> Result<List<Piece>, Memory>
    ensures { IfOk result (λ list. list ≡ spec.pieces control Quote.Outside bytes.now) }
{
    let mut list = List::new(alloc);
    let mut quote = Quote::Outside;
    let mut rest = bytes;
    while let [byte, behind @ ..] = rest {
        match param_at(quote, *byte, behind) {
            Some(digit) => {
                list.push(Piece::Param(digit))?;
                rest = behind.split_at(1).1;
                continue;
            }
            None => {
                list.push(Piece::Byte(*byte))?;
                quote = next_quote(control, quote, *byte);
                rest = behind;
                continue;
            }
        }
    }
    Ok(list)
}

/// Where the byte behind this one stands, if literals are told apart.
fn next_quote(control: Option<u8>, quote: Quote, byte: u8) -> Quote
    ensures { result ≡ spec.next_quote control quote byte }
{
    match control {
        None => Quote::Outside,
        Some(control) => quote.after(control, byte),
    }
}

/// Whether a byte begins a parameter.
fn is_parameter(quote: Quote, byte: u8, behind: u8) -> bool
    ensures { result ≡ spec.is_parameter quote byte behind }
{
    quote.is_outside() && byte == b'%' && is_in(Class::Digit, behind)
}

/// The parameter that a byte begins, by the bytes behind it.
fn param_at(quote: Quote, byte: u8, behind: &[u8]) -> Option<u8>
    ensures digit { result ≡ spec.param_at quote byte behind.now }
    ensures within { IfSome result (λ _. 1 ≤ length behind.now) }
{
    match behind {
        [digit, ..] if is_parameter(quote, byte, *digit) => Some(*digit),
        _ => None,
    }
}
