//! What a token is.

ghost use Rattle.std.specs.Prelude.{◌≡◌, ◌==◌, IfOk, length};
ghost use Rattle.std.specs.List.{list_all};
ghost use Rattle.sexp_reader.specs.Tokens.{integer_piece, dots_piece, token_piece};

use crate::ends::ReadCode;
use crate::lexeme::{Atom, Lexeme, Piece};
use crate::number::{integer, is_integer, is_number_form};
use crate::symbol::symbol;
use gl_logic::NoMemory;
use std::alloc::Global;

/// An integer of so many bytes, where 128 bits hold it.
pub fn integer_piece(count: usize, integer: Option<i128>) -> Piece
    ensures { result ≡ integer_piece count integer }
{
    match integer {
        Some(integer) => Piece::Part(count, Lexeme::Atom(Atom::Integer(integer))),
        None => Piece::Faulty(0, ReadCode::WideNumber),
    }
}

fn are_dots(token: &[u8]) -> bool
    ensures { result ≡ list_all (λ byte. byte == 46) token.now }
{
    token.iter().all(|byte| *byte == b'.')
}

fn dots(token: &[u8]) -> Piece
    ensures { result ≡ dots_piece token.now }
{
    if token.len() == 1 {
        Piece::Part(1, Lexeme::Dot)
    } else {
        Piece::Faulty(0, ReadCode::BadDot)
    }
}

/// What a token is: an integer; a number of another form; dots alone; else a symbol.
pub fn token_piece(alloc: Global, token: &[u8]) -> Result<Piece, NoMemory>
    ensures { IfOk result (λ piece. piece ≡ token_piece token.now) }
{
    if is_integer(10, token) {
        return Ok(integer_piece(token.len(), integer(10, token)));
    }
    if is_number_form(token) {
        return Ok(Piece::Faulty(0, ReadCode::NumberForm));
    }
    if are_dots(token) {
        return Ok(dots(token));
    }
    symbol(alloc, token)
}
