//! What begins with a number sign: block comments, characters, and integers in other bases.

ghost use Rattle.std.specs.Prelude.{◌≡◌, IfOk, ◌<◌, ◌+◌, ◌^◌, length};
ghost use Rattle.sexp_reader.specs.Hashes.{character_code, coded_piece, spelled_piece, character_piece, base_of, based_piece, sharp_piece};

use crate::byte::{is_constituent, is_printable, token_len, upper, upper_case};
use crate::comment::block_comment;
use crate::ends::ReadCode;
use crate::lexeme::{Atom, Lexeme, Piece};
use crate::number::{integer, is_integer};
use crate::token::integer_piece;
use gl_logic::NoMemory;
use std::alloc::Global;

fn character_code(name: &[u8]) -> Option<u8>
    ensures { result ≡ character_code name.now }
{
    if name == b"SPACE".as_slice() {
        Some(32)
    } else if name == b"TAB".as_slice() {
        Some(9)
    } else if name == b"NEWLINE".as_slice() {
        Some(10)
    } else if name == b"PAGE".as_slice() {
        Some(12)
    } else if name == b"RETURN".as_slice() {
        Some(13)
    } else if name == b"RUBOUT".as_slice() {
        Some(127)
    } else {
        None
    }
}

// The character of a code, where there is one.
fn coded(count: usize, code: Option<u8>) -> Piece
    ensures { result ≡ coded_piece count code }
{
    match code {
        Some(code) => Piece::Part(count, Lexeme::Atom(Atom::Character(code))),
        None => Piece::Faulty(0, ReadCode::BadHash),
    }
}

// A character that these bytes spell behind `#\\`: one byte, or a name in either case.
fn spelled(alloc: Global, name: &[u8]) -> Result<Piece, NoMemory>
    requires { length name.now + 2 < 2 ^ 64 }
    ensures { IfOk result (λ piece. piece ≡ spelled_piece name.now) }
{
    if name.len() == 1 {
        return Ok(coded(3, Some(name[0])));
    }
    let text = upper_case(alloc, name)?;
    Ok(coded(2 + name.len(), character_code(text.as_slice())))
}

// A character, from behind its backslash.
fn character_piece(alloc: Global, bytes: &[u8]) -> Result<Piece, NoMemory>
    requires { length bytes.now + 2 < 2 ^ 64 }
    ensures { IfOk result (λ piece. piece ≡ character_piece bytes.now) }
{
    let [byte, ..] = bytes else {
        return Ok(Piece::Faulty(2, ReadCode::EndInside));
    };
    if is_constituent(*byte) {
        return spelled(alloc, &bytes[..token_len(bytes)]);
    }
    if is_printable(*byte) {
        return Ok(coded(3, Some(*byte)));
    }
    Ok(Piece::Faulty(0, ReadCode::BadHash))
}

fn base_of(letter: u8) -> Option<u8>
    ensures { result ≡ base_of letter }
{
    match upper(letter) {
        b'B' => Some(2),
        b'O' => Some(8),
        b'X' => Some(16),
        _ => None,
    }
}

// An integer in another base, behind its two bytes.
fn based_piece(base: Option<u8>, token: &[u8]) -> Piece
    requires { length token.now + 2 < 2 ^ 64 }
    ensures { result ≡ based_piece base token.now }
{
    let Some(base) = base else {
        return Piece::Faulty(0, ReadCode::BadHash);
    };
    if !is_integer(base, token) {
        return Piece::Faulty(0, ReadCode::BadHash);
    }
    integer_piece(2 + token.len(), integer(base, token))
}

/// What begins with a number sign, from behind it.
pub fn sharp_piece(alloc: Global, bytes: &[u8]) -> Result<Piece, NoMemory>
    requires { length bytes.now + 2 < 2 ^ 64 }
    ensures { IfOk result (λ piece. piece ≡ sharp_piece bytes.now) }
{
    match bytes {
        [] => Ok(Piece::Torn),
        [b'|', rest @ ..] => Ok(block_comment(rest)),
        [b'\\', rest @ ..] => character_piece(alloc, rest),
        [letter, rest @ ..] => Ok(based_piece(base_of(*letter), &rest[..token_len(rest)])),
    }
}
