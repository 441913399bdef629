//! Tokens that spell symbols and keywords.

ghost use Rattle.std.specs.Prelude.{◌≡◌, ◌+◌, ◌≤◌, ◌<◌, ◌^◌, true, map, IfOk, length};
ghost use Rattle.sexp_reader.specs.Bytes.{upper};
ghost use Rattle.sexp_reader.specs.Symbols.{named, colon_at, plain_piece, keyword_piece, dropped_piece, begins_as, own_piece, symbol_piece};

use crate::byte::{upper, upper_case};
use crate::ends::ReadCode;
use crate::lexeme::{Atom, Lexeme, Piece, Text};
use gl_logic::NoMemory;
use std::alloc::Global;

/// The bytes that a name may have.
const MOST_NAME: usize = 255;

// The symbol of a name, whose token has so many bytes.
fn named(alloc: Global, count: usize, name: &[u8]) -> Result<Piece, NoMemory>
    ensures { IfOk result (λ piece. piece ≡ named count name.now) }
{
    if name.len() > MOST_NAME {
        return Ok(Piece::Faulty(0, ReadCode::LongName));
    }
    let text = Text::new(upper_case(alloc, name)?);
    Ok(Piece::Part(count, Lexeme::Atom(Atom::Symbol(text))))
}

// Where the first colon stands; the length where there is none.
fn colon_at(bytes: &[u8]) -> usize
    ensures { result ≡ colon_at bytes.now }
{
    for (i, byte) in bytes.iter().enumerate() {
        if *byte == b':' {
            return i;
        }
    }
    bytes.len()
}

// A name behind so many bytes that are dropped.
fn plain(alloc: Global, dropped: usize, name: &[u8]) -> Result<Piece, NoMemory>
    requires { dropped + length name.now < 2 ^ 64 }
    ensures { IfOk result (λ piece. piece ≡ plain_piece dropped name.now) }
{
    let colon = colon_at(name);
    if colon < name.len() {
        return Ok(Piece::Faulty(dropped + colon, ReadCode::BadByte));
    }
    named(alloc, dropped + name.len(), name)
}

// A token that is a colon and this name.
fn keyword(alloc: Global, token: &[u8], name: &[u8]) -> Result<Piece, NoMemory>
    ensures { IfOk result (λ piece. piece ≡ keyword_piece token.now name.now) }
{
    if name.is_empty() || colon_at(name) < name.len() {
        return Ok(Piece::Faulty(0, ReadCode::BadByte));
    }
    named(alloc, token.len(), token)
}

// What stands behind a prefix that is dropped, whose last colon stands so far behind its first byte.
fn dropped(alloc: Global, colon: usize, name: &[u8]) -> Result<Piece, NoMemory>
    requires { 1 + colon + length name.now < 2 ^ 64 }
    ensures { IfOk result (λ piece. piece ≡ dropped_piece colon name.now) }
{
    if name.is_empty() {
        return Ok(Piece::Faulty(colon, ReadCode::BadByte));
    }
    plain(alloc, 1 + colon, name)
}

// Whether a token begins with these capital letters and signs, in either case.
fn begins_as(text: &[u8], token: &[u8]) -> bool
    ensures told { result ≡ begins_as text.now token.now }
    ensures long { result ≡ true → length text.now ≤ length token.now }
{
    if token.len() < text.len() {
        return false;
    }
    for i in 0..text.len() {
        if upper(token[i]) != text[i] {
            return false;
        }
    }
    true
}

fn own(alloc: Global, token: &[u8]) -> Result<Piece, NoMemory>
    ensures { IfOk result (λ piece. piece ≡ own_piece token.now) }
{
    match token {
        [b':', name @ ..] => keyword(alloc, token, name),
        _ => plain(alloc, 0, token),
    }
}

/// The symbol or the keyword that a token spells, where it is neither a number nor dots. `acl2::` and
/// `gl::`, in either case, are dropped.
pub fn symbol(alloc: Global, token: &[u8]) -> Result<Piece, NoMemory>
    ensures { IfOk result (λ piece. piece ≡ symbol_piece token.now) }
{
    if begins_as(b"ACL2::", token) {
        return dropped(alloc, 5, &token[6..]);
    }
    if begins_as(b"GL::", token) {
        return dropped(alloc, 3, &token[4..]);
    }
    own(alloc, token)
}
