//! What a text begins with.

ghost use Rattle.std.specs.Prelude.{◌≡◌, ◌<◌, ◌+◌, ◌^◌, IfOk, length};
ghost use Rattle.sexp_reader.specs.Pieces.{comma_piece, first_piece, Spans};

use crate::byte::{is_constituent, is_white, token_len};
use crate::comment::line_comment;
use crate::ends::ReadCode;
use crate::lexeme::{Lexeme, Mark, Piece};
use crate::sharp_sign::sharp_piece;
use crate::string::string_piece;
use crate::token::token_piece;
use gl_logic::NoMemory;
use std::alloc::Global;

// What a comma begins, with the bytes behind it.
fn comma_piece(bytes: &[u8]) -> Piece
    ensures { result ≡ comma_piece bytes.now }
{
    match bytes {
        [b'@', ..] => Piece::Part(1, Lexeme::Splice),
        _ => Piece::Part(1, Lexeme::Prefix(Mark::Comma)),
    }
}

/// What a text begins with: a gap, a lexeme or a fault.
pub fn first_piece(alloc: Global, bytes: &[u8]) -> Result<Piece, NoMemory>
    requires { length bytes.now + 2 < 2 ^ 64 }
    ensures piece { IfOk result (λ piece. piece ≡ first_piece bytes.now) }
    ensures spans { IfOk result (λ piece. Spans (length bytes.now) piece) }
{
    let piece = next_piece(alloc, bytes)?;
    Ok(piece)
}

fn next_piece(alloc: Global, bytes: &[u8]) -> Result<Piece, NoMemory>
    requires { length bytes.now + 2 < 2 ^ 64 }
    ensures { IfOk result (λ piece. piece ≡ first_piece bytes.now) }
{
    let [byte, rest @ ..] = bytes else {
        return Ok(Piece::Ended);
    };
    if is_white(*byte) {
        return Ok(Piece::Gap(1));
    }
    match *byte {
        b';' => Ok(line_comment(rest)),
        b'(' => Ok(Piece::Part(1, Lexeme::Open)),
        b')' => Ok(Piece::Part(1, Lexeme::Close)),
        b'\'' => Ok(Piece::Part(1, Lexeme::Prefix(Mark::Quote))),
        b'`' => Ok(Piece::Part(1, Lexeme::Prefix(Mark::Backquote))),
        b',' => Ok(comma_piece(rest)),
        b'"' => string_piece(alloc, rest),
        b'#' => sharp_piece(alloc, rest),
        byte if is_constituent(byte) => token_piece(alloc, &bytes[..token_len(bytes)]),
        _ => Ok(Piece::Faulty(0, ReadCode::BadByte)),
    }
}
