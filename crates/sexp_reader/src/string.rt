//! Strings.

ghost use Rattle.std.specs.Prelude.{◌≡◌, ◌<◌, ◌+◌, ◌^◌, length, IfOk};
ghost use Rattle.sexp_reader.specs.Strings.{string_piece};

use crate::byte::is_string_byte;
use crate::ends::ReadCode;
use crate::lexeme::{Atom, Lexeme, Piece, Text};
use gl_logic::NoMemory;
use std::alloc::Global;

/// A string, from behind its opening quote: up to a quote that no backslash takes. A backslash takes
/// the next byte as it is.
pub fn string_piece(alloc: Global, bytes: &[u8]) -> Result<Piece, NoMemory>
    requires { length bytes.now + 2 < 2 ^ 64 }
    ensures { IfOk result (λ piece. piece ≡ string_piece bytes.now) }
{
    let mut text = Vec::new(alloc);
    let mut taken = false;
    for (i, byte) in bytes.iter().enumerate() {
        if !taken && *byte == b'"' {
            return Ok(Piece::Part(i + 2, Lexeme::Atom(Atom::String(Text::new(text)))));
        }
        if !taken && *byte == b'\\' {
            taken = true;
        } else if is_string_byte(*byte) {
            text.push(*byte)?;
            taken = false;
        } else {
            return Ok(Piece::Faulty(i + 1, ReadCode::BadByte));
        }
    }
    Ok(Piece::Faulty(bytes.len() + 1, ReadCode::EndInside))
}
