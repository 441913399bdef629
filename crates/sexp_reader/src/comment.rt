//! Comments.

ghost use Rattle.std.specs.Prelude.{◌≡◌, ◌<◌, ◌+◌, ◌^◌, ◌==◌, ◌&&◌, length, slice_index, IfSome, ◌≤◌};
ghost use Rattle.sexp_reader.specs.Comments.{line_piece, comment_rest, comment_piece};

use crate::byte::line_len;
use crate::lexeme::Piece;

/// A comment to the end of the line, from behind its semicolon.
pub fn line_comment(bytes: &[u8]) -> Piece
    requires { length bytes.now + 1 < 2 ^ 64 }
    ensures { result ≡ line_piece bytes.now }
{
    Piece::Gap(1 + line_len(bytes))
}

// Whether these two bytes stand at an index.
fn stand_at(bytes: &[u8], index: usize, first: u8, second: u8) -> bool
    requires { index + 2 ≤ length bytes.now }
    ensures { result ≡ ((slice_index bytes.now index == first) && (slice_index bytes.now (index + 1) == second)) }
{
    bytes[index] == first && bytes[index + 1] == second
}

// From inside a block comment: how many bytes it takes to close it and all that are nested in it.
fn comment_rest(bytes: &[u8]) -> Option<usize>
    ensures told { result ≡ comment_rest bytes.now 1 }
    ensures within { IfSome result (λ count. count ≤ length bytes.now) }
{
    let mut read = 0;
    let mut nested: usize = 1;
    while nested > 0 {
        if bytes.len() - read < 2 {
            return None;
        }
        if stand_at(bytes, read, b'|', b'#') {
            read += 2;
            nested -= 1;
        } else if stand_at(bytes, read, b'#', b'|') {
            read += 2;
            nested += 1;
        } else {
            read += 1;
        }
    }
    Some(read)
}

/// A block comment, from behind its `#|`.
pub fn block_comment(bytes: &[u8]) -> Piece
    requires { length bytes.now + 2 < 2 ^ 64 }
    ensures { result ≡ comment_piece (comment_rest bytes.now 1) }
{
    match comment_rest(bytes) {
        Some(count) => Piece::Gap(2 + count),
        None => Piece::Torn,
    }
}
