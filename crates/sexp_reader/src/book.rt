//! Reading a book whole.

ghost use Rattle.std.specs.Prelude.{◌≡◌, ◌≢◌, ◌≤◌, ◌<◌, ◌+◌, ◌^◌, ℕ, List, Err, IfOk, IfErr, IfSome, MatchOption, IsErrOf, length, vec_len};
ghost use Rattle.gl_base.specs.Outside.{Rose};
ghost use Rattle.sexp_reader.specs.Book.{IsBeyond, IsLongAt};

use crate::place::Place;
use gl_base::shelf::Shelf;
use std::alloc::Global;

/// The bytes that a book may have.
pub const MOST_BYTES: usize = 4_194_304;

/// Why a book was not read.
#[derive(Clone, Copy, Debug, PartialEq, Eq)]
pub enum ReadEnd {
    /// A call of the shelf failed.
    Failed,
    /// One byte more than a book may have is there, at this line and this column.
    TooLong(u32, u32),
    /// Memory was refused.
    Memory,
}

/// Where a text has more bytes than a book may have: the line and the column of the first of the others.
pub fn too_long(text: &[u8]) -> Option<(u32, u32)>
    ensures { MatchOption result (length text.now ≤ MOST_BYTES) (λ place. IsBeyond MOST_BYTES text.now place.0 place.1) }
{
    if text.len() <= MOST_BYTES {
        return None;
    }
    Some(beyond(text, MOST_BYTES))
}

// The line and the column of the byte behind so many.
fn beyond(text: &[u8], limit: usize) -> (u32, u32)
    requires limit { limit + 1 < 2 ^ 32 }
    requires long { limit < length text.now }
    ensures { IsBeyond limit text.now result.0 result.1 }
{
    let place = Place::first().behind(&text[..limit]);
    (place.line, place.column)
}

/// Reads the text with this name from its first byte to its last. Every read takes a byte at least or
/// ends the loop, and the first call of the shelf that fails ends it.
pub fn read_book<S: Shelf>(alloc: Global, shelf: &mut S, name: &str) -> Result<Vec<u8>, ReadEnd>
    requires { S.may_open name.now }
    // Where the shelf tells its bytes, these are all of them.
    ensures whole { IfOk result (λ bytes. IfSome (S.holds shelf.old name.now) (λ text. bytes.items ≡ text)) }
    ensures within { IfOk result (λ bytes. vec_len bytes ≤ MOST_BYTES) }

    ensures long { IfErr result (IsLongAt MOST_BYTES (S.holds shelf.old name.now)) }
    ensures failed { IsErrOf result ReadEnd.Failed → Rose (S.faults shelf.old) (S.faults shelf.new) }
    ensures stayed { result ≢ Err ReadEnd.Failed → S.faults shelf.new ≡ S.faults shelf.old }
    ensures later { S.faults shelf.old ≤ S.faults shelf.new }
    ensures kept { (other : List ℕ) → S.holds shelf.new other ≡ S.holds shelf.old other }
{
    read_at_most(alloc, shelf, name, MOST_BYTES)
}

// The same with a limit of the caller's.
fn read_at_most<S: Shelf>(
    alloc: Global,
    shelf: &mut S,
    name: &str,
    limit: usize,
) -> Result<Vec<u8>, ReadEnd>
    requires limit { limit + 1 < 2 ^ 32 }
    requires may { S.may_open name.now }
    ensures whole { IfOk result (λ bytes. IfSome (S.holds shelf.old name.now) (λ text. bytes.items ≡ text)) }
    ensures within { IfOk result (λ bytes. vec_len bytes ≤ limit) }
    ensures long { IfErr result (IsLongAt limit (S.holds shelf.old name.now)) }
    ensures failed { IsErrOf result ReadEnd.Failed → Rose (S.faults shelf.old) (S.faults shelf.new) }
    ensures stayed { result ≢ Err ReadEnd.Failed → S.faults shelf.new ≡ S.faults shelf.old }
    ensures later { S.faults shelf.old ≤ S.faults shelf.new }
    ensures kept { (other : List ℕ) → S.holds shelf.new other ≡ S.holds shelf.old other }
{
    let Ok(()) = shelf.open(name) else {
        return Err(ReadEnd::Failed);
    };
    let mut bytes: Vec<u8> = Vec::new(alloc);
    let mut buffer = [0u8; 4096];
    while bytes.len() <= limit {
        let Ok(count) = shelf.read(&mut buffer) else {
            return Err(ReadEnd::Failed);
        };
        if count == 0 {
            return Ok(bytes);
        }
        let Ok(()) = bytes.extend_from_slice(&buffer[..count]) else {
            return Err(ReadEnd::Memory);
        };
    }
    let (line, column) = beyond(&bytes, limit);
    Err(ReadEnd::TooLong(line, column))
}
