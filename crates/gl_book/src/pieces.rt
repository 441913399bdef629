//! Jobs dealt out to workers.

ghost use Rattle.std.specs.Prelude.{◌≡◌, ◌≤◌, ◌*◌, ◌/◌, min, IfOk};
ghost use Rattle.gl_book.specs.Pieces.{AreDealt, Follow};

use super::piece::Piece;
use gl_logic::NoMemory;
use std::alloc::Global;

/// The pieces of a phase of so many jobs for so many workers: as many as there are workers, or jobs where they are
/// fewer. Each has as many jobs as the next, or one more or less, and begins where the one before it ends.
pub(crate) fn pieces_of(alloc: Global, count: u64, workers: u64) -> Result<Vec<Piece>, NoMemory>
    requires some { 1 ≤ count }
    requires one { 1 ≤ workers }
    requires eight { workers ≤ 8 }
    ensures dealt { IfOk result (λ v. AreDealt count (min workers count) v.items) }
    ensures follow { IfOk result (λ v. Follow 0 v.items count) }
{
    let parts = workers.min(count);
    let mut pieces = Vec::new(alloc);
    for k in 0..parts {
        pieces.push(Piece {
            first: share(count, parts, k),
            end: share(count, parts, k + 1),
        })?;
    }
    Ok(pieces)
}

/// How many of so many jobs the first k of so many parts have.
fn share(count: u64, parts: u64, k: u64) -> u64
    requires some { 1 ≤ parts }
    requires within { k ≤ parts }
    ensures { result ≡ k * count / parts }
{
    (u128::from(k) * u128::from(count) / u128::from(parts)) as u64
}
