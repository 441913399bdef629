//! Entries of the table of finished calls.

ghost use Rattle.std.specs.Prelude.{◌≡◌, ◌<◌, ◌↔◌, IsTrue};
ghost use Rattle.node_table.specs.Hashes.{bucket_of, hash_of};

use super::node::TRUE;
use bfr_store::Edge;
use node_table::{hash, spread};

/// A finished call: `answer` is `high` where `test` is true, and `low` elsewhere.
#[derive(Clone, Copy)]
pub struct Entry {
    pub test: Edge,
    pub high: Edge,
    pub low: Edge,
    pub answer: Edge,
}

impl Entry {
    /// An entry that is true in any store: the constant true, whatever the constant true says.
    pub fn blank() -> Entry
        ensures test { result.test.number ≡ 0 }
        ensures high { result.high.number ≡ 0 }
        ensures low { result.low.number ≡ 0 }
        ensures answer { result.answer.number ≡ 0 }
    {
        Entry {
            test: TRUE,
            high: TRUE,
            low: TRUE,
            answer: TRUE,
        }
    }

    /// Whether this is the entry of that call.
    pub fn is_of(self, test: Edge, high: Edge, low: Edge) -> bool
        ensures { IsTrue result ↔ ((self.test ≡ test) × (self.high ≡ high) × (self.low ≡ low)) }
    {
        self.test.number == test.number
            && self.high.number == high.number
            && self.low.number == low.number
    }
}

/// The place that a call's entry has in a table of `count`.
pub fn place_of(count: usize, test: Edge, high: Edge, low: Edge) -> usize
    requires { 0 < count }
    ensures place { result ≡ bucket_of count (hash_of test.number high.number low.number) }
    ensures within { result < count }
{
    spread(hash(test.number, high.number, low.number), count)
}
