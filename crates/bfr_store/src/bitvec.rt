//! Integers of bit functions.

ghost use Rattle.std.specs.Prelude.{◌≡◌, ◌≤◌, ◌<◌, ◌++◌, ◌∷◌, ◌↔◌, [], length, slice_get, Some, IsTrue};

use super::edge::Edge;
use std::marker::Model;

/// A two's-complement integer of bit functions: 1 to 260 edges, least significant first, the last one the sign.
#[derive(Drop)]
pub struct Bitvec {
    edges: [Edge; 260],
    len: u32,
}

impl Model for Bitvec {
    ghost use Rattle.std.specs.Prelude.{◌≡◌, ◌≤◌, List, length, take};
    ghost use Rattle.bfr_store.specs.declared.edge.Edge.{Edge};

    ghost Value = { List Edge };

    ghost view = { λ v. take v.len v.edges };

    ghost invariant = { λ v. (1 ≤ v.len) × (v.len ≤ 260) × (length v.edges ≡ 260) };
}

impl Bitvec {
    /// How many edges there may be.
    pub const MOST: u32 = 260;

    /// The integer with these bits.
    pub fn of(edges: &[Edge]) -> Bitvec
        requires some { 1 ≤ length edges.now }
        requires most { length edges.now ≤ 260 }
        ensures { result ≡ edges.now }
    {
        let len = edges.len();
        let mut all = [Edge { number: 0 }; 260];
        all[..len].copy_from_slice(edges);
        Bitvec {
            edges: all,
            len: len as u32,
        }
    }

    /// How many edges there are.
    pub fn len(&self) -> u32
        ensures len { result ≡ length self.now }
        ensures some { 1 ≤ result }
        ensures most { result ≤ 260 }
    {
        self.len
    }

    /// Whether there is room for no edge more.
    pub fn is_full(&self) -> bool
        ensures full { IsTrue result ↔ length self.now ≡ 260 }
        ensures within { length self.now ≤ 260 }
    {
        self.len == Self::MOST
    }

    /// Edge `k`, from the least significant.
    pub fn at(&self, k: u32) -> Edge
        requires { k < length self.now }
        ensures { slice_get self.now k ≡ Some result }
    {
        self.edges[k as usize]
    }

    /// Puts an edge behind the last, which is then the sign.
    pub fn push(&mut self, edge: Edge)
        requires { length self.old < 260 }
        ensures { self.new ≡ self.old ++ edge ∷ [] }
    {
        self.edges[self.len as usize] = edge;
        self.len += 1;
    }
}
