//! Lists of edges that become an integer once the sign is known.

ghost use Rattle.std.specs.Prelude.{◌≡◌, ◌≤◌, ◌<◌, ◌+◌, ◌++◌, ◌∷◌, [], ℕ, Bool, map, length, take, IsTrue};
ghost use Rattle.bfr_store.specs.declared.edge.Edge.{Edge};
ghost use Rattle.gl_logic.specs.TwosComplement.{integer_of};
ghost use Rattle.sym_bits.specs.Columns.{onto, sign_value};

use bfr_store::{Bitvec, Edge};
use std::marker::Model;

/// The lowest bits of an integer, at most 259 of them.
#[derive(Drop)]
pub struct Digits {
    edges: [Edge; 260],
    len: u32,
}

impl Model for Digits {
    ghost use Rattle.std.specs.Prelude.{◌≡◌, ◌<◌, List, length, take};
    ghost use Rattle.bfr_store.specs.declared.edge.Edge.{Edge};

    ghost Value = { List Edge };

    ghost view = { λ v. take v.len v.edges };

    ghost invariant = { λ v. (v.len < 260) × (length v.edges ≡ 260) };
}

impl Digits {
    /// No bits.
    pub fn new() -> Digits
        ensures { result ≡ [] }
    {
        Digits {
            edges: [Edge { number: 0 }; 260],
            len: 0,
        }
    }

    /// Puts a bit above the others.
    pub fn push(&mut self, edge: Edge)
        requires { length self.old < 259 }
        ensures { self.new ≡ self.old ++ edge ∷ [] }
    {
        self.edges[self.len as usize] = edge;
        self.len += 1;
    }

    /// The integer of these bits and a sign. Bits that are the sign again are left out, from the top.
    pub fn finish(mut self, sign: Edge) -> Bitvec
        ensures value { (truth : Edge → Bool) → integer_of (map truth result) ≡ onto (map truth self) (sign_value (truth sign)) }
        ensures parts { (n : ℕ) × (result ≡ take n self ++ sign ∷ []) }
        ensures most { length result ≤ length self + 1 }
        ensures some { 1 ≤ length result }
    {
        let len = self.highest(sign);
        self.edges[len] = sign;
        Bitvec::of(&self.edges[..len + 1])
    }

    /// How many bits are left where those that are the sign again are left out, from the top.
    fn highest(&self, sign: Edge) -> usize
        ensures value { (truth : Edge → Bool) → onto (map truth (take result self.now)) (sign_value (truth sign)) ≡ onto (map truth self.now) (sign_value (truth sign)) }
        ensures most { result ≤ length self.now }
    {
        let mut len = self.len as usize;
        while len > 0 && self.edges[len - 1] == sign {
            len -= 1;
        }
        len
    }
}
