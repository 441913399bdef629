//! Integers: a chain of nodes, one for each bit, with no sign twice.

ghost use Rattle.std.specs.Prelude.{◌≡◌, ◌≢◌, ◌≤◌, ◌<◌, ◌↔◌, ◌∷◌, [], List, ℕ, Bool, length, map, IsTrue, IfOk, IfSome, OnErr};
ghost use Rattle.std.specs.List.{All, list_all};
ghost use Rattle.gl_logic.specs.Object.{Int};
ghost use Rattle.gl_logic.specs.TwosComplement.{integer_of};
ghost use Rattle.sym_objects.specs.Bits.{put_bit, trimmed};
ghost use Rattle.sym_objects.specs.Nodes.{bits_by, kind_of};
ghost use Rattle.sym_objects.specs.Inside.{IsProper};
ghost use Rattle.sym_objects.specs.Integers.{bits_behind};

use super::node::Node;
use super::sob::{Sob, SobNode};
use super::sobs::Sobs;
use bfr_store::{Bits, Bitvec, Edge, Full};

/// The lowest bit of an integer, and the node of the others.
fn split(node: Node) -> (Edge, Option<Sob>)
    requires { kind_of node ≡ SobNode.Integer }
    ensures bits { (of : Sob → List Edge) → bits_by of node ≡ result.0 ∷ bits_behind of result.1 }
    ensures rest { (of : Sob → List Edge) (i : ℕ) → IsProper of i node → IfSome result.1 (λ r. (r.number < i) × (1 ≤ length (of r))) }
{
    match node {
        Node::Sign(e) => (e, None),
        Node::Bit(e, rest) => (e, Some(rest)),
        _ => unreachable!(),
    }
}

impl<B: Bits> Sobs<B> {
    ghost use Rattle.sym_objects.specs.Integers.{AreBitsOf};
    ghost use Rattle.sym_objects.specs.Keeps.{Keeps};
    ghost use Rattle.sym_objects.specs.Makes.{Makes};
    ghost use Rattle.sym_objects.specs.Nodes.{node_at};
    ghost use Rattle.sym_objects.specs.Seen.{IsLive, IsWhole, bits_in, is_constant, is_constant_edge, stands_for};

    /// The integer of these bits, least significant first, of which the last is the sign. Bits before the sign that only
    /// repeat it are left out. A constant node exactly where every edge of the bits is one of the two constant ones.
    pub fn integer(&mut self, bits: &Bitvec) -> Result<Sob, Full>
        requires whole { IsWhole B.Meaning self.old }
        requires most { length bits.now ≤ 128 }
        requires edges { All (B.live self.old.store) bits.now }
        ensures makes { Makes B.Meaning self.old self.new result (λ a. Int (integer_of (map (λ e. B.truth_of self.old.store e a) bits.now))) }
        ensures constant { IfOk result (λ r. is_constant B.Meaning self.new r ≡ list_all (is_constant_edge B.Meaning) bits.now) }
        ensures bits { IfOk result (λ r. bits_in self.new.nodes r ≡ trimmed bits.now) }
        ensures full { OnErr result (length self.new.nodes ≡ self.new.limit) }
        ensures store { self.new.store ≡ self.old.store }
    {
        let last = bits.len() - 1;
        let mut rest = self.sign(bits.at(last))?;
        for k in (0..last).rev() {
            rest = self.put_bit(bits.at(k), rest)?;
        }
        Ok(rest)
    }

    /// The bits of an integer, at most 128, with no sign twice.
    pub fn bits_of(&self, s: Sob) -> Bitvec
        requires whole { IsWhole B.Meaning self.now }
        requires live { IsLive self.now s }
        requires integer { kind_of (node_at self.now.nodes s) ≡ SobNode.Integer }
        ensures bits { AreBitsOf B.Meaning self.now s result }
        ensures same { result ≡ bits_in self.now.nodes s }
    {
        let (first, mut rest) = split(self.inner(s));
        let mut bits = Bitvec::of(&[first]);
        while let Some(next) = rest {
            let (bit, more) = split(self.inner(next));
            bits.push(bit);
            rest = more;
        }
        bits
    }

    /// The integer of a sign alone.
    fn sign(&mut self, e: Edge) -> Result<Sob, Full>
        requires whole { IsWhole B.Meaning self.old }
        requires edge { B.live self.old.store e }
        ensures keeps { Keeps B.Meaning self.old self.new }
        ensures live { IfOk result (λ r. IsLive self.new r) }
        ensures bits { IfOk result (λ r. AreBitsOf B.Meaning self.new r (bits_in self.new.nodes r)) }
        ensures is { IfOk result (λ r. bits_in self.new.nodes r ≡ e ∷ []) }
        ensures full { OnErr result (length self.new.nodes ≡ self.new.limit) }
        ensures store { self.new.store ≡ self.old.store }
    {
        self.add(Node::Sign(e))
    }

    /// Puts a bit in front of an integer of less than 128 bits, unless that is but the same bit as a sign.
    fn put_bit(&mut self, e: Edge, rest: Sob) -> Result<Sob, Full>
        requires whole { IsWhole B.Meaning self.old }
        requires edge { B.live self.old.store e }
        requires live { IsLive self.old rest }
        requires bits { AreBitsOf B.Meaning self.old rest (bits_in self.old.nodes rest) }
        requires few { length (bits_in self.old.nodes rest) < 128 }
        ensures keeps { Keeps B.Meaning self.old self.new }
        ensures live { IfOk result (λ r. IsLive self.new r) }
        ensures bits { IfOk result (λ r. AreBitsOf B.Meaning self.new r (bits_in self.new.nodes r)) }
        ensures is { IfOk result (λ r. bits_in self.new.nodes r ≡ put_bit e (bits_in self.old.nodes rest)) }
        ensures full { OnErr result (length self.new.nodes ≡ self.new.limit) }
        ensures store { self.new.store ≡ self.old.store }
    {
        if self.is_bit(rest, e) {
            return Ok(rest);
        }
        self.add(Node::Bit(e, rest))
    }

    /// Whether an integer is but this bit.
    fn is_bit(&self, s: Sob, e: Edge) -> bool
        requires whole { IsWhole B.Meaning self.now }
        requires live { IsLive self.now s }
        ensures { IsTrue result ↔ (bits_in self.now.nodes s ≡ e ∷ []) }
    {
        match self.inner(s) {
            Node::Sign(f) => e == f,
            _ => false,
        }
    }
}
