//! The store as a store of bit functions, and what its edges are made of.

ghost use Rattle.std.specs.Prelude.{◌≡◌, ◌≤◌, ◌<◌, ◌+◌, ◌&&◌, ◌↔◌, ℕ, Bool, false, not, cond, length, IsTrue, IfOk};
ghost use Rattle.bfr_store.specs.Edges.{node_of, is_flipped, xor};
ghost use Rattle.bfr_store.specs.Keeps.{Keeps, Makes, MakesVariable};
ghost use Rattle.gl_logic.specs.Assignments.{value_at};

use super::node::{AigNode, FALSE, TRUE};
use super::store::Aig;
use bfr_store::{Edge, Full, Meaning};
use gl_logic::Assignment;

impl Meaning for Aig {
    ghost use Rattle.std.specs.Prelude.{false};
    ghost use Rattle.aig_store.specs.Nodes.{IsLive, constant_of, count_of as nodes_in, truth_of as truth_over};

    ghost live = { IsLive };

    ghost truth_of = { λ s e a. truth_over s.nodes e a };

    ghost constant_edge = { constant_of };

    ghost spent = { λ _. false };

    ghost budget_of = { λ s. 0 };

    ghost limit_of = { λ s. s.limit };

    ghost count_of = { nodes_in };

    ghost width_of = { λ s. s.width };
}

/// The calls of `bfr_store`'s trait `Bits`, all but `decide`, with its clauses.
impl Aig {
    ghost use Rattle.aig_store.specs.Inside.{IsDistinct, IsOrdered};
    ghost use Rattle.aig_store.specs.Nodes.{HoldsPairsOnce, IsLive, IsPair, constant_of, count_of, edge_at, node_at, truth_of};

    /// The function that is always `b`.
    pub fn constant(&self, b: bool) -> Edge
        ensures edge { result ≡ constant_of b }
        ensures live { IsLive self.now result }
        ensures truth { (a : ℕ → Bool) → truth_of self.now.nodes result a ≡ b }
    {
        // Read for what it tells of the nodes: they are in order, and no two are equal.
        let _width = self.width_of();
        if b { TRUE } else { FALSE }
    }

    /// The complement of a function.
    pub fn not(&self, x: Edge) -> Edge
        requires { IsLive self.now x }
        ensures live { IsLive self.now result }
        ensures truth { (a : ℕ → Bool) → truth_of self.now.nodes result a ≡ not (truth_of self.now.nodes x a) }
    {
        x.complement()
    }

    /// The function that is what the assignment gives to variable `k`. It adds at most one node, and `Full` comes only
    /// where the count has reached the limit and the variable is not there.
    pub fn var(&mut self, k: u32) -> Result<Edge, Full>
        requires { k < 4294967295 }
        ensures makes { MakesVariable ⟦<Aig as Meaning>⟧ self.old self.new result k }
        ensures one_more { count_of self.new ≤ count_of self.old + 1 }
        ensures held { (i : ℕ) → i < length self.old.nodes → node_at self.old.nodes i ≡ AigNode.Var k → (result ≡ Ok (edge_at i)) × (self.new ≡ self.old) }
    {
        let limit = self.limit_of();
        let width = self.width_of();
        let node = AigNode::Var(k);
        if let Some(found) = self.find(node) {
            return Ok(Edge::regular(found));
        }
        if self.len() > limit {
            return Err(Full);
        }
        self.widen(width.max(k + 1));
        let number = self.push(node);
        Ok(Edge::regular(number))
    }

    /// The function that is true where both are. It adds at most one node: where one of the two is constant or they are of
    /// one node it adds none, and a pair that is there, in one order or the other, is found again. `Full` comes only where
    /// the count has reached the limit and the pair is not there.
    pub fn and(&mut self, x: Edge, y: Edge) -> Result<Edge, Full>
        requires x { IsLive self.old x }
        requires y { IsLive self.old y }
        ensures makes { Makes ⟦<Aig as Meaning>⟧ self.old self.new result (λ a. truth_of self.old.nodes x a && truth_of self.old.nodes y a) }
        ensures one_more { count_of self.new ≤ count_of self.old + 1 }
        ensures held { (i : ℕ) → i < length self.old.nodes → IsPair x y (node_at self.old.nodes i) → (result ≡ Ok (edge_at i)) × (self.new ≡ self.old) }
        ensures added { IfOk result (λ r. count_of self.old < count_of self.new → IsPair x y (node_at self.new.nodes (node_of r)) × (r ≡ edge_at (node_of r))) }
    {
        // Read for what it tells of the nodes: they are in order, and no two are equal.
        let _width = self.width_of();
        self.both(x, y)
    }

    /// The function that is `x` where `t` is true, and `y` elsewhere. It adds at most three nodes. `Full` comes only where
    /// the count has reached the limit; nodes that were added before stay.
    pub fn ite(&mut self, t: Edge, x: Edge, y: Edge) -> Result<Edge, Full>
        requires t { IsLive self.old t }
        requires x { IsLive self.old x }
        requires y { IsLive self.old y }
        ensures makes { Makes ⟦<Aig as Meaning>⟧ self.old self.new result (λ a. cond (truth_of self.old.nodes t a) (truth_of self.old.nodes x a) (truth_of self.old.nodes y a)) }
        ensures three_more { count_of self.new ≤ count_of self.old + 3 }
    {
        // Read for what it tells of the nodes: they are in order, and no two are equal.
        let _width = self.width_of();
        self.choose(t, x, y)
    }

    /// The truth of a function under this assignment. The time is linear in the edge's cone, no call nests, no node is
    /// added, and no memory is taken.
    pub fn value(&mut self, e: Edge, a: &Assignment) -> bool
        requires live { IsLive self.old e }
        requires width { length a.now ≡ self.old.width }
        ensures same { self.new ≡ self.old }
        ensures truth { result ≡ truth_of self.old.nodes e (value_at a.now) }
    {
        self.walk(e, a)
    }

    /// How many nodes there are, without the constant's.
    pub fn count(&self) -> u32
        ensures count { result ≡ count_of self.now }
        ensures within { result ≤ self.now.limit }
    {
        self.len() - 1
    }

    /// How many nodes there may be.
    pub fn limit(&self) -> u32
        ensures limit { result ≡ self.now.limit }
        ensures small { result ≤ 1000000000 }
    {
        self.limit_of()
    }

    /// One more than the greatest variable that was made, or 0 where there is none. What a live edge says depends on the
    /// variables below it alone. Each pair of edges is held once.
    pub fn width(&self) -> u32
        ensures width { result ≡ self.now.width }
        ensures depends { (e : Edge) (a b : ℕ → Bool) → IsLive self.now e → ((k : ℕ) → k < self.now.width → a k ≡ b k) → truth_of self.now.nodes e a ≡ truth_of self.now.nodes e b }
        ensures ordered { IsOrdered self.now.nodes self.now.width }
        ensures distinct { IsDistinct self.now.nodes }
        ensures once { HoldsPairsOnce self.now.nodes }
    {
        self.width_of()
    }
}

/// What an edge is made of.
impl Aig {
    ghost use Rattle.aig_store.specs.Inside.{IsProper};
    ghost use Rattle.aig_store.specs.Nodes.{IsLive, node_at, says, truth_of};

    /// Whether the edge names a function of this store.
    pub fn is_live(&self, e: Edge) -> bool
        ensures { IsTrue result ↔ IsLive self.now e }
    {
        e.node() < self.len()
    }

    /// The edge's node. The edge says what the node says by its own edges, or the complement, and the edges of a
    /// conjunction are of nodes with smaller numbers.
    pub fn node_of(&self, e: Edge) -> AigNode
        requires { IsLive self.now e }
        ensures node { result ≡ node_at self.now.nodes (node_of e) }
        ensures truth { (a : ℕ → Bool) → truth_of self.now.nodes e a ≡ xor (is_flipped e) (says self.now.nodes result a) }
        ensures constant { result ≡ AigNode.Constant ↔ node_of e ≡ 0 }
        ensures variable { (k : ℕ) → result ≡ AigNode.Var k → k < self.now.width }
        ensures below { (x y : Edge) → result ≡ AigNode.And x y → (node_of x < node_of e) × (node_of y < node_of e) }
    {
        self.node(e.node())
    }

    /// The number of the edge's node, from 0 to the limit. Edges of different nodes have different numbers.
    pub fn number_of(&self, e: Edge) -> u32
        requires { IsLive self.now e }
        ensures number { result ≡ node_of e }
        ensures within { result ≤ self.now.limit }
    {
        // Read for what it tells of the count of nodes: it is at most the limit and one.
        let _limit = self.limit_of();
        e.node()
    }

    /// Whether the edge is the complement of what its node says.
    pub fn is_complemented(&self, e: Edge) -> bool
        requires { IsLive self.now e }
        ensures { result ≡ is_flipped e }
    {
        e.is_complemented()
    }
}
