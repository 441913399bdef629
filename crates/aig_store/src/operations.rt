//! Conjunction and choice.

ghost use Rattle.std.specs.Prelude.{◌≡◌, ◌≢◌, ◌≤◌, ◌<◌, ◌+◌, ◌&&◌, ◌||◌, ℕ, Bool, List, true, cond, get_or, length, IsTrue, IfOk, IfSome, IfNone, OnErr};
ghost use Rattle.bfr_store.specs.Edges.{node_of, truth_at};

use super::node::{AigNode, FALSE};
use super::store::Aig;
use bfr_store::{Edge, Full};

/// The conjunction, where it is one of the two or a constant.
pub fn conjunction_of(x: Edge, y: Edge) -> Option<Edge>
    ensures truth { IfSome result (λ r. (values : List Bool) → get_or values 0 true ≡ true → truth_at values r ≡ (truth_at values x && truth_at values y)) }
    ensures drawn { IfSome result (λ r. (count : ℕ) → node_of x < count → node_of y < count → node_of r < count) }
    ensures closed { IfSome result (λ r. 0 < node_of x → 0 < node_of y → node_of x ≡ node_of y) }
    ensures apart { IfNone result (node_of x ≢ node_of y) }
    ensures proper_x { IfNone result (0 < node_of x) }
    ensures proper_y { IfNone result (0 < node_of y) }
{
    if x.node() == y.node() {
        return Some(if x.number == y.number { x } else { FALSE });
    }
    if x.node() == 0 {
        return Some(if x.number == 0 { y } else { FALSE });
    }
    if y.node() == 0 {
        return Some(if y.number == 0 { x } else { FALSE });
    }
    None
}

/// Whether `x` is the constant true or the edge `t`, and so true wherever `t` is.
pub fn is_implied(t: Edge, x: Edge) -> bool
    ensures { IsTrue result → (values : List Bool) → get_or values 0 true ≡ true → truth_at values t ≡ true → truth_at values x ≡ true }
{
    x.number == 0 || x.number == t.number
}

impl Aig {
    ghost use Rattle.aig_store.specs.Nodes.{IsLive, IsPair, edge_at, node_at, truth_of};
    ghost use Rattle.aig_store.specs.Inside.{Extends};

    /// The edge that is true where both are.
    pub(crate) fn both(&mut self, x: Edge, y: Edge) -> Result<Edge, Full>
        requires x { IsLive self.old x }
        requires y { IsLive self.old y }
        ensures extends { Extends self.old self.new }
        ensures live { IfOk result (λ r. IsLive self.new r) }
        ensures truth { IfOk result (λ r. (a : ℕ → Bool) → truth_of self.new.nodes r a ≡ (truth_of self.old.nodes x a && truth_of self.old.nodes y a)) }
        ensures one_more { length self.new.nodes ≤ length self.old.nodes + 1 }
        ensures held { (i : ℕ) → i < length self.old.nodes → IsPair x y (node_at self.old.nodes i) → (result ≡ Ok (edge_at i)) × (self.new ≡ self.old) }
        ensures added { IfOk result (λ r. length self.old.nodes < length self.new.nodes → IsPair x y (node_at self.new.nodes (node_of r)) × (r ≡ edge_at (node_of r))) }
        ensures full { OnErr result (length self.new.nodes ≡ self.new.limit + 1) }
    {
        // Read for what it tells of the nodes: they are in order, and no two are equal.
        let _width = self.width_of();
        if let Some(known) = conjunction_of(x, y) {
            return Ok(known);
        }
        let node = if x.number < y.number {
            AigNode::And(x, y)
        } else {
            AigNode::And(y, x)
        };
        let number = self.intern(node)?;
        Ok(Edge::regular(number))
    }

    /// The edge that is true where one of the two is.
    pub(crate) fn either(&mut self, x: Edge, y: Edge) -> Result<Edge, Full>
        requires x { IsLive self.old x }
        requires y { IsLive self.old y }
        ensures extends { Extends self.old self.new }
        ensures live { IfOk result (λ r. IsLive self.new r) }
        ensures truth { IfOk result (λ r. (a : ℕ → Bool) → truth_of self.new.nodes r a ≡ (truth_of self.old.nodes x a || truth_of self.old.nodes y a)) }
        ensures one_more { length self.new.nodes ≤ length self.old.nodes + 1 }
        ensures full { OnErr result (length self.new.nodes ≡ self.new.limit + 1) }
    {
        let neither = self.both(x.complement(), y.complement())?;
        Ok(neither.complement())
    }

    /// The edge that is `x` where `t` is true, and `y` elsewhere.
    pub(crate) fn choose(&mut self, t: Edge, x: Edge, y: Edge) -> Result<Edge, Full>
        requires t { IsLive self.old t }
        requires x { IsLive self.old x }
        requires y { IsLive self.old y }
        ensures extends { Extends self.old self.new }
        ensures live { IfOk result (λ r. IsLive self.new r) }
        ensures truth { IfOk result (λ r. (a : ℕ → Bool) → truth_of self.new.nodes r a ≡ cond (truth_of self.old.nodes t a) (truth_of self.old.nodes x a) (truth_of self.old.nodes y a)) }
        ensures three_more { length self.new.nodes ≤ length self.old.nodes + 3 }
        ensures full { OnErr result (length self.new.nodes ≡ self.new.limit + 1) }
    {
        // Read for what it tells of the nodes: they are in order, and no two are equal.
        let _width = self.width_of();
        if x.number == y.number {
            return Ok(x);
        }
        if is_implied(t, x) {
            return self.either(t, y);
        }
        let other = t.complement();
        if is_implied(other, y) {
            return self.either(other, x);
        }
        let high = self.both(t, x)?;
        let low = self.both(other, y)?;
        self.either(high, low)
    }
}
