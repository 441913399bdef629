//! The store: its nodes, and the tables that find them again.

ghost use Rattle.std.specs.Prelude.{◌≡◌, ◌≢◌, ◌≤◌, ◌<◌, ◌+◌, ◌∷◌, ◌++◌, ◌↔◌, [], ℕ, Bool, cond, min, length, IsTrue, IfOk, IfSome, IfNone, OnErr};
ghost use Rattle.bfr_store.specs.Edges.{node_of};

use super::entry::{Entry, place_of};
use super::node::{Node, TRUE};
use super::tables::widen;
use bfr_store::{Edge, Full};
use gl_logic::NoMemory;
use node_table::NodeTable;
use std::alloc::Global;
use std::marker::Model;

/// A store of reduced ordered binary decision diagrams.
#[derive(Drop)]
pub struct Bdd {
    limit: u32,
    width: u32,
    /// The nodes. The first is the constant true.
    nodes: NodeTable<Node>,
    /// Finished calls. A new one takes the place of an older one.
    computed: Vec<Entry>,
}

impl Model for Bdd {
    ghost use Rattle.std.specs.Prelude.{◌≡◌, ◌+◌, ◌≤◌};
    ghost use Rattle.bdd_store.specs.Nodes.{Diagrams};
    ghost use Rattle.bdd_store.specs.Inside.{IsStore};

    ghost Value = { Diagrams };

    ghost view = { λ b. record { nodes = b.nodes.nodes; limit = b.limit; width = b.width } };

    ghost invariant = { λ b. IsStore b.nodes.nodes b.computed.items b.limit b.width × (b.nodes.room ≡ b.limit + 1) × (b.limit ≤ 1000000000) };
}

/// How many finished calls a new store keeps at most.
const FIRST_PLACES: usize = 1024;

/// How many finished calls a store keeps at most.
const MOST_ENTRIES: usize = 262_144;

impl Bdd {
    ghost use Rattle.bdd_store.specs.Nodes.{IsLive, constant_node, node_at, past, top_of, truth_of};
    ghost use Rattle.bdd_store.specs.Inside.{IsBranch, IsDistinct, IsOrdered};

    /// A store with no node but the constant's and with no variable. Room for `limit` more nodes is reserved.
    pub fn new(alloc: Global, limit: u32) -> Result<Bdd, NoMemory>
        requires { limit ≤ 1000000000 }
        ensures { IfOk result (λ b. b ≡ record { nodes = constant_node ∷ []; limit = limit; width = 0 }) }
    {
        let mut nodes = NodeTable::new(alloc, limit + 1)?;
        nodes.push(Node::constant());
        let room = limit as usize + 1;
        let mut computed = Vec::with_capacity(alloc, room.min(MOST_ENTRIES))?;
        widen(&mut computed, room.min(FIRST_PLACES));
        Ok(Bdd {
            limit,
            width: 0,
            nodes,
            computed,
        })
    }

    /// How many nodes there may be besides the constant's.
    pub(crate) fn limit_of(&self) -> u32
        ensures limit { result ≡ self.now.limit }
        ensures small { result ≤ 1000000000 }
        ensures within { length self.now.nodes ≤ self.now.limit + 1 }
        ensures ordered { IsOrdered self.now.nodes self.now.width }
        ensures distinct { IsDistinct self.now.nodes }
    {
        self.limit
    }

    /// One more than the greatest variable that was made, or 0.
    pub(crate) fn width_of(&self) -> u32
        ensures width { result ≡ self.now.width }
        ensures ordered { IsOrdered self.now.nodes self.now.width }
        ensures distinct { IsDistinct self.now.nodes }
    {
        self.width
    }

    /// How many nodes there are, with the constant's.
    pub(crate) fn len(&self) -> u32
        ensures len { result ≡ length self.now.nodes }
        ensures some { 0 < length self.now.nodes }
        ensures within { length self.now.nodes ≤ self.now.limit + 1 }
    {
        self.nodes.len()
    }

    /// The variable that the edge's node tests; that of a constant is past every other.
    pub(crate) fn top(&self, e: Edge) -> u32
        requires { IsLive self.now e }
        ensures top { result ≡ top_of self.now.nodes e }
        ensures in_width { 0 < node_of e → result < self.now.width }
    {
        self.node_of(e).variable
    }

    /// The node of an edge.
    pub(crate) fn node_of(&self, e: Edge) -> Node
        requires { IsLive self.now e }
        ensures node { result ≡ node_at self.now.nodes (node_of e) }
        ensures ordered { IsOrdered self.now.nodes self.now.width }
        ensures distinct { IsDistinct self.now.nodes }
    {
        self.nodes.node(e.node())
    }

    /// What the edge says where the variable is true, and what it says elsewhere. The variable is not past the edge's.
    pub(crate) fn branches(&self, e: Edge, variable: u32) -> (Edge, Edge)
        requires live { IsLive self.now e }
        requires at_most { variable ≤ top_of self.now.nodes e }
        requires proper { variable < past }
        ensures high { IsLive self.now result.0 }
        ensures low { IsLive self.now result.1 }
        ensures above_high { variable < top_of self.now.nodes result.0 }
        ensures above_low { variable < top_of self.now.nodes result.1 }
        ensures differ { variable ≡ top_of self.now.nodes e → result.0.number ≢ result.1.number }
        ensures truth { (a : ℕ → Bool) → truth_of self.now.nodes e a ≡ cond (a variable) (truth_of self.now.nodes result.0 a) (truth_of self.now.nodes result.1 a) }
    {
        let node = self.node_of(e);
        if node.variable != variable {
            return (e, e);
        }
        let flag = e.is_complemented();
        (node.high.flipped_if(flag), node.low.flipped_if(flag))
    }

    /// The edge of this node that is not complemented.
    pub(crate) fn edge_of(&self, number: u32) -> Edge
        requires some { 0 < number }
        requires live { number < length self.now.nodes }
        ensures node { node_of result ≡ number }
        ensures top { top_of self.now.nodes result ≡ (node_at self.now.nodes number).variable }
        ensures truth { (a : ℕ → Bool) → truth_of self.now.nodes result a ≡ cond (a (node_at self.now.nodes number).variable) (truth_of self.now.nodes (node_at self.now.nodes number).high a) (truth_of self.now.nodes (node_at self.now.nodes number).low a) }
    {
        // Read for what it tells of the nodes: they are in order, and no two are equal.
        let _ = &self.limit;
        Edge::regular(number)
    }

    /// The number of a node.
    pub(crate) fn find(&self, node: Node) -> Option<u32>
        requires { node.variable < past }
        ensures found { IfSome result (λ n. (0 < n) × (n < length self.now.nodes) × (node_at self.now.nodes n ≡ node)) }
        ensures absent { IfNone result ((i : ℕ) → i < length self.now.nodes → node_at self.now.nodes i ≢ node) }
    {
        self.nodes.find(node)
    }

    /// Adds a node, for which there is room and which is not there.
    pub(crate) fn push(&mut self, node: Node) -> u32
        requires room { length self.old.nodes ≤ self.old.limit }
        requires branch { IsBranch self.old.nodes self.old.width (length self.old.nodes) node }
        requires absent { (i : ℕ) → i < length self.old.nodes → node_at self.old.nodes i ≢ node }
        ensures number { result ≡ length self.old.nodes }
        ensures added { self.new ≡ record self.old { nodes = self.old.nodes ++ node ∷ [] } }
    {
        self.grow_where_full();
        self.nodes.push(node)
    }

    /// The places of finished calls become more with the buckets of the nodes.
    #[inline]
    fn grow_where_full(&mut self)
        ensures { self.new ≡ self.old }
    {
        if self.nodes.is_crowded() {
            self.grow();
        }
    }

    /// Makes the places of finished calls twice as many, as far as their room goes.
    #[cold]
    fn grow(&mut self)
        ensures { self.new ≡ self.old }
    {
        let twice = self.computed.len().saturating_mul(2);
        let places = twice.min(self.computed.capacity());
        widen(&mut self.computed, places);
    }

    /// Raises the width.
    pub(crate) fn widen(&mut self, width: u32)
        requires wider { self.old.width ≤ width }
        requires narrow { width ≤ past }
        ensures { self.new ≡ record self.old { width = width } }
    {
        self.width = width;
    }

    /// The answer of a finished call.
    pub(crate) fn look(&self, t: Edge, x: Edge, y: Edge) -> Option<Edge>
        ensures ordered { IsOrdered self.now.nodes self.now.width }
        ensures distinct { IsDistinct self.now.nodes }
        ensures live { IfSome result (IsLive self.now) }
        ensures above { IfSome result (λ r. min (top_of self.now.nodes t) (min (top_of self.now.nodes x) (top_of self.now.nodes y)) ≤ top_of self.now.nodes r) }
        ensures truth { IfSome result (λ r. (a : ℕ → Bool) → truth_of self.now.nodes r a ≡ cond (truth_of self.now.nodes t a) (truth_of self.now.nodes x a) (truth_of self.now.nodes y a)) }
    {
        let entry = self.computed[place_of(self.computed.len(), t, x, y)];
        if entry.is_of(t, x, y) {
            Some(entry.answer)
        } else {
            None
        }
    }

    /// Keeps the answer of a finished call, in the place of an older one.
    pub(crate) fn keep(&mut self, t: Edge, x: Edge, y: Edge, answer: Edge)
        requires t { IsLive self.old t }
        requires x { IsLive self.old x }
        requires y { IsLive self.old y }
        requires answer { IsLive self.old answer }
        requires above { min (top_of self.old.nodes t) (min (top_of self.old.nodes x) (top_of self.old.nodes y)) ≤ top_of self.old.nodes answer }
        requires truth { (a : ℕ → Bool) → truth_of self.old.nodes answer a ≡ cond (truth_of self.old.nodes t a) (truth_of self.old.nodes x a) (truth_of self.old.nodes y a) }
        ensures { self.new ≡ self.old }
    {
        let place = place_of(self.computed.len(), t, x, y);
        self.computed[place] = Entry {
            test: t,
            high: x,
            low: y,
            answer,
        };
    }
}
