//! The store: its nodes, and the tables that find them again.

ghost use Rattle.std.specs.Prelude.{◌≡◌, ◌≢◌, ◌≤◌, ◌<◌, ◌+◌, ◌∷◌, ◌++◌, [], ℕ, length, IfOk, IfSome, IfNone, OnErr};

use super::mark::Mark;
use super::node::AigNode;
use super::walk::{evaluate, next_call};
use bfr_store::{Edge, Full};
use gl_logic::{Assignment, NoMemory};
use node_table::NodeTable;
use std::alloc::Global;
use std::marker::Model;

/// A store of and-inverter graphs.
#[derive(Drop)]
pub struct Aig {
    limit: u32,
    width: u32,
    /// The nodes. The first is the constant true.
    nodes: NodeTable<AigNode>,
    /// For each node what the last walk that came to it found.
    marks: Vec<Mark>,
    /// The nodes that a walk is at.
    stack: Vec<u32>,
    /// The number of the last walk.
    calls: u32,
}

impl Model for Aig {
    ghost use Rattle.std.specs.Prelude.{◌≡◌, ◌+◌, ◌≤◌, vec_capacity};
    ghost use Rattle.aig_store.specs.Nodes.{Graph};
    ghost use Rattle.aig_store.specs.Inside.{IsStore};

    ghost Value = { Graph };

    ghost view = { λ g. record { nodes = g.nodes.nodes; limit = g.limit; width = g.width } };

    ghost invariant = { λ g. IsStore g.nodes.nodes g.marks.items g.calls g.limit g.width × (g.nodes.room ≡ g.limit + 1) × (g.limit + 1 ≤ vec_capacity g.marks) × (g.limit + 1 ≤ vec_capacity g.stack) × (g.limit ≤ 1000000000) };
}

impl Aig {
    ghost use Rattle.gl_logic.specs.Assignments.{value_at};
    ghost use Rattle.aig_store.specs.Nodes.{IsLive, node_at, truth_of};
    ghost use Rattle.aig_store.specs.Inside.{Extends, IsDistinct, IsOrdered, IsProper};

    /// A store with no node but the constant's and with no variable. Room for `limit` more nodes is reserved.
    pub fn new(alloc: Global, limit: u32) -> Result<Aig, NoMemory>
        requires { limit ≤ 1000000000 }
        ensures { IfOk result (λ g. g ≡ record { nodes = AigNode.Constant ∷ []; limit = limit; width = 0 }) }
    {
        let mut nodes = NodeTable::new(alloc, limit + 1)?;
        nodes.push(AigNode::Constant);
        let room = limit as usize + 1;
        let mut marks = Vec::with_capacity(alloc, room)?;
        marks.push_reserved(Mark::blank());
        let stack = Vec::with_capacity(alloc, room)?;
        Ok(Aig {
            limit,
            width: 0,
            nodes,
            marks,
            stack,
            calls: 0,
        })
    }

    /// How many nodes there may be besides the constant's.
    pub(crate) fn limit_of(&self) -> u32
        ensures limit { result ≡ self.now.limit }
        ensures small { result ≤ 1000000000 }
        ensures within { length self.now.nodes ≤ self.now.limit + 1 }
        ensures ordered { IsOrdered self.now.nodes self.now.width }
        ensures distinct { IsDistinct self.now.nodes }
    {
        self.limit
    }

    /// One more than the greatest variable that was made, or 0.
    pub(crate) fn width_of(&self) -> u32
        ensures width { result ≡ self.now.width }
        ensures within { length self.now.nodes ≤ self.now.limit + 1 }
        ensures small { self.now.limit ≤ 1000000000 }
        ensures ordered { IsOrdered self.now.nodes self.now.width }
        ensures distinct { IsDistinct self.now.nodes }
    {
        self.width
    }

    /// How many nodes there are, with the constant's.
    pub(crate) fn len(&self) -> u32
        ensures len { result ≡ length self.now.nodes }
        ensures some { 0 < length self.now.nodes }
        ensures within { length self.now.nodes ≤ self.now.limit + 1 }
    {
        self.nodes.len()
    }

    /// The node of this number.
    pub(crate) fn node(&self, number: u32) -> AigNode
        requires { number < length self.now.nodes }
        ensures node { result ≡ node_at self.now.nodes number }
        ensures ordered { IsOrdered self.now.nodes self.now.width }
    {
        self.nodes.node(number)
    }

    /// The number of a node that is not the constant's.
    pub(crate) fn find(&self, node: AigNode) -> Option<u32>
        requires { node ≢ AigNode.Constant }
        ensures found { IfSome result (λ n. (0 < n) × (n < length self.now.nodes) × (node_at self.now.nodes n ≡ node)) }
        ensures absent { IfNone result ((i : ℕ) → i < length self.now.nodes → node_at self.now.nodes i ≢ node) }
    {
        self.nodes.find(node)
    }

    /// Adds a node, for which there is room and which is not there.
    pub(crate) fn push(&mut self, node: AigNode) -> u32
        requires room { length self.old.nodes ≤ self.old.limit }
        requires proper { IsProper self.old.width (length self.old.nodes) node }
        requires absent { (i : ℕ) → i < length self.old.nodes → node_at self.old.nodes i ≢ node }
        ensures number { result ≡ length self.old.nodes }
        ensures added { self.new ≡ record self.old { nodes = self.old.nodes ++ node ∷ [] } }
    {
        let number = self.nodes.push(node);
        self.marks.push_reserved(Mark::blank());
        number
    }

    /// The number of this node, which is added where it is not there.
    pub(crate) fn intern(&mut self, node: AigNode) -> Result<u32, Full>
        requires other { node ≢ AigNode.Constant }
        requires proper { IsProper self.old.width (length self.old.nodes) node }
        ensures extends { Extends self.old self.new }
        ensures some { IfOk result (λ n. 0 < n) }
        ensures live { IfOk result (λ n. n < length self.new.nodes) }
        ensures small { IfOk result (λ n. n ≤ 1000000000) }
        ensures node { IfOk result (λ n. node_at self.new.nodes n ≡ node) }
        ensures one_more { length self.new.nodes ≤ length self.old.nodes + 1 }
        ensures held { (i : ℕ) → i < length self.old.nodes → node_at self.old.nodes i ≡ node → (result ≡ Ok i) × (self.new ≡ self.old) }
        ensures full { OnErr result (length self.new.nodes ≡ self.new.limit + 1) }
    {
        let limit = self.limit_of();
        if let Some(found) = self.find(node) {
            return Ok(found);
        }
        if self.len() > limit {
            return Err(Full);
        }
        Ok(self.push(node))
    }

    /// Raises the width.
    pub(crate) fn widen(&mut self, width: u32)
        requires { self.old.width ≤ width }
        ensures { self.new ≡ record self.old { width = width } }
    {
        self.width = width;
    }

    /// What an edge says under an assignment of the store's variables.
    pub(crate) fn walk(&mut self, e: Edge, a: &Assignment) -> bool
        requires live { IsLive self.old e }
        requires width { length a.now ≡ self.old.width }
        ensures same { self.new ≡ self.old }
        ensures truth { result ≡ truth_of self.old.nodes e (value_at a.now) }
    {
        self.calls = next_call(&mut self.marks, self.calls);
        let says = evaluate(
            self.nodes.as_slice(),
            &mut self.marks,
            &mut self.stack,
            self.calls,
            a,
            e.node(),
        );
        if e.is_complemented() { !says } else { says }
    }
}
