//! The table of nodes, which finds each of them again.

ghost use Rattle.std.specs.Prelude.{◌≡◌, ◌≢◌, ◌≤◌, ◌<◌, ◌∷◌, ◌++◌, ◌↔◌, [], ℕ, length, slice_get, Some, IsTrue, IfOk, IfSome, IfNone};
ghost use Rattle.sym_objects.specs.Seen.{IsEachOnce};
ghost use Rattle.sym_objects.specs.Table.{numbered};

use super::chains::chain;
use super::node::Node;
use gl_logic::NoMemory;
use std::alloc::Global;
use std::marker::Model;

/// Nodes, no two of them equal, each with a mark. Room for as many as there may be is reserved at making; the buckets by
/// which a node is found again start few and double inside their room, so that a new table costs nothing in proportion
/// to its limit.
#[derive(Drop)]
pub struct Table {
    limit: u32,
    nodes: Vec<Node>,
    marks: Vec<bool>,
    /// For each node one more than the number of the next one of its bucket, or 0.
    next: Vec<u32>,
    /// One more than the number of the newest node of each bucket, or 0.
    heads: Vec<u32>,
}

impl Model for Table {
    ghost use Rattle.std.specs.Prelude.{vec_capacity};
    ghost use Rattle.sym_objects.specs.Table.{IsTable, Marked};

    ghost Value = { Marked };

    ghost view = { λ t. record { nodes = t.nodes.items; marks = t.marks.items; limit = t.limit } };

    ghost invariant = { λ t. IsTable t.nodes.items t.marks.items t.next.items t.heads.items t.limit (vec_capacity t.nodes) (vec_capacity t.marks) (vec_capacity t.next) };
}

/// How many buckets a new table has at most.
const FIRST_BUCKETS: usize = 1024;

impl Table {
    /// A table with no node, and with room for so many.
    pub fn new(alloc: Global, limit: u32) -> Result<Table, NoMemory>
        ensures { IfOk result (λ t. t ≡ record { nodes = []; marks = []; limit = limit }) }
    {
        let room = limit as usize;
        let nodes = Vec::with_capacity(alloc, room)?;
        let marks = Vec::with_capacity(alloc, room)?;
        let mut next = Vec::with_capacity(alloc, room)?;
        let most = room.max(1);
        let mut heads = Vec::with_capacity(alloc, most)?;
        chain(&nodes, &mut next, &mut heads, most.min(FIRST_BUCKETS));
        Ok(Table {
            limit,
            nodes,
            marks,
            next,
            heads,
        })
    }

    /// How many nodes there are.
    pub fn len(&self) -> u32
        ensures len { result ≡ length self.now.nodes }
        ensures within { length self.now.nodes ≤ self.now.limit }
        ensures marks { length self.now.marks ≡ length self.now.nodes }
        ensures different { IsEachOnce self.now.nodes }
    {
        self.nodes.len() as u32
    }

    /// How many nodes there may be.
    pub fn limit(&self) -> u32
        ensures { result ≡ self.now.limit }
    {
        self.limit
    }

    /// Whether there is room for no node more.
    pub fn is_full(&self) -> bool
        ensures full { IsTrue result ↔ (length self.now.nodes ≡ self.now.limit) }
        ensures within { length self.now.nodes ≤ self.now.limit }
    {
        self.len() == self.limit
    }

    /// A node, by its number.
    pub fn node(&self, number: u32) -> Node
        requires { number < length self.now.nodes }
        ensures { slice_get self.now.nodes number ≡ Some result }
    {
        // Read for what it tells of the nodes: each has its mark.
        let _limit = self.limit;
        self.nodes[number as usize]
    }

    /// The mark of a node.
    pub fn mark(&self, number: u32) -> bool
        requires { number < length self.now.nodes }
        ensures { slice_get self.now.marks number ≡ Some result }
    {
        // Read for what it tells of the nodes: each has its mark.
        let _limit = self.limit;
        self.marks[number as usize]
    }

    /// The number of a node.
    pub fn find(&self, node: Node) -> Option<u32>
        ensures found { IfSome result (λ n. (n < length self.now.nodes) × (numbered self.now.nodes n ≡ node)) }
        ensures absent { IfNone result ((i : ℕ) → i < length self.now.nodes → numbered self.now.nodes i ≢ node) }
    {
        let mut at = self.heads[node.bucket(self.heads.len())];
        while at != 0 {
            let number = at - 1;
            if self.nodes[number as usize].is(node) {
                return Some(number);
            }
            at = self.next[number as usize];
        }
        None
    }

    /// Adds a node with its mark, for which there is room and which is not there.
    pub fn push(&mut self, node: Node, mark: bool) -> u32
        requires room { length self.old.nodes < self.old.limit }
        requires absent { (i : ℕ) → i < length self.old.nodes → numbered self.old.nodes i ≢ node }
        ensures number { result ≡ length self.old.nodes }
        ensures added { self.new ≡ record self.old { nodes = self.old.nodes ++ node ∷ []; marks = self.old.marks ++ mark ∷ [] } }
    {
        self.grow_where_full();
        let number = self.nodes.len() as u32;
        let bucket = node.bucket(self.heads.len());
        let head = self.heads[bucket];
        self.nodes.push_reserved(node);
        self.marks.push_reserved(mark);
        self.next.push_reserved(head);
        self.heads[bucket] = number + 1;
        number
    }

    /// Keeps the chains short: there are no more nodes than buckets.
    #[inline]
    fn grow_where_full(&mut self)
        ensures { self.new ≡ self.old }
    {
        if self.nodes.len() >= self.heads.len() {
            self.grow();
        }
    }

    /// Makes the buckets twice as many, as far as their room goes.
    #[cold]
    fn grow(&mut self)
        ensures { self.new ≡ self.old }
    {
        let twice = self.heads.len().saturating_mul(2);
        let buckets = twice.min(self.heads.capacity());
        chain(&self.nodes, &mut self.next, &mut self.heads, buckets);
    }
}
