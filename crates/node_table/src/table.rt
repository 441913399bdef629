//! The table of nodes.

ghost use Rattle.std.specs.Prelude.{◌≡◌, ◌≢◌, ◌≤◌, ◌<◌, ◌+◌, ◌∷◌, ◌++◌, [], ℕ, length, get_or, vec_capacity, IfOk, IfSome, IfNone};

use super::chains::chain;
use super::interned::Interned;
use super::words::spread;
use gl_logic::NoMemory;
use std::alloc::Global;
use std::marker::Model;

/// Nodes in the order of their making, each with a number, by which it is read, and found again by its hash. Contracts see
/// the list of nodes and how many there may be.
#[derive(Drop)]
pub struct NodeTable<N: Interned> {
    room: u32,
    nodes: Vec<N>,
    /// For each node one more than the number of the next one of its bucket, or 0.
    next: Vec<u32>,
    /// One more than the number of the newest node of each bucket, or 0.
    heads: Vec<u32>,
}

impl<N: Interned> Model for NodeTable<N> {
    ghost use Rattle.std.specs.Prelude.{vec_capacity};
    ghost use Rattle.node_table.specs.Chains.{IsTable, Noted};

    ghost Value = { Noted N };

    ghost view = { λ t. record { nodes = t.nodes.items; room = t.room } };

    ghost invariant = { λ t. IsTable N.hash_of t.nodes.items t.next.items t.heads.items t.room (vec_capacity t.nodes) (vec_capacity t.next) };
}

/// How many buckets a new table has at most.
const FIRST_BUCKETS: usize = 1024;

impl<N: Interned + Drop> NodeTable<N> {
    /// A table with no node, and with room for so many.
    pub fn new(alloc: Global, room: u32) -> Result<NodeTable<N>, NoMemory>
        ensures { IfOk result (λ t. t ≡ record { nodes = []; room = room }) }
    {
        let places = room as usize;
        let nodes = Vec::with_capacity(alloc, places)?;
        let mut next = Vec::with_capacity(alloc, places)?;
        let most = places.max(1);
        let mut heads = Vec::with_capacity(alloc, most)?;
        chain(&nodes, &mut next, &mut heads, most.min(FIRST_BUCKETS));
        Ok(NodeTable {
            room,
            nodes,
            next,
            heads,
        })
    }
}

impl<N: Interned> NodeTable<N> {
    /// How many nodes there are.
    #[inline(always)]
    pub fn len(&self) -> u32
        ensures len { result ≡ length self.now.nodes }
        ensures within { length self.now.nodes ≤ self.now.room }
    {
        self.nodes.len() as u32
    }

    /// How many nodes there may be.
    #[inline(always)]
    pub fn room(&self) -> u32
        ensures { result ≡ self.now.room }
    {
        self.room
    }

    /// The nodes, in the order of their making.
    #[inline(always)]
    pub fn as_slice(&self) -> &[N]
        ensures { result.now ≡ self.now.nodes }
    {
        &self.nodes
    }

    /// A node, by its number.
    #[inline(always)]
    pub fn node(&self, number: u32) -> N
        requires { number < length self.now.nodes }
        ensures { (d : N) → result ≡ get_or self.now.nodes number d }
    {
        self.as_slice()[number as usize]
    }

    /// The number of a node.
    #[inline]
    pub fn find(&self, node: N) -> Option<u32>
        ensures found { IfSome result (λ n. (n < length self.now.nodes) × ((d : N) → get_or self.now.nodes n d ≡ node)) }
        ensures absent { IfNone result ((i : ℕ) (d : N) → i < length self.now.nodes → get_or self.now.nodes i d ≢ node) }
    {
        let mut at = self.heads[spread(node.hash(), self.heads.len())];
        while at != 0 {
            let number = at - 1;
            if self.nodes[number as usize].is(node) {
                return Some(number);
            }
            at = self.next[number as usize];
        }
        None
    }

    /// Whether the next node that is added makes the buckets more.
    #[inline(always)]
    pub fn is_crowded(&self) -> bool {
        self.nodes.len() >= self.heads.len()
    }

    /// Adds a node, for which there is room. Its number is the answer.
    #[inline]
    pub fn push(&mut self, node: N) -> u32
        requires { length self.old.nodes < self.old.room }
        ensures number { result ≡ length self.old.nodes }
        ensures added { self.new ≡ record self.old { nodes = self.old.nodes ++ node ∷ [] } }
    {
        self.grow_where_full();
        let number = self.nodes.len() as u32;
        let bucket = spread(node.hash(), self.heads.len());
        let head = self.heads[bucket];
        self.nodes.push_reserved(node);
        self.next.push_reserved(head);
        self.heads[bucket] = number + 1;
        number
    }

    /// Keeps the chains short: there are no more nodes than buckets, as far as the buckets' room goes.
    #[inline]
    fn grow_where_full(&mut self)
        ensures { self.new ≡ self.old }
    {
        if self.is_crowded() {
            self.grow();
        }
    }

    /// Makes the buckets twice as many, as far as their room goes.
    #[cold]
    fn grow(&mut self)
        ensures { self.new ≡ self.old }
    {
        let twice = self.heads.len().saturating_mul(2);
        let buckets = twice.min(self.heads.capacity());
        chain(&self.nodes, &mut self.next, &mut self.heads, buckets);
    }
}
