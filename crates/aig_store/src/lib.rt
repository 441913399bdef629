//! And-inverter graphs: conjunctions of two complemented or plain edges, each pair of edges held once.
//!
//! An [`Aig`] is a store of bit functions: it has the calls of `bfr_store`'s trait `Bits` but `decide`, which is a search
//! and stands above. A node is the constant true, a variable, or the conjunction of two edges of nodes with smaller
//! numbers ([`AigNode`]). An edge names a node or its complement. Before a conjunction is looked up, the cases where one
//! edge is constant, or both are of one node, are answered without a node, and the pair is put in the order of its
//! numbers (structural hashing, as in ABC and AIGER's tools). So `var` and `and` add at most one node, and `ite` at most
//! three. Equal functions may have different edges: a graph is no canonical form.
//!
//! Nodes stand in room that is reserved when the store is made, and so do the buckets by which a node is found again, in
//! chains that lead from newer to older nodes. The buckets start with a thousand and double inside their room as nodes
//! come, so a new store costs nothing in proportion to its limit, and no later call takes memory. A place is found without
//! a division. There is no collection of nodes.
//!
//! `value` walks the edge's cone with a stack of its own, in the room reserved for it. Each node carries the number of the
//! last walk that came to it, and what it said then, so that a walk goes to each node of the cone once and never to the
//! others. A test walks a conjunction that is 100,000 deep.
//!
//! Tests: the crate `store_tests`.
#![tactic(auto)]

mod bits;
pub mod mark;
pub mod node;
mod operations;
pub mod store;
pub mod walk;

pub use node::AigNode;
pub use store::Aig;
