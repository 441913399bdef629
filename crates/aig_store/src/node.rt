//! Nodes of and-inverter graphs.

ghost use Rattle.aig_store.specs.Hashes.{node_hash};

use bfr_store::Edge;
use node_table::{Interned, hash};

/// The constant true.
pub const TRUE: Edge = Edge { number: 0 };

/// The constant false.
pub const FALSE: Edge = Edge { number: 1 };

/// What a node stands for.
#[derive(Clone, Copy, Debug, PartialEq, Eq)]
pub enum AigNode {
    /// The constant true.
    Constant,
    /// What the assignment gives to this variable.
    Var(u32),
    /// The conjunction of two edges.
    And(Edge, Edge),
}

impl Interned for AigNode {
    ghost hash_of = { node_hash };

    #[inline]
    #[tactic(auto, unfolding(crate::specs::Hashes::node_hash))]
    fn hash(self) -> u64 {
        let (first, second) = match self {
            AigNode::Constant => (0, 0),
            AigNode::Var(k) => (k, 0),
            AigNode::And(x, y) => (x.number, y.number),
        };
        hash(first, second, 0)
    }

    #[inline]
    fn is(self, other: AigNode) -> bool {
        match (self, other) {
            (AigNode::Constant, AigNode::Constant) => true,
            (AigNode::Var(j), AigNode::Var(k)) => j == k,
            (AigNode::And(x, y), AigNode::And(u, v)) => {
                x.number == u.number && y.number == v.number
            }
            _ => false,
        }
    }
}
