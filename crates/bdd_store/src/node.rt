//! Nodes of decision diagrams.

ghost use Rattle.std.specs.Prelude.{◌≡◌};
ghost use Rattle.bdd_store.specs.Hashes.{node_hash};
ghost use Rattle.bdd_store.specs.Nodes.{constant_node};

use bfr_store::Edge;
use node_table::{Interned, hash};

/// The constant true.
pub const TRUE: Edge = Edge { number: 0 };

/// The constant false.
pub const FALSE: Edge = Edge { number: 1 };

/// A test of a variable: the high edge is meant where the variable is true, the low edge elsewhere.
#[derive(Clone, Copy, Debug, PartialEq, Eq)]
pub struct Node {
    pub variable: u32,
    pub high: Edge,
    pub low: Edge,
}

impl Node {
    /// The node of the constant true, whose variable is past every other.
    pub fn constant() -> Node
        ensures { result ≡ constant_node }
    {
        Node {
            variable: u32::MAX,
            high: TRUE,
            low: TRUE,
        }
    }
}

impl Interned for Node {
    ghost hash_of = { node_hash };

    #[inline]
    #[tactic(auto, unfolding(crate::specs::Hashes::node_hash))]
    fn hash(self) -> u64 {
        hash(self.variable, self.high.number, self.low.number)
    }

    #[inline]
    fn is(self, other: Node) -> bool {
        self.variable == other.variable
            && self.high.number == other.high.number
            && self.low.number == other.low.number
    }
}
