//! Names of functions in a store, and the answers that are not one.

ghost use Rattle.std.specs.Prelude.{◌≡◌, ℕ, ◌+◌, ◌*◌, ◌^◌, ◌/◌, ◌%◌, ◌<◌, List, Bool, not, true, false, IsTrue, ◌↔◌};
ghost use Rattle.bfr_store.specs.Edges.{node_of, is_flipped, truth_at, xor};

/// A function in a store: the number of a node, doubled, and one more where the function is the complement of what the
/// node stands for. It means something only in the store that made it.
#[derive(Clone, Copy, Debug, PartialEq, Eq)]
pub struct Edge {
    pub number: u32,
}

/// The store holds as many nodes as its limit allows.
#[derive(Clone, Copy, Debug, PartialEq, Eq)]
pub struct Full;

/// What a decision found: that no assignment makes the edge true, an assignment that does, or neither within the store's
/// budget.
#[derive(Clone, Copy, Debug, PartialEq, Eq)]
pub enum Decision {
    Never,
    Sometimes,
    Spent,
}

impl Edge {
    /// The edge of this node that is not complemented.
    pub fn regular(node: u32) -> Edge
        requires { node < 2 ^ 31 }
        ensures { result.number ≡ 2 * node }
    {
        Edge { number: 2 * node }
    }

    /// The number of the edge's node.
    pub fn node(self) -> u32
        ensures { result ≡ node_of self }
    {
        self.number / 2
    }

    /// Whether the edge is complemented.
    pub fn is_complemented(self) -> bool
        ensures { result ≡ is_flipped self }
    {
        self.number % 2 == 1
    }

    /// The other edge of the same node.
    pub fn complement(self) -> Edge
        ensures node { node_of result ≡ node_of self }
        ensures parity { result.number % 2 + self.number % 2 ≡ 1 }
        ensures truth { (values : List Bool) → truth_at values result ≡ not (truth_at values self) }
    {
        if self.number % 2 == 0 {
            Edge {
                number: self.number + 1,
            }
        } else {
            Edge {
                number: self.number - 1,
            }
        }
    }

    /// This edge, or its complement where the flag is set.
    pub fn flipped_if(self, flag: bool) -> Edge
        ensures node { node_of result ≡ node_of self }
        ensures plain { flag ≡ false → result ≡ self }
        ensures parity { flag ≡ true → result.number % 2 + self.number % 2 ≡ 1 }
        ensures truth { (values : List Bool) → truth_at values result ≡ xor flag (truth_at values self) }
    {
        if flag { self.complement() } else { self }
    }
}
