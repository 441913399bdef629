//! A function by the first variable that it depends on.

ghost use Rattle.std.specs.Prelude.{◌≡◌, ℕ, Bool, not, IfSome, IfNone};
ghost use Rattle.bfr_store.specs.Edges.{is_flipped, node_of};

use super::store::Bdd;
use bfr_store::Edge;

/// The first variable that a function depends on, and what the function is where that variable is true, and elsewhere.
#[derive(Clone, Copy, Debug, PartialEq, Eq)]
pub struct Test {
    pub variable: u32,
    pub high: Edge,
    pub low: Edge,
}

impl Bdd {
    ghost use Rattle.bdd_store.specs.Nodes.{IsLive, truth_of};
    ghost use Rattle.bdd_store.specs.Tests.{IsTest};

    /// A function by the first variable that it depends on. None where it depends on none: where it is always true, or always
    /// false.
    pub fn test_of(&self, e: Edge) -> Option<Test>
        requires live { IsLive self.now e }
        ensures constant { IfNone result (node_of e ≡ 0) }
        ensures always { IfNone result ((a : ℕ → Bool) → truth_of self.now.nodes e a ≡ not (is_flipped e)) }
        ensures test { IfSome result (IsTest self.now e) }
    {
        let node = self.node_of(e);
        if e.node() == 0 {
            return None;
        }
        let flag = e.is_complemented();
        Some(Test {
            variable: node.variable,
            high: node.high.flipped_if(flag),
            low: node.low.flipped_if(flag),
        })
    }
}
