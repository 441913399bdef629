//! Walks from an edge down to the constant.

ghost use Rattle.std.specs.Prelude.{◌≡◌, ◌≢◌, ◌<◌, ℕ, Bool, true, length};
ghost use Rattle.bfr_store.specs.Edges.{node_of};
ghost use Rattle.gl_logic.specs.Assignments.{value_at};

use super::store::Bdd;
use bfr_store::Edge;
use gl_logic::Assignment;

impl Bdd {
    ghost use Rattle.bdd_store.specs.Nodes.{IsLive, truth_of};

    /// The truth of an edge under an assignment of the store's variables.
    pub(crate) fn evaluate(&self, e: Edge, a: &Assignment) -> bool
        requires live { IsLive self.now e }
        requires width { length a.now ≡ self.now.width }
        ensures { result ≡ truth_of self.now.nodes e (value_at a.now) }
    {
        // Read for what it tells of the nodes: they are in order, and no two are equal.
        let _width = self.width_of();
        let mut at = e;
        while at.node() != 0 {
            let variable = self.top(at);
            let (high, low) = self.branches(at, variable);
            at = if a.get(variable) { high } else { low };
        }
        !at.is_complemented()
    }

    /// Leaves an assignment that makes the edge true, which is not the constant false. No way down leads to the constant
    /// false alone, since the edges of a node differ.
    pub(crate) fn satisfy(&self, e: Edge, out: &mut Assignment)
        requires live { IsLive self.now e }
        requires other { e.number ≢ 1 }
        requires width { length out.old ≡ self.now.width }
        ensures truth { truth_of self.now.nodes e (value_at out.new) ≡ true }
        ensures bits { length out.new ≡ length out.old }
    {
        // Read for what it tells of the nodes: they are in order, and no two are equal.
        let _width = self.width_of();
        let mut at = e;
        while at.node() != 0 {
            let variable = self.top(at);
            let (high, low) = self.branches(at, variable);
            let holds = high.number != 1;
            out.set(variable, holds);
            at = if holds { high } else { low };
        }
    }
}
