//! Conjunction and choice.

ghost use Rattle.std.specs.Prelude.{◌≡◌, ◌≢◌, ◌≤◌, ◌<◌, ◌+◌, ◌&&◌, ℕ, Bool, cond, min, length, IfOk, OnErr};
ghost use Rattle.bfr_store.specs.Edges.{node_of};

use super::node::{FALSE, Node};
use super::plan::{Plan, conjunction_of, plan_of};
use super::store::Bdd;
use bfr_store::{Edge, Full};

impl Bdd {
    ghost use Rattle.bdd_store.specs.Nodes.{IsHeld, IsLive, node_at, past, top_of, truth_of};
    ghost use Rattle.bdd_store.specs.Inside.{Extends, IsBranch};

    /// The number of this node, which is added where it is not there.
    pub(crate) fn number_of(&mut self, node: Node) -> Result<u32, Full>
        requires narrow { self.old.width ≤ past }
        requires branch { IsBranch self.old.nodes self.old.width (length self.old.nodes) node }
        ensures extends { Extends self.old self.new }
        ensures some { IfOk result (λ n. 0 < n) }
        ensures live { IfOk result (λ n. n < length self.new.nodes) }
        ensures node { IfOk result (λ n. node_at self.new.nodes n ≡ node) }
        ensures unchanged { OnErr result (self.new ≡ self.old) }
        ensures absent { OnErr result ((i : ℕ) → i < length self.old.nodes → node_at self.old.nodes i ≢ node) }
        ensures full { OnErr result (length self.new.nodes ≡ self.new.limit + 1) }
    {
        let limit = self.limit_of();
        if let Some(found) = self.find(node) {
            return Ok(found);
        }
        if self.len() > limit {
            return Err(Full);
        }
        Ok(self.push(node))
    }

    /// The edge that is `high` where the variable is true, and `low` elsewhere. Both are past the variable.
    pub(crate) fn branch(&mut self, variable: u32, high: Edge, low: Edge) -> Result<Edge, Full>
        requires high { IsLive self.old high }
        requires low { IsLive self.old low }
        requires above_high { variable < top_of self.old.nodes high }
        requires above_low { variable < top_of self.old.nodes low }
        requires in_width { variable < self.old.width }
        ensures extends { Extends self.old self.new }
        ensures live { IfOk result (λ r. IsLive self.new r) }
        ensures above { IfOk result (λ r. variable ≤ top_of self.new.nodes r) }
        ensures truth { IfOk result (λ r. (a : ℕ → Bool) → truth_of self.new.nodes r a ≡ cond (a variable) (truth_of self.old.nodes high a) (truth_of self.old.nodes low a)) }
        ensures unheld { OnErr result (¬ IsHeld self.new (λ a. cond (a variable) (truth_of self.old.nodes high a) (truth_of self.old.nodes low a))) }
        ensures full { OnErr result (length self.new.nodes ≡ self.new.limit + 1) }
    {
        // Read for what it tells of the nodes: they are in order, and no two are equal.
        let _width = self.width_of();
        if high.number == low.number {
            return Ok(high);
        }
        let flag = high.is_complemented();
        let node = Node {
            variable,
            high: high.flipped_if(flag),
            low: low.flipped_if(flag),
        };
        let number = self.number_of(node)?;
        Ok(self.edge_of(number).flipped_if(flag))
    }

    /// The edge that is true where both are.
    #[cycle(both)]
    pub(crate) fn both(&mut self, x: Edge, y: Edge) -> Result<Edge, Full>
        requires x { IsLive self.old x }
        requires y { IsLive self.old y }
        ensures extends { Extends self.old self.new }
        ensures live { IfOk result (λ r. IsLive self.new r) }
        ensures above { IfOk result (λ r. min (top_of self.old.nodes x) (top_of self.old.nodes y) ≤ top_of self.new.nodes r) }
        ensures truth { IfOk result (λ r. (a : ℕ → Bool) → truth_of self.new.nodes r a ≡ (truth_of self.old.nodes x a && truth_of self.old.nodes y a)) }
        ensures unheld { OnErr result (¬ IsHeld self.new (λ a. truth_of self.old.nodes x a && truth_of self.old.nodes y a)) }
        ensures full { OnErr result (length self.new.nodes ≡ self.new.limit + 1) }
    {
        // Read for what it tells of the nodes: they are in order, and no two are equal.
        let _width = self.width_of();
        if let Some(known) = conjunction_of(x, y) {
            return Ok(known);
        }
        if y.number < x.number {
            self.both_open(y, x)
        } else {
            self.both_open(x, y)
        }
    }

    /// The same, of edges that are no constants: a finished call's answer, or a branch at the first variable of the two.
    #[cycle(both)]
    fn both_open(&mut self, x: Edge, y: Edge) -> Result<Edge, Full>
        requires x { IsLive self.old x }
        requires y { IsLive self.old y }
        requires open { 0 < node_of x }
        ensures extends { Extends self.old self.new }
        ensures live { IfOk result (λ r. IsLive self.new r) }
        ensures above { IfOk result (λ r. min (top_of self.old.nodes x) (top_of self.old.nodes y) ≤ top_of self.new.nodes r) }
        ensures truth { IfOk result (λ r. (a : ℕ → Bool) → truth_of self.new.nodes r a ≡ (truth_of self.old.nodes x a && truth_of self.old.nodes y a)) }
        ensures unheld { OnErr result (¬ IsHeld self.new (λ a. truth_of self.old.nodes x a && truth_of self.old.nodes y a)) }
        ensures full { OnErr result (length self.new.nodes ≡ self.new.limit + 1) }
    {
        if let Some(found) = self.look(x, y, FALSE) {
            return Ok(found);
        }
        let variable = self.top(x).min(self.top(y));
        let (x_high, x_low) = self.branches(x, variable);
        let (y_high, y_low) = self.branches(y, variable);
        let high = self.both(x_high, y_high)?;
        let low = self.both(x_low, y_low)?;
        let answer = self.branch(variable, high, low)?;
        self.keep(x, y, FALSE, answer);
        Ok(answer)
    }

    /// The edge that is `x` where `t` is true, and `y` elsewhere.
    #[cycle(choose)]
    pub(crate) fn choose(&mut self, t: Edge, x: Edge, y: Edge) -> Result<Edge, Full>
        requires t { IsLive self.old t }
        requires x { IsLive self.old x }
        requires y { IsLive self.old y }
        ensures extends { Extends self.old self.new }
        ensures live { IfOk result (λ r. IsLive self.new r) }
        ensures above { IfOk result (λ r. min (top_of self.old.nodes t) (min (top_of self.old.nodes x) (top_of self.old.nodes y)) ≤ top_of self.new.nodes r) }
        ensures truth { IfOk result (λ r. (a : ℕ → Bool) → truth_of self.new.nodes r a ≡ cond (truth_of self.old.nodes t a) (truth_of self.old.nodes x a) (truth_of self.old.nodes y a)) }
        ensures unheld { OnErr result (¬ IsHeld self.new (λ a. cond (truth_of self.old.nodes t a) (truth_of self.old.nodes x a) (truth_of self.old.nodes y a))) }
        ensures full { OnErr result (length self.new.nodes ≡ self.new.limit + 1) }
    {
        // Read for what it tells of the nodes: they are in order, and no two are equal.
        let _width = self.width_of();
        match plan_of(t, x, y) {
            Plan::Known(known) => Ok(known),
            Plan::Both(u, v, flag) => Ok(self.both(u, v)?.flipped_if(flag)),
            Plan::Whole(s, u, v, flag) => Ok(self.choose_open(s, u, v)?.flipped_if(flag)),
        }
    }

    /// The same, of a test that is no constant: a finished call's answer, or a branch at the first variable of the three.
    #[cycle(choose)]
    fn choose_open(&mut self, t: Edge, x: Edge, y: Edge) -> Result<Edge, Full>
        requires t { IsLive self.old t }
        requires x { IsLive self.old x }
        requires y { IsLive self.old y }
        requires open { 0 < node_of t }
        ensures extends { Extends self.old self.new }
        ensures live { IfOk result (λ r. IsLive self.new r) }
        ensures above { IfOk result (λ r. min (top_of self.old.nodes t) (min (top_of self.old.nodes x) (top_of self.old.nodes y)) ≤ top_of self.new.nodes r) }
        ensures truth { IfOk result (λ r. (a : ℕ → Bool) → truth_of self.new.nodes r a ≡ cond (truth_of self.old.nodes t a) (truth_of self.old.nodes x a) (truth_of self.old.nodes y a)) }
        ensures unheld { OnErr result (¬ IsHeld self.new (λ a. cond (truth_of self.old.nodes t a) (truth_of self.old.nodes x a) (truth_of self.old.nodes y a))) }
        ensures full { OnErr result (length self.new.nodes ≡ self.new.limit + 1) }
    {
        if let Some(found) = self.look(t, x, y) {
            return Ok(found);
        }
        let variable = self.top(t).min(self.top(x).min(self.top(y)));
        let (t_high, t_low) = self.branches(t, variable);
        let (x_high, x_low) = self.branches(x, variable);
        let (y_high, y_low) = self.branches(y, variable);
        let high = self.choose(t_high, x_high, y_high)?;
        let low = self.choose(t_low, x_low, y_low)?;
        let answer = self.branch(variable, high, low)?;
        self.keep(t, x, y, answer);
        Ok(answer)
    }
}
