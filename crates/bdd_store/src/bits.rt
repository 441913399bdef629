//! The store as a store of bit functions.

ghost use Rattle.std.specs.Prelude.{◌≡◌, ◌≢◌, ◌≤◌, ◌<◌, ◌+◌, ◌&&◌, ◌↔◌, ℕ, Bool, true, false, not, cond, max, is_ok, length, IsTrue, IfOk, IsOk, OnErr, if◌then◌else◌};
ghost use Rattle.bfr_store.specs.Keeps.{Makes, MakesVariable};
ghost use Rattle.gl_logic.specs.Assignments.{value_at};

use super::node::{FALSE, Node, TRUE};
use super::store::Bdd;
use bfr_store::{Bits, Decision, Edge, Full, Meaning};
use gl_logic::{Assignment, NoMemory};

impl Bdd {
    ghost use Rattle.bdd_store.specs.Nodes.{IsLive};

    /// Whether the edge names a function of this store.
    pub fn is_live(&self, e: Edge) -> bool
        ensures { IsTrue result ↔ IsLive self.now e }
    {
        e.node() < self.len()
    }
}

impl Meaning for Bdd {
    ghost use Rattle.std.specs.Prelude.{true, false};
    ghost use Rattle.bdd_store.specs.Nodes.{IsLive, constant_of, count_of as nodes_in, truth_of as truth_over};

    ghost live = { IsLive };

    ghost truth_of = { λ s e a. truth_over s.nodes e a };

    ghost constant_edge = { constant_of };

    ghost spent = { λ _. false };

    ghost budget_of = { λ s. 0 };

    ghost limit_of = { λ s. s.limit };

    ghost count_of = { nodes_in };

    ghost width_of = { λ s. s.width };
}

impl Bits for Bdd {
    ghost use Rattle.bdd_store.specs.Inside.{IsDistinct, IsOrdered};
    ghost use Rattle.bdd_store.specs.Canonical.{IsOnlyEdge};
    ghost use Rattle.bdd_store.specs.Nodes.{IsHeld, IsLive, constant_of, truth_of};

    // As the trait says, and no other live edge says the same.
    fn constant(&self, b: bool) -> Edge
        ensures edge { result ≡ constant_of b }
        ensures live { IsLive self.now result }
        ensures truth { (a : ℕ → Bool) → truth_of self.now.nodes result a ≡ b }
        ensures only { IsOnlyEdge self.now result }
    {
        // Read for what it tells of the nodes: they are in order, and no two are equal.
        let _width = self.width_of();
        if b { TRUE } else { FALSE }
    }

    // As the trait says, and no other live edge says the same.
    fn not(&self, x: Edge) -> Edge
        requires { IsLive self.now x }
        ensures live { IsLive self.now result }
        ensures truth { (a : ℕ → Bool) → truth_of self.now.nodes result a ≡ not (truth_of self.now.nodes x a) }
        ensures only { IsOnlyEdge self.now result }
    {
        // Read for what it tells of the nodes: they are in order, and no two are equal.
        let _width = self.width_of();
        x.complement()
    }

    // As the trait says, and no other live edge says the same. A function that is held already is found again in a full
    // store too, and over four variables a store with this much room is never full.
    fn var(&mut self, k: u32) -> Result<Edge, Full>
        requires { k < 4294967295 }
        ensures makes { MakesVariable ⟦<Bdd as Meaning>⟧ self.old self.new result k }
        ensures only { IfOk result (IsOnlyEdge self.new) }
        ensures unheld { OnErr result (¬ IsHeld self.new (λ a. a k)) }
        ensures room { self.old.width ≤ 4 → k < 4 → 65600 ≤ self.old.limit → IsOk result }
    {
        let limit = self.limit_of();
        let width = self.width_of();
        let node = Node {
            variable: k,
            high: TRUE,
            low: FALSE,
        };
        if let Some(found) = self.find(node) {
            return Ok(self.edge_of(found));
        }
        if self.len() > limit {
            return Err(Full);
        }
        self.widen(width.max(k + 1));
        let number = self.push(node);
        Ok(self.edge_of(number))
    }

    // As the trait says, and no other live edge says the same. A function that is held already is found again in a full
    // store too, and over four variables a store with this much room is never full.
    fn and(&mut self, x: Edge, y: Edge) -> Result<Edge, Full>
        requires x { IsLive self.old x }
        requires y { IsLive self.old y }
        ensures makes { Makes ⟦<Bdd as Meaning>⟧ self.old self.new result (λ a. truth_of self.old.nodes x a && truth_of self.old.nodes y a) }
        ensures only { IfOk result (IsOnlyEdge self.new) }
        ensures unheld { OnErr result (¬ IsHeld self.new (λ a. truth_of self.old.nodes x a && truth_of self.old.nodes y a)) }
        ensures room { self.old.width ≤ 4 → 65600 ≤ self.old.limit → IsOk result }
    {
        self.both(x, y)
    }

    // As the trait says, and no other live edge says the same. A function that is held already is found again in a full
    // store too, and over four variables a store with this much room is never full.
    fn ite(&mut self, t: Edge, x: Edge, y: Edge) -> Result<Edge, Full>
        requires t { IsLive self.old t }
        requires x { IsLive self.old x }
        requires y { IsLive self.old y }
        ensures makes { Makes ⟦<Bdd as Meaning>⟧ self.old self.new result (λ a. cond (truth_of self.old.nodes t a) (truth_of self.old.nodes x a) (truth_of self.old.nodes y a)) }
        ensures only { IfOk result (IsOnlyEdge self.new) }
        ensures unheld { OnErr result (¬ IsHeld self.new (λ a. cond (truth_of self.old.nodes t a) (truth_of self.old.nodes x a) (truth_of self.old.nodes y a))) }
        ensures room { self.old.width ≤ 4 → 65600 ≤ self.old.limit → IsOk result }
    {
        self.choose(t, x, y)
    }

    // As the trait says, and it always answers, Never or Sometimes.
    fn decide(&mut self, e: Edge, out: &mut Assignment) -> Result<Decision, NoMemory>
        requires live { IsLive self.old e }
        requires width { length out.old ≡ self.old.width }
        ensures same { self.new ≡ self.old }
        ensures answered { IsOk result }
        ensures never { result ≡ Ok Decision.Never → (a : ℕ → Bool) → truth_of self.new.nodes e a ≡ false }
        ensures sometimes { result ≡ Ok Decision.Sometimes → truth_of self.new.nodes e (value_at out.new) ≡ true }
        ensures never_spent { result ≢ Ok Decision.Spent }
        ensures bits { length out.new ≡ length out.old }
        ensures untouched { result ≢ Ok Decision.Sometimes → out.new ≡ out.old }
    {
        // Read for what it tells of the nodes: they are in order, and no two are equal.
        let _width = self.width_of();
        if e.number == 1 {
            return Ok(Decision::Never);
        }
        self.satisfy(e, out);
        Ok(Decision::Sometimes)
    }

    fn value(&mut self, e: Edge, a: &Assignment) -> bool {
        self.evaluate(e, a)
    }

    fn count(&self) -> u32 {
        self.len() - 1
    }

    fn limit(&self) -> u32 {
        self.limit_of()
    }

    // As the trait says, and the nodes test their variables in the order of their numbers, and no two are equal.
    fn width(&self) -> u32
        ensures width { result ≡ self.now.width }
        ensures depends { (e : Edge) (a b : ℕ → Bool) → IsLive self.now e → ((k : ℕ) → k < self.now.width → a k ≡ b k) → truth_of self.now.nodes e a ≡ truth_of self.now.nodes e b }
        ensures ordered { IsOrdered self.now.nodes self.now.width }
        ensures distinct { IsDistinct self.now.nodes }
    {
        self.width_of()
    }
}
