//! The trait of stores of bit functions.

ghost use Rattle.std.specs.Prelude.{◌≡◌, ◌≢◌, ◌≤◌, ◌<◌, ◌↔◌, ◌&&◌, ℕ, Bool, true, false, not, cond, length, IsTrue, OnErr};
ghost use Rattle.bfr_store.specs.Keeps.{Grows, Keeps, Makes, MakesVariable};
ghost use Rattle.gl_logic.specs.Assignments.{value_at};

use super::edge::{Decision, Edge, Full};
use super::meaning::Meaning;
use gl_logic::{Assignment, NoMemory};

/// A store of functions from assignments to truth values.
///
/// An assignment gives a truth value to each variable 0, 1, 2 and so on. What an edge stands for never changes while
/// it is live, and a live edge stays live. Room for the nodes is reserved when a store is made, so a call that would
/// need more nodes than the limit allows answers `Full`, and never that memory was refused.
pub trait Bits: Meaning {
    /// The function that is always `b`.
    fn constant(&self, b: bool) -> Edge
        ensures edge { result ≡ Self.constant_edge b }
        ensures live { Self.live self.now result }
        ensures truth { (a : ℕ → Bool) → Self.truth_of self.now result a ≡ b };

    /// The complement of a function.
    fn not(&self, x: Edge) -> Edge
        requires { Self.live self.now x }
        ensures live { Self.live self.now result }
        ensures truth { (a : ℕ → Bool) → Self.truth_of self.now result a ≡ not (Self.truth_of self.now x a) };

    /// The function that is what the assignment gives to variable `k`. `Full` comes only where the count has reached
    /// the limit.
    fn var(&mut self, k: u32) -> Result<Edge, Full>
        requires { k < 4294967295 }
        ensures makes { MakesVariable Self.Meaning self.old self.new result k };

    /// The function that is true where both are. `Full` comes only where the count has reached the limit; nodes that
    /// were added before stay.
    fn and(&mut self, x: Edge, y: Edge) -> Result<Edge, Full>
        requires x { Self.live self.old x }
        requires y { Self.live self.old y }
        ensures makes { Makes Self.Meaning self.old self.new result (λ a. Self.truth_of self.old x a && Self.truth_of self.old y a) };

    /// The function that is `x` where `t` is true, and `y` elsewhere. `Full` as for `and`.
    fn ite(&mut self, t: Edge, x: Edge, y: Edge) -> Result<Edge, Full>
        requires t { Self.live self.old t }
        requires x { Self.live self.old x }
        requires y { Self.live self.old y }
        ensures makes { Makes Self.Meaning self.old self.new result (λ a. cond (Self.truth_of self.old t a) (Self.truth_of self.old x a) (Self.truth_of self.old y a)) };

    /// Whether some assignment makes the function true. `Sometimes` leaves such an assignment in `out`, whose length
    /// stays; any other answer leaves `out` as it was. `Spent` comes where the store gave up within a bound of its own.
    fn decide(&mut self, e: Edge, out: &mut Assignment) -> Result<Decision, NoMemory>
        requires live { Self.live self.old e }
        requires width { length out.old ≡ Self.width_of self.old }
        ensures grows { Grows Self.Meaning self.old self.new }
        ensures width { Self.width_of self.new ≡ Self.width_of self.old }
        ensures never { result ≡ Ok Decision.Never → (a : ℕ → Bool) → Self.truth_of self.new e a ≡ false }
        ensures sometimes { result ≡ Ok Decision.Sometimes → Self.truth_of self.new e (value_at out.new) ≡ true }
        ensures spent { IsTrue (Self.spent self.new) ↔ (result ≡ Ok Decision.Spent) }
        ensures bits { length out.new ≡ length out.old }
        ensures untouched { result ≢ Ok Decision.Sometimes → out.new ≡ out.old }
        ensures refused { OnErr result (Self.count_of self.new ≡ Self.count_of self.old) };

    /// The truth of a function under this assignment. It adds no node and takes no memory.
    fn value(&mut self, e: Edge, a: &Assignment) -> bool
        requires live { Self.live self.old e }
        requires width { length a.now ≡ Self.width_of self.old }
        ensures keeps { Keeps Self.Meaning self.old self.new }
        ensures count { Self.count_of self.new ≡ Self.count_of self.old }
        ensures truth { result ≡ Self.truth_of self.old e (value_at a.now) };

    /// How many nodes there are.
    fn count(&self) -> u32
        ensures count { result ≡ Self.count_of self.now }
        ensures within { result ≤ Self.limit_of self.now };

    /// How many nodes there may be.
    fn limit(&self) -> u32
        ensures { result ≡ Self.limit_of self.now };

    /// One more than the greatest variable that was made, or 0 where there is none. What a live edge says depends on
    /// the variables below it alone.
    fn width(&self) -> u32
        ensures width { result ≡ Self.width_of self.now }
        ensures depends { (e : Edge) (a b : ℕ → Bool) → Self.live self.now e → ((k : ℕ) → k < Self.width_of self.now → a k ≡ b k) → Self.truth_of self.now e a ≡ Self.truth_of self.now e b };
}
