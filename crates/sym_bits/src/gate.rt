//! The gates of operations that go bit by bit.

ghost use Rattle.std.specs.Prelude.{◌≡◌, ℕ, Bool};
ghost use Rattle.bfr_store.specs.Keeps.{Makes};
ghost use Rattle.sym_bits.specs.Gates.{GateLive, gate_bit};

use bfr_store::{Bits, Edge, Full, both, choose, differ, either};

/// What is done with each pair of bits.
#[derive(Clone, Copy)]
pub enum Gate {
    And,
    Or,
    Xor,
    /// The first bit where the edge is true, and the second elsewhere.
    Choose(Edge),
}

/// The gate's answer for two bits. `Full` as for `Bits::and`.
pub fn apply<B: Bits>(store: &mut B, gate: Gate, x: Edge, y: Edge) -> Result<Edge, Full>
    requires gate { GateLive (B.live store.old) gate }
    requires x { B.live store.old x }
    requires y { B.live store.old y }
    ensures makes { Makes B.Meaning store.old store.new result (λ a. gate_bit (λ e. B.truth_of store.old e a) gate (B.truth_of store.old x a) (B.truth_of store.old y a)) }
{
    match gate {
        Gate::And => both(store, x, y),
        Gate::Or => either(store, x, y),
        Gate::Xor => differ(store, x, y),
        Gate::Choose(t) => choose(store, t, x, y),
    }
}
