//! The sum of three bits.

ghost use Rattle.std.specs.Prelude.{◌≡◌, ℕ, Bool, IfOk, OnErr};
ghost use Rattle.bfr_store.specs.Edges.{xor};
ghost use Rattle.bfr_store.specs.Keeps.{Keeps};
ghost use Rattle.sym_bits.specs.Columns.{majority};

use bfr_store::{Bits, Edge, Full, choose, differ};

/// The sum of three bits, and what they carry. `Full` as for `Bits::ite`.
pub fn full_add<B: Bits>(store: &mut B, x: Edge, y: Edge, carry: Edge) -> Result<(Edge, Edge), Full>
    requires x { B.live store.old x }
    requires y { B.live store.old y }
    requires carry { B.live store.old carry }
    ensures keeps { Keeps B.Meaning store.old store.new }
    ensures live { IfOk result (λ r. B.live store.new r.0 × B.live store.new r.1) }
    ensures sum { IfOk result (λ r. (a : ℕ → Bool) → B.truth_of store.new r.0 a ≡ xor (xor (B.truth_of store.old x a) (B.truth_of store.old y a)) (B.truth_of store.old carry a)) }
    ensures carry { IfOk result (λ r. (a : ℕ → Bool) → B.truth_of store.new r.1 a ≡ majority (B.truth_of store.old x a) (B.truth_of store.old y a) (B.truth_of store.old carry a)) }
    ensures full { OnErr result (B.count_of store.new ≡ B.limit_of store.new) }
{
    let half = differ(store, x, y)?;
    let sum = differ(store, half, carry)?;
    let over = choose(store, half, carry, x)?;
    Ok((sum, over))
}
