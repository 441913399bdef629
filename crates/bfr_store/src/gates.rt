//! Gates over any store, proved from the trait alone. They work out constants, equal edges and complements before they call
//! the store.

ghost use Rattle.std.specs.Prelude.{◌≡◌, ℕ, Bool, ◌&&◌, ◌||◌, cond, IsTrue};
ghost use Rattle.bfr_store.specs.Edges.{xor};
ghost use Rattle.bfr_store.specs.Keeps.{Makes};

use super::bits::Bits;
use super::edge::{Edge, Full};

/// Whether the edge is that of the constant `b`.
pub fn is_constant<B: Bits>(store: &B, x: Edge, b: bool) -> bool
    ensures { IsTrue result → (a : ℕ → Bool) → B.truth_of store.now x a ≡ b }
{
    x == store.constant(b)
}

/// The function that is true where both are. `Full` as for `Bits::and`.
pub fn both<B: Bits>(store: &mut B, x: Edge, y: Edge) -> Result<Edge, Full>
    requires x { B.live store.old x }
    requires y { B.live store.old y }
    ensures makes { Makes B.Meaning store.old store.new result (λ a. B.truth_of store.old x a && B.truth_of store.old y a) }
{
    if is_constant(store, x, false) || x == y || is_constant(store, y, true) {
        return Ok(x);
    }
    if is_constant(store, y, false) || is_constant(store, x, true) {
        return Ok(y);
    }
    if x == store.not(y) {
        return Ok(store.constant(false));
    }
    store.and(x, y)
}

/// The function that is true where at least one of the two is. `Full` as for `Bits::and`.
pub fn either<B: Bits>(store: &mut B, x: Edge, y: Edge) -> Result<Edge, Full>
    requires x { B.live store.old x }
    requires y { B.live store.old y }
    ensures makes { Makes B.Meaning store.old store.new result (λ a. B.truth_of store.old x a || B.truth_of store.old y a) }
{
    let neither = both(store, store.not(x), store.not(y))?;
    Ok(store.not(neither))
}

/// The function that is `x` where `t` is true, and `y` elsewhere. `Full` as for `Bits::ite`.
pub fn choose<B: Bits>(store: &mut B, t: Edge, x: Edge, y: Edge) -> Result<Edge, Full>
    requires t { B.live store.old t }
    requires x { B.live store.old x }
    requires y { B.live store.old y }
    ensures makes { Makes B.Meaning store.old store.new result (λ a. cond (B.truth_of store.old t a) (B.truth_of store.old x a) (B.truth_of store.old y a)) }
{
    if is_constant(store, t, true) || x == y {
        Ok(x)
    } else if is_constant(store, t, false) {
        Ok(y)
    } else if is_constant(store, x, true) || x == t {
        either(store, t, y)
    } else if is_constant(store, y, false) || y == t {
        both(store, t, x)
    } else if is_constant(store, x, false) {
        both(store, store.not(t), y)
    } else if is_constant(store, y, true) {
        either(store, store.not(t), x)
    } else {
        store.ite(t, x, y)
    }
}

/// The function that is true where exactly one of the two is. `Full` as for `Bits::ite`.
pub fn differ<B: Bits>(store: &mut B, x: Edge, y: Edge) -> Result<Edge, Full>
    requires x { B.live store.old x }
    requires y { B.live store.old y }
    ensures makes { Makes B.Meaning store.old store.new result (λ a. xor (B.truth_of store.old x a) (B.truth_of store.old y a)) }
{
    if x == y {
        return Ok(store.constant(false));
    }
    if x == store.not(y) {
        return Ok(store.constant(true));
    }
    let other = store.not(y);
    choose(store, x, other, y)
}
