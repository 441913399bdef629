//! Calls on graphs that succeed, or else end the test.

use aig_store::Aig;
use bfr_store::Edge;
use std::process::Abort;

/// The variable `k`, with room for it.
pub fn variable(rt: &impl Abort, store: &mut Aig, k: u32) -> Edge {
    assert!(rt; k < 1_000_000);
    store.var(k).expect(rt, "no room for a variable")
}

/// The conjunction of two live edges, with room for it.
pub fn conjunction(rt: &impl Abort, store: &mut Aig, x: Edge, y: Edge) -> Edge {
    assert!(rt; store.is_live(x) && store.is_live(y));
    store.and(x, y).expect(rt, "no room for a conjunction")
}

/// The complement of a live edge.
pub fn complement(rt: &impl Abort, store: &Aig, x: Edge) -> Edge {
    assert!(rt; store.is_live(x));
    store.not(x)
}
