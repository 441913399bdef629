//! Integers whose bits are variables of a store of decision diagrams.

ghost use Rattle.sym_bits.specs.Integers.{AllLive};

use bdd_store::Bdd;
use bfr_store::{Bits, Bitvec, Edge, Meaning};
use std::process::Abort;

/// Stops where an edge of the list is not one of the store's.
pub fn check(rt: &impl Abort, store: &Bdd, bits: &Bitvec)
    ensures { AllLive ⟦<Bdd as Meaning>⟧ store.now bits.now }
{
    for k in 0..bits.len() {
        assert!(rt; store.is_live(bits.at(k)));
    }
}

/// A variable of the store.
pub fn variable(rt: &impl Abort, store: &mut Bdd, k: u32) -> Edge {
    assert!(rt; k < 1024);
    store.var(k).expect(rt, "no room for a variable")
}

/// The integer with so many bits, the lowest one the first of these variables, each other one so many behind the one
/// before it.
pub fn integer_of(rt: &impl Abort, store: &mut Bdd, first: u32, step: u32, width: u32) -> Bitvec {
    let mut bits = Bitvec::of(&[variable(rt, store, first)]);
    let mut place = first;
    for _ in 1..width {
        place = place.checked_add(step).expect(rt, "a variable's number");
        assert!(rt; !bits.is_full());
        bits.push(variable(rt, store, place));
    }
    bits
}
