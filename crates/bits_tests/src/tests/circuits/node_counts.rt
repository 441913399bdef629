//! How many nodes the calls on lists of bits take in a store of decision diagrams, beside textbook circuits, whose answers
//! are the same edges.

use super::integers::{check, integer_of};
use super::plain_circuits::{
    all_equal, barrel_shift, bit_of, floor_by_restoring, ripple_sum, rows_added, sign_of_difference,
};
use bdd_store::Bdd;
use bfr_store::{Bits, Bitvec};
use gl_logic::NoMemory;
use std::alloc::Global;
use std::process::Abort;
use std::test::Fail;
use sym_bits::{add, floor_mod, less, same, shift, times};

/// A call, the widths of its two integers, how many nodes it adds to those of the variables, and how many a textbook
/// circuit does. The variables of two integers of one width stand in turn, the signs first; those of a count of places
/// stand before the integer's.
const ROWS: [(&str, u32, u32, u32, u32); 14] = [
    ("add", 16, 16, 95, 126),
    ("add", 32, 32, 191, 254),
    ("add", 64, 64, 383, 510),
    ("less", 16, 16, 62, 126),
    ("less", 32, 32, 126, 254),
    ("less", 64, 64, 254, 510),
    ("same", 16, 16, 61, 61),
    ("same", 32, 32, 125, 125),
    ("same", 64, 64, 253, 253),
    ("times", 4, 4, 269, 583),
    ("times", 6, 6, 2_708, 7_053),
    ("times", 8, 8, 28_399, 80_111),
    ("floor_mod", 8, 8, 36_550, 53_673),
    ("shift", 32, 5, 196, 1_221),
];

/// The answer of a call, as one list or two.
fn called(
    rt: &impl Abort,
    store: &mut Bdd,
    call: &str,
    x: &Bitvec,
    y: &Bitvec,
) -> (Bitvec, Bitvec) {
    check(rt, store, x);
    check(rt, store, y);
    assert!(rt; x.len() <= 128 && y.len() <= 128);
    let none = Bitvec::of(&[store.constant(false)]);
    match call {
        "add" => (add(store, x, y).expect(rt, "add"), none),
        "less" => (Bitvec::of(&[less(store, x, y).expect(rt, "less")]), none),
        "same" => (Bitvec::of(&[same(store, x, y).expect(rt, "same")]), none),
        "times" => (times(store, x, y).expect(rt, "times"), none),
        "shift" => (shift(store, x, y).expect(rt, "shift").bits, none),
        _ => floor_mod(store, x, y).expect(rt, "floor_mod"),
    }
}

/// The answer of a textbook circuit.
fn by_circuit(
    rt: &impl Abort,
    store: &mut Bdd,
    call: &str,
    x: &Bitvec,
    y: &Bitvec,
) -> (Bitvec, Bitvec) {
    let none = Bitvec::of(&[store.constant(false)]);
    match call {
        "add" => (ripple_sum(rt, store, x, y), none),
        "less" => (Bitvec::of(&[sign_of_difference(rt, store, x, y)]), none),
        "same" => (Bitvec::of(&[all_equal(rt, store, x, y)]), none),
        "times" => (rows_added(rt, store, x, y), none),
        "shift" => (barrel_shift(rt, store, x, y), none),
        _ => floor_by_restoring(rt, store, x, y),
    }
}

/// Whether two lists have the same edges, the shorter one padded by its sign.
fn are_equal(x: &Bitvec, y: &Bitvec) -> bool {
    let mut equal = true;
    for k in 0..x.len().max(y.len()) {
        equal = equal && bit_of(x, k) == bit_of(y, k);
    }
    equal
}

/// An integer with its bits in the other order.
fn reversed(rt: &impl Abort, bits: &Bitvec) -> Bitvec {
    let last = bits.len() - 1;
    let mut turned = Bitvec::of(&[bits.at(last)]);
    for k in 0..last {
        assert!(rt; !turned.is_full());
        turned.push(bits.at(last - 1 - k));
    }
    turned
}

/// The two integers in a new store, with their variables in turn.
fn arguments(
    rt: &impl Abort,
    alloc: Global,
    m: u32,
    n: u32,
) -> Result<(Bdd, Bitvec, Bitvec), NoMemory> {
    let mut store = Bdd::new(alloc, 1_000_000)?;
    let (x, y) = if m == n {
        (
            reversed(rt, &integer_of(rt, &mut store, 0, 2, m)),
            reversed(rt, &integer_of(rt, &mut store, 1, 2, n)),
        )
    } else {
        let count = reversed(rt, &integer_of(rt, &mut store, 0, 1, n));
        (integer_of(rt, &mut store, n, 1, m), count)
    };
    Ok((store, x, y))
}

/// How many nodes there are beside those of the variables.
fn added(rt: &impl Abort, store: &Bdd, variables: u32) -> u32 {
    store
        .count()
        .checked_sub(variables)
        .expect(rt, "nodes are gone")
}

/// The nodes of a call and of a circuit, whose answers are the same edges.
fn counts(
    rt: &impl Abort,
    alloc: Global,
    call: &str,
    m: u32,
    n: u32,
) -> Result<(u32, u32), NoMemory> {
    let (mut plain, x, y) = arguments(rt, alloc, m, n)?;
    let variables = plain.count();
    let _ = by_circuit(rt, &mut plain, call, &x, &y);
    let by_textbook = added(rt, &plain, variables);
    let (mut store, x, y) = arguments(rt, alloc, m, n)?;
    let (first, second) = called(rt, &mut store, call, &x, &y);
    let by_call = added(rt, &store, variables);
    let (one, two) = by_circuit(rt, &mut store, call, &x, &y);
    assert!(rt;
        are_equal(&first, &one) && are_equal(&second, &two),
        "{call}: another answer"
    );
    Ok((by_call, by_textbook))
}

#[test]
fn nodes_of_calls(rt: HostRuntime) -> Result<(), Fail> {
    for (call, m, n, nodes, by_circuit) in &ROWS {
        let (count, plain) = counts(&rt, rt.alloc(), *call, *m, *n)?;
        assert!(rt;
            (count, plain) == (*nodes, *by_circuit),
            "{call} {m} {n}: {count} {plain}"
        );
    }
    Ok(())
}
