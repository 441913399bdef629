//! What no clause says: that calls succeed with ample memory, what they answer on functions that are known from outside,
//! and that a new store costs little.

use super::gates::{complement, conjunction, variable};
use aig_store::{Aig, AigNode};
use bfr_store::Edge;
use gl_logic::Assignment;
use std::alloc::Global;
use std::process::Abort;

fn disjunction(rt: &impl Abort, store: &mut Aig, x: Edge, y: Edge) -> Edge {
    let not_x = complement(rt, store, x);
    let not_y = complement(rt, store, y);
    let neither = conjunction(rt, store, not_x, not_y);
    complement(rt, store, neither)
}

fn choice(rt: &impl Abort, store: &mut Aig, t: Edge, x: Edge, y: Edge) -> Edge {
    assert!(rt; store.is_live(t) && store.is_live(x) && store.is_live(y));
    store.ite(t, x, y).expect(rt, "no room for a choice")
}

/// Whether a truth table is true at a place.
fn is_true_at(table: u32, place: u32) -> bool {
    place < 32 && (table >> place) % 2 == 1
}

/// What an edge over three variables says at a place of its truth table.
fn value_at(rt: &impl Abort, alloc: Global, store: &mut Aig, e: Edge, place: u32) -> bool {
    let mut a = Assignment::new(alloc, 3).expect(rt, "no memory");
    a.set(0, place / 4 == 1);
    a.set(1, place / 2 % 2 == 1);
    a.set(2, place % 2 == 1);
    assert!(rt; store.width() == 3 && store.is_live(e));
    store.value(e, &a)
}

/// The truth table of a function of three variables, by its value under each assignment. The last variable is the one
/// that changes from place to place.
fn table_of(rt: &impl Abort, alloc: Global, store: &mut Aig, e: Edge) -> u32 {
    let mut table = 0u32;
    for place in 0..8u32 {
        if value_at(rt, alloc, store, e, place) {
            table |= 1 << place;
        }
    }
    table
}

/// What a truth table of three variables says where the first two are fixed: the part that begins at this place.
fn by_last(rt: &impl Abort, store: &mut Aig, table: u32, place: u32) -> Edge {
    assert!(rt; place < 8);
    let z = variable(rt, store, 2);
    let low = store.constant(is_true_at(table, place));
    let high = store.constant(is_true_at(table, place + 1));
    choice(rt, store, z, high, low)
}

/// The function of three variables with this truth table, by choices at the variables.
fn by_choices(rt: &impl Abort, store: &mut Aig, table: u32) -> Edge {
    let x = variable(rt, store, 0);
    let y = variable(rt, store, 1);
    let first = by_last(rt, store, table, 0);
    let second = by_last(rt, store, table, 2);
    let third = by_last(rt, store, table, 4);
    let fourth = by_last(rt, store, table, 6);
    let low = choice(rt, store, y, second, first);
    let high = choice(rt, store, y, fourth, third);
    choice(rt, store, x, high, low)
}

/// The variable, or its complement where the flag is not set.
fn literal(rt: &impl Abort, store: &mut Aig, k: u32, flag: bool) -> Edge {
    let v = variable(rt, store, k);
    if flag { v } else { complement(rt, store, v) }
}

/// The same, as a disjunction of the places where it is true.
fn by_places(rt: &impl Abort, store: &mut Aig, table: u32) -> Edge {
    let mut whole = store.constant(false);
    for place in 0..8u32 {
        if is_true_at(table, place) {
            let x = literal(rt, store, 0, place / 4 == 1);
            let y = literal(rt, store, 1, place / 2 % 2 == 1);
            let z = literal(rt, store, 2, place % 2 == 1);
            let both = conjunction(rt, store, x, y);
            let here = conjunction(rt, store, both, z);
            whole = disjunction(rt, store, whole, here);
        }
    }
    whole
}

#[test]
fn functions_of_three_variables(rt: HostRuntime) {
    let mut store = Aig::new(rt.alloc(), 10_000).expect(&rt, "no memory");
    for k in 0..3 {
        let _made = variable(&rt, &mut store, k);
    }
    for table in 0..256u32 {
        let one_way = by_choices(&rt, &mut store, table);
        let other_way = by_places(&rt, &mut store, table);
        let one_table = table_of(&rt, rt.alloc(), &mut store, one_way);
        let other_table = table_of(&rt, rt.alloc(), &mut store, other_way);
        assert!(rt; one_table == table && other_table == table, "{table}");
    }
}

/// The constant, equal and complement cases, and one conjunction in two orders.
#[test]
fn conjunctions(rt: HostRuntime) {
    let mut store = Aig::new(rt.alloc(), 1000).expect(&rt, "no memory");
    let always = store.constant(true);
    let never = store.constant(false);
    let x = variable(&rt, &mut store, 0);
    let y = variable(&rt, &mut store, 1);
    let not_x = complement(&rt, &store, x);
    let again = variable(&rt, &mut store, 0);
    assert!(rt; x == again && store.count() == 2 && store.width() == 2 && store.limit() == 1000);
    for (first, second, both) in [
        (x, always, x),
        (always, x, x),
        (x, never, never),
        (never, x, never),
        (x, x, x),
        (x, not_x, never),
        (not_x, x, never),
    ] {
        assert!(rt; conjunction(&rt, &mut store, first, second) == both);
    }
    assert!(rt; store.count() == 2);
    let one_way = conjunction(&rt, &mut store, x, y);
    let other_way = conjunction(&rt, &mut store, y, x);
    assert!(rt; one_way == other_way && store.count() == 3);
}

/// Compares the node of an edge, whether the edge is its complement, and the node's number.
fn check_parts(rt: &impl Abort, store: &Aig, e: Edge, node: AigNode, flips: bool, number: u32) {
    assert!(rt; store.is_live(e));
    let is_node = store.node_of(e) == node;
    assert!(rt; is_node && store.is_complemented(e) == flips && store.number_of(e) == number);
}

#[test]
fn parts_of_edges(rt: HostRuntime) {
    let mut store = Aig::new(rt.alloc(), 1000).expect(&rt, "no memory");
    let x = variable(&rt, &mut store, 0);
    let y = variable(&rt, &mut store, 7);
    let not_y = complement(&rt, &store, y);
    let both = conjunction(&rt, &mut store, not_y, x);
    let e = complement(&rt, &store, both);
    check_parts(&rt, &store, e, AigNode::And(x, not_y), true, 3);
    check_parts(&rt, &store, not_y, AigNode::Var(7), true, 2);
    let never = store.constant(false);
    check_parts(&rt, &store, never, AigNode::Constant, true, 0);
}

/// A full store still answers what it holds.
#[test]
fn limit_reached(rt: HostRuntime) {
    let mut store = Aig::new(rt.alloc(), 4).expect(&rt, "no memory");
    let x = variable(&rt, &mut store, 0);
    let y = variable(&rt, &mut store, 1);
    let z = variable(&rt, &mut store, 2);
    let both = conjunction(&rt, &mut store, x, y);
    assert!(rt; store.count() == 4 && store.is_live(both) && store.is_live(z));
    assert!(rt; store.and(both, z).is_err());
    assert!(rt; store.var(3).is_err());
    assert!(rt; store.width() == 3);
    assert!(rt; conjunction(&rt, &mut store, y, x) == both);
    assert!(rt; variable(&rt, &mut store, 2) == z);
    assert!(rt; table_of(&rt, rt.alloc(), &mut store, both) == 0b1100_0000);
}

/// What an edge says where no variable is true.
fn value_at_none(rt: &impl Abort, alloc: Global, store: &mut Aig, e: Edge) -> bool {
    assert!(rt; store.is_live(e));
    let a = Assignment::new(alloc, store.width()).expect(rt, "no memory");
    store.value(e, &a)
}

/// What an edge says where this variable alone is true.
fn value_at_one(rt: &impl Abort, alloc: Global, store: &mut Aig, e: Edge, k: u32) -> bool {
    let width = store.width();
    assert!(rt; store.is_live(e) && k < width);
    let mut a = Assignment::new(alloc, width).expect(rt, "no memory");
    a.set(k, true);
    store.value(e, &a)
}

/// A conjunction as deep as it has variables: the walk takes no stack of calls, and the table of nodes grows.
#[test]
fn deep_conjunction(rt: HostRuntime) {
    let mut store = Aig::new(rt.alloc(), 300_000).expect(&rt, "no memory");
    let mut none = store.constant(true);
    for k in 0..100_000u32 {
        let v = literal(&rt, &mut store, k, false);
        none = conjunction(&rt, &mut store, v, none);
    }
    assert!(rt; store.count() == 199_999);
    assert!(rt; value_at_none(&rt, rt.alloc(), &mut store, none));
    for k in [0, 50_000, 99_999] {
        assert!(rt; !value_at_one(&rt, rt.alloc(), &mut store, none, k), "{k}");
    }
}

/// A new store costs nothing in proportion to its limit.
#[test]
fn large_limits(rt: HostRuntime) {
    for _ in 0..1000 {
        let mut store = Aig::new(rt.alloc(), 4_000_000).expect(&rt, "no memory");
        let x = variable(&rt, &mut store, 0);
        assert!(rt; value_at_one(&rt, rt.alloc(), &mut store, x, 0));
    }
}
