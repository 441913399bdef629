//! What no clause says: that a vector of parameters is found with ample room and memory, what it makes of each assignment of
//! two variables, and that the bits which a function leaves no choice are constants or copies of another one.

ghost use Rattle.bdd_store.specs.Nodes.{IsLive};

use bdd_param::{Edges, ParamFault, parametrise};
use bdd_store::Bdd;
use bfr_store::{Bits, Edge};
use gl_logic::Assignment;
use std::alloc::Global;
use std::process::Abort;

/// A variable of a store that has room for it.
fn variable(rt: &impl Abort, store: &mut Bdd, k: u32) -> Edge {
    assert!(rt; k < 1024);
    store.var(k).expect(rt, "no room for a variable")
}

/// The first variable or the second one.
fn either(rt: &impl Abort, store: &mut Bdd) -> Edge {
    let x = variable(rt, store, 0);
    let y = variable(rt, store, 1);
    assert!(rt; store.is_live(x) && store.is_live(y));
    bfr_store::either(store, x, y).expect(rt, "no room for a disjunction")
}

/// The parameters of a function of the store's variables.
fn parameters(alloc: Global, store: &mut Bdd, hyp: Edge) -> Result<Edges, ParamFault>
    requires live { IsLive store.old hyp }
{
    let width = store.width();
    parametrise(alloc, store, hyp, width)
}

/// The truths of two edges where two variables are so.
fn through(
    rt: &impl Abort,
    alloc: Global,
    store: &mut Bdd,
    edges: &[Edge],
    at: (bool, bool),
) -> (bool, bool) {
    assert!(rt; edges.len() == 2 && store.width() == 2);
    let mut a = Assignment::new(alloc, 2).expect(rt, "no memory");
    a.set(0, at.0);
    a.set(1, at.1);
    assert!(rt; store.is_live(edges[0]) && store.is_live(edges[1]));
    let first = store.value(edges[0], &a);
    (first, store.value(edges[1], &a))
}

#[test]
fn three_assignments_of_four_stay(rt: HostRuntime) {
    let mut store = Bdd::new(rt.alloc(), 100).expect(&rt, "no memory");
    let hyp = either(&rt, &mut store);
    assert!(rt; store.is_live(hyp));
    let vector = parameters(rt.alloc(), &mut store, hyp).expect(&rt, "no parameters");
    let edges = vector.as_slice();
    for at in [(true, true), (true, false), (false, true)] {
        assert!(rt;
            through(&rt, rt.alloc(), &mut store, edges, at) == at,
            "{at:?}"
        );
    }
    let moved = through(&rt, rt.alloc(), &mut store, edges, (false, false));
    assert!(rt; moved.0 || moved.1);
}

#[test]
fn functions_of_one_assignment_and_of_none(rt: HostRuntime) {
    let mut store = Bdd::new(rt.alloc(), 100).expect(&rt, "no memory");
    let hyp = either(&rt, &mut store);
    assert!(rt; store.is_live(hyp));
    let neither = store.not(hyp);
    assert!(rt; store.is_live(neither));
    let vector = parameters(rt.alloc(), &mut store, neither).expect(&rt, "no parameters");
    let never = store.constant(false);
    let mut wanted = Edges::new(rt.alloc());
    wanted.push(never).expect(&rt, "no memory");
    wanted.push(never).expect(&rt, "no memory");
    assert!(rt; vector.as_slice() == wanted.as_slice() && vector.len() == 2);
    assert!(rt; store.is_live(never));
    assert!(rt; parameters(rt.alloc(), &mut store, never).err() == Some(ParamFault::Empty));
}

#[test]
fn no_room_for_another_node(rt: HostRuntime) {
    let mut store = Bdd::new(rt.alloc(), 3).expect(&rt, "no memory");
    let hyp = either(&rt, &mut store);
    assert!(rt; store.count() == 3 && store.is_live(hyp));
    assert!(rt; parameters(rt.alloc(), &mut store, hyp).err() == Some(ParamFault::Full));
}

/// How many bits a number has.
const WIDTH: u32 = 65;

/// How many of them the function leaves free.
const FREE: u32 = 22;

/// The edge that the bits past the free ones are equal to: the sign of a signed number, or false.
fn rest(rt: &impl Abort, store: &mut Bdd, signed: bool) -> Edge {
    if signed {
        variable(rt, store, FREE)
    } else {
        store.constant(false)
    }
}

/// That this function holds, and that these two are equal.
fn and_equal(rt: &impl Abort, store: &mut Bdd, hyp: Edge, x: Edge, y: Edge) -> Edge {
    assert!(rt; store.is_live(x) && store.is_live(y));
    let differ = bfr_store::differ(store, x, y).expect(rt, "no room for an exclusive or");
    assert!(rt; store.is_live(hyp) && store.is_live(differ));
    let equal = store.not(differ);
    assert!(rt; store.is_live(hyp) && store.is_live(equal));
    store
        .and(hyp, equal)
        .expect(rt, "no room for a conjunction")
}

/// That the number of the variables has so few bits.
fn few_bits(rt: &impl Abort, store: &mut Bdd, signed: bool) -> Edge {
    let mut hyp = store.constant(true);
    for k in FREE..WIDTH {
        let bit = variable(rt, store, k);
        let rest = rest(rt, store, signed);
        hyp = and_equal(rt, store, hyp, bit, rest);
    }
    hyp
}

/// The variables of the free bits, and that edge for each later one.
fn narrowed(rt: &impl Abort, alloc: Global, store: &mut Bdd, signed: bool) -> Edges {
    let mut edges = Edges::new(alloc);
    for k in 0..WIDTH {
        let edge = if k < FREE {
            variable(rt, store, k)
        } else {
            rest(rt, store, signed)
        };
        edges.push(edge).expect(rt, "no memory");
    }
    edges
}

/// Tries that the function leaves the bits so.
fn try_narrowed(rt: &impl Abort, alloc: Global, signed: bool) {
    let mut store = Bdd::new(alloc, 10_000).expect(rt, "no memory");
    let wanted = narrowed(rt, alloc, &mut store, signed);
    let hyp = few_bits(rt, &mut store, signed);
    assert!(rt; store.is_live(hyp) && store.width() == WIDTH);
    let edges = parameters(alloc, &mut store, hyp).expect(rt, "no parameters");
    assert!(rt; edges.as_slice() == wanted.as_slice());
}

#[test]
fn narrowed_bits_are_constants_or_copies(rt: HostRuntime) {
    try_narrowed(&rt, rt.alloc(), false);
    try_narrowed(&rt, rt.alloc(), true);
}
