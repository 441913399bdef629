//! What no clause says: that calls succeed with ample memory and room, on long lists too.

ghost use Rattle.std.specs.Prelude.{◌<◌, length};

mod single;

ghost use Rattle.sym_objects.specs.Seen.{IsLive, IsWhole};

use self::single::{Single, high, low};
use bfr_store::{Bitvec, Edge, Meaning};
use gl_logic::{TextId, Tree};
use hons_arena::HonsArena;
use std::alloc::Global;
use std::process::Abort;
use sym_objects::{Sob, SobNode, Sobs};

/// How long the lists are.
const LENGTH: u32 = 100_000;

/// The store's variable.
const VARIABLE: Edge = Edge { number: 2 };

/// The list of so many integers before NIL, of which this one stands last.
fn list(rt: &impl Abort, alloc: Global, last: u32) -> Tree {
    let mut rest = Tree::symbol(TextId { number: 0 });
    for i in 0..LENGTH {
        let first = Tree::int(i128::from(last) + i128::from(i));
        rest = Tree::pair(alloc, first, rest).expect(rt, "no memory");
    }
    rest
}

/// The integer of the bits where the variable is so.
fn integer_where(rt: &impl Abort, bits: &Bitvec, side: bool) -> i128 {
    let mut value = 0i128;
    let mut digit = -1;
    for k in (0..bits.len()).rev() {
        let e = bits.at(k);
        let bit = if side { high(e) } else { low(e) };
        value = value.checked_mul(2).expect(rt, "twice");
        if bit {
            value = value.checked_add(digit).expect(rt, "and one");
        }
        digit = 1;
    }
    value
}

/// The integer of a node where the variable is so.
fn value_where(rt: &impl Abort, objs: &Sobs<Single>, s: Sob, side: bool) -> i128
    requires whole { IsWhole ⟦<Single as Meaning>⟧ objs.now }
    requires live { IsLive objs.now s }
{
    match objs.node_of(s) {
        SobNode::Integer => integer_where(rt, &objs.bits_of(s), side),
        _ => {
            assert!(rt; false, "no integer");
            0
        }
    }
}

/// Stops where the list is not that of these integers where the variable is so.
fn check_list(rt: &impl Abort, objs: &Sobs<Single>, whole: Sob, side: bool, last: u32)
    requires whole { IsWhole ⟦<Single as Meaning>⟧ objs.now }
    requires live { IsLive objs.now whole }
{
    let mut at = whole;
    for i in (0..LENGTH).rev() {
        match objs.node_of(at) {
            SobNode::Pair(first, rest) => {
                let value = value_where(rt, objs, first, side);
                assert!(rt; value == i128::from(last) + i128::from(i), "{i}");
                at = rest;
            }
            _ => assert!(rt; false, "no cons"),
        }
    }
}

#[test]
fn two_lists_under_one_variable(rt: HostRuntime) {
    let alloc = rt.alloc();
    let mut arena = HonsArena::new(alloc, 1_000_000).expect(&rt, "no memory");
    let store = Single { limit: 0 };
    let mut objs = Sobs::new(alloc, store, 2_000_000).expect(&rt, "no memory");
    let tree = list(&rt, alloc, 0);
    let id = arena.place(&tree).expect(&rt, "no room");
    let first = objs.constant(alloc, &arena, id).expect(&rt, "no room");
    assert!(rt; objs.is_constant(first));
    let back = objs
        .to_arena(alloc, first, &mut arena)
        .expect(&rt, "no room");
    assert!(rt; back == id);
    let tree = list(&rt, alloc, 1_000_000);
    let other = arena.place(&tree).expect(&rt, "no room");
    let second = objs.constant(alloc, &arena, other).expect(&rt, "no room");
    let merged = objs
        .merge(alloc, VARIABLE, first, second)
        .expect(&rt, "no room");
    check_list(&rt, &objs, merged, true, 0);
    check_list(&rt, &objs, merged, false, 1_000_000);
    let truth = objs.truth(alloc, merged).expect(&rt, "no room");
    assert!(rt; high(truth) && low(truth));
}
